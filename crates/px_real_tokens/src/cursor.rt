ghost use Rattle.std.specs.Prelude.{◌≡◌, ◌+◌, ◌^◌, ◌<◌, length};
ghost use Rattle.px_real_tokens.specs.Cursors.{cursor_next, cursor_after, cursor_site};

use px_base::Site;

// The line and the column of the next byte, from 1.
#[derive(Clone, Copy)]
pub struct Cursor {
    pub line: usize,
    pub column: usize,
}

// After one more byte.
fn cursor_next(cursor: Cursor, byte: u8) -> Cursor
    requires line { cursor.line + 1 < 2 ^ 64 }
    requires column { cursor.column + 1 < 2 ^ 64 }
    ensures { result ≡ cursor_next cursor byte }
{
    if byte == b'\n' {
        Cursor {
            line: cursor.line + 1,
            column: 1,
        }
    } else {
        Cursor {
            line: cursor.line,
            column: cursor.column + 1,
        }
    }
}

// After these bytes, too.
pub fn cursor_after(cursor: Cursor, bytes: &[u8]) -> Cursor
    requires line { cursor.line + length bytes.now < 2 ^ 64 }
    requires column { cursor.column + length bytes.now + 1 < 2 ^ 64 }
    ensures { result ≡ cursor_after cursor bytes.now }
{
    let mut after = cursor;
    for byte in bytes {
        after = cursor_next(after, *byte);
    }
    after
}

// The site of the next byte in a file with this number.
pub fn cursor_site(file: u32, cursor: Cursor) -> Site
    requires line { cursor.line < 2 ^ 32 }
    requires column { cursor.column < 2 ^ 32 }
    ensures { result ≡ cursor_site file cursor }
{
    Site {
        file,
        line: cursor.line as u32,
        column: cursor.column as u32,
    }
}
