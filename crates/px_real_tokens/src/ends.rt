ghost use Rattle.std.specs.Prelude.{◌≡◌, ◌+◌, ◌<◌, ◌≤◌, false, length, IfSome};
ghost use Rattle.px_lexer.specs.Scanning.{comment_end};
ghost use Rattle.px_real_tokens.specs.Scanning.{quote_end, line_run};

// How many bytes there are up to the end of the comment, where its `/*` stands before them.
#[tactic(auto, unfolding(px_lexer::specs::Scanning::comment_end))]
pub fn comment_end(bytes: &[u8]) -> Option<usize>
    ensures exact { result ≡ comment_end false bytes.now }
    ensures within { IfSome result (λ n. (0 < n) × (n ≤ length bytes.now)) }
{
    let mut star = false;
    for (index, byte) in bytes.iter().enumerate() {
        if star && *byte == b'/' {
            return Some(index + 1);
        }
        star = *byte == b'*';
    }
    None
}

// How many bytes there are up to the closing quote, where the opening one stands before them.
#[tactic(auto, unfolding(crate::specs::Scanning::quote_end))]
pub fn quote_end(quote: u8, bytes: &[u8]) -> Option<usize>
    ensures exact { result ≡ quote_end quote false bytes.now }
    ensures within { IfSome result (λ n. (0 < n) × (n ≤ length bytes.now)) }
{
    let mut escaped = false;
    for (index, byte) in bytes.iter().enumerate() {
        if escaped {
            escaped = false;
            continue;
        }
        if *byte == b'\n' {
            return None;
        }
        if *byte == quote {
            return Some(index + 1);
        }
        escaped = *byte == b'\\';
    }
    None
}

// How many bytes the line has at the front. A line feed after a backslash doesn't end it.
#[tactic(auto, unfolding(crate::specs::Bytes::run_of))]
pub fn line_run(bytes: &[u8]) -> usize
    ensures exact { result ≡ line_run bytes.now }
    ensures within { result ≤ length bytes.now }
{
    let mut before = 0;
    for (index, byte) in bytes.iter().enumerate() {
        if *byte == b'\n' && before != b'\\' {
            return index;
        }
        before = *byte;
    }
    bytes.len()
}
