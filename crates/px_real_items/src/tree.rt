use px_real_blocks::Statement;
use px_real_cutting::Item;
use px_real_declaring::Declaration;
use px_real_members::Head;

/// What a file declares or defines (C11 6.9).
#[derive(Drop)]
pub enum External {
    /// What is held in it is numbered as the tokens before its semicolon are.
    Declaration(Declaration),
    /// A function. What is held in its head is numbered as its tokens are, and what is held in its body as those from the brace on that
    /// begins it, which has the number `start`.
    Function {
        head: Head,
        start: usize,
        body: Vec<Statement>,
    },
}

/// Why an item isn't read. The numbers are of tokens of it and for messages alone: no clause says at which one it is found.
#[derive(Clone, Copy, Debug, PartialEq, Eq)]
pub enum Unread {
    /// Nothing goes on with this token.
    Neither(usize),
    /// More stand within one another than are read, declarators or structs.
    Deep(usize),
}

/// An item of a file: its tokens, and what was read of them.
#[derive(Drop)]
pub struct FileItem {
    pub item: Item,
    pub read: Result<External, Unread>,
}
