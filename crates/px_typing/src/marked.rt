use px_syntax::ParsedItem;

/// An item, and whether an item before it defines what it defines.
#[derive(Clone, Copy)]
pub struct MarkedItem<'a> {
    pub item: &'a ParsedItem,
    pub duplicate: bool,
}

/// An item, and the word that says why it is left out, if it is.
#[derive(Clone, Copy)]
pub struct JudgedItem<'a> {
    pub item: &'a ParsedItem,
    pub word: Option<&'a [u8]>,
}
