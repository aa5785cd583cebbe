/// What may stand behind the last of several with commas between.
#[derive(Clone, Copy, PartialEq, Eq)]
pub enum Trailing {
    /// Nothing, as behind names.
    Nothing,
    /// A comma and `...`, as behind parameters.
    Dots,
    /// A comma, as behind enumerators.
    Comma,
}
