/// Marks of a trace.
pub const MOST_MARKS: u32 = 256;
/// Conjuncts of a path.
pub const MOST_CONJUNCTS: u32 = 200;
/// Atoms of a path.
pub const MOST_ATOMS: u32 = 64;
/// Variables of a path.
pub const MOST_VARIABLES: u32 = 8_192;
/// Entries and drops of a table, together.
pub const MOST_ROWS: u32 = 129;
/// Monomials of a polynomial.
pub const MOST_MONOMIALS: u32 = 16;
/// Variables of a monomial.
pub const MOST_DEGREE: u32 = 4;
