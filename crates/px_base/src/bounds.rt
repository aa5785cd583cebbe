/// How many parameters a procedure has at most.
pub const MOST_PARAMETERS: usize = 16;
