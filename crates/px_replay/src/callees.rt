use px_syntax::Program;

/// The procedures that calls go to, and how deep calls may still nest. A loop makes no more turns than that.
#[derive(Clone, Copy)]
pub struct Callees<'a> {
    pub program: &'a Program,
    pub depth: usize,
}
