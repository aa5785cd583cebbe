use px_base::Site;
use px_core::Command;

/// The part of a loop that is being done.
#[derive(Clone, Copy, Debug, PartialEq, Eq)]
pub enum Part {
    Head,
    Body,
    Step,
}

/// A loop that is open, and how often its body was begun since it was entered.
#[derive(Clone, Copy)]
pub struct OpenLoop<'a> {
    pub site: Site,
    pub head: &'a [Command],
    pub body: &'a [Command],
    pub step: &'a [Command],
    pub made: u32,
}

/// A piece of what is still to be done.
#[derive(Clone, Copy)]
pub enum Piece<'a> {
    /// These commands, in order.
    Commands(&'a [Command]),
    /// What follows the end of this part of a loop.
    End(Part, OpenLoop<'a>),
}
