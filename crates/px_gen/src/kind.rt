ghost use Rattle.std.specs.Prelude.{◌≡◌};
ghost use Rattle.px_gen.specs.Procedures.{kind, constant, state_after_procedure};

use crate::draws::Draws;

/// What a procedure does.
#[derive(Clone, Copy, Debug, PartialEq, Eq)]
pub enum Kind {
    /// It writes to a new block, which may be null.
    Unchecked,
    /// It writes to a new block where there is one.
    Checked,
    /// It writes to a block of its own that it has freed.
    WritesFreed,
    /// It writes to the block that it was given and has freed.
    WritesGiven,
    /// It frees the block that it was given, where the number it was given is a certain one.
    FreesGiven,
    /// It gives a block of its own to an earlier procedure, the one with this number.
    Calls(u32),
}

/// The kind of the procedure with a number, and its constant.
pub fn draw_procedure(draws: &mut Draws, number: u32) -> (Kind, u32)
    ensures kind { result.0 ≡ kind number draws.old.state }
    ensures constant { result.1 ≡ constant draws.old.state }
    ensures state { draws.new.state ≡ state_after_procedure number draws.old.state }
{
    let first = draws.draw() % 6;
    let constant = draws.draw() % 100;
    let kind = match first {
        0 => Kind::Unchecked,
        2 => Kind::WritesFreed,
        3 => Kind::WritesGiven,
        4 => Kind::FreesGiven,
        5 if number > 0 => Kind::Calls(draws.draw() % number),
        _ => Kind::Checked,
    };
    (kind, constant)
}
