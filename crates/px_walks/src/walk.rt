ghost use Rattle.std.specs.Prelude.{◌<◌, ◌^◌, length};

use crate::Piece;
use px_callgraph::State;
use px_calls::Call;

/// A place of a path: what is known there, the call that is going on, if one is, and what is still to be done of the
/// body.
#[derive(Drop)]
pub struct Walk<'a> {
    pub state: State,
    // In a box, since most walks are handed on with no call going on.
    pub(crate) call: Option<Box<Call<'a>>>,
    // The next piece stands last.
    pub(crate) control: Vec<Piece<'a>>,
    pub ghost few: { length state.atoms < 2 ^ 32 },
}
