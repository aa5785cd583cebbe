ghost use Rattle.std.specs.Prelude.{◌≡◌, IfOk};
ghost use Rattle.px_core.specs.CommandTree.{command_tree};
ghost use Rattle.px_core.specs.Sizes.{command_size};
ghost use Rattle.px_spelling.specs.Reading.{Gives};
ghost use Rattle.px_body_spelling.specs.Commands.{plain_with};

use px_base::{FieldId, ProcId, Site};
use px_core::{Command, Comparison, Operand, Operator};
use px_spelling::{Wire, WireFault, read_items};
use px_terms::TypeId;
use std::alloc::Global;

// A command in which none stands, after its byte.
#[tactic(auto, unfolding(crate::specs::Commands::plain_with), using(px_core::proofs::CommandEquations::trees))]
pub(crate) fn read_plain(
    alloc: Global,
    tag: u8,
    bytes: &[u8],
) -> Result<(Command, &[u8]), WireFault>
    ensures reads { Gives (λ x. (command_tree x.0, x.1.now)) result (plain_with tag bytes.now) }
    ensures one { IfOk result (λ x. command_size (command_tree x.0) ≡ 1) }
{
    match tag {
        0 => {
            let (to, rest) = u32::read(alloc, bytes)?;
            let (op, rest) = Operator::read(alloc, rest)?;
            let (a, rest) = Operand::read(alloc, rest)?;
            let (b, rest) = Operand::read(alloc, rest)?;
            Ok((Command::Assign { to, op, a, b }, rest))
        }
        1 => {
            let (to, rest) = u32::read(alloc, bytes)?;
            Ok((Command::Unset { to }, rest))
        }
        2 => {
            let (slot, rest) = u32::read(alloc, bytes)?;
            let (site, rest) = Site::read(alloc, rest)?;
            Ok((Command::Read { slot, site }, rest))
        }
        3 => {
            let (to, rest) = u32::read(alloc, bytes)?;
            let (how, rest) = Comparison::read(alloc, rest)?;
            let (a, rest) = Operand::read(alloc, rest)?;
            let (b, rest) = Operand::read(alloc, rest)?;
            let (site, rest) = Site::read(alloc, rest)?;
            Ok((
                Command::Test {
                    to,
                    how,
                    a,
                    b,
                    site,
                },
                rest,
            ))
        }
        6 => Ok((Command::Leave, bytes)),
        7 => {
            let (to, rest) = u32::read(alloc, bytes)?;
            let (at, rest) = Operand::read(alloc, rest)?;
            let (field, rest) = FieldId::read(alloc, rest)?;
            let (block, rest) = TypeId::read(alloc, rest)?;
            let (site, rest) = Site::read(alloc, rest)?;
            Ok((
                Command::Load {
                    to,
                    at,
                    field,
                    block,
                    site,
                },
                rest,
            ))
        }
        8 => {
            let (at, rest) = Operand::read(alloc, bytes)?;
            let (field, rest) = FieldId::read(alloc, rest)?;
            let (block, rest) = TypeId::read(alloc, rest)?;
            let (from, rest) = Operand::read(alloc, rest)?;
            let (site, rest) = Site::read(alloc, rest)?;
            Ok((
                Command::Store {
                    at,
                    field,
                    block,
                    from,
                    site,
                },
                rest,
            ))
        }
        9 => {
            let (to, rest) = u32::read(alloc, bytes)?;
            let (block, rest) = TypeId::read(alloc, rest)?;
            let (site, rest) = Site::read(alloc, rest)?;
            Ok((Command::Malloc { to, block, site }, rest))
        }
        10 => {
            let (at, rest) = Operand::read(alloc, bytes)?;
            let (block, rest) = TypeId::read(alloc, rest)?;
            let (site, rest) = Site::read(alloc, rest)?;
            Ok((Command::Free { at, block, site }, rest))
        }
        11 => {
            let (to, rest) = u32::read(alloc, bytes)?;
            let (site, rest) = Site::read(alloc, rest)?;
            Ok((Command::Input { to, site }, rest))
        }
        12 => {
            let (to, rest) = Option::<u32>::read(alloc, bytes)?;
            let (proc, rest) = ProcId::read(alloc, rest)?;
            let (arguments, rest) = read_items(alloc, u32::MAX, rest)?;
            let (site, rest) = Site::read(alloc, rest)?;
            Ok((
                Command::Call {
                    to,
                    proc,
                    arguments: arguments.into_vec(),
                    site,
                },
                rest,
            ))
        }
        13 => {
            let (from, rest) = Option::<Operand>::read(alloc, bytes)?;
            Ok((Command::Return { from }, rest))
        }
        14 => Ok((Command::Break, bytes)),
        15 => Ok((Command::Continue, bytes)),
        16 => {
            let (word, rest) = u32::read(alloc, bytes)?;
            let (site, rest) = Site::read(alloc, rest)?;
            Ok((Command::Stop { word, site }, rest))
        }
        17 => {
            let (to, rest) = u32::read(alloc, bytes)?;
            let (a, rest) = Operand::read(alloc, rest)?;
            let (b, rest) = Operand::read(alloc, rest)?;
            let (site, rest) = Site::read(alloc, rest)?;
            Ok((Command::Divide { to, a, b, site }, rest))
        }
        _ => Err(WireFault::NotAMessage),
    }
}
