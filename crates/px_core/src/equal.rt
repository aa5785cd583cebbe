ghost use Rattle.std.specs.Prelude.{◌≡◌, ◌↔◌, true, map};
ghost use Rattle.px_core.specs.CommandTree.{command_tree};
ghost use Rattle.px_core.specs.BodyTree.{body_tree};

use crate::{Body, Command, Operand};
use px_terms::ValueType;

/// Whether two bodies say the same.
pub fn equal_bodies(left: &Body, right: &Body) -> bool
    ensures { result ≡ true ↔ body_tree left.now ≡ body_tree right.now }
{
    if left.slots != right.slots || left.result != right.result {
        return false;
    }
    if !equal_types(left.parameters.as_slice(), right.parameters.as_slice()) {
        return false;
    }
    equal_lists(&left.commands, &right.commands)
}

fn equal_types(left: &[ValueType], right: &[ValueType]) -> bool
    ensures { result ≡ true ↔ left.now ≡ right.now }
{
    left == right
}

fn equal_operands(left: &[Operand], right: &[Operand]) -> bool
    ensures { result ≡ true ↔ left.now ≡ right.now }
{
    left == right
}

fn equal_pairs(a: Operand, b: Operand, c: Operand, d: Operand) -> bool
    ensures { result ≡ true ↔ (a ≡ c) × (b ≡ d) }
{
    a == c && b == d
}

#[cycle(equal)]
fn equal_lists(left: &[Command], right: &[Command]) -> bool
    ensures { result ≡ true ↔ map command_tree left.now ≡ map command_tree right.now }
{
    if left.len() != right.len() {
        return false;
    }
    for i in 0..left.len() {
        if !equal_commands(&left[i], &right[i]) {
            return false;
        }
    }
    true
}

/// Whether two commands say the same, those that stand in them too.
#[cycle(equal)]
pub fn equal_commands(left: &Command, right: &Command) -> bool
    ensures { result ≡ true ↔ command_tree left.now ≡ command_tree right.now }
{
    match left {
        Command::If { slot, then, other } => {
            let Command::If {
                slot: slot_2,
                then: then_2,
                other: other_2,
            } = right
            else {
                return false;
            };
            if slot != slot_2 {
                return false;
            }
            if !equal_lists(then, then_2) {
                return false;
            }
            equal_lists(other, other_2)
        }
        Command::Loop {
            site,
            head,
            body,
            step,
        } => {
            let Command::Loop {
                site: site_2,
                head: head_2,
                body: body_2,
                step: step_2,
            } = right
            else {
                return false;
            };
            if site != site_2 {
                return false;
            }
            if !equal_lists(head, head_2) {
                return false;
            }
            if !equal_lists(body, body_2) {
                return false;
            }
            equal_lists(step, step_2)
        }
        Command::Call {
            to,
            proc,
            arguments,
            site,
        } => {
            let Command::Call {
                to: to_2,
                proc: proc_2,
                arguments: arguments_2,
                site: site_2,
            } = right
            else {
                return false;
            };
            if to != to_2 || proc != proc_2 || site != site_2 {
                return false;
            }
            equal_operands(arguments, arguments_2)
        }
        Command::Assign { to, op, a, b } => {
            let Command::Assign {
                to: to_2,
                op: op_2,
                a: a_2,
                b: b_2,
            } = right
            else {
                return false;
            };
            if to != to_2 || op != op_2 {
                return false;
            }
            equal_pairs(*a, *b, *a_2, *b_2)
        }
        Command::Unset { to } => {
            let Command::Unset { to: to_2 } = right else {
                return false;
            };
            to == to_2
        }
        Command::Read { slot, site } => {
            let Command::Read {
                slot: slot_2,
                site: site_2,
            } = right
            else {
                return false;
            };
            slot == slot_2 && site == site_2
        }
        Command::Test {
            to,
            how,
            a,
            b,
            site,
        } => {
            let Command::Test {
                to: to_2,
                how: how_2,
                a: a_2,
                b: b_2,
                site: site_2,
            } = right
            else {
                return false;
            };
            if to != to_2 || how != how_2 || site != site_2 {
                return false;
            }
            equal_pairs(*a, *b, *a_2, *b_2)
        }
        Command::Leave => matches!(right, Command::Leave),
        Command::Load {
            to,
            at,
            field,
            block,
            site,
        } => {
            let Command::Load {
                to: to_2,
                at: at_2,
                field: field_2,
                block: block_2,
                site: site_2,
            } = right
            else {
                return false;
            };
            if site != site_2 {
                return false;
            }
            to == to_2 && at == at_2 && field == field_2 && block == block_2
        }
        Command::Store {
            at,
            field,
            block,
            from,
            site,
        } => {
            let Command::Store {
                at: at_2,
                field: field_2,
                block: block_2,
                from: from_2,
                site: site_2,
            } = right
            else {
                return false;
            };
            if site != site_2 {
                return false;
            }
            at == at_2 && field == field_2 && block == block_2 && from == from_2
        }
        Command::Malloc { to, block, site } => {
            let Command::Malloc {
                to: to_2,
                block: block_2,
                site: site_2,
            } = right
            else {
                return false;
            };
            to == to_2 && block == block_2 && site == site_2
        }
        Command::Free { at, block, site } => {
            let Command::Free {
                at: at_2,
                block: block_2,
                site: site_2,
            } = right
            else {
                return false;
            };
            at == at_2 && block == block_2 && site == site_2
        }
        Command::Input { to, site } => {
            let Command::Input {
                to: to_2,
                site: site_2,
            } = right
            else {
                return false;
            };
            to == to_2 && site == site_2
        }
        Command::Return { from } => {
            let Command::Return { from: from_2 } = right else {
                return false;
            };
            from == from_2
        }
        Command::Break => matches!(right, Command::Break),
        Command::Continue => matches!(right, Command::Continue),
        Command::Stop { word, site } => {
            let Command::Stop {
                word: word_2,
                site: site_2,
            } = right
            else {
                return false;
            };
            word == word_2 && site == site_2
        }
        Command::Divide { to, a, b, site } => {
            let Command::Divide {
                to: to_2,
                a: a_2,
                b: b_2,
                site: site_2,
            } = right
            else {
                return false;
            };
            if to != to_2 || site != site_2 {
                return false;
            }
            equal_pairs(*a, *b, *a_2, *b_2)
        }
    }
}
