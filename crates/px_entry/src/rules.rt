ghost use Rattle.std.specs.Prelude.{◌≡◌, IfSome};
ghost use Rattle.px_entry.specs.Rules.{rule_number, rule_of};

use crate::Rule;

/// The number of a rule: its place among the rules, from 0.
pub fn rule_number(rule: Rule) -> u8
    ensures { result ≡ rule_number rule }
{
    rule as u8
}

/// The rule with this number, if there is one.
#[tactic(auto, unfolding(crate::specs::Rules::rule_of, crate::specs::Rules::all_rules))]
pub fn rule_of(number: u8) -> Option<Rule>
    ensures rule { result ≡ rule_of number }
    ensures number { IfSome result (λ rule. rule_number rule ≡ number) }
{
    match number {
        0 => Some(Rule::Assign),
        1 => Some(Rule::ReadWritten),
        2 => Some(Rule::ReadUnwritten),
        3 => Some(Rule::TestTrue),
        4 => Some(Rule::TestFalse),
        5 => Some(Rule::Unroll),
        6 => Some(Rule::LeaveLoop),
        7 => Some(Rule::Load),
        8 => Some(Rule::Store),
        9 => Some(Rule::NullAccess),
        10 => Some(Rule::FreedAccess),
        11 => Some(Rule::MissingLive),
        12 => Some(Rule::MissingFreed),
        13 => Some(Rule::Alloc),
        14 => Some(Rule::AllocNull),
        15 => Some(Rule::Free),
        16 => Some(Rule::FreeTwice),
        17 => Some(Rule::FreeNull),
        18 => Some(Rule::Input),
        19 => Some(Rule::Call),
        20 => Some(Rule::End),
        21 => Some(Rule::Divide),
        22 => Some(Rule::DivideZero),
        _ => None,
    }
}
