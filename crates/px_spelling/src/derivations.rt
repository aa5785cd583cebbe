ghost use Rattle.px_spelling.specs.Derivations.{rule_bytes, IsRule, rule_at, step_bytes, IsStep, step_at, derivation_bytes, IsDerivation, derivation_at};

use crate::{Output, Wire, WireFault, are_in_range, read_items, write_items};
use px_entry::{Derivation, Rule, Step, rule_number, rule_of};
use std::alloc::Global;

impl Wire for Rule {
    ghost bytes_of = { rule_bytes };

    ghost fits = { IsRule };

    ghost at = { rule_at };

    fn write<O: Output>(&self, out: &mut O, target: &mut O::Target) {
        rule_number(*self).write(out, target)
    }

    #[tactic(auto, unfolding(crate::specs::Derivations::rule_at, crate::specs::Derivations::rule_with))]
    fn read(alloc: Global, bytes: &[u8]) -> Result<(Rule, &[u8]), WireFault> {
        let (number, rest) = u8::read(alloc, bytes)?;
        match rule_of(number) {
            Some(rule) => Ok((rule, rest)),
            None => Err(WireFault::NotAMessage),
        }
    }

    fn is_in_range(&self) -> bool {
        true
    }
}

impl Wire for Step {
    ghost bytes_of = { step_bytes };

    ghost fits = { IsStep };

    ghost at = { step_at };

    fn write<O: Output>(&self, out: &mut O, target: &mut O::Target) {
        self.rule.write(out, target);
        write_items(self.choices.as_slice(), out, target)
    }

    #[tactic(auto, unfolding(crate::specs::Derivations::step_at))]
    fn read(alloc: Global, bytes: &[u8]) -> Result<(Step, &[u8]), WireFault> {
        let (rule, rest) = Rule::read(alloc, bytes)?;
        let (choices, rest) = read_items(alloc, u32::MAX, rest)?;
        Ok((Step { rule, choices }, rest))
    }

    fn is_in_range(&self) -> bool {
        are_in_range(u32::MAX, self.choices.as_slice())
    }
}

impl Wire for Derivation {
    ghost bytes_of = { derivation_bytes };

    ghost fits = { IsDerivation };

    ghost at = { derivation_at };

    fn write<O: Output>(&self, out: &mut O, target: &mut O::Target) {
        write_items(self.steps.as_slice(), out, target)
    }

    #[tactic(auto, unfolding(crate::specs::Derivations::derivation_at))]
    fn read(alloc: Global, bytes: &[u8]) -> Result<(Derivation, &[u8]), WireFault> {
        let (steps, rest) = read_items(alloc, u32::MAX, bytes)?;
        Ok((Derivation { steps }, rest))
    }

    fn is_in_range(&self) -> bool {
        are_in_range(u32::MAX, self.steps.as_slice())
    }
}
