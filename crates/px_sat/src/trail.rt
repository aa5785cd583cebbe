ghost use Rattle.std.specs.Prelude.{◌≡◌, ◌↔◌, ◌<◌, [], ◌∷◌, ◌++◌, true, false, length, take, slice_get, IfSome, IfNone, OnOk};
ghost use Rattle.px_cnf.specs.Clauses.{negated};
ghost use Rattle.px_sat.specs.Steps.{IsTrue, IsNew, HasValue, IsPlaceOf, NoneHas};

use crate::step::Step;
use px_chains::Chains;
use px_cnf::Literal;
use px_terms::NoMemory;
use std::alloc::Global;
use std::marker::Model;

// Steps in order, each on a variable of its own. Contracts see the list of them.
#[derive(Drop)]
pub(crate) struct Trail {
    // The variables of the steps.
    variables: Chains,
    steps: Vec<Step>,
}

impl Model for Trail {
    ghost use Rattle.std.specs.Prelude.{List, ◌≡◌};
    ghost use Rattle.px_sat.specs.declared.step.Step.{Step as StepOf};
    ghost use Rattle.px_sat.specs.Steps.{variables_of, AreDistinct};

    ghost Value = { List StepOf };

    ghost view = { λ t. t.steps.items };

    ghost invariant = { λ t. (t.variables ≡ variables_of t.steps.items) × AreDistinct t.steps.items };
}

impl Trail {
    // No steps.
    pub(crate) fn new(alloc: Global) -> Trail
        ensures { result ≡ [] }
    {
        Trail {
            variables: Chains::new(alloc),
            steps: Vec::new(alloc),
        }
    }

    // How many steps there are.
    pub(crate) fn len(&self) -> usize
        ensures { result ≡ length self.now }
    {
        self.steps.len()
    }

    // The step at a place.
    pub(crate) fn get(&self, place: usize) -> Step
        requires { place < length self.now }
        ensures { slice_get self.now place ≡ Some result }
    {
        self.steps[place]
    }

    // The place of a variable's step, if it has one.
    pub(crate) fn place_of(&self, variable: u32) -> Option<usize>
        ensures some { IfSome result (IsPlaceOf self.now variable) }
        ensures none { IfNone result (NoneHas self.now variable) }
    {
        let end = self.variables.end_of(variable);
        if end == 0 { None } else { Some(end - 1) }
    }

    // Whether a literal is true.
    pub(crate) fn is_true(&self, literal: Literal) -> bool
        ensures { result ≡ true ↔ IsTrue self.now literal }
    {
        match self.place_of(literal.variable) {
            None => false,
            Some(place) => self.steps[place].literal.positive == literal.positive,
        }
    }

    // Whether a literal is false.
    pub(crate) fn is_false(&self, literal: Literal) -> bool
        ensures { result ≡ true ↔ IsTrue self.now (negated literal) }
    {
        self.is_true(literal.negated())
    }

    // Whether a variable has a value.
    pub(crate) fn has_value(&self, variable: u32) -> bool
        ensures known { result ≡ true → HasValue self.now variable }
        ensures unknown { result ≡ false → NoneHas self.now variable }
    {
        self.place_of(variable).is_some()
    }

    // Adds a step.
    pub(crate) fn push(&mut self, step: Step) -> Result<(), NoMemory>
        requires { IsNew self.old step.literal }
        ensures { OnOk result (self.new ≡ self.old ++ step ∷ []) }
    {
        self.variables.push(step.literal.variable)?;
        if let Err(error) = self.steps.push(step) {
            self.variables.pop();
            return Err(NoMemory::from(error));
        }
        Ok(())
    }

    // Leaves the first steps, so many of them.
    pub(crate) fn truncate(&mut self, count: usize)
        ensures { self.new ≡ take count self.old }
    {
        self.variables.truncate(count);
        self.steps.truncate(count);
    }
}
