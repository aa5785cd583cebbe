ghost use Rattle.std.specs.Prelude.{◌≡◌, ℕ, ◌∷◌, ◌++◌, List, [], Contains, length, Some, option_map, slice_get, IfOk, OnOk};
ghost use Rattle.px_cnf.specs.declared.literal.Literal.{Literal as LiteralOf};
ghost use Rattle.px_sat.specs.Uses.{code, HasUse, AreListed};

use px_cnf::Literal;
use px_terms::{Items, NoMemory};
use std::alloc::Global;
use std::marker::Model;

// Clauses, and where each literal stands in them. Contracts see the list of clauses.
#[derive(Drop)]
pub(crate) struct Clauses {
    all: Vec<Items<Literal>>,
    // For each literal, by its code, the places of the clauses that have it, and of others at most.
    uses: Vec<Items<usize>>,
}

impl Model for Clauses {
    ghost use Rattle.std.specs.Prelude.{List};
    ghost use Rattle.px_cnf.specs.declared.literal.Literal.{Literal as LiteralOf};
    ghost use Rattle.px_sat.specs.Uses.{AreListed};

    ghost Value = { List (List LiteralOf) };

    ghost view = { λ c. c.all.items };

    ghost invariant = { λ c. AreListed c.all.items c.uses.items };
}

impl Clauses {
    // No clauses.
    fn new(alloc: Global) -> Clauses
        ensures { result ≡ [] }
    {
        Clauses {
            all: Vec::new(alloc),
            uses: Vec::new(alloc),
        }
    }

    // Copies of these.
    pub(crate) fn of(alloc: Global, clauses: &[Items<Literal>]) -> Result<Clauses, NoMemory>
        ensures { IfOk result (λ c. c ≡ clauses.now) }
    {
        let mut all = Clauses::new(alloc);
        for clause in clauses {
            all.add(alloc, clause.as_slice())?;
        }
        Ok(all)
    }

    // How many there are.
    pub(crate) fn len(&self) -> usize
        ensures { result ≡ length self.now }
    {
        self.all.len()
    }

    // The clause at a place, if there is one.
    pub(crate) fn get(&self, at: usize) -> Option<&[Literal]>
        ensures { option_map (λ c. c.now) result ≡ slice_get self.now at }
    {
        match self.all.get(at) {
            None => None,
            Some(clause) => Some(clause.as_slice()),
        }
    }

    // The places of the clauses that have a literal, and of others at most.
    pub(crate) fn uses(&self, literal: Literal) -> &[usize]
        ensures { (at : ℕ) (clause : List LiteralOf) → slice_get self.now at ≡ Some clause → Contains clause literal → Contains result.now at }
    {
        match self.uses.get(code(literal)) {
            None => &[],
            Some(uses) => uses.as_slice(),
        }
    }

    // Adds a copy of a clause.
    pub(crate) fn add(&mut self, alloc: Global, clause: &[Literal]) -> Result<(), NoMemory>
        ensures { OnOk result (self.new ≡ self.old ++ clause.now ∷ []) }
    {
        put_uses(alloc, &mut self.uses, clause, self.all.len())?;
        self.all.push(Items::from_slice(alloc, clause)?)?;
        Ok(())
    }
}

// The number of a literal.
fn code(literal: Literal) -> usize
    ensures { result ≡ code literal }
{
    literal.variable as usize * 2 + literal.positive as usize
}

// Adds a place to those of a literal.
fn put_use(
    alloc: Global,
    uses: &mut Vec<Items<usize>>,
    code: usize,
    at: usize,
) -> Result<(), NoMemory>
    ensures put { OnOk result (HasUse uses.new.items code at) }
    ensures keeps { (c i : ℕ) → HasUse uses.old.items c i → HasUse uses.new.items c i }
{
    while uses.len() <= code {
        uses.push(Items::new(alloc))?;
    }
    uses[code].push(at)?;
    Ok(())
}

// Adds a place to those of each literal of a clause.
fn put_uses(
    alloc: Global,
    uses: &mut Vec<Items<usize>>,
    clause: &[Literal],
    at: usize,
) -> Result<(), NoMemory>
    ensures put { OnOk result ((l : LiteralOf) → Contains clause.now l → HasUse uses.new.items (code l) at) }
    ensures keeps { (c i : ℕ) → HasUse uses.old.items c i → HasUse uses.new.items c i }
{
    for literal in clause {
        put_use(alloc, uses, code(*literal), at)?;
    }
    Ok(())
}
