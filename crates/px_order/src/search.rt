ghost use Rattle.std.specs.Prelude.{◌≡◌, ◌↔◌, ◌<◌, ◌≤◌, ℕ, [], ◌∷◌, ◌++◌, All, true, false, length, map, IfOk, OnOk, OnErr};
ghost use Rattle.px_order.specs.Comparisons.{IsBelow, HaveNoSolution, first_compared};
ghost use Rattle.px_order.specs.Searches as spec;
ghost use Rattle.px_order.specs.Searches.{mark_at, Raises, AreReached, IsUnmarked, Learns, AreCarried, AreHandled, AreHandledBut};

use crate::comparisons::Comparison;
use px_chains::Chains;
use std::alloc::{AllocError, Global};
use std::marker::Model;

// What is known of a variable beside the first one of a comparison.
#[derive(Clone, Copy)]
pub(crate) enum Mark {
    New,
    // It is at least that one.
    AtLeast,
    // It is greater.
    Greater,
}

// Finds what follows from a comparison beside others. Between searches no variable is marked. Contracts see for how many
// variables there is room.
#[derive(Drop)]
pub(crate) struct Search {
    marks: Vec<Mark>,
    // The variables in the order in which they were marked; one that was marked again stands twice.
    reached: Vec<u32>,
}

impl Model for Search {
    ghost use Rattle.std.specs.Prelude.{ℕ, length};
    ghost use Rattle.px_order.specs.Searches.{IsUnmarked};

    ghost Value = { ℕ };

    ghost view = { λ s. length s.marks.items };

    ghost invariant = { λ s. IsUnmarked s.marks.items s.reached.items };
}

impl Search {
    // With room for no variable. Takes no memory.
    pub(crate) fn new(alloc: Global) -> Search
        ensures { result ≡ 0 }
    {
        Search {
            marks: Vec::new(alloc),
            reached: Vec::new(alloc),
        }
    }

    // Makes room for a variable and those below it.
    pub(crate) fn make_room(&mut self, variable: u32) -> Result<(), AllocError>
        ensures room { OnOk result (variable < self.new) }
        ensures grows { self.old ≤ self.new }
    {
        add_new(&mut self.marks, variable)
    }

    // Whether a comparison has no solution beside others that have one.
    pub(crate) fn closes(
        &mut self,
        comparisons: &[Comparison],
        firsts: &Chains,
        new: Comparison,
    ) -> Result<bool, AllocError>
        requires chained { firsts.now ≡ map first_compared comparisons.now }
        requires below { All (IsBelow self.old) comparisons.now }
        requires inside { IsBelow self.old new }
        ensures same { self.new ≡ self.old }
        ensures yes { IfOk result (λ yes. yes ≡ true → HaveNoSolution (comparisons.now ++ new ∷ [])) }
        ensures no { IfOk result (λ yes. yes ≡ false → HaveNoSolution (comparisons.now ++ new ∷ []) → HaveNoSolution comparisons.now) }
    {
        let closes = leads_back(&mut self.marks, &mut self.reached, comparisons, firsts, new);
        clear(&mut self.marks, &mut self.reached);
        closes
    }
}

// Adds marks of which nothing is known, up to that of the variable.
fn add_new(marks: &mut Vec<Mark>, variable: u32) -> Result<(), AllocError>
    ensures room { OnOk result (variable < length marks.new.items) }
    ensures grows { length marks.old.items ≤ length marks.new.items }
    ensures same { (x : ℕ) → mark_at marks.new.items x ≡ mark_at marks.old.items x }
{
    while marks.len() <= variable as usize {
        marks.push(Mark::New)?;
    }
    Ok(())
}

// How much a mark says.
fn strength(mark: Mark) -> u8
    ensures { result ≡ spec.strength mark }
{
    match mark {
        Mark::New => 0,
        Mark::AtLeast => 1,
        Mark::Greater => 2,
    }
}

// What a comparison carries on from its first variable to its second.
fn carried(mark: Mark, strict: bool) -> Mark
    ensures { result ≡ spec.carried mark strict }
{
    match mark {
        Mark::New => Mark::New,
        Mark::AtLeast if !strict => Mark::AtLeast,
        _ => Mark::Greater,
    }
}

// Marks a variable, unless its mark says as much.
fn raise(
    marks: &mut [Mark],
    reached: &mut Vec<u32>,
    variable: u32,
    mark: Mark,
) -> Result<(), AllocError>
    requires { variable < length marks.old }
    ensures raised { OnOk result (Raises variable mark marks.old marks.new reached.old.items reached.new.items) }
    ensures same_marks { OnErr result (marks.new ≡ marks.old) }
    ensures same_reached { OnErr result (reached.new.items ≡ reached.old.items) }
{
    if strength(mark) <= strength(marks[variable as usize]) {
        return Ok(());
    }
    reached.push(variable)?;
    marks[variable as usize] = mark;
    Ok(())
}

// Marks the second variables of the comparisons that have this one first.
fn follow_from(
    marks: &mut [Mark],
    reached: &mut Vec<u32>,
    comparisons: &[Comparison],
    firsts: &Chains,
    variable: u32,
) -> Result<(), AllocError>
    requires chained { firsts.now ≡ map first_compared comparisons.now }
    requires below { All (IsBelow (length marks.old)) comparisons.now }
    requires inside { variable < length marks.old }
    requires listed { AreReached marks.old reached.old.items }
    ensures listed { AreReached marks.new reached.new.items }
    ensures learns { OnOk result (Learns comparisons.now marks.old marks.new reached.old.items reached.new.items) }
    ensures handled { OnOk result ((next : ℕ) → next ≤ length reached.old.items → AreHandledBut comparisons.now marks.old reached.old.items next variable (length comparisons.now) → AreHandled comparisons.now marks.new reached.new.items next) }
{
    let mark = marks[variable as usize];
    let mut end = firsts.end_of(variable);
    while end > 0 {
        let place = end - 1;
        let comparison = comparisons[place];
        raise(
            marks,
            reached,
            comparison.second,
            carried(mark, comparison.strict),
        )?;
        end = firsts.end_before(place);
    }
    Ok(())
}

// Marks what is reached from marked variables along comparisons.
fn follow(
    marks: &mut [Mark],
    reached: &mut Vec<u32>,
    comparisons: &[Comparison],
    firsts: &Chains,
) -> Result<(), AllocError>
    requires chained { firsts.now ≡ map first_compared comparisons.now }
    requires below { All (IsBelow (length marks.old)) comparisons.now }
    requires listed { AreReached marks.old reached.old.items }
    ensures listed { AreReached marks.new reached.new.items }
    ensures learns { OnOk result (Learns comparisons.now marks.old marks.new reached.old.items reached.new.items) }
    ensures carried { OnOk result (AreCarried comparisons.now marks.new) }
{
    let mut next = 0;
    while next < reached.len() {
        let variable = reached[next];
        follow_from(marks, reached, comparisons, firsts, variable)?;
        next += 1;
    }
    Ok(())
}

// Whether the first variable of a comparison follows to be greater than itself.
fn leads_back(
    marks: &mut [Mark],
    reached: &mut Vec<u32>,
    comparisons: &[Comparison],
    firsts: &Chains,
    new: Comparison,
) -> Result<bool, AllocError>
    requires chained { firsts.now ≡ map first_compared comparisons.now }
    requires below { All (IsBelow (length marks.old)) comparisons.now }
    requires inside { IsBelow (length marks.old) new }
    requires unmarked { IsUnmarked marks.old reached.old.items }
    ensures listed { AreReached marks.new reached.new.items }
    ensures yes { IfOk result (λ yes. yes ≡ true → HaveNoSolution (comparisons.now ++ new ∷ [])) }
    ensures no { IfOk result (λ yes. yes ≡ false → HaveNoSolution (comparisons.now ++ new ∷ []) → HaveNoSolution comparisons.now) }
{
    raise(
        marks,
        reached,
        new.second,
        carried(Mark::AtLeast, new.strict),
    )?;
    follow(marks, reached, comparisons, firsts)?;
    Ok(strength(marks[new.first as usize]) == 2)
}

// Takes all marks away.
fn clear(marks: &mut [Mark], reached: &mut Vec<u32>)
    requires { AreReached marks.old reached.old.items }
    ensures { IsUnmarked marks.new reached.new.items }
{
    for i in 0..reached.len() {
        marks[reached[i] as usize] = Mark::New;
    }
    reached.clear();
}
