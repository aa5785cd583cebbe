ghost use Rattle.std.specs.Prelude.{◌≡◌, ◌≢◌, ℕ, ◌+◌, ◌^◌, ◌<◌, ◌≤◌, ◌⊎◌, ◌↔◌, length, true, false, slice_index, slice_get, slice_set, IfOk, IfSome, MatchOption};
ghost use Rattle.px_terms.specs.declared.variables.Sort.TheVariants.{Made};
ghost use Rattle.px_plain.specs.Forest.{parent_at, IsForest, IsFlat, Keeps};
ghost use Rattle.px_plain.specs.Differences.{difference_at, IfUnequal, AllHold, AreInside, AreBare};
ghost use Rattle.px_plain.specs.Places.{mark_at, ArePlaceNumbers, IsMixed, HasTypeOfRoot, MarksMixed, number_under, AreNumbersOf, AreExactNumbers, AreExactOver, AreForced, IsClash, SomeClash, IsPlaced};

use crate::forest::{flatten, join_all, roots};
use crate::nodes::{Difference, Node};
use px_terms::{Sort, ValueType, VarInfo};
use std::alloc::{AllocError, Global};

// Whether two types are one.
pub(crate) fn is_same_type(a: ValueType, b: ValueType) -> bool
    ensures { result ≡ true ↔ a ≡ b }
{
    a == b
}

// Whether a variable's root is that of a variable of another type.
fn is_mixed(vars: &[VarInfo], table: &[Node], x: usize) -> bool
    requires size { length table.now ≡ length vars.now + 1 }
    requires forest { IsForest table.now }
    requires inside { x < length vars.now }
    ensures yes { result ≡ true → IsMixed vars.now table.now (parent_at table.now (x + 1)) }
    ensures no { result ≡ false → HasTypeOfRoot vars.now table.now x }
{
    let root = table[x + 1].parent as usize;
    root > 0 && !is_same_type(vars[x].value, vars[root - 1].value)
}

// Marks the roots that stand for variables of several types.
fn mark_mixed(alloc: Global, vars: &[VarInfo], table: &[Node]) -> Result<Vec<bool>, AllocError>
    requires size { length table.now ≡ length vars.now + 1 }
    requires forest { IsForest table.now }
    ensures { IfOk result (λ marks. MarksMixed vars.now table.now (length vars.now) marks.items) }
{
    let mut marks = vec![in alloc; false; table.len()]?;
    for x in 0..vars.len() {
        if is_mixed(vars, table, x) {
            let root = table[x + 1].parent as usize;
            marks[root] = true;
        }
    }
    Ok(marks)
}

// The number of the place of a root.
fn number_of(marks: &[bool], root: u32) -> u32
    requires { root < length marks.now }
    ensures { result ≡ number_under marks.now root }
{
    if marks[root as usize] { 0 } else { root }
}

// The numbers of all nodes' places.
fn number_all(alloc: Global, table: &[Node], marks: &[bool]) -> Result<Vec<u32>, AllocError>
    requires forest { IsForest table.now }
    requires size { length marks.now ≡ length table.now }
    ensures size { IfOk result (λ ns. length ns.items ≡ length table.now) }
    ensures each { IfOk result (λ ns. (v : ℕ) → v < length table.now → slice_index ns.items v ≡ number_under marks.now (parent_at table.now v)) }
{
    let mut numbers = Vec::new(alloc);
    for node in table {
        numbers.push(number_of(marks, node.parent))?;
    }
    Ok(numbers)
}

// The numbers of the forest's places: with other numbers, what is equal here is equal.
fn numbers_of(alloc: Global, vars: &[VarInfo], table: &[Node]) -> Result<Vec<u32>, AllocError>
    requires size { length table.now ≡ length vars.now + 1 }
    requires forest { IsForest table.now }
    requires flat { IsFlat table.now }
    requires bare { Keeps (λ v. 0) table.now }
    ensures numbers { IfOk result (λ ns. AreNumbersOf vars.now table.now ns.items) }
    ensures exact { IfOk result (λ ns. AreExactNumbers vars.now table.now ns.items) }
{
    let marks = mark_mixed(alloc, vars, table)?;
    let numbers = number_all(alloc, table, &marks)?;
    Ok(numbers)
}

// Whether a difference is a disequality of one number.
fn is_clash(numbers: &[u32], difference: Difference) -> bool
    requires from_inside { difference.from < length numbers.now }
    requires to_inside { difference.to < length numbers.now }
    requires bare { difference.plus ≡ 0 }
    requires small { (v : ℕ) → slice_index numbers.now v < 2 ^ 32 }
    ensures yes { result ≡ true → IsClash numbers.now difference }
    ensures no { result ≡ false → IfUnequal (slice_index numbers.now) difference }
{
    !difference.equal && numbers[difference.from as usize] == numbers[difference.to as usize]
}

// Whether the disequalities hold.
fn are_unequal(numbers: &[u32], differences: &[Difference]) -> bool
    requires inside { AreInside (length numbers.now) differences.now }
    requires bare { AreBare differences.now }
    requires small { (v : ℕ) → slice_index numbers.now v < 2 ^ 32 }
    ensures yes { result ≡ true → (i : ℕ) → i < length differences.now → IfUnequal (slice_index numbers.now) (difference_at differences.now i) }
    ensures no { result ≡ false → SomeClash numbers.now differences.now }
{
    for i in 0..differences.len() {
        if is_clash(numbers, differences[i]) {
            return false;
        }
    }
    true
}

// Whether a variable is what `malloc` made.
pub(crate) fn is_made(info: VarInfo) -> bool
    ensures { result ≡ true ↔ info.sort ≡ Made }
{
    info.sort == Sort::Made
}

// Whether a made block isn't a pointer's, or a variable shares one with another.
fn is_misplaced(vars: &[VarInfo], numbers: &[u32], x: usize) -> bool
    requires size { length numbers.now ≡ length vars.now + 1 }
    requires below { slice_index numbers.now (x + 1) ≤ x + 1 }
    requires inside { x < length vars.now }
    ensures yes { result ≡ true → (val : ℕ → ℕ) → ArePlaceNumbers vars.now val → val (x + 1) ≡ val (slice_index numbers.now (x + 1)) → ⊥ }
    ensures no { result ≡ false → IsPlaced vars.now numbers.now x }
{
    let number = numbers[x + 1] as usize;
    if is_made(vars[x]) {
        if number != x + 1 {
            return true;
        }
        return is_same_type(vars[x].value, ValueType::Int);
    }
    if number == 0 {
        return false;
    }
    is_made(vars[number - 1])
}

// Whether each made block is that of one pointer.
fn are_placed(vars: &[VarInfo], numbers: &[u32]) -> bool
    requires size { length numbers.now ≡ length vars.now + 1 }
    requires below { (v : ℕ) → v < length numbers.now → slice_index numbers.now v ≤ v }
    ensures yes { result ≡ true → (x : ℕ) → x < length vars.now → IsPlaced vars.now numbers.now x }
    ensures no { result ≡ false → (val : ℕ → ℕ) → ArePlaceNumbers vars.now val → ¬ AreForced numbers.now val }
{
    for x in 0..vars.len() {
        if is_misplaced(vars, numbers, x) {
            return false;
        }
    }
    true
}

// Numbers of places under which all differences hold; none where no numbers of places do.
fn solve_over(
    alloc: Global,
    vars: &[VarInfo],
    table: &mut [Node],
    differences: &[Difference],
) -> Result<Option<Vec<u32>>, AllocError>
    requires size { length table.old ≡ length vars.now + 1 }
    requires few { length vars.now ≤ 65536 }
    requires forest { IsForest table.old }
    requires free { (val : ℕ → ℕ) → Keeps val table.old }
    requires inside { AreInside (length table.old) differences.now }
    requires bare { AreBare differences.now }
    ensures found { IfOk result (λ r. MatchOption r ((val : ℕ → ℕ) → ArePlaceNumbers vars.now val → ¬ AllHold val differences.now) (λ ns. ArePlaceNumbers vars.now (slice_index ns.items) × AllHold (slice_index ns.items) differences.now)) }
    ensures size { IfOk result (λ r. IfSome r (λ ns. length ns.items ≡ length vars.now + 1)) }
    ensures below { IfOk result (λ r. IfSome r (λ ns. (v : ℕ) → v < length vars.now + 1 → slice_index ns.items v ≤ v)) }
    ensures exact { IfOk result (λ r. IfSome r (λ ns. AreExactOver vars.now differences.now ns.items)) }
{
    if !join_all(table, differences) {
        return Ok(None);
    }
    flatten(table);
    let numbers = numbers_of(alloc, vars, table)?;
    if !are_unequal(&numbers, differences) {
        return Ok(None);
    }
    if !are_placed(vars, &numbers) {
        return Ok(None);
    }
    Ok(Some(numbers))
}

// Numbers of places for null and the variables, under which all differences hold; none where no numbers of places do.
pub(crate) fn solve_places(
    alloc: Global,
    vars: &[VarInfo],
    differences: &[Difference],
) -> Result<Option<Vec<u32>>, AllocError>
    requires few { length vars.now ≤ 65536 }
    requires inside { AreInside (length vars.now + 1) differences.now }
    requires bare { AreBare differences.now }
    ensures found { IfOk result (λ r. MatchOption r ((val : ℕ → ℕ) → ArePlaceNumbers vars.now val → ¬ AllHold val differences.now) (λ ns. ArePlaceNumbers vars.now (slice_index ns.items) × AllHold (slice_index ns.items) differences.now)) }
    ensures size { IfOk result (λ r. IfSome r (λ ns. length ns.items ≡ length vars.now + 1)) }
    ensures below { IfOk result (λ r. IfSome r (λ ns. (v : ℕ) → v < length vars.now + 1 → slice_index ns.items v ≤ v)) }
    ensures exact { IfOk result (λ r. IfSome r (λ ns. AreExactOver vars.now differences.now ns.items)) }
{
    let mut table = roots(alloc, vars.len() as u32 + 1)?;
    solve_over(alloc, vars, &mut table, differences)
}
