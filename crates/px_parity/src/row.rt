ghost use Rattle.std.specs.Prelude.{◌≡◌, ℕ, ◌+◌, ◌*◌, ◌/◌, ◌<◌, ◌^◌, ◌≤◌, List, Bool, true, false, not, length, max, slice_index, slice_set, IfOk, OnOk, OnErr, MatchOption};
ghost use Rattle.px_parity.specs.Bits.{bit_of, plus};

use std::alloc::{AllocError, Global};
use std::marker::Model;

// Bits, 64 to a word. Beyond the words none is set, so a row need not be longer than its last bit asks.
#[derive(Drop)]
pub(crate) struct Row {
    words: Vec<u64>,
}

impl Model for Row {
    ghost use Rattle.std.specs.Prelude.{List, Bool, length, ◌<◌, ◌^◌};
    ghost use Rattle.px_parity.specs.Bits.{bits_of};

    ghost Value = { List Bool };

    ghost view = { λ r. bits_of r.words.items };

    // (so the number of a bit fits a `usize`)
    ghost invariant = { λ r. length r.words.items < 2 ^ 27 };
}

impl Row {
    // Room for the bits up to this one, none of them set.
    pub(crate) fn zero(alloc: Global, last: usize) -> Result<Row, AllocError>
        requires { last < 2 ^ 32 }
        ensures size { IfOk result (λ r. length r ≡ 64 * (last / 64 + 1)) }
        ensures none { IfOk result (λ r. (k : ℕ) → bit_of r k ≡ false) }
    {
        Ok(Row {
            words: vec![in alloc; 0; last / 64 + 1]?,
        })
    }

    // Whether the bit is set.
    pub(crate) fn has(&self, at: usize) -> bool
        ensures { result ≡ bit_of self.now at }
    {
        if at / 64 >= self.words.len() {
            return false;
        }
        let word = self.words[at / 64];
        (word >> (at % 64)) & 1 == 1
    }

    // Turns the bit round.
    pub(crate) fn flip(&mut self, at: usize)
        requires { at < length self.old }
        ensures { self.new ≡ slice_set self.old at (not (bit_of self.old at)) }
    {
        self.words[at / 64] ^= 1 << (at % 64);
    }

    // Adds another row to it, bit by bit modulo 2. A longer row makes it longer first.
    pub(crate) fn add(&mut self, other: &Row) -> Result<(), AllocError>
        ensures { OnOk result ((k : ℕ) → bit_of self.new k ≡ plus (bit_of self.old k) (bit_of other.now k)) }
    {
        lengthen(&mut self.words, other.words.len())?;
        for i in 0..other.words.len() {
            self.words[i] ^= other.words[i];
        }
        Ok(())
    }

    // The first bit that is set, other than the bit 0. Words of 0 are passed over as a whole.
    pub(crate) fn first_variable(&self) -> Option<usize>
        ensures { MatchOption result ((k : ℕ) → 0 < k → bit_of self.now k ≡ false) (λ i. (0 < i) × (bit_of self.now i ≡ true)) }
    {
        for at in 0..self.words.len() {
            if self.words[at] == 0 {
                continue;
            }
            if let Some(i) = self.first_among(64 * at) {
                return Some(i);
            }
        }
        None
    }

    // The first of 64 bits that is set, other than the bit 0.
    fn first_among(&self, from: usize) -> Option<usize>
        requires { from < 2 ^ 33 }
        ensures { MatchOption result ((k : ℕ) → 0 < k → from ≤ k → k < from + 64 → bit_of self.now k ≡ false) (λ i. (0 < i) × (bit_of self.now i ≡ true)) }
    {
        for i in from.max(1)..from + 64 {
            if self.has(i) {
                return Some(i);
            }
        }
        None
    }
}

// Makes words at least so many: the new ones are 0.
fn lengthen(words: &mut Vec<u64>, count: usize) -> Result<(), AllocError>
    ensures size { OnOk result (length words.new.items ≡ max (length words.old.items) count) }
    ensures same { OnOk result ((k : ℕ) → slice_index words.new.items k ≡ slice_index words.old.items k) }
    ensures failed { OnErr result (words.new.items ≡ words.old.items) }
{
    if words.len() < count {
        words.resize(count, 0)?;
    }
    Ok(())
}
