ghost use Rattle.std.specs.Prelude.{◌≡◌, ℕ, ◌<◌};
ghost use Rattle.px_plain.specs.Readings.{HasSmallVariables, word_difference, place_difference, unwritten_node, written_node};
ghost use Rattle.px_plain.specs.Claims.{words_claimed, places_claimed, unwritten_claimed, written_claimed, IsConjunctClaim};

use crate::nodes::Difference;
use crate::reading::{place_difference as read_place, word_difference as read_word};
use crate::trees::Link;
use px_terms::Conj;

// What is known of a node.
#[derive(Clone, Copy, PartialEq, Eq)]
pub(crate) enum Mark {
    Free,
    Written,
    Unwritten,
}

// What an item says of nodes.
#[derive(Clone, Copy)]
pub(crate) enum Claim {
    // Nothing: it isn't plain.
    Nothing,
    // An equality or a disequality of words.
    Words(Difference),
    // An equality or a disequality of places.
    Places(Difference),
    Written(u32),
    Unwritten(u32),
    // The node is apart from null and from the earlier nodes that are apart.
    Apart(u32),
}

// The ends of a claim, and their marks before it.
#[derive(Clone, Copy)]
pub(crate) struct Ends {
    pub(crate) from: u32,
    pub(crate) to: u32,
    pub(crate) from_was: Mark,
    pub(crate) to_was: Mark,
}

// What a claim changed beside marks.
#[derive(Clone, Copy)]
pub(crate) enum Change {
    Nothing,
    // A root of words is below another.
    Words(Link),
    // There is one disequality of words more.
    UnequalWords,
    // A root of places is below another.
    Places(Link),
    // Two roots of places are below null.
    Null(Link, Link),
    // There is one disequality of places more.
    UnequalPlaces,
    // The root has a place apart.
    Owner(u32),
}

// What an item changed.
#[derive(Clone, Copy)]
pub(crate) enum Step {
    // Nothing: the list is refuted from this item or an earlier one on.
    Refuted,
    // Nothing: it isn't plain.
    Quiet,
    // There is one variable more. Whether the list is refuted.
    Variable(bool),
    // A claim was added.
    Claimed(Ends, Change),
}

// What a conjunct says of nodes.
pub(crate) fn claim_of(conjunct: &Conj) -> Claim
    requires { HasSmallVariables conjunct.now }
    ensures words { words_claimed result ≡ word_difference conjunct.now }
    ensures places { places_claimed result ≡ place_difference conjunct.now }
    ensures unwritten { unwritten_claimed result ≡ unwritten_node conjunct.now }
    ensures written { written_claimed result ≡ written_node conjunct.now }
    ensures conjunct { IsConjunctClaim result }
    ensures node { (u : ℕ) → result ≡ Claim.Unwritten u → 0 < u }
{
    match conjunct {
        Conj::Equal(_) | Conj::Unequal(_) => match read_word(conjunct) {
            Some(difference) => Claim::Words(difference),
            None => Claim::Nothing,
        },
        Conj::SamePlace(_, _) | Conj::OtherPlace(_, _) => match read_place(conjunct) {
            Some(difference) => Claim::Places(difference),
            None => Claim::Nothing,
        },
        Conj::Written(x) => Claim::Written(x.0 + 1),
        Conj::Unwritten(x) => Claim::Unwritten(x.0 + 1),
        Conj::Less(_, _) | Conj::AtMost(_, _) | Conj::Quotient(_, _, _) => Claim::Nothing,
    }
}
