ghost use Rattle.std.specs.Prelude.{◌≡◌, ◌≢◌, ◌++◌, ◌∷◌, IfOk, true};
ghost use Rattle.px_callgraph.specs.JobTree.{job_tree};
ghost use Rattle.px_spelling.specs.ByPlace.{by_place};
ghost use Rattle.px_spelling.specs.Numbers.{u8_bytes, IsU8};
ghost use Rattle.px_spelling.specs.Lists.{list_bytes, IsList, any_number};
ghost use Rattle.px_spelling.specs.Reading.{Gives};
ghost use Rattle.px_spelling.specs.Tables.{table_bytes, IsTable};
ghost use Rattle.px_wire.specs.TableRanges.{table_within};
ghost use Rattle.px_wire.specs.JobRanges.{rises};
ghost use Rattle.px_wire.specs.Jobs.{limits_bytes, limits_of, numbers_at, AreLimits, job_bytes, IsJob, job_at};
ghost use Rattle.px_wire.specs.Messages.{said_tree, any_types, AreFields, IsDecoded};
ghost use Rattle.px_wire.specs.Mentions.{terms_of};
ghost use Rattle.px_wire.specs.Versions.{message_tree, BeginWith, IsDecodedIn};
ghost use Rattle.px_wire.specs.Readers.{request_at, kinds_at, own_table_at, reply_at, large_at, fields_at, listed_at, shared_at, are_terms, with_terms, told_at, with_version, message_at, message_in};

use crate::job_ranges::is_job_within;
use crate::message::{Message, Said, VERSION};
use crate::rising_kinds::do_kinds_rise;
use crate::sharing::{self, share};
use crate::table_ranges::is_table_within;
use px_base::{Limits, ProcId};
use px_body_spelling::read_body;
use px_callgraph::Job;
use px_entry::Table;
use px_spelling::{
    InFull, TermList, Terms, Wire, WireFault, WireWith, read_items, read_items_with,
};
use px_terms::{Items, NoMemory, Poly};
use std::alloc::Global;

/// More than any number of four bytes.
pub const ANY_TYPES: usize = 4_294_967_296;

/// The message that these bytes spell, in version 1 or 2. `NotAMessage` comes exactly where they spell none; else
/// `NoMemory`. A list takes no room for more items than the bytes hold at four bytes each, or than twice as many as were
/// read.
#[tactic(auto, unfolding(crate::specs::Readers::message_in))]
pub fn decode(alloc: Global, bytes: &[u8]) -> Result<Message, WireFault>
    ensures spelled { IsDecodedIn bytes.now result }
    ensures reads { Gives (λ m. (m.version, message_tree m)) result (message_in bytes.now) }
{
    let (message, rest) = read_message(alloc, bytes)?;
    match rest {
        [] => Ok(message),
        [_, ..] => Err(WireFault::NotAMessage),
    }
}

/// What the bytes say that spell a message in version 1. `NotAMessage` comes exactly where they spell none in that version; else
/// `NoMemory`.
#[tactic(auto, using(crate::proofs::MessageRoundTrips::is_first, crate::proofs::MessageRoundTrips::is_other, crate::proofs::MessageRoundTrips::none_first))]
pub fn decode_full(alloc: Global, bytes: &[u8]) -> Result<Said, WireFault>
    ensures spelled { IsDecoded bytes.now result }
{
    let message = decode(alloc, bytes)?;
    if message.version() == VERSION {
        Ok(message.into_said())
    } else {
        Err(WireFault::NotAMessage)
    }
}

#[tactic(auto, unfolding(crate::specs::Readers::message_at))]
fn read_message(alloc: Global, bytes: &[u8]) -> Result<(Message, &[u8]), WireFault>
    ensures reads { Gives (λ x. ((x.0.version, message_tree x.0), x.1.now)) result (message_at bytes.now) }
    ensures spelled { IfOk result (λ x. BeginWith bytes.now x.0.version (message_tree x.0) x.1.now) }
{
    let (tag, rest) = u8::read(alloc, bytes)?;
    let (version, rest) = u8::read(alloc, rest)?;
    read_version(alloc, tag, version, rest)
}

// What follows the byte of the version.
#[tactic(auto, unfolding(crate::specs::Readers::with_version), using(crate::proofs::Listed::begins_full))]
fn read_version(
    alloc: Global,
    tag: u8,
    version: u8,
    bytes: &[u8],
) -> Result<(Message, &[u8]), WireFault>
    ensures reads { Gives (λ x. ((x.0.version, message_tree x.0), x.1.now)) result (with_version tag version bytes.now) }
    ensures spelled { IfOk result (λ x. BeginWith (tag ∷ version ∷ bytes.now) x.0.version (message_tree x.0) x.1.now) }
{
    match version {
        1 => {
            let (said, rest) = read_fields(&InFull, alloc, tag, bytes)?;
            Ok((Message::new(alloc, said), rest))
        }
        2 => read_shared(alloc, tag, bytes),
        _ => Err(WireFault::NotAMessage),
    }
}

// What follows where each polynomial is sent once. That a reply is too long has no list.
#[tactic(auto, unfolding(crate::specs::Readers::shared_at), using(crate::proofs::Listed::begins_large))]
fn read_shared(alloc: Global, tag: u8, bytes: &[u8]) -> Result<(Message, &[u8]), WireFault>
    ensures reads { Gives (λ x. ((x.0.version, message_tree x.0), x.1.now)) result (told_at 2 (shared_at tag) bytes.now) }
    ensures spelled { IfOk result (λ x. BeginWith (tag ∷ 2 ∷ bytes.now) x.0.version (message_tree x.0) x.1.now) }
{
    if tag == 2 {
        let (said, rest) = read_large(&InFull, alloc, bytes)?;
        Ok((share(Message::new(alloc, said))?, rest))
    } else {
        read_listed(alloc, tag, bytes)
    }
}

// A list, and what is said by places in it.
#[tactic(auto, unfolding(crate::specs::Readers::listed_at))]
fn read_listed(alloc: Global, tag: u8, bytes: &[u8]) -> Result<(Message, &[u8]), WireFault>
    requires { tag ≢ 2 }
    ensures reads { Gives (λ x. ((x.0.version, message_tree x.0), x.1.now)) result (told_at 2 (listed_at tag) bytes.now) }
    ensures spelled { IfOk result (λ x. BeginWith (tag ∷ 2 ∷ bytes.now) x.0.version (message_tree x.0) x.1.now) }
{
    let (all, rest) = read_items(alloc, u32::MAX, bytes)?;
    let (message, rest) = read_behind(alloc, tag, all, rest)?;
    Ok((message, rest))
}

// What is said by places in a list. It is that of the terms, so no two of it are the same.
#[tactic(auto, using(crate::proofs::Listed::not_listed))]
fn read_behind<'a>(
    alloc: Global,
    tag: u8,
    all: Items<Poly>,
    bytes: &'a [u8],
) -> Result<(Message, &'a [u8]), WireFault>
    ensures reads { Gives (λ x. ((x.0.version, message_tree x.0), x.1.now)) result (told_at 2 (with_terms tag all) bytes.now) }
    ensures spelled { IfOk result (λ x. (x.0.version ≡ 2) × AreFields (by_place all) tag bytes.now (message_tree x.0) x.1.now × (are_terms all (message_tree x.0) ≡ true)) }
{
    let Some(terms) = TermList::new(alloc, all)? else {
        return Err(WireFault::NotAMessage);
    };
    read_by_place(alloc, tag, terms, bytes)
}

// The same, where no two are.
#[tactic(auto, unfolding(crate::specs::Readers::with_terms))]
fn read_by_place<'a>(
    alloc: Global,
    tag: u8,
    terms: TermList,
    bytes: &'a [u8],
) -> Result<(Message, &'a [u8]), WireFault>
    ensures reads { Gives (λ x. ((x.0.version, message_tree x.0), x.1.now)) result (told_at 2 (with_terms tag terms) bytes.now) }
    ensures spelled { IfOk result (λ x. (x.0.version ≡ 2) × AreFields (by_place terms) tag bytes.now (message_tree x.0) x.1.now × (are_terms terms (message_tree x.0) ≡ true)) }
{
    let (said, rest) = read_fields(&terms, alloc, tag, bytes)?;
    let own = has_terms(alloc, &terms, &said)?;
    if own {
        Ok((Message::with_terms(alloc, said, terms), rest))
    } else {
        Err(WireFault::NotAMessage)
    }
}

// Whether these are the terms of what is said.
fn has_terms(alloc: Global, terms: &TermList, said: &Said) -> Result<bool, NoMemory>
    ensures test { IfOk result (λ own. own ≡ are_terms terms.now (said_tree said.now)) }
    ensures own { IfOk result (λ own. own ≡ true → terms.now ≡ terms_of (said_tree said.now)) }
{
    let own = sharing::are_terms(alloc, terms, said)?;
    Ok(own)
}

// By the byte that says which message it is.
#[tactic(auto, unfolding(crate::specs::Readers::fields_at))]
fn read_fields<'a, S: Terms>(
    terms: &S,
    alloc: Global,
    tag: u8,
    bytes: &'a [u8],
) -> Result<(Said, &'a [u8]), WireFault>
    ensures reads { Gives (λ x. (said_tree x.0, x.1.now)) result (fields_at (S.spelling terms.now) tag bytes.now) }
    ensures spelled { IfOk result (λ x. AreFields (S.spelling terms.now) tag bytes.now (said_tree x.0) x.1.now) }
{
    match tag {
        0 => read_request(terms, alloc, bytes),
        1 => read_reply(terms, alloc, bytes),
        2 => read_large(terms, alloc, bytes),
        _ => Err(WireFault::NotAMessage),
    }
}

#[tactic(auto, unfolding(crate::specs::Readers::request_at))]
fn read_request<'a, S: Terms>(
    terms: &S,
    alloc: Global,
    bytes: &'a [u8],
) -> Result<(Said, &'a [u8]), WireFault>
    ensures reads { Gives (λ x. (said_tree x.0, x.1.now)) result (request_at (S.spelling terms.now) bytes.now) }
    ensures spelled { IfOk result (λ x. AreFields (S.spelling terms.now) 0 bytes.now (said_tree x.0) x.1.now) }
{
    let (job, rest) = read_job(terms, alloc, bytes)?;
    if is_job_within(&job) {
        Ok((Said::Request { job }, rest))
    } else {
        Err(WireFault::NotAMessage)
    }
}

#[tactic(auto, unfolding(crate::specs::Readers::reply_at))]
fn read_reply<'a, S: Terms>(
    terms: &S,
    alloc: Global,
    bytes: &'a [u8],
) -> Result<(Said, &'a [u8]), WireFault>
    ensures reads { Gives (λ x. (said_tree x.0, x.1.now)) result (reply_at (S.spelling terms.now) bytes.now) }
    ensures spelled { IfOk result (λ x. AreFields (S.spelling terms.now) 1 bytes.now (said_tree x.0) x.1.now) }
{
    let (ticket, rest) = u64::read(alloc, bytes)?;
    let (kinds, rest) = read_kinds(alloc, rest)?;
    let (table, rest) = read_table(terms, alloc, rest)?;
    let (derivations, rest) = read_items(alloc, u32::MAX, rest)?;
    let reply = Said::Reply {
        ticket,
        kinds,
        table,
        derivations,
    };
    Ok((reply, rest))
}

#[tactic(auto, unfolding(crate::specs::Readers::large_at))]
fn read_large<'a, S: Terms>(
    terms: &S,
    alloc: Global,
    bytes: &'a [u8],
) -> Result<(Said, &'a [u8]), WireFault>
    ensures reads { Gives (λ x. (said_tree x.0, x.1.now)) result (large_at bytes.now) }
    ensures spelled { IfOk result (λ x. AreFields (S.spelling terms.now) 2 bytes.now (said_tree x.0) x.1.now) }
{
    let (ticket, rest) = u64::read(alloc, bytes)?;
    Ok((Said::Large { ticket }, rest))
}

// Kinds that rise.
#[tactic(auto, unfolding(crate::specs::Readers::kinds_at))]
fn read_kinds(alloc: Global, bytes: &[u8]) -> Result<(Items<u8>, &[u8]), WireFault>
    ensures reads { Gives (λ x. (x.0, x.1.now)) result (kinds_at bytes.now) }
    ensures spelled { IfOk result (λ x. (bytes.now ≡ list_bytes u8_bytes x.0 ++ x.1.now) × IsList IsU8 any_number x.0 × (rises x.0 ≡ true)) }
{
    let (kinds, rest): (Items<u8>, &[u8]) = read_items(alloc, u32::MAX, bytes)?;
    if do_kinds_rise(kinds.as_slice()) {
        Ok((kinds, rest))
    } else {
        Err(WireFault::NotAMessage)
    }
}

// A table of a job with any number of block types.
#[tactic(auto, unfolding(crate::specs::Readers::own_table_at))]
fn read_table<'a, S: Terms>(
    terms: &S,
    alloc: Global,
    bytes: &'a [u8],
) -> Result<(Table, &'a [u8]), WireFault>
    ensures reads { Gives (λ x. (x.0, x.1.now)) result (own_table_at (S.spelling terms.now) bytes.now) }
    ensures spelled { IfOk result (λ x. (bytes.now ≡ table_bytes (S.spelling terms.now) x.0 ++ x.1.now) × IsTable (S.spelling terms.now) x.0 × (table_within any_types x.0 ≡ true)) }
{
    let (table, rest) = Table::read_with(terms, alloc, bytes)?;
    if is_table_within(ANY_TYPES, &table) {
        Ok((table, rest))
    } else {
        Err(WireFault::NotAMessage)
    }
}

#[tactic(auto, unfolding(crate::specs::Jobs::job_at, crate::specs::Jobs::limits_at))]
fn read_job<'a, S: Terms>(
    terms: &S,
    alloc: Global,
    bytes: &'a [u8],
) -> Result<(Job, &'a [u8]), WireFault>
    ensures reads { Gives (λ x. (job_tree x.0, x.1.now)) result (job_at (S.spelling terms.now) bytes.now) }
    ensures spelled { IfOk result (λ x. (bytes.now ≡ job_bytes (S.spelling terms.now) (job_tree x.0) ++ x.1.now) × IsJob (S.spelling terms.now) (job_tree x.0)) }
{
    let (proc, rest) = ProcId::read(alloc, bytes)?;
    let (body, rest) = read_body(alloc, rest)?;
    let (types, rest) = read_items(alloc, u32::MAX, rest)?;
    let (callees, rest) = read_items_with(terms, alloc, u32::MAX, rest)?;
    let (numbers, rest) = read_numbers(alloc, rest)?;
    let limits = checked_limits(numbers)?;
    let (kinds, rest) = read_items(alloc, u32::MAX, rest)?;
    let (ticket, rest) = u64::read(alloc, rest)?;
    let job = Job {
        proc,
        body,
        types,
        callees,
        limits,
        kinds,
        ticket,
    };
    Ok((job, rest))
}

// Three numbers, which may be no limits.
#[tactic(auto, unfolding(crate::specs::Jobs::numbers_at))]
fn read_numbers(alloc: Global, bytes: &[u8]) -> Result<((u32, u32, u32), &[u8]), WireFault>
    ensures reads { Gives (λ x. (limits_of x.0.0 x.0.1 x.0.2, x.1.now)) result (numbers_at bytes.now) }
    ensures spelled { IfOk result (λ x. bytes.now ≡ limits_bytes (limits_of x.0.0 x.0.1 x.0.2) ++ x.1.now) }
{
    let (unroll, rest) = u32::read(alloc, bytes)?;
    let (paths, rest) = u32::read(alloc, rest)?;
    let (nodes, rest) = u32::read(alloc, rest)?;
    Ok(((unroll, paths, nodes), rest))
}

// The limits of these numbers.
#[tactic(auto, using(crate::proofs::LimitTest::in_range, crate::proofs::LimitTest::out_of_range))]
fn checked_limits(numbers: (u32, u32, u32)) -> Result<Limits, WireFault>
    ensures { AreLimits (limits_of numbers.0 numbers.1 numbers.2) result }
{
    match Limits::new(numbers.0, numbers.1, numbers.2) {
        Ok(limits) => Ok(limits),
        Err(_) => Err(WireFault::NotAMessage),
    }
}
