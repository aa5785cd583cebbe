ghost use Rattle.std.specs.Prelude.{◌≡◌, ◌≢◌, ◌≤◌, ◌↔◌, ◌⊎◌, ℕ, true, [], All, length, map, IfOk, IfNone, IfSome, IsErrOf};
ghost use Rattle.px_base.specs.Bounds.{most_variables};
ghost use Rattle.px_callgraph.specs.JobTree.{JobTree, job_tree};
ghost use Rattle.px_frames.specs.Frames.{most_bytes};
ghost use Rattle.px_wire.specs.Messages.{request, reply, large, IsMessage};
ghost use Rattle.px_wire.specs.Versions.{message_tree, bytes_in, HasVersion, SpellsIn};
ghost use Rattle.px_explore.specs.declared.results.Analysis.{Analysis as AnAnalysis};
ghost use Rattle.px_explore.specs.Own.{IsAnalysis};
ghost use Rattle.px_worker.specs.declared.owed.NotOwed.TheVariants as why;
ghost use Rattle.px_worker.specs.Answers.{AsksIn, in_frame, IsOwed};

use px_callgraph::Job;
use px_explore::analyse;
use px_frames::MOST_BYTES;
use px_spelling::WireFault;
use px_terms::{Domain, NoMemory};
use px_wire::{Message, SHARED, Said, decode, is_in_range, one_spelling, share};
use std::alloc::Global;

/// Why nothing is owed for a message, or not known what.
#[derive(Clone, Copy)]
pub(crate) enum NotOwed {
    /// It is no request of a known version.
    NoRequest,
    /// It is a request with other kinds than the domains.
    OtherKinds,
    /// What was found is out of range, so that its bytes would spell no message. Of no job is this known.
    OutOfRange,
    NoMemory,
}

impl From<NoMemory> for NotOwed {
    ghost from_gives = { λ _ e. e ≡ why.NoMemory };

    fn from(_: NoMemory) -> NotOwed {
        NotOwed::NoMemory
    }
}

/// A message that is owed, and how many bytes it has.
#[derive(Drop)]
pub(crate) struct CountedMessage {
    pub(crate) message: Message,
    pub(crate) count: u32,
}

// What a request asks for.
#[derive(Drop)]
struct Asked {
    // In which it is asked.
    version: u8,
    job: Job,
}

/// The message that is owed for one, by who knows the versions from 1 to this one. The domains hold nothing, before and after.
pub(crate) fn owed(
    alloc: Global,
    known: u8,
    message: &[u8],
    domains: &mut Vec<Box<dyn Domain>>,
) -> Result<CountedMessage, NotOwed>
    requires message { length message.now ≤ most_bytes }
    requires clear { All (λ b. holds b []) domains.old.items }
    ensures owed { IfOk result (λ o. IsOwed known (map (λ b. number b) domains.old.items) message.now (bytes_in o.message.version (message_tree o.message))) }
    ensures counted { IfOk result (λ o. o.count ≡ length (bytes_in o.message.version (message_tree o.message))) }
    ensures short { IfOk result (λ o. o.count ≤ most_bytes) }
    ensures no_request { IsErrOf result why.NoRequest → (j : JobTree) → ¬ AsksIn known message.now j }
    ensures others { IsErrOf result why.OtherKinds → (j : JobTree) × AsksIn known message.now j × (j.kinds ≢ map (λ b. number b) domains.old.items) }
    ensures out { IsErrOf result why.OutOfRange → (version : ℕ) × (j : JobTree) × (a : AnAnalysis) × (version ≤ known) × SpellsIn version message.now (request j) × IsAnalysis j a × (¬ (IsMessage (reply j.ticket j.kinds a.table a.derivations) × HasVersion version (reply j.ticket j.kinds a.table a.derivations))) }
    ensures clear { All (λ b. holds b []) domains.new.items }
    ensures kinds { map (λ b. number b) domains.new.items ≡ map (λ b. number b) domains.old.items }
{
    let asked = request_in(alloc, known, message)?;
    let job = asked.job;
    if !are_kinds(domains, job.kinds.as_slice()) {
        return Err(NotOwed::OtherKinds);
    }
    let found = analyse(alloc, &job, domains)?;
    let ticket = job.ticket;
    let reply = Said::Reply {
        ticket,
        kinds: job.kinds,
        table: found.table,
        derivations: found.derivations,
    };
    let reply = in_version(alloc, asked.version, reply)?;
    if !is_in_range(&reply) {
        return Err(NotOwed::OutOfRange);
    }
    let answer = fitted(alloc, reply, ticket)?;
    Ok(answer)
}

// What a message asks for, in a version up to this one.
fn request_in(alloc: Global, known: u8, message: &[u8]) -> Result<Asked, NotOwed>
    ensures asks { IfOk result (λ a. SpellsIn a.version message.now (request (job_tree a.job))) }
    ensures is_known { IfOk result (λ a. a.version ≤ known) }
    ensures one_or_two { IfOk result (λ a. (a.version ≡ 1) ⊎ (a.version ≡ 2)) }
    ensures few { IfOk result (λ a. length a.job.body.parameters ≤ most_variables) }
    ensures no_request { IsErrOf result why.NoRequest → (j : JobTree) → ¬ AsksIn known message.now j }
    ensures own_kinds { ¬ IsErrOf result why.OtherKinds }
    ensures within { ¬ IsErrOf result why.OutOfRange }
{
    one_spelling();
    match decode(alloc, message) {
        Ok(sent) => match asked_by(known, sent) {
            Some(asked) => Ok(asked),
            None => Err(NotOwed::NoRequest),
        },
        Err(WireFault::NotAMessage) => Err(NotOwed::NoRequest),
        Err(WireFault::NoMemory) => Err(NotOwed::NoMemory),
    }
}

// What is asked for, if it is, in a version up to this one.
fn asked_by(known: u8, message: Message) -> Option<Asked>
    ensures asks { IfSome result (λ a. message_tree message ≡ request (job_tree a.job)) }
    ensures version { IfSome result (λ a. a.version ≡ message.version) }
    ensures is_known { IfSome result (λ a. a.version ≤ known) }
    ensures none { IfNone result ((j : JobTree) → message.version ≤ known → message_tree message ≢ request j) }
{
    let version = message.version();
    if version > known {
        return None;
    }
    match message.into_said() {
        Said::Request { job } => Some(Asked { version, job }),
        Said::Reply { .. } => None,
        Said::Large { .. } => None,
    }
}

// What is said, in one of the two versions.
fn in_version(alloc: Global, version: u8, said: Said) -> Result<Message, NoMemory>
    requires { (version ≡ 1) ⊎ (version ≡ 2) }
    ensures { IfOk result (λ m. m ≡ record { version = version; said = said }) }
{
    let message = Message::new(alloc, said);
    if version == SHARED {
        share(message)
    } else {
        Ok(message)
    }
}

/// Whether these are the numbers of the domains, in order. Takes no memory.
pub fn are_kinds(domains: &[Box<dyn Domain>], kinds: &[u8]) -> bool
    ensures { result ≡ true ↔ kinds.now ≡ map (λ b. number b) domains.now }
{
    if domains.len() != kinds.len() {
        return false;
    }
    for i in 0..domains.len() {
        if number_of(&domains[i]) != kinds[i] {
            return false;
        }
    }
    true
}

/// Whether none of the domains holds a conjunct. Takes no memory.
pub fn are_clear(domains: &[Box<dyn Domain>]) -> bool
    ensures { result ≡ true ↔ All (λ b. holds b []) domains.now }
{
    for i in 0..domains.len() {
        if !is_clear(&domains[i]) {
            return false;
        }
    }
    true
}

fn is_clear(domain: &Box<dyn Domain>) -> bool
    ensures { result ≡ true ↔ holds domain.now [] }
{
    domain.is_clear()
}

fn number_of(domain: &Box<dyn Domain>) -> u8
    ensures { result ≡ number domain.now }
{
    domain.kind()
}

// A reply to a job with this ticket, or, in its version, that it is too long for a frame, which takes ten bytes.
fn fitted(alloc: Global, reply: Message, ticket: u64) -> Result<CountedMessage, NoMemory>
    requires { (reply.version ≡ 1) ⊎ (reply.version ≡ 2) }
    ensures bytes { IfOk result (λ o. bytes_in o.message.version (message_tree o.message) ≡ in_frame (bytes_in reply.version (message_tree reply)) (bytes_in reply.version (large ticket))) }
    ensures counted { IfOk result (λ o. o.count ≡ length (bytes_in o.message.version (message_tree o.message))) }
    ensures short { IfOk result (λ o. o.count ≤ most_bytes) }
{
    let count = px_wire::length(&reply);
    if count > MOST_BYTES as u64 {
        let message = in_version(alloc, reply.version(), Said::Large { ticket })?;
        return Ok(CountedMessage { message, count: 10 });
    }
    Ok(CountedMessage {
        message: reply,
        count: count as u32,
    })
}
