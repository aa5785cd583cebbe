ghost use Rattle.std.specs.Prelude.{◌≡◌, ◌↔◌, ℕ, [], true, cond, length, Option as OptionOf, Some, IfOk, OnErr};
ghost use Rattle.px_core.specs.BodyTree.{BodyTree};
ghost use Rattle.px_callgraph.specs.CallGraphs.{IsGraphOf};
ghost use Rattle.px_pieces.specs.declared.desk.Event.TheVariants as event;
ghost use Rattle.px_pieces.specs.Desk.{is_of_desk, IsHeldUnder, IsLegal};
ghost use Rattle.px_book.specs.Rolls.{desk_of, no_bodies, statuses_of, roll_after, IsNext, claimed, AllSettled};

use crate::callers::callers_in;
use crate::held::{held_under, release, some_held, status_in};
use crate::ready::{Ready, next_in};
use crate::statuses::{first_statuses, move_to, none_unsettled, settle};
use px_base::ProcId;
use px_callgraph::Graph;
use px_components::Graph as Edges;
use px_pieces::{Event, Lost, Status, Who};
use px_terms::{Items, NoMemory};
use std::alloc::Global;
use std::marker::Model;

/// The procedures of a desk, where each stands, and what happened so far. Each call adds one event at most, and each
/// event may come where it stands; the present statuses are kept, and the events never read again.
///
/// The next to be claimed is found without a pass over all procedures. Over a whole run the work is linear in the
/// procedures and calls, but for one look at each 32nd procedure a claim.
#[derive(Drop)]
pub struct Roll {
    graph: Graph,
    callers: Edges,
    out: Items<ProcId>,
    statuses: Vec<Option<Status>>,
    ready: Ready,
    // What is held; the history has room for one event more of each.
    held: Vec<ProcId>,
    history: Vec<Event>,
}

impl Model for Roll {
    ghost use Rattle.std.specs.Prelude.{◌+◌, ◌≤◌, length};
    ghost use Rattle.std.specs.Vec.{vec_len, vec_capacity};
    ghost use Rattle.px_book.specs.Rolls.{RollParts};

    ghost Value = { RollParts };

    ghost use Rattle.px_book.specs.RollKeeping.{IsKept};

    ghost view = { λ r. record { graph = r.graph; out = r.out; history = r.history.items } };

    ghost invariant = { λ r. IsKept r.graph r.callers r.out r.statuses.items r.ready r.held.items r.history.items × (vec_len r.history + length r.held.items ≤ vec_capacity r.history) };
}

impl Roll {
    /// The desk of the procedures of a graph, but those that are left out. Nothing happened yet.
    pub fn new(alloc: Global, graph: Graph, kept: u32, out: Items<ProcId>) -> Result<Roll, NoMemory>
        requires { length graph ≡ kept }
        ensures { IfOk result (λ r. r ≡ record { graph = graph; out = out; history = [] }) }
    {
        let callers = callers_in(alloc, &graph, kept)?;
        let statuses = first_statuses(alloc, kept, out.as_slice())?;
        let ready = Ready::new(alloc, &graph, kept, &statuses)?;
        Ok(Roll {
            graph,
            callers,
            out,
            statuses,
            ready,
            held: Vec::new(alloc),
            history: Vec::new(alloc),
        })
    }

    /// What the procedures call. Takes no memory.
    pub fn graph(&self) -> &Graph
        ensures { result.now ≡ self.now.graph }
    {
        &self.graph
    }

    /// What is left out. Takes no memory.
    pub fn out(&self) -> &[ProcId]
        ensures { result.now ≡ self.now.out }
    {
        self.out.as_slice()
    }

    /// The events, from the first to the last. Takes no memory.
    pub fn history(&self) -> &[Event]
        ensures events { result.now ≡ self.now.history }
        ensures legal { (bodies : ℕ → OptionOf BodyTree) → IsGraphOf bodies self.now.graph → IsLegal (desk_of bodies self.now) self.now.history }
    {
        &self.history
    }

    /// Where a procedure stands: nowhere, if it isn't of the desk. Takes no memory.
    pub fn status(&self, proc: ProcId) -> Option<Status>
        ensures { result ≡ statuses_of self.now proc.0 }
    {
        status_in(&self.statuses, proc)
    }

    /// Where a procedure of the desk stands. Takes no memory.
    pub fn standing(&self, proc: ProcId) -> &Status
        requires { is_of_desk (desk_of no_bodies self.now) proc.0 ≡ true }
        ensures { statuses_of self.now proc.0 ≡ Some result.now }
    {
        let Some(status) = &self.statuses[proc.0 as usize] else {
            unreachable!()
        };
        status
    }

    /// The procedure that this one would be given. Takes no memory.
    pub fn next(&self, who: Who) -> Option<ProcId>
        ensures { (bodies : ℕ → OptionOf BodyTree) → IsGraphOf bodies self.now.graph → IsNext (desk_of bodies self.now) (statuses_of self.now) who result }
    {
        next_in(&self.ready, who)
    }

    /// Gives the next procedure to this one, who holds it then under a ticket: the number of events before. Makes the
    /// room that its later event needs.
    ///
    /// After `NoMemory` nothing has changed. It also comes where the procedure was lost 2^32 - 1 times.
    pub fn claim(&mut self, who: Who) -> Result<Option<ProcId>, NoMemory>
        ensures next { IfOk result (λ p. (bodies : ℕ → OptionOf BodyTree) → IsGraphOf bodies self.old.graph → IsNext (desk_of bodies self.old) (statuses_of self.old) who p) }
        ensures claimed { IfOk result (λ p. self.new ≡ claimed self.old who p) }
        ensures err { OnErr result (self.new ≡ self.old) }
    {
        let Some(proc) = next_in(&self.ready, who) else {
            return Ok(None);
        };
        let Some(Status::Waiting { losses }) = status_in(&self.statuses, proc) else {
            unreachable!()
        };
        if losses >= u32::MAX {
            return Err(NoMemory);
        }
        self.held.reserve(1)?;
        self.history.reserve(self.held.len() + 2)?;
        let ticket = self.history.len() as u64;
        let status = Status::Held {
            ticket,
            who,
            losses,
        };
        self.held.push_reserved(proc);
        move_to(
            &self.graph,
            &mut self.statuses,
            &mut self.ready,
            proc,
            status,
        );
        self.history.push_reserved(Event::Claim(who, proc));
        Ok(Some(proc))
    }

    /// Settles a procedure, if it is held under this ticket; else nothing changes. Takes no memory.
    pub fn publish(&mut self, ticket: u64, proc: ProcId) -> bool
        ensures held { (result ≡ true) ↔ IsHeldUnder (statuses_of self.old) ticket proc.0 }
        ensures published { self.new ≡ cond result (roll_after self.old (event.Publish ticket)) self.old }
    {
        let Some(
            Status::Held {
                ticket: given,
                who,
                ..
            },
        ) = status_in(&self.statuses, proc)
        else {
            return false;
        };
        if given != ticket {
            return false;
        }
        release(&mut self.held, proc);
        settle(
            &self.graph,
            &self.callers,
            &mut self.statuses,
            &mut self.ready,
            proc,
            Status::Settled { ticket, who },
        );
        self.history.push_reserved(Event::Publish(ticket));
        true
    }

    /// Lets the procedure that is held under this ticket wait again, if there is one; else nothing changes. Takes no
    /// memory.
    pub fn lose(&mut self, ticket: u64, why: Lost) -> bool
        ensures held { (result ≡ true) ↔ ((f : ℕ) × IsHeldUnder (statuses_of self.old) ticket f) }
        ensures lost { self.new ≡ cond result (roll_after self.old (event.Lose ticket why)) self.old }
    {
        let Some(proc) = held_under(&self.statuses, &self.held, ticket) else {
            return false;
        };
        let Some(Status::Held { losses, .. }) = status_in(&self.statuses, proc) else {
            unreachable!()
        };
        release(&mut self.held, proc);
        let status = Status::Waiting { losses: losses + 1 };
        move_to(
            &self.graph,
            &mut self.statuses,
            &mut self.ready,
            proc,
            status,
        );
        self.history.push_reserved(Event::Lose(ticket, why));
        true
    }

    /// Whether some procedure is held. Takes no memory.
    pub fn is_held(&self) -> bool
        ensures { (result ≡ true) ↔ ((ticket f : ℕ) × IsHeldUnder (statuses_of self.now) ticket f) }
    {
        some_held(&self.statuses, &self.held)
    }

    /// Whether all procedures of the desk are settled. One pass over all. Takes no memory.
    pub fn is_done(&self) -> bool
        ensures { (result ≡ true) ↔ AllSettled self.now }
    {
        none_unsettled(&self.statuses)
    }

    /// The events. Takes no memory.
    pub fn into_history(self) -> Items<Event>
        ensures { result ≡ self.history }
    {
        Items::from_vec(self.history)
    }
}
