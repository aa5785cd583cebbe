ghost use Rattle.std.specs.Prelude.{◌≡◌, ◌↔◌, IsOk, IfOk, IfErr};
ghost use Rattle.px_base.specs.LimitNumbers.{LimitNumbers, IsInRange, IsFirstOutOfRange};

use std::marker::Model;
use thiserror::Error;

/// The bounds of an analysis: iterations of a loop, paths of a procedure, nodes of its search.
#[derive(Clone, Copy, Debug, PartialEq, Eq)]
pub struct Limits {
    unroll: u32,
    paths: u32,
    nodes: u32,
}

/// A number of `Limits`.
#[derive(Clone, Copy, Debug, PartialEq, Eq)]
pub enum LimitField {
    Unroll,
    Paths,
    Nodes,
}

/// A number lies outside its range: 1 to 16 iterations, 1 to 128 paths, 1 to 100,000 nodes.
#[derive(Clone, Copy, Debug, PartialEq, Eq, Error)]
#[error("{field:?} is out of range")]
pub struct OutOfRange {
    /// The first such number, in the order of the fields.
    pub field: LimitField,
}

impl Model for Limits {
    ghost Value = { LimitNumbers };

    ghost view = { λ l. record { unroll = l.unroll; paths = l.paths; nodes = l.nodes } };

    ghost invariant = { λ l. IsInRange (record { unroll = l.unroll; paths = l.paths; nodes = l.nodes }) };

    ghost inverse = { λ v. record { unroll = v.unroll; paths = v.paths; nodes = v.nodes } };
}

impl Limits {
    /// The limits of these numbers. Takes no memory.
    pub fn new(unroll: u32, paths: u32, nodes: u32) -> Result<Limits, OutOfRange>
        ensures range { IsOk result ↔ IsInRange (record { unroll = unroll; paths = paths; nodes = nodes }) }
        ensures value { IfOk result (λ l. l ≡ record { unroll = unroll; paths = paths; nodes = nodes }) }
        ensures field { IfErr result (λ e. IsFirstOutOfRange (record { unroll = unroll; paths = paths; nodes = nodes }) e.field) }
    {
        if !(1..=16).contains(&unroll) {
            return Err(OutOfRange {
                field: LimitField::Unroll,
            });
        }
        if !(1..=128).contains(&paths) {
            return Err(OutOfRange {
                field: LimitField::Paths,
            });
        }
        if !(1..=100_000).contains(&nodes) {
            return Err(OutOfRange {
                field: LimitField::Nodes,
            });
        }
        Ok(Limits {
            unroll,
            paths,
            nodes,
        })
    }

    /// How many iterations a loop may make each time that it is entered.
    pub fn unroll(&self) -> u32
        ensures { result ≡ self.now.unroll }
    {
        self.unroll
    }

    /// How many ended paths of a procedure are kept.
    pub fn paths(&self) -> u32
        ensures { result ≡ self.now.paths }
    {
        self.paths
    }

    /// How many nodes of a procedure's search are visited.
    pub fn nodes(&self) -> u32
        ensures { result ≡ self.now.nodes }
    {
        self.nodes
    }
}
