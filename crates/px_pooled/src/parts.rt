ghost use Rattle.std.specs.Prelude.{◌≡◌, ◌↔◌, ◌<◌, ◌≤◌, true, length, map, IfOk};
ghost use Rattle.std.specs.List.{AllByRecursion};
ghost use Rattle.px_base.specs.Bounds.{most_parameters};
ghost use Rattle.px_syntax.specs.ProgramTree.{program_tree};
ghost use Rattle.px_findings.specs.Bodies.{CallsNamed};
ghost use Rattle.px_callgraph.specs.CallGraphs.{bodies_in, IsGraphOf};
ghost use Rattle.px_jobs.specs.Sources.{AreEqualSources};
ghost use Rattle.px_book.specs.Books.{new_book};
ghost use Rattle.px_pooled.specs.Making.{ArePartsOf, sources_in};

use px_base::Limits;
use px_book::Book;
use px_findings::{DeskParts, desk_parts, kinds_of};
use px_pieces::Honesty;
use px_syntax::Program;
use px_terms::{BlockType, Domain, Items, NoMemory};
use std::alloc::Global;
use std::sync::ledger::{Book as Total, Ledger, Share};

/// What a book of a program is made of.
#[derive(Drop)]
pub struct Parts {
    pub desk: DeskParts,
    pub types: Items<BlockType>,
    pub limits: Limits,
    /// The kinds of the domains.
    pub kinds: Items<u8>,
}

/// What a book of this program is made of, within these limits, with the help of these domains.
pub fn parts_of(
    alloc: Global,
    program: &Program,
    limits: Limits,
    domains: &[Box<dyn Domain>],
) -> Result<Parts, NoMemory>
    requires few { AllByRecursion (λ p. length p.parameters ≤ most_parameters) (program_tree program.now).procedures }
    requires named { CallsNamed (program_tree program.now) }
    ensures { IfOk result (λ p. ArePartsOf (program_tree program.now) limits (map (λ b. number b) domains.now) p) }
{
    let desk = desk_parts(alloc, program)?;
    Ok(Parts {
        desk,
        types: program.types.copy(alloc)?,
        limits,
        kinds: kinds_of(alloc, domains)?,
    })
}

/// A new book of these parts.
pub(crate) fn book_of<H: Honesty, L: Ledger>(
    alloc: Global,
    total: Total<L>,
    all: Share<L>,
    parts: Parts,
) -> Result<Book<H, L>, NoMemory>
    requires total { total.total ≡ 0 }
    requires share { all.amount ≡ 0 }
    requires parts { all.parts ≡ L.parts }
    requires enough { parts.desk.kept < L.parts }
    requires bodies { length parts.desk.bodies ≡ parts.desk.kept }
    requires kept { length parts.desk.graph ≡ parts.desk.kept }
    requires graph { IsGraphOf (bodies_in parts.desk.bodies) parts.desk.graph }
    ensures { IfOk result (λ b. b ≡ new_book (sources_in parts) parts.desk.graph) }
{
    let Parts {
        desk,
        types,
        limits,
        kinds,
    } = parts;
    let DeskParts {
        bodies,
        graph,
        kept,
        out,
    } = desk;
    Book::new(
        alloc, total, all, bodies, graph, types, limits, kinds, kept, out,
    )
}

/// Whether a book was made of parts that are equal to these. Takes no memory.
pub(crate) fn agrees<H: Honesty, L: Ledger>(book: &Book<H, L>, parts: &Parts) -> bool
    ensures { (result ≡ true) ↔ (parts.now.desk.kept ≡ length book.now.graph × AreEqualSources book.now.sources (sources_in parts.now)) }
{
    book.agrees(
        parts.desk.bodies.as_slice(),
        parts.types.as_slice(),
        parts.limits,
        parts.kinds.as_slice(),
        parts.desk.kept,
        parts.desk.out.as_slice(),
    )
}
