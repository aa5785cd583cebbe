ghost use Rattle.std.specs.Prelude.{◌≡◌, ◌++◌, ◌∷◌, [], map, filter, flat_map, IfOk, OnOk};
ghost use Rattle.std.specs.List.{list_any};
ghost use Rattle.px_check.specs.Answers.{entry_of};
ghost use Rattle.px_text_report.specs.Known.{known_of, known};
ghost use Rattle.px_text_report.specs.Firsts.{others};
ghost use Rattle.px_text_report.specs.Bugs.{same_site};
ghost use Rattle.px_leak.specs.Losses as losses;
ghost use Rattle.px_leak.specs.Leaks as spec;

use crate::got::GotBlock;
use crate::losses::lost_blocks;
use px_base::{Mark, ProcId, Site};
use px_check::Checked;
use px_entry::Entry;
use px_pieces::{Findings, Part};
use px_terms::{Items, NoMemory};
use px_text_report::is_same_site;
use std::alloc::Global;

/// Blocks that an execution of a procedure loses.
#[derive(Drop)]
pub struct Leak {
    pub proc: ProcId,
    /// Where one of them was got.
    pub site: Site,
    /// That of the whole execution, which returns.
    pub trace: Items<Mark>,
    /// How many blocks it loses, at this site and others.
    pub blocks: u32,
}

/// The leaks that findings show: for each kept procedure, and for each site, that of the first of its entries that loses a block
/// which was got there, and not in a call of a procedure that leaks there too.
pub fn leaks(alloc: Global, findings: &Findings) -> Result<Vec<Leak>, NoMemory>
    ensures { IfOk result (λ leaks. leaks.items ≡ spec.all_leaks (known findings.now)) }
{
    let parts = findings.parts();
    let sites = all_sites(alloc, parts)?;
    outer_leaks(alloc, &sites, parts)
}

// The sites at which each kept procedure leaks.
fn all_sites(alloc: Global, parts: &[Part]) -> Result<Vec<Items<Site>>, NoMemory>
    ensures { IfOk result (λ v. v.items ≡ map spec.leak_sites (map known_of parts.now)) }
{
    let mut all = Vec::new(alloc);
    for part in parts {
        all.push(sites_of(alloc, part)?)?;
    }
    Ok(all)
}

// Those of one.
fn sites_of(alloc: Global, part: &Part) -> Result<Items<Site>, NoMemory>
    ensures { IfOk result (λ sites. sites ≡ spec.leak_sites (known_of part.now)) }
{
    match part {
        Part::Tabled { checked, .. } => table_sites(alloc, checked.as_slice()),
        Part::LeftOut => Ok(Items::new(alloc)),
    }
}

// Those of a table, each once.
fn table_sites(alloc: Global, checked: &[Checked]) -> Result<Items<Site>, NoMemory>
    ensures { IfOk result (λ sites. sites ≡ spec.table_sites (map entry_of checked.now)) }
{
    let mut sites = Vec::new(alloc);
    for one in checked {
        put_sites(alloc, &mut sites, one)?;
    }
    Ok(Items::from_vec(sites))
}

// Adds those of an entry that aren't there.
fn put_sites(alloc: Global, sites: &mut Vec<Site>, checked: &Checked) -> Result<(), NoMemory>
    ensures { OnOk result (sites.new.items ≡ sites.old.items ++ others same_site sites.old.items (map (λ g. g.site) (losses.lost_blocks (entry_of checked.now)))) }
{
    let lost = lost_blocks(alloc, checked)?;
    put_each(sites, lost.as_slice())
}

// Adds those of blocks that aren't there.
fn put_each(sites: &mut Vec<Site>, lost: &[GotBlock]) -> Result<(), NoMemory>
    ensures { OnOk result (sites.new.items ≡ sites.old.items ++ others same_site sites.old.items (map (λ g. g.site) lost.now)) }
{
    for block in lost {
        put_site(sites, block)?;
    }
    Ok(())
}

// Adds the site of a block, if it isn't there.
fn put_site(sites: &mut Vec<Site>, block: &GotBlock) -> Result<(), NoMemory>
    ensures { OnOk result (sites.new.items ≡ sites.old.items ++ others same_site sites.old.items (block.now.site ∷ [])) }
{
    if !has_site(sites, block.site) {
        sites.push(block.site)?;
    }
    Ok(())
}

// Whether a site is one of these. Takes no memory.
fn has_site(sites: &[Site], site: Site) -> bool
    ensures { result ≡ list_any (same_site site) sites.now }
{
    sites.iter().any(|other| is_same_site(site, *other))
}

// The leaks of each kept procedure that aren't inner by these sites of each.
fn outer_leaks(alloc: Global, sites: &[Items<Site>], parts: &[Part]) -> Result<Vec<Leak>, NoMemory>
    ensures { IfOk result (λ leaks. leaks.items ≡ flat_map (spec.leaks_of sites.now) (map known_of parts.now)) }
{
    let mut leaks = Vec::new(alloc);
    for part in parts {
        put_part(alloc, &mut leaks, sites, part)?;
    }
    Ok(leaks)
}

// Adds those of one.
fn put_part(
    alloc: Global,
    leaks: &mut Vec<Leak>,
    sites: &[Items<Site>],
    part: &Part,
) -> Result<(), NoMemory>
    ensures { OnOk result (leaks.new.items ≡ leaks.old.items ++ spec.leaks_of sites.now (known_of part.now)) }
{
    if let Part::Tabled { checked, .. } = part {
        let mut more = table_leaks(alloc, sites, checked.as_slice())?;
        leaks.append(&mut more)?;
    }
    Ok(())
}

// Those of a table.
fn table_leaks(
    alloc: Global,
    sites: &[Items<Site>],
    checked: &[Checked],
) -> Result<Vec<Leak>, NoMemory>
    ensures { IfOk result (λ leaks. leaks.items ≡ spec.table_leaks sites.now (map entry_of checked.now)) }
{
    let mut leaks = Vec::new(alloc);
    for one in checked {
        put_entry(alloc, &mut leaks, sites, one)?;
    }
    Ok(leaks)
}

// Adds the leaks of an entry that aren't inner, for each site at which none is there.
fn put_entry(
    alloc: Global,
    leaks: &mut Vec<Leak>,
    sites: &[Items<Site>],
    checked: &Checked,
) -> Result<(), NoMemory>
    ensures { OnOk result (leaks.new.items ≡ leaks.old.items ++ others spec.same_leak leaks.old.items (spec.outer_leaks sites.now (entry_of checked.now))) }
{
    let lost = lost_blocks(alloc, checked)?;
    let entry = checked.entry();
    let blocks = counted(lost.len());
    put_leaks(alloc, leaks, sites, entry, blocks, lost.as_slice())
}

// Adds those at the sites of these blocks.
fn put_leaks(
    alloc: Global,
    leaks: &mut Vec<Leak>,
    sites: &[Items<Site>],
    entry: &Entry,
    blocks: u32,
    lost: &[GotBlock],
) -> Result<(), NoMemory>
    ensures { OnOk result (leaks.new.items ≡ leaks.old.items ++ others spec.same_leak leaks.old.items (map (spec.leak_at entry.now blocks) (filter (spec.is_outer sites.now) lost.now))) }
{
    for block in lost {
        put_leak(alloc, leaks, sites, entry, blocks, block)?;
    }
    Ok(())
}

// How many blocks are lost.
fn counted(number: usize) -> u32
    ensures { result ≡ spec.counted number }
{
    if number < u32::MAX as usize {
        number as u32
    } else {
        u32::MAX
    }
}

// Adds the leak of an entry at the site of a block, where it isn't inner, and none is there for the site.
fn put_leak(
    alloc: Global,
    leaks: &mut Vec<Leak>,
    sites: &[Items<Site>],
    entry: &Entry,
    blocks: u32,
    block: &GotBlock,
) -> Result<(), NoMemory>
    ensures { OnOk result (leaks.new.items ≡ leaks.old.items ++ others spec.same_leak leaks.old.items (map (spec.leak_at entry.now blocks) (filter (spec.is_outer sites.now) (block.now ∷ [])))) }
{
    if is_inner(sites, block) || has_leak(leaks, block.site) {
        return Ok(());
    }
    leaks.push(leak_with(alloc, entry, blocks, block.site)?)?;
    Ok(())
}

// The leak of an entry at a site.
fn leak_with(alloc: Global, entry: &Entry, blocks: u32, site: Site) -> Result<Leak, NoMemory>
    ensures { IfOk result (λ leak. leak ≡ record { proc = entry.now.proc; site = site; trace = entry.now.trace; blocks = blocks }) }
{
    Ok(Leak {
        proc: entry.proc,
        site,
        trace: Items::from_slice(alloc, entry.trace.as_slice())?,
        blocks,
    })
}

// Whether a block was got in a call of a procedure that leaks at its site.
fn is_inner(sites: &[Items<Site>], block: &GotBlock) -> bool
    ensures { result ≡ spec.leaks_there sites.now block.now.site block.now.call }
{
    let Some(callee) = block.call else {
        return false;
    };
    match sites.get(callee.0 as usize) {
        Some(of_callee) => has_site(of_callee.as_slice(), block.site),
        None => false,
    }
}

// Whether one of these leaks is at a site.
fn has_leak(leaks: &[Leak], site: Site) -> bool
    ensures { result ≡ list_any (λ l. same_site site l.site) leaks.now }
{
    leaks.iter().any(|leak| is_same_site(site, leak.site))
}
