ghost use Rattle.std.specs.Prelude.{◌≡◌, ◌++◌, ◌∷◌, [], map, option_to_list, IfOk, OnOk};
ghost use Rattle.std.specs.List.{list_any};
ghost use Rattle.px_check.specs.Answers.{entry_of};
ghost use Rattle.px_text_report.specs.Known.{known_of};
ghost use Rattle.px_text_report.specs.Firsts.{others};
ghost use Rattle.px_text_report.specs.Faults as spec;
ghost use Rattle.px_text_report.specs.Bugs as bugs;

use px_base::{Kind, Site};
use px_check::Checked;
use px_entry::Exit;
use px_manifest::looks_manifest;
use px_pieces::Part;
use px_terms::{Items, NoMemory};
use std::alloc::Global;

/// A memory error, and where it is.
#[derive(Clone, Copy)]
pub(crate) struct Fault {
    pub(crate) kind: Kind,
    pub(crate) site: Site,
}

/// The errors of the entries that look manifest, of each kept procedure.
pub(crate) fn all_faults(alloc: Global, parts: &[Part]) -> Result<Vec<Items<Fault>>, NoMemory>
    ensures { IfOk result (λ v. v.items ≡ spec.all_faults (map known_of parts.now)) }
{
    let mut all = Vec::new(alloc);
    for part in parts {
        all.push(faults_of(alloc, part)?)?;
    }
    Ok(all)
}

// Those of a procedure.
fn faults_of(alloc: Global, part: &Part) -> Result<Items<Fault>, NoMemory>
    ensures { IfOk result (λ faults. faults ≡ spec.faults_of (known_of part.now)) }
{
    match part {
        Part::Tabled { checked, .. } => table_faults(alloc, checked.as_slice()),
        Part::LeftOut => Ok(Items::new(alloc)),
    }
}

// Those of a table, each once.
fn table_faults(alloc: Global, checked: &[Checked]) -> Result<Items<Fault>, NoMemory>
    ensures { IfOk result (λ faults. faults ≡ spec.table_faults (map entry_of checked.now)) }
{
    let mut faults = Vec::new(alloc);
    for one in checked {
        put_fault(&mut faults, fault_of(one))?;
    }
    Ok(Items::from_vec(faults))
}

// Adds an error that isn't there.
fn put_fault(faults: &mut Vec<Fault>, fault: Option<Fault>) -> Result<(), NoMemory>
    ensures { OnOk result (faults.new.items ≡ faults.old.items ++ others spec.same_fault faults.old.items (option_to_list fault)) }
{
    if let Some(fault) = fault {
        if !has_fault(faults, fault) {
            faults.push(fault)?;
        }
    }
    Ok(())
}

/// The error of an entry that looks manifest. Takes no memory.
pub(crate) fn fault_of(checked: &Checked) -> Option<Fault>
    ensures { option_to_list result ≡ spec.fault_of (entry_of checked.now) }
{
    if !looks_manifest(checked) {
        return None;
    }
    match checked.entry().exit {
        Exit::Ok => None,
        Exit::Error(kind, site) => Some(Fault { kind, site }),
    }
}

/// Whether an error is one of these. Takes no memory.
pub(crate) fn has_fault(faults: &[Fault], fault: Fault) -> bool
    ensures { result ≡ list_any (spec.same_fault fault) faults.now }
{
    faults.iter().any(|other| is_same_fault(fault, *other))
}

/// Whether they are of the same kind at the same site. Takes no memory.
pub(crate) fn is_same_fault(a: Fault, b: Fault) -> bool
    ensures { result ≡ spec.same_fault a b }
{
    is_same_kind(a.kind, b.kind) && is_same_site(a.site, b.site)
}

fn is_same_kind(a: Kind, b: Kind) -> bool
    ensures { result ≡ bugs.same_kind a b }
{
    a == b
}

/// Whether they are the same place of the same file. Takes no memory.
pub fn is_same_site(a: Site, b: Site) -> bool
    ensures { result ≡ bugs.same_site a b }
{
    a.file == b.file && a.line == b.line && a.column == b.column
}
