ghost use Rattle.std.specs.Prelude.{◌≡◌, ◌∷◌, ◌++◌, [], map, not, ◌&&◌, option_map, List, OnOk, IfOk};
ghost use Rattle.px_real_expressions.specs.Lexemes.{Lexeme};
ghost use Rattle.px_real_declaring.specs.Trees.{specifier_tree, declared_tree};
ghost use Rattle.px_real_types.specs.Scopes.{texts};
ghost use Rattle.px_real_types.specs.Types.{known};
ghost use Rattle.px_real_scopes.specs.Entering as Rules;
ghost use Rattle.px_real_scopes.specs.Views.{member_view};

use crate::known::{declared_known, seen};
use crate::meaning::NamedMember;
use crate::scopes::{Scopes, type_specifier};
use px_real_declaring::{Declared, Specifier};
use px_real_types::{Base, Known, Member, ProfileType, Shape, Texts, declared_name};
use px_syntax::Name;
use px_terms::NoMemory;
use std::alloc::Global;
use std::marker::Model;

/// The members of a struct or union so far.
#[derive(Drop)]
pub struct MemberList {
    items: Vec<NamedMember>,
    // Whether those that have a type of the profile are cells.
    cells: bool,
    // The number of the next cell.
    next: u32,
}

impl Model for MemberList {
    ghost use Rattle.std.specs.Prelude.{◌≡◌, map};
    ghost use Rattle.px_real_scopes.specs.Steps.{MembersTree};
    ghost use Rattle.px_real_scopes.specs.Views.{member_view};
    ghost use Rattle.px_real_scopes.specs.Entering.{cells_among};

    ghost Value = { MembersTree };

    ghost view = { λ m. record { cells = m.cells; members = map member_view m.items.items } };

    ghost invariant = { λ m. m.next ≡ cells_among (map member_view m.items.items) };
}

// How many cells there are with this member.
fn counted(cells: u32, member: Member) -> Result<u32, NoMemory>
    ensures { IfOk result (λ n. n ≡ Rules.counted cells member) }
{
    match member {
        Member::Cell { .. } => cells.checked_add(1).ok_or(NoMemory),
        Member::Other(_) => Ok(cells),
    }
}

// A type of the profile, as what is known.
fn known_kind(kind: ProfileType) -> Known
    ensures { result ≡ known kind }
{
    Known::Seen(Shape::Value {
        base: kind.base,
        stars: kind.stars,
    })
}

// The same member, where it is no cell.
fn no_cell(member: Member) -> Member
    ensures { result ≡ Rules.no_cell member }
{
    match member {
        Member::Cell { kind, .. } => Member::Other(known_kind(kind)),
        Member::Other(known) => Member::Other(known),
    }
}

// The number of a struct or union without a tag.
fn nameless_number(scopes: &Scopes, specifier: &Specifier) -> Option<u32>
    ensures { (all : List Lexeme) → result ≡ Rules.nameless_number scopes.now.bindings (specifier_tree all specifier.now) }
{
    match specifier {
        Specifier::Tagged {
            tag: None,
            site,
            ..
        } => scopes.bindings.place(*site),
        _ => None,
    }
}

// The members of the struct or union that specifiers say, if it has no tag.
fn nameless_members<'a>(scopes: &'a Scopes, specifiers: &[Specifier]) -> Option<&'a [NamedMember]>
    ensures { (all : List Lexeme) → option_map (λ ms. map member_view ms.now) result ≡ Rules.members_without_a_name scopes.entry.now (map (specifier_tree all) specifiers.now) }
{
    let specifier = type_specifier(specifiers)?;
    let number = nameless_number(scopes, specifier)?;
    scopes.members(number)
}

impl MemberList {
    // None, and whether they may be cells. Takes no memory.
    pub fn new(alloc: Global, cells: bool) -> MemberList
        ensures { result ≡ record { cells = cells; members = [] } }
    {
        MemberList {
            items: Vec::new(alloc),
            cells,
            next: 0,
        }
    }

    // All of them.
    pub fn into_members(self) -> Vec<NamedMember>
        ensures { map member_view result.items ≡ self.members }
    {
        let MemberList { items, .. } = self;
        items
    }

    // One more.
    fn push(&mut self, alloc: Global, name: &[u8], member: Member) -> Result<(), NoMemory>
        ensures { OnOk result (self.new ≡ record self.old { members = self.old.members ++ record { name = name.now; member = member } ∷ [] }) }
    {
        let next = counted(self.next, member)?;
        let name = Name::from_slice(alloc, name)?;
        self.items.push(NamedMember { name, member })?;
        self.next = next;
        Ok(())
    }

    // The member of this type, a cell where it may be one.
    fn made(&self, is_field: bool, known: Known) -> Member
        ensures { result ≡ Rules.member_made (self.now.cells && not is_field) (Rules.cells_among self.now.members) known }
    {
        if !self.cells || is_field {
            return Member::Other(known);
        }
        match seen(known).in_profile() {
            Some(kind) => Member::Cell {
                number: self.next,
                kind,
            },
            None => Member::Other(known),
        }
    }

    // What is declared is a member, if it has a name.
    fn add(
        &mut self,
        alloc: Global,
        on: Texts,
        known: Known,
        declared: &Declared,
    ) -> Result<(), NoMemory>
        ensures { OnOk result (self.new ≡ record self.old { members = Rules.with_member self.old.cells known self.old.members (declared_tree (texts on.entry) declared.now) }) }
    {
        match declared_name(&declared.declarator) {
            Some(name) => {
                let known = declared_known(declared, on, known);
                let member = self.made(declared.value.is_some(), known);
                self.push(alloc, name.as_slice(), member)
            }
            None => Ok(()),
        }
    }

    // All that is declared.
    fn add_each(
        &mut self,
        alloc: Global,
        on: Texts,
        known: Known,
        declared: &[Declared],
    ) -> Result<(), NoMemory>
        ensures { OnOk result (self.new ≡ record self.old { members = Rules.with_each self.old.cells known self.old.members (map (declared_tree (texts on.entry)) declared.now) }) }
    {
        for each in declared {
            self.add(alloc, on, known, each)?;
        }
        Ok(())
    }

    // The members of a member that has no name.
    fn add_inherited(&mut self, alloc: Global, members: &[NamedMember]) -> Result<(), NoMemory>
        ensures { OnOk result (self.new ≡ record self.old { members = self.old.members ++ map Rules.inherited (map member_view members.now) }) }
    {
        for each in members {
            self.push(alloc, each.name.as_slice(), no_cell(each.member))?;
        }
        Ok(())
    }

    // Those of the struct or union that specifiers say, if it has no tag.
    fn add_nameless(
        &mut self,
        alloc: Global,
        scopes: &Scopes,
        specifiers: &[Specifier],
    ) -> Result<(), NoMemory>
        ensures { OnOk result ((all : List Lexeme) → self.new ≡ record self.old { members = self.old.members ++ Rules.nameless_members scopes.now (map (specifier_tree all) specifiers.now) }) }
    {
        match nameless_members(scopes, specifiers) {
            Some(members) => self.add_inherited(alloc, members),
            None => Ok(()),
        }
    }

    /// The members that a declaration declares.
    pub fn add_line(
        &mut self,
        alloc: Global,
        scopes: &Scopes,
        on: Texts,
        specifiers: &[Specifier],
        declared: &[Declared],
    ) -> Result<(), NoMemory>
        ensures { OnOk result (self.new ≡ record self.old { members = Rules.with_members self.old.cells scopes.now (map (specifier_tree (texts on.entry)) specifiers.now) self.old.members (map (declared_tree (texts on.entry)) declared.now) }) }
    {
        if declared.is_empty() {
            return self.add_nameless(alloc, scopes, specifiers);
        }
        let known = scopes.specified_known(on, specifiers);
        self.add_each(alloc, on, known, declared)
    }
}
