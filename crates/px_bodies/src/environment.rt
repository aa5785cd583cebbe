ghost use Rattle.std.specs.Prelude.{◌≡◌, OnOk, OnErr, option_map};
ghost use Rattle.px_bodies.specs.Environment.{environment_of, empty_environment, with_struct, with_signature, with_type_number, with_proc_number, signature_of, fields_of};
ghost use Rattle.px_bodies.specs.Environment.{type_id, proc_id, value_type};
ghost use Rattle.px_bodies.specs.Typed.{declared_fields, field_named, is_block};
ghost use Rattle.px_bodies.specs.Lent.{type_of, prototype_seen, field_seen};
ghost use Rattle.px_bodies.specs.Outcomes.{Yields};

use crate::CType;
use crate::fields::{Field, find_field};
use crate::refusal::Refusal;
use indexmap::IndexMap;
use px_base::ProcId;
use px_syntax::{FieldDeclaration, Name, Parameter, ResultType};
use px_terms::{NoMemory, TypeId, ValueType};
use std::alloc::Global;
use std::marker::Model;

/// What the declaration of a function says, lent.
#[derive(Clone, Copy)]
pub struct Prototype<'a> {
    pub result: &'a ResultType,
    pub parameters: &'a [Parameter],
}

/// What a function's body sees of its program, lent from the trees of its items: the structs that are
/// defined, the signatures, and the numbers that typed trees have for block types and functions.
///
/// Each look-up takes constant time, but for the search through the fields of one struct.
#[derive(Drop)]
pub struct Environment<'a> {
    structs: IndexMap<&'a [u8], &'a [FieldDeclaration]>,
    signatures: IndexMap<&'a [u8], Prototype<'a>>,
    types: IndexMap<CType<'a>, u32>,
    procs: IndexMap<&'a [u8], u32>,
}

impl<'a> Model for Environment<'a> {
    ghost use Rattle.std.specs.Prelude.{map};
    ghost use Rattle.px_bodies.specs.Environment.{Tables};
    ghost use Rattle.px_bodies.specs.Lent.{lent_struct, lent_signature, lent_type, lent_name};

    ghost Value = { Tables };

    ghost view = { λ e. record { structs = map lent_struct e.structs.entries; signatures = map lent_signature e.signatures.entries; types = map lent_type e.types.entries; procs = map lent_name e.procs.entries } };
}

impl<'a> Environment<'a> {
    /// An environment in which nothing is declared. Takes no memory.
    pub fn new(alloc: Global) -> Environment<'a>
        ensures { environment_of result ≡ empty_environment }
    {
        Environment {
            structs: IndexMap::new(alloc),
            signatures: IndexMap::new(alloc),
            types: IndexMap::new(alloc),
            procs: IndexMap::new(alloc),
        }
    }

    /// Defines a struct, in place of an earlier one of this tag.
    pub fn add_struct(
        &mut self,
        tag: &'a Name,
        fields: &'a [FieldDeclaration],
    ) -> Result<(), NoMemory>
        ensures ok { OnOk result (environment_of self.new ≡ with_struct (environment_of self.old) tag.now (fields_of fields.now)) }
        ensures err { OnErr result (environment_of self.new ≡ environment_of self.old) }
    {
        self.structs.insert(tag.as_slice(), fields)?;
        Ok(())
    }

    /// Declares a function, in place of an earlier declaration of this name.
    pub fn add_signature(
        &mut self,
        name: &'a Name,
        returns: &'a ResultType,
        parameters: &'a [Parameter],
    ) -> Result<(), NoMemory>
        ensures ok { OnOk result (environment_of self.new ≡ with_signature (environment_of self.old) name.now (signature_of returns.now parameters.now)) }
        ensures err { OnErr result (environment_of self.new ≡ environment_of self.old) }
    {
        self.signatures.insert(
            name.as_slice(),
            Prototype {
                result: returns,
                parameters,
            },
        )?;
        Ok(())
    }

    /// Numbers a block type. A type that has no number counts as 0.
    pub fn number_type(&mut self, of: CType<'a>, number: TypeId) -> Result<(), NoMemory>
        ensures ok { OnOk result (environment_of self.new ≡ with_type_number (environment_of self.old) (type_of of.entry) number.0) }
        ensures err { OnErr result (environment_of self.new ≡ environment_of self.old) }
    {
        self.types.insert(of, number.0)?;
        Ok(())
    }

    /// Numbers the name of a function. A name that has no number counts as 0.
    pub fn number_name(&mut self, name: &'a Name, number: ProcId) -> Result<(), NoMemory>
        ensures ok { OnOk result (environment_of self.new ≡ with_proc_number (environment_of self.old) name.now number.0) }
        ensures err { OnErr result (environment_of self.new ≡ environment_of self.old) }
    {
        self.procs.insert(name.as_slice(), number.0)?;
        Ok(())
    }

    /// The signature of a function's name. Takes no memory.
    pub fn signature(&self, name: &Name) -> Option<Prototype<'a>>
        ensures { option_map prototype_seen result ≡ (environment_of self.now).signature name.now }
    {
        self.signatures.get(name.as_slice()).copied()
    }

    pub(crate) fn type_id(&self, of: CType<'a>) -> TypeId
        ensures { result ≡ type_id (environment_of self.now) (type_of of.entry) }
    {
        TypeId(self.types.get(&of).copied().unwrap_or(0))
    }

    /// The number of a function's name. Takes no memory.
    pub fn proc_id(&self, name: &Name) -> ProcId
        ensures { result ≡ proc_id (environment_of self.now) name.now }
    {
        ProcId(self.procs.get(name.as_slice()).copied().unwrap_or(0))
    }

    /// The type of the values of an int or a pointer. Takes no memory.
    pub fn value_type(&self, of: CType<'a>) -> ValueType
        ensures { result ≡ value_type (environment_of self.now) (type_of of.entry) }
    {
        match of.pointee() {
            Some(block) => ValueType::Pointer(self.type_id(block)),
            None => ValueType::Int,
        }
    }

    /// The declarations of the fields of a struct that is defined. Takes no memory.
    pub fn declarations(&self, of: CType<'a>) -> Option<&'a [FieldDeclaration]>
        ensures { option_map (λ ds. fields_of ds.now) result ≡ declared_fields (environment_of self.now) (type_of of.entry) }
    {
        let tag = of.struct_tag()?;
        self.structs.get(tag).copied()
    }

    // A field of a struct that is defined.
    pub(crate) fn field(&self, of: CType<'a>, name: &Name) -> Result<Field<'a>, Refusal>
        ensures { Yields field_seen result (field_named (environment_of self.now) name.now (type_of of.entry)) }
    {
        match self.declarations(of) {
            Some(declarations) => find_field(declarations, name),
            None => Err(Refusal::Rule),
        }
    }

    // Whether a block may be of this type.
    pub(crate) fn is_block(&self, of: CType<'a>) -> bool
        ensures { result ≡ is_block (environment_of self.now) (type_of of.entry) }
    {
        of.is_value() || self.declarations(of).is_some()
    }
}
