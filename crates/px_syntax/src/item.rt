use crate::{Base, Declarator, Name, Statement, TypeName};
use px_base::Site;
use px_terms::Items;

/// Fields of one base in a struct (C17 6.7.2.1).
pub struct FieldDeclaration {
    pub base: Base,
    pub declarators: Items<Declarator>,
}

/// What a function gives.
pub enum ResultType {
    Void,
    Value(TypeName),
}

/// A parameter. Its name may be missing in a prototype.
pub struct Parameter {
    pub value: TypeName,
    pub name: Option<Name>,
}

/// An item of a source file (C17 6.9). The site is that of its first token.
#[derive(Drop)]
pub enum Item {
    /// A struct and its fields.
    Struct {
        site: Site,
        name: Name,
        fields: Items<FieldDeclaration>,
    },
    /// A struct without its fields.
    Declared {
        site: Site,
        name: Name,
    },
    /// A function without its body. `( )` and `( void )` are no parameters.
    Prototype {
        site: Site,
        result: ResultType,
        name: Name,
        parameters: Items<Parameter>,
    },
    /// A function and the statements of its body.
    Function {
        site: Site,
        result: ResultType,
        name: Name,
        parameters: Items<Parameter>,
        body: Items<Statement>,
    },
}

impl Drop for FieldDeclaration {
    fn drop(self) {
        let FieldDeclaration {
            base: _,
            declarators: _,
        } = self;
    }
}

impl Drop for ResultType {
    fn drop(self) {
        match self {
            ResultType::Void | ResultType::Value(_) => {}
        }
    }
}

impl Drop for Parameter {
    fn drop(self) {
        let Parameter { value: _, name: _ } = self;
    }
}
