ghost use Rattle.std.specs.Prelude.{◌≡◌};
ghost use Rattle.px_real_types.specs.Shapes.{pointer_to, array_of, as_parameter, in_profile};

/// What stands behind the stars of a type.
#[derive(Clone, Copy, Debug, PartialEq, Eq)]
pub enum Base {
    Int,
    /// The struct with this number.
    Struct(u32),
}

/// What the profile sees of a type.
#[derive(Clone, Copy, Debug, PartialEq, Eq)]
pub enum Shape {
    /// So many stars, two at most, before a base.
    Value { base: Base, stars: u32 },
    /// An array of such.
    Array { base: Base, stars: u32 },
    /// Any other type.
    Outside,
}

/// A type of the profile: so many stars before a base, and before a struct one at least.
#[derive(Clone, Copy, Debug, PartialEq, Eq)]
pub struct ProfileType {
    pub base: Base,
    pub stars: u32,
}

impl Shape {
    // The type of a pointer to it.
    pub fn pointer_to(self) -> Shape
        ensures { result ≡ pointer_to self }
    {
        match self {
            Shape::Value { base, stars } if stars < 2 => Shape::Value {
                base,
                stars: stars + 1,
            },
            _ => Shape::Outside,
        }
    }

    // The type of an array of it.
    pub fn array_of(self) -> Shape
        ensures { result ≡ array_of self }
    {
        match self {
            Shape::Value { base, stars } => Shape::Array { base, stars },
            _ => Shape::Outside,
        }
    }

    // The type of a parameter that is declared so.
    pub fn as_parameter(self) -> Shape
        ensures { result ≡ as_parameter self }
    {
        match self {
            Shape::Array { base, stars } => Shape::Value { base, stars }.pointer_to(),
            other => other,
        }
    }

    /// The type of the profile that it is, if it is one.
    pub fn in_profile(self) -> Option<ProfileType>
        ensures { result ≡ in_profile self }
    {
        match self {
            Shape::Value {
                base: Base::Struct(_),
                stars: 0,
            } => None,
            Shape::Value { base, stars } => Some(ProfileType { base, stars }),
            _ => None,
        }
    }
}
