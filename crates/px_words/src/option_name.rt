ghost use Rattle.std.specs.Prelude.{◌≡◌};
ghost use Rattle.px_words.specs.OptionTable.{number_name, option_name, default_of};

/// What the number of an option says.
#[derive(Clone, Copy, Debug, PartialEq, Eq)]
pub enum NumberName {
    /// How many iterations a loop may make each time that it is entered.
    Unroll,
    /// How many ended paths of a procedure are kept.
    Paths,
    /// How many nodes of a procedure's search are visited.
    Nodes,
    /// How many workers help.
    Workers,
}

/// An option that takes a value.
#[derive(Clone, Copy, Debug, PartialEq, Eq)]
pub enum OptionName {
    /// A number.
    Number(NumberName),
    /// The program that workers run.
    Exec,
    /// How many clauses a look at the bits of an undecided drop may learn.
    Bits,
    /// The file of kept summaries.
    Kept,
}

impl NumberName {
    // What stands after `--`.
    pub(crate) fn name<'a>(self) -> &'a str
        ensures { result.now ≡ number_name self }
    {
        match self {
            NumberName::Unroll => "unroll",
            NumberName::Paths => "paths",
            NumberName::Nodes => "nodes",
            NumberName::Workers => "workers",
        }
    }

    // Its number where it isn't given.
    pub(crate) fn default(self) -> u32
        ensures { result ≡ default_of self }
    {
        match self {
            NumberName::Unroll => 3,
            NumberName::Paths => 64,
            NumberName::Nodes => 10_000,
            NumberName::Workers => 0,
        }
    }
}

impl OptionName {
    // What stands after `--`.
    pub(crate) fn name<'a>(self) -> &'a str
        ensures { result.now ≡ option_name self }
    {
        match self {
            OptionName::Number(number) => number.name(),
            OptionName::Exec => "exec",
            OptionName::Bits => "bits",
            OptionName::Kept => "kept",
        }
    }
}
