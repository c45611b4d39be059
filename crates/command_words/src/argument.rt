ghost use Rattle.std.specs.Prelude.{◌≡◌};
ghost use Rattle.command_words.specs.Arguments.{id_of, name_of};

/// What a command line may hold: a verb, a file, and options that each have one value.
///
/// The order is that in which faults are told.
#[derive(Clone, Copy, Debug, PartialEq, Eq)]
pub enum Argument {
    Verb,
    /// The source of a deploy or of a replay, or the file of a state.
    File,
    State,
    Prices,
    Limit,
    Log,
    Next,
    Workers,
    Steps,
}

impl Argument {
    /// What messages call the argument: an option is called by its word.
    pub fn name(self) -> &'static str
        ensures { result.now ≡ name_of self }
    {
        match self {
            Argument::Verb => "verb",
            Argument::File => "file",
            Argument::State => "--state",
            Argument::Prices => "--prices",
            Argument::Limit => "--limit",
            Argument::Log => "--log",
            Argument::Next => "--next",
            Argument::Workers => "--workers",
            Argument::Steps => "--steps",
        }
    }

    // What `clap` calls the argument: an option is called as in its word, without the hyphens.
    pub(crate) fn id(self) -> &'static str
        ensures { result.now ≡ id_of self }
    {
        match self {
            Argument::Verb => "verb",
            Argument::File => "file",
            Argument::State => "state",
            Argument::Prices => "prices",
            Argument::Limit => "limit",
            Argument::Log => "log",
            Argument::Next => "next",
            Argument::Workers => "workers",
            Argument::Steps => "steps",
        }
    }
}
