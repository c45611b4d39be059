use calculus::{Name, NamePat, Rights, Simple};
use form_parts::part::{Bracket, Part};

/// A process that holds no further one.
#[derive(Clone, Copy)]
pub enum PlainProcess {
    /// A variable.
    Word,
    /// `Nil`.
    Nil,
    /// A ground value.
    Ground,
    /// The variable after a `*`.
    Dropped,
    /// The end of an empty map.
    EmptyMap,
}

/// How a process without operators begins. All but what is plain was taken up to the next constituent.
#[derive(Clone, Copy)]
pub enum ProcessStep {
    /// A process that holds no further one is next.
    Plain(PlainProcess),
    /// The process that is quoted and dropped is next.
    Dropped,
    /// The first process in parentheses is next.
    Group,
    /// The first process in braces is next.
    Block,
    /// The members of a list are next, or in round brackets those of a set.
    Members(Bracket),
}

/// A pattern that holds no further one.
#[derive(Clone, Copy)]
pub enum PlainPattern {
    /// A variable that is bound here.
    Word,
    /// `_`.
    Any,
    /// A simple type.
    Type(Simple),
    /// `Nil`.
    Nil,
    /// A ground value.
    Ground,
    /// The variable after a `=`.
    SameWord,
    /// `*` and a variable, after a `=`.
    SameDropped,
    /// The end of an empty map.
    EmptyMap,
    /// The remainder of a map that has no pairs, and the end.
    RestMap,
}

/// How a pattern without `\/` and `/\` begins. All but what is plain was taken up to the next constituent.
#[derive(Clone, Copy)]
pub enum PatternStep {
    /// A pattern that holds no further one is next.
    Plain(PlainPattern),
    /// The pattern after a `~` is next.
    Not,
    /// The process in braces after a `=` is next.
    Same,
    /// The first pattern in parentheses is next.
    Group,
    /// The first pattern in braces is next.
    Block,
    /// The members of a list are next, or in round brackets those of a set.
    Members(Bracket),
}

/// A form of processes that begins with a key.
#[derive(Clone, Copy)]
pub enum FormKey {
    New,
    If,
    Contract,
    For,
    Match,
}

/// How a part of a process begins. What begins a bundle or a send was taken up to the next constituent.
pub enum TermStep {
    /// This form is next.
    Form(FormKey),
    /// The process in a bundle is next.
    Bundle(Rights),
    /// The quoted process that is the channel of a send is next.
    Quoted,
    /// The arguments of a send on this variable are next.
    Send(Sending<Name>),
    /// Operators and their operands are next.
    Chain,
}

/// How a part of a pattern begins. What begins a bundle or a send was taken up to the next constituent.
pub enum PartStep {
    /// This form of processes is next.
    Form(FormKey),
    /// The pattern in a bundle is next.
    Bundle(Rights),
    /// The quoted pattern that is the channel of a send is next.
    Quoted,
    /// The arguments of a send on any channel, or on this one, which is bound here, are next.
    Send(Sending<NamePat>),
    /// Alternatives are next.
    Alternative,
}

/// The channel of a send, whose arguments are next.
#[derive(Drop)]
pub struct Sending<T> {
    pub channel: Part<T>,
    pub persistent: bool,
}
