/// A ground value.
#[derive(Debug, Drop)]
pub enum Ground {
    Bool(bool),
    Int(i64),
    /// Characters, as UTF-8.
    Str(String),
    /// Characters without a back quote, as UTF-8.
    Uri(String),
    Bytes(Vec<u8>),
}

/// A simple type of a pattern, which one ground value of that kind matches.
#[derive(Clone, Copy, Debug, PartialEq, Eq)]
pub enum Simple {
    Bool,
    Int,
    Str,
    Uri,
    Bytes,
}

/// How a receive takes its data: once, again and again, or once without taking them away.
#[derive(Clone, Copy, Debug, PartialEq, Eq)]
pub enum Kind {
    Linear,
    Persistent,
    Peek,
}

/// What a bundle lets do with the name in it.
#[derive(Clone, Copy, Debug, PartialEq, Eq)]
pub enum Rights {
    Neither,
    Write,
    Read,
    Both,
}

/// An operator on one process.
#[derive(Clone, Copy, Debug, PartialEq, Eq)]
pub enum UnaryOp {
    Not,
    Neg,
}

/// An operator on two processes.
#[derive(Clone, Copy, Debug, PartialEq, Eq)]
pub enum BinaryOp {
    Or,
    And,
    Eq,
    Ne,
    Lt,
    Le,
    Gt,
    Ge,
    Add,
    Sub,
    Append,
    Minus,
    Mul,
    Div,
    Rem,
}

/// The remainder of a pattern, after its members: none, any, or any under a name.
#[derive(Debug, Drop)]
pub enum Rest {
    No,
    Wild,
    Var(String),
}

/// The remainder of a pattern without names.
#[derive(Clone, Copy, Debug, PartialEq, Eq)]
pub enum TermRest {
    No,
    Var,
    Wild,
}

/// A name that a `new` declares, with the URI of a fixed name, if it stands for one.
#[derive(Debug, Drop)]
pub struct Decl {
    pub name: String,
    pub uri: Option<String>,
}

/// What a `new` makes of a declared name: a fresh name, or a fixed one.
#[derive(Clone, Copy, Debug, PartialEq, Eq)]
pub enum Origin {
    Plain,
    Stdout,
    StdoutAck,
}
