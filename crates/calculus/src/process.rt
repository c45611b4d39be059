use crate::ids::Digest;
use crate::plain::{BinaryOp, Decl, Ground, Kind, Rest, Rights, Simple, UnaryOp};

/// A process as it is written, with names. Blocks and parentheses have no node.
#[cycle(process)]
pub enum Proc {
    /// Parts in parallel; `Nil` has none.
    Par(Vec<Proc>),
    Ground(Ground),
    Var(String),
    /// The process that a name quotes.
    Drop(Name),
    List(Vec<Proc>),
    /// At least one member.
    Tuple(Vec<Proc>),
    Set(Vec<Proc>),
    /// Keys with their values.
    Map(Vec<(Proc, Proc)>),
    Send {
        channel: Name,
        args: Vec<Proc>,
        persistent: bool,
    },
    /// 1 to 16 binds.
    Receive {
        kind: Kind,
        binds: Vec<Bind>,
        body: Box<Proc>,
    },
    /// At least one name.
    New {
        names: Vec<Decl>,
        body: Box<Proc>,
    },
    /// At least one case.
    Match {
        target: Box<Proc>,
        cases: Vec<Case>,
    },
    Bundle {
        rights: Rights,
        body: Box<Proc>,
    },
    Unary {
        op: UnaryOp,
        arg: Box<Proc>,
    },
    Binary {
        op: BinaryOp,
        left: Box<Proc>,
        right: Box<Proc>,
    },
    Method {
        name: String,
        target: Box<Proc>,
        args: Vec<Proc>,
    },
}

impl Drop for Proc {
    #[cycle(let_go)]
    fn drop(self) {
        match self {
            Proc::Par(_parts) => {}
            Proc::Ground(_ground) => {}
            Proc::Var(_name) => {}
            Proc::Drop(_name) => {}
            Proc::List(_members) => {}
            Proc::Tuple(_members) => {}
            Proc::Set(_members) => {}
            Proc::Map(_pairs) => {}
            Proc::Send {
                channel: _channel,
                args: _args,
                persistent: _,
            } => {}
            Proc::Receive {
                kind: _,
                binds: _binds,
                body: _body,
            } => {}
            Proc::New {
                names: _names,
                body: _body,
            } => {}
            Proc::Match {
                target: _target,
                cases: _cases,
            } => {}
            Proc::Bundle {
                rights: _,
                body: _body,
            } => {}
            Proc::Unary { op: _, arg: _arg } => {}
            Proc::Binary {
                op: _,
                left: _left,
                right: _right,
            } => {}
            Proc::Method {
                name: _name,
                target: _target,
                args: _args,
            } => {}
        }
    }
}

/// A name: a variable, a fresh name that a run made, or a quoted process.
#[cycle(process)]
pub enum Name {
    Var(String),
    Fresh(Digest),
    Quote(Box<Proc>),
}

impl Drop for Name {
    #[cycle(let_go)]
    fn drop(self) {
        match self {
            Name::Var(_name) => {}
            Name::Fresh(_digest) => {}
            Name::Quote(_quoted) => {}
        }
    }
}

/// A pattern of processes.
#[cycle(process)]
pub enum Pat {
    Par(Vec<Pat>),
    /// `_`, which takes any process.
    Wild,
    Var(String),
    Simple(Simple),
    /// `={P}`, which takes what is congruent to a process of the scope outside.
    Same(Box<Proc>),
    Ground(Ground),
    Both(Box<Pat>, Box<Pat>),
    Either(Box<Pat>, Box<Pat>),
    Not(Box<Pat>),
    List(Vec<Pat>, Rest),
    Tuple(Vec<Pat>),
    Set(Vec<Pat>, Rest),
    Map(Vec<(Pat, Pat)>, Rest),
    Send {
        channel: NamePat,
        args: Vec<Pat>,
        persistent: bool,
    },
    Bundle {
        rights: Rights,
        body: Box<Pat>,
    },
    /// A receive, a `new` or a `match` without a variable of the scope outside.
    Closed(Box<Proc>),
}

impl Drop for Pat {
    #[cycle(let_go)]
    fn drop(self) {
        match self {
            Pat::Par(_parts) => {}
            Pat::Wild => {}
            Pat::Var(_name) => {}
            Pat::Simple(_) => {}
            Pat::Same(_body) => {}
            Pat::Ground(_ground) => {}
            Pat::Both(_left, _right) => {}
            Pat::Either(_left, _right) => {}
            Pat::Not(_arg) => {}
            Pat::List(_members, _rest) => {}
            Pat::Tuple(_members) => {}
            Pat::Set(_members, _rest) => {}
            Pat::Map(_pairs, _rest) => {}
            Pat::Send {
                channel: _channel,
                args: _args,
                persistent: _,
            } => {}
            Pat::Bundle {
                rights: _,
                body: _body,
            } => {}
            Pat::Closed(_form) => {}
        }
    }
}

/// A pattern of names.
#[cycle(process)]
pub enum NamePat {
    Wild,
    Var(String),
    Quote(Box<Pat>),
}

impl Drop for NamePat {
    #[cycle(let_go)]
    fn drop(self) {
        match self {
            NamePat::Wild => {}
            NamePat::Var(_name) => {}
            NamePat::Quote(_quoted) => {}
        }
    }
}

/// A bind of a receive: the patterns of a datum's arguments, a remainder and a channel.
#[cycle(process)]
pub struct Bind {
    pub pats: Vec<NamePat>,
    pub rest: Rest,
    pub channel: Name,
}

impl Drop for Bind {
    #[cycle(let_go)]
    fn drop(self) {
        let Bind {
            pats: _pats,
            rest: _rest,
            channel: _channel,
        } = self;
    }
}

/// A case of a `match`.
#[cycle(process)]
pub struct Case {
    pub pat: Pat,
    pub body: Proc,
}

impl Drop for Case {
    #[cycle(let_go)]
    fn drop(self) {
        let Case {
            pat: _pat,
            body: _body,
        } = self;
    }
}
