use calculus::{NamePat, Pat, Rest};

/// What was read, and the height of its text.
#[derive(Drop)]
pub struct Part<T> {
    pub value: T,
    pub height: u32,
}

/// The patterns of a bind and their remainder, without its channel.
#[derive(Drop)]
pub struct Left {
    pub pats: Vec<NamePat>,
    pub rest: Rest,
}

/// The members of a list or a set of patterns and their remainder.
#[derive(Drop)]
pub struct Sequence {
    pub pats: Vec<Pat>,
    pub rest: Rest,
}

/// The brackets in which members stand.
#[derive(Clone, Copy)]
pub enum Bracket {
    Round,
    Square,
}

/// What stands between the binds of a receive.
#[derive(Clone, Copy)]
pub enum Separator {
    Semicolon,
    Ampersand,
}
