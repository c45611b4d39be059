// What stands in codes beside processes.

/// What a variable stands for: a process or a name.
#[derive(Clone, Copy, Debug, PartialEq, Eq)]
pub enum Sense {
    Process,
    Name,
}

/// What a text is: a string, a Uri or the name of a method.
#[derive(Clone, Copy, Debug, PartialEq, Eq)]
pub enum TextKind {
    Str,
    Uri,
    Word,
}
