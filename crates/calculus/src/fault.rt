use std::fmt;

/// What may be wrong with a process that is evaluated or unfolded.
#[derive(Clone, Copy, Debug, PartialEq, Eq)]
pub enum FaultKind {
    /// An operand or argument of another kind than the operator or method takes.
    WrongType,
    /// A division, or a remainder, by 0.
    DivZero,
    /// A whole number that 64 bits with a sign cannot hold.
    Overflow,
    /// A place outside a collection or a text.
    Index,
    /// No method of this name and number of arguments for the target.
    NoMethod,
    /// A receive on a channel whose bundle does not let read.
    NotReadable,
    /// A send on a channel whose bundle does not let write.
    NotWritable,
    /// Two channels of one receive are congruent.
    SameChannel,
    /// A height above 400.
    TooDeep,
    /// A code longer than 1,048,576 bytes.
    TooBig,
}

impl fmt::Display for FaultKind {
    ghost use Rattle.std.specs.Prelude.{Some};
    ghost use Rattle.calculus.specs.Faults.{fault_name};

    ghost output = { λ fault. Some (fault_name fault) };

    fn fmt<W: fmt::Write>(&self, f: &mut fmt::Formatter<W>) -> fmt::Result {
        match self {
            FaultKind::WrongType => f.write_str("WrongType"),
            FaultKind::DivZero => f.write_str("DivZero"),
            FaultKind::Overflow => f.write_str("Overflow"),
            FaultKind::Index => f.write_str("Index"),
            FaultKind::NoMethod => f.write_str("NoMethod"),
            FaultKind::NotReadable => f.write_str("NotReadable"),
            FaultKind::NotWritable => f.write_str("NotWritable"),
            FaultKind::SameChannel => f.write_str("SameChannel"),
            FaultKind::TooDeep => f.write_str("TooDeep"),
            FaultKind::TooBig => f.write_str("TooBig"),
        }
    }
}
