// Words that stand for plain data.
ghost use Rattle.std.specs.Prelude.{◌≡◌, cond, eqb, codes};
ghost use Rattle.calculus.specs.Printed.{op_text, rights_text, simple_text, arrow_text, uri_text, marks, bool_text};

use calculus::{BinaryOp, Kind, Origin, Rights, Simple};

/// `true` or `false`.
pub fn bool_word(x: bool) -> &'static [u8]
    ensures { result.now ≡ bool_text x }
{
    if x { b"true" } else { b"false" }
}

/// An operator between its operands.
pub fn op_word(x: BinaryOp) -> &'static [u8]
    ensures { result.now ≡ op_text x }
{
    match x {
        BinaryOp::Or => b" or ",
        BinaryOp::And => b" and ",
        BinaryOp::Eq => b" == ",
        BinaryOp::Ne => b" != ",
        BinaryOp::Lt => b" < ",
        BinaryOp::Le => b" <= ",
        BinaryOp::Gt => b" > ",
        BinaryOp::Ge => b" >= ",
        BinaryOp::Add => b" + ",
        BinaryOp::Sub => b" - ",
        BinaryOp::Append => b" ++ ",
        BinaryOp::Minus => b" -- ",
        BinaryOp::Mul => b" * ",
        BinaryOp::Div => b" / ",
        BinaryOp::Rem => b" % ",
    }
}

/// What a bundle of these rights begins with.
pub fn rights_word(x: Rights) -> &'static [u8]
    ensures { result.now ≡ rights_text x }
{
    match x {
        Rights::Neither => b"bundle0 ",
        Rights::Write => b"bundle+ ",
        Rights::Read => b"bundle- ",
        Rights::Both => b"bundle ",
    }
}

/// The name of a simple type.
pub fn simple_word(x: Simple) -> &'static [u8]
    ensures { result.now ≡ simple_text x }
{
    match x {
        Simple::Bool => b"Bool",
        Simple::Int => b"Int",
        Simple::Str => b"String",
        Simple::Uri => b"Uri",
        Simple::Bytes => b"ByteArray",
    }
}

/// What stands before the channel of a bind.
pub fn arrow(x: Kind) -> &'static [u8]
    ensures { result.now ≡ arrow_text x }
{
    match x {
        Kind::Linear => b"<- ",
        Kind::Persistent => b"<= ",
        Kind::Peek => b"<<- ",
    }
}

/// The URI of a fixed name after its variable.
pub fn uri_after(x: Origin) -> &'static [u8]
    ensures { result.now ≡ uri_text x }
{
    match x {
        Origin::Plain => b"",
        Origin::Stdout => b"(`rho:io:stdout`)",
        Origin::StdoutAck => b"(`rho:io:stdoutAck`)",
    }
}

/// What stands between the channel and the arguments of a send.
pub fn send_marks(persistent: bool) -> &'static [u8]
    ensures { result.now ≡ marks persistent }
{
    if persistent { b"!!(" } else { b"!(" }
}

/// What ends a tuple of so many members.
pub fn tuple_end(len: usize) -> &'static [u8]
    ensures { result.now ≡ cond (eqb len 1) (codes ",)") (codes ")") }
{
    if len == 1 { b",)" } else { b")" }
}
