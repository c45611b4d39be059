// What stands in the code of a form of processes before them.
ghost use Rattle.std.specs.Prelude.{◌≡◌, ◌++◌, ◌∷◌, ◌+◌, ℕ, IfOk, IfErr, true};
ghost use Rattle.calculus.specs.Form.{Scope, part};
ghost use Rattle.calculus.specs.Shape.{one, two, many};
ghost use Rattle.calculus.specs.Tree.{row};
ghost use Rattle.rho_term.specs.Parts.{part_tree};
ghost use Rattle.code_parts.specs.Heads.{single_label, listed_label, head_code, HasName};
ghost use Rattle.code_parts.specs.Outcomes.{Fails};

use calculus::{BinaryOp, Rights, UnaryOp};
use code_faults::{ReadFault, TextKind};
use code_fields::Reader;
use rho_term::{Part, Term};

/// A form of one process.
#[derive(Drop)]
pub enum Single {
    Bundle(Rights),
    Unary(UnaryOp),
}

/// A form of a process and a list of processes.
#[derive(Drop)]
pub enum Listed {
    Send(bool),
    Method(String),
}

/// A form of processes.
#[derive(Drop)]
pub enum Head {
    Single(Single),
    Listed(Listed),
    Binary(BinaryOp),
}

/// What goes on so after the tag of a form of processes.
pub fn read_head(reader: &mut Reader<'_>, tag: u8) -> Result<Head, ReadFault>
    requires { (tag ≡ 0x30 → ⊥) → (tag ≡ 0x34 → ⊥) → (tag ≡ 0x40 → ⊥) → (tag ≡ 0x41 → ⊥) → tag ≡ 0x42 }
    ensures is { IfOk result (λ h. tag ∷ reader.old.input.now ≡ head_code h ++ reader.new.input.now) }
    ensures name { IfOk result (λ h. HasName h) }
    ensures fails { IfErr result (λ e. (v : Scope) (room : ℕ) → Fails true part v (room + 1) (tag ∷ reader.old.input.now) e) }
{
    match tag {
        0x30 => Ok(Head::Listed(Listed::Send(reader.boolean()?))),
        0x34 => Ok(Head::Single(Single::Bundle(reader.rights()?))),
        0x40 => Ok(Head::Single(Single::Unary(reader.unary_op()?))),
        0x41 => Ok(Head::Binary(reader.binary_op()?)),
        _ => Ok(Head::Listed(Listed::Method(reader.text(TextKind::Word)?))),
    }
}

impl Single {
    /// The part.
    pub fn over(self, body: Term) -> Part
        ensures { part_tree result ≡ one (single_label self) body }
    {
        match self {
            Single::Bundle(rights) => Part::Bundle { rights, body },
            Single::Unary(op) => Part::Unary { op, arg: body },
        }
    }
}

impl Listed {
    /// The part.
    pub fn over(self, first: Term, args: Vec<Term>) -> Part
        ensures { part_tree result ≡ two (listed_label self) first (many row args.items) }
    {
        match self {
            Listed::Send(persistent) => Part::Send {
                channel: first,
                args,
                persistent,
            },
            Listed::Method(name) => Part::Method {
                name,
                target: first,
                args,
            },
        }
    }
}
