// Operations as the codes of their rows, and the keys of their rows' groups.
ghost use Rattle.std.specs.Prelude.{◌≡◌, map, IfOk};
ghost use Rattle.calculus.specs.Code.{code};
ghost use Rattle.calculus.specs.Order.{IsAscending};
ghost use Rattle.calculus.specs.Root.{key};
ghost use Rattle.calculus.specs.Rows.{channels, row_code};
ghost use Rattle.calculus.specs.Shape.{many};
ghost use Rattle.calculus.specs.Tree.{row};
ghost use Rattle.rho_term.specs.Rows.{row_of_op};
ghost use Rattle.term_encoder.specs.Writing.{Writes};

use crate::encode::{put_binds, put_term, put_terms};
use crate::encoder::Encoder;
use calculus::Digest;
use rho_term::{Op, TermBind};
use sha2::{Digest as Hasher, Sha256};
use std::alloc::{AllocError, Global};

/// The code of the row that an operation is, made without a copy of what it holds. Want of memory is
/// the one error.
pub fn encode_op(alloc: Global, op: &Op) -> Result<Vec<u8>, AllocError>
    ensures { IfOk result (λ v. v.items ≡ row_code (row_of_op op.now)) }
{
    let mut out = Encoder::new(alloc);
    put_op(&mut out, op);
    out.finish()
}

// The code of the row that an operation is: a byte for sends or for receives, its id, and for a send its
// channel, whether it is persistent and its arguments, for a receive its kind, binds and body.
fn put_op(out: &mut Encoder, op: &Op)
    ensures { Writes out.old out.new (row_code (row_of_op op.now)) }
{
    match op {
        Op::Produce {
            id,
            channel,
            args,
            persistent,
        } => {
            out.byte(0x01);
            out.slice(&id.0);
            put_term(out, channel);
            out.bare_flag(*persistent);
            put_terms(out, args);
        }
        Op::Consume {
            id,
            kind,
            binds,
            body,
        } => {
            out.byte(0x02);
            out.slice(&id.0);
            out.bare_kind(*kind);
            put_binds(out, binds);
            put_term(out, body);
        }
    }
}

/// The key of the group of the row that an operation is, whose channels ascend in their codes: the
/// SHA-256 of the code of the list of them. Want of memory is the one error.
pub fn op_key(alloc: Global, op: &Op) -> Result<Digest, AllocError>
    requires { IsAscending (map code (channels (row_of_op op.now).part)) }
    ensures { IfOk result (λ d. d.0 ≡ key (row_of_op op.now)) }
{
    let mut out = Encoder::new(alloc);
    put_channels(&mut out, op);
    let bytes = out.finish()?;
    Ok(Digest(Sha256::digest(bytes.as_slice())))
}

// The number of an operation's channels, and the code of each.
fn put_channels(out: &mut Encoder, op: &Op)
    ensures { Writes out.old out.new (code (many row (channels (row_of_op op.now).part))) }
{
    match op {
        Op::Produce { channel, .. } => {
            out.be32(1);
            put_term(out, channel);
        }
        Op::Consume { binds, .. } => put_bind_channels(out, binds),
    }
}

// The number of binds, and the code of the channel of each.
fn put_bind_channels(out: &mut Encoder, binds: &Vec<TermBind>)
    ensures { Writes out.old out.new (code (many row (map (λ b. b.channel) binds.now.items))) }
{
    out.be32(binds.len());
    for bind in binds {
        put_term(out, &bind.channel);
    }
}
