// Under which keys a row is filed.
ghost use Rattle.std.specs.Prelude.{◌≡◌, [], ◌∷◌, map, IfOk};
ghost use Rattle.calculus.specs.Code.{code};
ghost use Rattle.calculus.specs.Rows.{channels};
ghost use Rattle.calculus.specs.Storing.{IsStorable};
ghost use Rattle.row_table.specs.Groups.{is_send};

use rho_term::{Op, Term, TermBind};
use shard_counts::Key;
use space_row::Row;
use std::alloc::{AllocError, Global};
use term_encoder::encode_term;

/// Whether a row is a send.
pub(crate) fn is_send(row: &Row) -> bool
    ensures is { result ≡ is_send row.now }
    ensures storable { IsStorable row.now }
{
    match row.op() {
        Op::Produce { .. } => true,
        Op::Consume { .. } => false,
    }
}

/// The keys of a row's channels. Want of memory is the one error.
pub(crate) fn row_keys(alloc: Global, row: &Row) -> Result<Vec<Key>, AllocError>
    ensures { IfOk result (λ keys. map (λ k. k.items) keys.items ≡ map code (channels row.now.part)) }
{
    match row.op() {
        Op::Produce { channel, .. } => one_key(alloc, channel),
        Op::Consume { binds, .. } => bind_keys(alloc, binds),
    }
}

// The key of this one channel.
fn one_key(alloc: Global, channel: &Term) -> Result<Vec<Key>, AllocError>
    ensures { IfOk result (λ keys. map (λ k. k.items) keys.items ≡ code channel.now ∷ []) }
{
    let mut keys = Vec::new(alloc);
    keys.push(encode_term(alloc, channel)?)?;
    Ok(keys)
}

// The keys of the channels of binds.
fn bind_keys(alloc: Global, binds: &Vec<TermBind>) -> Result<Vec<Key>, AllocError>
    ensures { IfOk result (λ keys. map (λ k. k.items) keys.items ≡ map (λ b. code b.channel) binds.now.items) }
{
    let mut keys = Vec::new(alloc);
    for bind in binds {
        keys.push(encode_term(alloc, &bind.channel)?)?;
    }
    Ok(keys)
}
