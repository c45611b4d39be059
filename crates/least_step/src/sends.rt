// Sends on the channels that receivers wait on, by the codes of these channels.
ghost use Rattle.std.specs.Prelude.{◌≡◌, ◌++◌, ◌∷◌, [], List, map, All, IfOk, OnOk};
ghost use Rattle.calculus.specs.Rows.{Row as AnyRow};
ghost use Rattle.calculus.specs.Tree.{Tree};
ghost use Rattle.least_step.specs.Orders.{referred};
ghost use Rattle.least_step.specs.Filed.{AreAwaited, AreFiled, HasPlace, IsAwaited, IsPutUnder};

use rho_term::{Op, TermBind};
use space_row::Row;
use std::alloc::{AllocError, Global};
use std::collections::BTreeMap;
use term_encoder::encode_term;

/// Sends by the codes of their channels, those on one channel in the order in which they were filed. It has a place
/// for each channel that a receiver waits on, and for no other.
pub(crate) type Sends<'a> = BTreeMap<Vec<u8>, Vec<&'a Row>>;

// Makes a place for the sends on the channel of a bind, while none are filed.
fn await_bind(alloc: Global, sends: &mut Sends<'_>, bind: &TermBind) -> Result<(), AllocError>
    ensures place { OnOk result (HasPlace bind.now.channel sends.new.entries) }
    ensures kept { OnOk result ((c : Tree) → HasPlace c sends.old.entries → HasPlace c sends.new.entries) }
    ensures bare { OnOk result (AreFiled [] sends.old.entries → AreFiled [] sends.new.entries) }
{
    let code = encode_term(alloc, &bind.channel)?;
    sends.insert(code, Vec::new(alloc))?;
    Ok(())
}

// Makes places for the sends on the channels of these binds, while none are filed.
fn await_binds(alloc: Global, sends: &mut Sends<'_>, binds: &[TermBind]) -> Result<(), AllocError>
    ensures places { OnOk result (All (λ b. HasPlace b.channel sends.new.entries) binds.now) }
    ensures kept { OnOk result ((c : Tree) → HasPlace c sends.old.entries → HasPlace c sends.new.entries) }
    ensures bare { OnOk result (AreFiled [] sends.old.entries → AreFiled [] sends.new.entries) }
{
    for bind in binds {
        await_bind(alloc, sends, bind)?;
    }
    Ok(())
}

// Makes places for the sends on the channels of a row, where it is a receiver, while none are filed.
fn await_row(alloc: Global, sends: &mut Sends<'_>, row: &Row) -> Result<(), AllocError>
    ensures awaited { OnOk result (IsAwaited row.now sends.new.entries) }
    ensures kept { OnOk result ((c : Tree) → HasPlace c sends.old.entries → HasPlace c sends.new.entries) }
    ensures bare { OnOk result (AreFiled [] sends.old.entries → AreFiled [] sends.new.entries) }
{
    match row.op() {
        Op::Produce { .. } => Ok(()),
        Op::Consume { binds, .. } => await_binds(alloc, sends, binds),
    }
}

// Places for the sends on the channels that the receivers of these rows wait on. None are filed.
fn places_for<'a>(alloc: Global, rows: &[&'a Row]) -> Result<Sends<'a>, AllocError>
    ensures awaited { IfOk result (λ sends. AreAwaited (map referred rows.now) sends.entries) }
    ensures bare { IfOk result (λ sends. AreFiled [] sends.entries) }
{
    let mut sends = BTreeMap::new(alloc);
    for row in rows {
        await_row(alloc, &mut sends, *row)?;
    }
    Ok(sends)
}

// Files a row under a code, after those that are there, where there is a place.
fn put_under<'a>(sends: &mut Sends<'a>, code: Vec<u8>, row: &'a Row) -> Result<(), AllocError>
    ensures { IfOk result (λ _. IsPutUnder code.items row.now sends.old.entries sends.new.entries) }
{
    match sends.remove(code.as_slice()) {
        Some(mut rows) => {
            rows.push(row)?;
            sends.insert(code, rows)?;
            Ok(())
        }
        None => Ok(()),
    }
}

// Files one more row, where it is a send on a channel that has a place.
fn file<'a>(alloc: Global, sends: &mut Sends<'a>, row: &'a Row) -> Result<(), AllocError>
    ensures filed { (before : List AnyRow) → AreFiled before sends.old.entries →
        IfOk result (λ _. AreFiled (before ++ row.now ∷ []) sends.new.entries) }
    ensures kept { IfOk result (λ _. (c : Tree) → HasPlace c sends.old.entries → HasPlace c sends.new.entries) }
{
    match row.op() {
        Op::Consume { .. } => Ok(()),
        Op::Produce { channel, .. } => {
            let code = encode_term(alloc, channel)?;
            put_under(sends, code, row)
        }
    }
}

// The sends of these rows on the channels that receivers of them wait on, by the codes of these. Want of memory is
// the one error.
pub(crate) fn file_sends<'a>(alloc: Global, rows: &[&'a Row]) -> Result<Sends<'a>, AllocError>
    ensures filed { IfOk result (λ sends. AreFiled (map referred rows.now) sends.entries) }
    ensures awaited { IfOk result (λ sends. AreAwaited (map referred rows.now) sends.entries) }
{
    let mut sends = places_for(alloc, rows)?;
    for row in rows {
        file(alloc, &mut sends, *row)?;
    }
    Ok(sends)
}
