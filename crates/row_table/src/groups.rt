// Ids in groups, each found by its key.
ghost use Rattle.std.specs.Prelude.{◌≡◌, [], true, false, cond, IfOk, OnOk};
ghost use Rattle.std.specs.declared.alloc.Global.{Global};
ghost use Rattle.row_table.specs.Groups.{group, HasId, HaveId, KeepIds, KeepIdsBut};
ghost use Rattle.row_table.specs.Ids.{bytes_of};

use crate::ids::Ids;
use calculus::Digest;
use shard_counts::Key;
use std::alloc::{AllocError, Global};
use std::collections::BTreeMap;

/// Groups of ids by their keys; none is empty.
pub(crate) type Groups = BTreeMap<Key, Ids>;

/// The ids of the group with this key.
pub(crate) fn ids_of<'a>(groups: &'a Groups, key: &Key) -> &'a [Digest]
    ensures { bytes_of result.now ≡ group groups.now.entries key.now.items }
{
    match groups.get(key) {
        Some(ids) => ids.as_slice(),
        None => &[],
    }
}

// Adds an id to the group with this key, and answers whether there is one. Want of memory is the one
// error.
fn add_to_group(groups: &mut Groups, key: &Key, id: Digest) -> Result<bool, AllocError>
    ensures there { IfOk result (λ there. there ≡ true → HasId groups.new.entries key.now.items id.0) }
    ensures none { IfOk result (λ there. there ≡ false → (groups.new.entries ≡ groups.old.entries) ×
        (group groups.old.entries key.now.items ≡ [])) }
    ensures kept { KeepIds groups.old.entries groups.new.entries }
{
    match groups.get_mut(key) {
        Some(ids) => {
            ids.insert(id)?;
            Ok(true)
        }
        None => Ok(false),
    }
}

// Makes a group of this one id, where there is none with the key. Want of memory is the one error.
fn add_group(alloc: Global, groups: &mut Groups, key: Key, id: Digest) -> Result<(), AllocError>
    requires { group groups.old.entries key.items ≡ [] }
    ensures there { OnOk result (HasId groups.new.entries key.items id.0) }
    ensures kept { KeepIds groups.old.entries groups.new.entries }
{
    let mut ids = Ids::new(alloc);
    ids.insert(id)?;
    groups.insert(key, ids)?;
    Ok(())
}

// Adds an id to the group with this key. Want of memory is the one error.
fn add_id(alloc: Global, groups: &mut Groups, key: &Key, id: Digest) -> Result<(), AllocError>
    ensures there { OnOk result (HasId groups.new.entries key.now.items id.0) }
    ensures kept { KeepIds groups.old.entries groups.new.entries }
{
    if add_to_group(groups, key, id)? {
        return Ok(());
    }
    add_group(alloc, groups, key.as_slice().to_vec(alloc)?, id)
}

// Adds an id to the groups with these keys. Want of memory is the one error.
fn add_ids(alloc: Global, groups: &mut Groups, keys: &[Key], id: Digest) -> Result<(), AllocError>
    ensures there { OnOk result (HaveId keys.now groups.new.entries id.0) }
    ensures kept { KeepIds groups.old.entries groups.new.entries }
{
    for key in keys {
        add_id(alloc, groups, key, id)?;
    }
    Ok(())
}

/// Adds an id to the groups with these keys: to those of sends for a send, and else to those of receivers.
/// Want of memory is the one error.
pub(crate) fn file_id(
    alloc: Global,
    sends: &mut Groups,
    receivers: &mut Groups,
    send: bool,
    keys: &[Key],
    id: Digest,
) -> Result<(), AllocError>
    ensures there { OnOk result (HaveId keys.now (cond send sends.new.entries receivers.new.entries) id.0) }
    ensures sends { KeepIds sends.old.entries sends.new.entries }
    ensures receivers { KeepIds receivers.old.entries receivers.new.entries }
{
    if send {
        add_ids(alloc, sends, keys, id)
    } else {
        add_ids(alloc, receivers, keys, id)
    }
}

// Takes an id out of the group with this key, and answers whether that group is left empty.
fn drop_id(groups: &mut Groups, key: &Key, id: &Digest) -> bool
    ensures kept { KeepIdsBut id.now.0 groups.old.entries groups.new.entries }
    ensures empty { result ≡ true → group groups.new.entries key.now.items ≡ [] }
{
    match groups.get_mut(key) {
        Some(ids) => {
            ids.remove(id);
            ids.is_empty()
        }
        None => false,
    }
}

// Takes an id out of the group with this key, and the group where nothing else is in it.
fn remove_id(groups: &mut Groups, key: &Key, id: &Digest)
    ensures { KeepIdsBut id.now.0 groups.old.entries groups.new.entries }
{
    if drop_id(groups, key, id) {
        groups.remove(key);
    }
}

/// Takes an id out of the groups with these keys.
pub(crate) fn remove_ids(groups: &mut Groups, keys: &[Key], id: &Digest)
    ensures { KeepIdsBut id.now.0 groups.old.entries groups.new.entries }
{
    for key in keys {
        remove_id(groups, key, id);
    }
}
