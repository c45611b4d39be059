// Shards in hand.
ghost use Rattle.std.specs.Prelude.{◌≡◌, ◌≢◌, ◌<◌, ◌⊎◌, ℕ, false, List, Option, None, Some, map, true, IfOk, OnErr, OnOk, MatchOption, option_copied, option_map};
ghost use Rattle.calculus.specs.Form.{term};
ghost use Rattle.calculus.specs.Rows.{Row as StoredRow};
ghost use Rattle.calculus.specs.Storing.{shard};
ghost use Rattle.events.specs.Found.{without};
ghost use Rattle.row_search.specs.Meetings.{IsFound, MeetsNothing};
ghost use Rattle.row_search.specs.Rows.{row_with};
ghost use Rattle.shard_tables.specs.Hands.{AreInHand, AreMade, AreShown, GainsRow, LosesRows};
ghost use Rattle.events.specs.Shards.{stands_in};
ghost use Rattle.match_targets.specs.Targets.{Ready};
ghost use Rattle.shard_counts.specs.Bits.{AreBitsBeside};
ghost use Rattle.rspace_table.specs.Hands.{all_sends, rows_for, shard_at, shown_at, sends_of, AreInPlace, FindsAMeeting, FindsSends, is_receive};
ghost use Rattle.rspace_table.specs.Hands.{IsInPlace, MeetsAReceiver, MeetsAt, MeetsNoneAt, MeetsNoReceiver, MissesNoMeeting};

use crate::bits::shown_bits;
use crate::hand::{Hand, send_with};
use crate::places::{lose_all, put_from};
use crate::shard::Shard;
use crate::spreading::built_in_table;
use calculus::Digest;
use found_rows::Found;
use rho_term::{Op, Term};
use row_search::RowsAtHand;
use row_shards::row_bits;
use row_table::RowTable;
use space_row::Row;
use std::alloc::{AllocError, Global};
use std::marker::Model;
use term_encoder::shard_of;

/// Shards in hand, by their numbers, seen as a list of 64 that are there or not.
#[derive(Drop)]
pub struct Held {
    shards: Vec<Option<Shard>>,
    built_ins: RowTable,
}

impl Model for Held {
    ghost use Rattle.std.specs.Prelude.{◌≡◌, length};
    ghost use Rattle.std.specs.Coded.{coded_list, coded_option};
    ghost use Rattle.space_row.specs.Values.{row_value_code};
    ghost use Rattle.rspace_table.specs.Hands.{AreBuiltIns, InHand};

    ghost Value = { InHand };

    ghost coded = { coded_list (coded_option (coded_list row_value_code)) };

    ghost view = { λ h. h.shards.items };

    ghost invariant = { λ h. (length h.shards.items ≡ 64) × AreBuiltIns h.built_ins };
}

// The bits of the shards of the receives in a shard that hear an operation, none where it is not there; nothing is said of the
// operation's own shards.
fn bits_at(alloc: Global, shard: &Option<Shard>, op: &Row) -> Result<u64, AllocError>
    ensures { IfOk result (AreBitsBeside (λ k. stands_in k op.now) (shown_at shard.now op.now)) }
{
    match shard {
        Some(shard) => shown_bits(alloc, shard.table(), op),
        None => Ok(0),
    }
}

// The send with this id in a shard, if it is there.
fn send_at<'a>(shard: &'a Option<Shard>, id: &Digest) -> Option<&'a Row>
    ensures { option_copied result ≡ row_with id.now.0 (sends_of shard.now) }
{
    match shard {
        Some(shard) => send_with(shard.table(), id),
        None => None,
    }
}

// Whether it is not known that the rows of a shard stand in that of this number, where it is there.
fn is_misplaced(shard: &Option<Shard>, number: u32) -> bool
    requires { number < 64 }
    ensures { result ≡ false → IsInPlace number shard.now }
{
    match shard {
        Some(shard) => !shard.is_at(number),
        None => false,
    }
}

impl Held {
    /// No shards, with room for 64. Want of memory is the one error.
    pub fn new(alloc: Global) -> Result<Held, AllocError>
        ensures { IfOk result (λ h. (k : ℕ) → shard_at h k ≡ None) }
    {
        let built_ins = built_in_table(alloc)?;
        let mut shards = Vec::new(alloc);
        for _ in 0..64u32 {
            shards.push(None)?;
        }
        Ok(Held { shards, built_ins })
    }

    /// Takes a shard in hand at this number. It takes no memory.
    pub fn add(&mut self, number: u32, shard: Shard)
        requires low { number < 64 }
        ensures here { shard_at self.new number ≡ Some shard }
        ensures others { (k : ℕ) → k ≢ number → shard_at self.new k ≡ shard_at self.old k }
    {
        self.shards[number as usize] = Some(shard);
    }

    /// Takes the shard of this number out of hand, if it is there.
    pub fn remove(&mut self, number: u32) -> Option<Shard>
        requires { number < 64 }
        ensures shard { result ≡ shard_at self.old number }
        ensures here { shard_at self.new number ≡ None }
        ensures others { (k : ℕ) → k ≢ number → shard_at self.new k ≡ shard_at self.old k }
    {
        self.shards[number as usize].take()
    }

    /// Takes the rows with these ids out of the shards in hand. It takes no memory.
    pub fn take_out(&mut self, gone: &[Digest])
        ensures { AreMade (λ rows. rows) (LosesRows (map (λ d. d.0) gone.now)) (shard_at self.old) (shard_at self.new) }
    {
        lose_all(&mut self.shards, gone);
    }

    /// Adds an operation to each shard in hand that it stands in. Want of memory is the one error, and all is then as it was.
    pub fn put(&mut self, alloc: Global, op: &Row) -> Result<(), AllocError>
        ensures put { OnOk result (AreMade (λ rows. rows) (GainsRow op.now) (shard_at self.old) (shard_at self.new)) }
        ensures back { OnErr result ((k : ℕ) → shard_at self.new k ≡ shard_at self.old k) }
    {
        let bits = row_bits(alloc, op)?;
        put_from(alloc, &mut self.shards, op, bits, 0)
    }

    /// The bits of the shards that the rows in hand show for an operation: of its own channels, and of all channels of each receive in
    /// hand that hears it. Want of memory is the one error.
    pub fn shards_of(&self, alloc: Global, op: &Row) -> Result<u64, AllocError>
        ensures { (all : List StoredRow) → AreInHand (λ rows. rows) (shard_at self.now) all → IfOk result (AreShown all op.now) }
    {
        let mut bits = row_bits(alloc, op)?;
        for shard in &self.shards {
            bits |= bits_at(alloc, shard, op)?;
        }
        Ok(bits)
    }

    // The send with this id in the first shard that has one.
    pub(crate) fn send(&self, id: &Digest) -> Option<&Row>
        ensures { option_copied result ≡ row_with id.now.0 (all_sends self.now) }
    {
        for shard in &self.shards {
            let row = send_at(shard, id);
            if row.is_some() {
                return row;
            }
        }
        None
    }

    // Ids, those of all sends on this channel in its shard among them, if the shard is in hand. Want of memory is the one error.
    pub(crate) fn sends_on(&self, alloc: Global, channel: &Term) -> Result<&[Digest], AllocError>
        requires { Ready term channel.now }
        ensures { IfOk result (λ ids. FindsSends (shard_at self.now (shard channel.now)) channel.now (map (λ d. d.0) ids.now)) }
    {
        let number = shard_of(alloc, channel)?;
        match self.shards.get(number as usize) {
            Some(Some(shard)) => shard.table().sends_on(alloc, channel),
            _ => Ok(&[]),
        }
    }

    // Whether it is known that the rows of each shard in hand stand in the shard of its number.
    fn is_in_place(&self) -> bool
        ensures { result ≡ true → AreInPlace self.now }
    {
        let mut number = 0u32;
        for shard in &self.shards {
            if is_misplaced(shard, number) {
                return false;
            }
            number += 1;
        }
        true
    }

    // What the operation meets in hand with a receiver of this table.
    fn meet(&self, alloc: Global, heard: &RowTable, op: &Row) -> Result<Option<Found>, AllocError>
        requires { AreInPlace self.now }
        ensures { IfOk result (λ o. MatchOption o (MeetsNothing (rows_for heard.now self.now) op.now)
            (IsFound (rows_for heard.now self.now) op.now)) }
    {
        let hand = Hand { held: self, heard };
        row_search::first_step(alloc, &hand, op)
    }

    // What the operation meets in hand with a receiver of this shard, if it is there.
    fn meet_at(
        &self,
        alloc: Global,
        shard: &Option<Shard>,
        op: &Row,
    ) -> Result<Option<Found>, AllocError>
        requires { AreInPlace self.now }
        ensures { IfOk result (λ o. MatchOption o (MeetsNoneAt self.now shard.now op.now) (MeetsAt self.now shard.now op.now)) }
    {
        match shard {
            Some(shard) => self.meet(alloc, shard.table(), op),
            None => Ok(None),
        }
    }

    // What the operation meets in hand with a receiver of a shard.
    fn meet_stored(&self, alloc: Global, op: &Row) -> Result<Option<Found>, AllocError>
        requires { AreInPlace self.now }
        ensures { IfOk result (λ o. MatchOption o (MeetsNoReceiver self.now op.now) (MeetsAReceiver self.now op.now)) }
    {
        for shard in &self.shards {
            let found = self.meet_at(alloc, shard, op)?;
            if found.is_some() {
                return Ok(found);
            }
        }
        Ok(None)
    }

    // What the operation meets in hand with a receiver of a shard, where it is a send.
    fn meet_heard(&self, alloc: Global, op: &Row) -> Result<Option<Found>, AllocError>
        requires { AreInPlace self.now }
        ensures { IfOk result (λ o. MatchOption o (MeetsNoReceiver self.now op.now ⊎ (is_receive op.now ≡ true))
            (MeetsAReceiver self.now op.now)) }
    {
        match op.op() {
            Op::Produce { .. } => self.meet_stored(alloc, op),
            Op::Consume { .. } => Ok(None),
        }
    }

    // What the operation meets in hand, the built-in receivers among it.
    fn look(&self, alloc: Global, op: &Row) -> Result<Option<Found>, AllocError>
        requires { AreInPlace self.now }
        ensures found { FindsAMeeting self.now op.now result }
        ensures none { MissesNoMeeting self.now op.now result }
    {
        match self.meet_heard(alloc, op)? {
            Some(found) => Ok(Some(found)),
            None => self.meet(alloc, &self.built_ins, op),
        }
    }

    /// What the operation meets in hand, the built-in receivers among it. Where ids tell the rows in hand, it is None exactly where the
    /// operation meets nothing there. An error is want of memory, or that a shard is in hand at a number that is not its own.
    pub fn first_step(&self, alloc: Global, op: &Row) -> Result<Option<Found>, AllocError>
        ensures found { FindsAMeeting self.now op.now result }
        ensures none { MissesNoMeeting self.now op.now result }
    {
        if self.is_in_place() {
            self.look(alloc, op)
        } else {
            Err(AllocError)
        }
    }
}
