//! What a hub is about: shards, works, entries, and what entries do to them.
ghost use Rattle.std.specs.Prelude.{◌≡◌, ◌≢◌, ℕ, ◌<◌, true, Option, None, Some};
ghost use Rattle.std.specs.Int.{bit_at};
ghost use Rattle.hub_rule.specs.Counts.{one_if};
ghost use Rattle.hub_rule.specs.Meaning.{Meaning, Lawful};

/// A subject that seats work on. Its state is cut into 64 shards, numbered from 0, and an entry is an event that changes some of them. An
/// entry takes one work that is pending.
///
/// `meaning` says what the state is that all shards together stand for, which entries are allowed in it and what an entry does to each
/// shard. `lawful` is the proof of the scene's laws, which `Lawful` says in full.
pub trait Scene: Drop + Sync {
    /// An event, with a price and perhaps a fault.
    type Entry: Drop + Send + Sync;
    /// A thing to do. An entry takes one work that is pending, may end it, and may offer others.
    type Work: Drop + Send + Sync;
    /// A part of the state.
    type Shard: Drop + Send + Sync;
    /// The shards that a seat has in hand.
    type Held: Drop + Send + Sync;

    // What all shards together stand for.
    ghost Store: { Type 0 };

    // What entries mean.
    ghost meaning: { Meaning Self.Store Self.Entry Self.Shard Self.Work };

    // The shard of this number in hand.
    ghost in_hand: { Self.Held → ℕ → Option Self.Shard };

    /// Puts a shard in hand. None of its number may be there.
    fn add(&self, held: &mut Self::Held, number: u32, shard: Self::Shard)
        requires low { number < 64 }
        requires absent { in_hand held.old number ≡ None }
        ensures here { in_hand held.new number ≡ Some shard }
        ensures others { (k : ℕ) → k ≢ number → in_hand held.new k ≡ in_hand held.old k };

    /// Takes the shard of this number out of hand, if it is there.
    fn remove(&self, held: &mut Self::Held, number: u32) -> Option<Self::Shard>
        requires low { number < 64 }
        ensures shard { result ≡ in_hand held.old number }
        ensures here { in_hand held.new number ≡ None }
        ensures others { (k : ℕ) → k ≢ number → in_hand held.new k ≡ in_hand held.old k };

    /// The bits of the shards that the entry touches.
    fn touches(&self, entry: &Self::Entry) -> u64
        ensures bits { (k : ℕ) → k < 64 → bit_at result k ≡ one_if (meaning.touched entry.now k) }
        ensures low { (k : ℕ) → meaning.touched entry.now k ≡ true → k < 64 };

    // The laws of a scene.
    ghost lawful: { Lawful meaning };
}
