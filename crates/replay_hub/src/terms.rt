//! What a replay is about, and what a shard of it is.
ghost use Rattle.std.specs.Prelude.{◌≡◌, ◌≢◌, ℕ, ◌<◌, Option, None, Some, List};
ghost use Rattle.calculus.specs.Runs.{Deploy};
ghost use Rattle.calculus.specs.Log.{Step};
ghost use Rattle.calculus.specs.Rows.{Row};
ghost use Rattle.calculus.specs.Tree.{Tree};
ghost use Rattle.hub_scenes.specs.Spaces.{Part};

/// What the proof of a replay names: its deploy and the steps of its log; and the types of its rows, channels and
/// shards. A shard is seen as its number, its rows and the built-in receivers in it.
pub trait ReplayTerms {
    /// A row.
    type Row: Drop + Send + Sync;
    /// A channel.
    type Channel: Drop + Send + Sync;
    /// A shard.
    type Shard: Drop + Send + Sync;
    /// The shards that a seat has in hand.
    type Held: Drop + Send + Sync;

    // The deploy that the log is of.
    ghost deploy: { Deploy };

    // The steps of the log.
    ghost steps: { List Step };

    // What a row is seen as.
    ghost row_of: { Self.Row → Row };

    // What a channel is seen as.
    ghost channel_of: { Self.Channel → Tree };

    // What a shard is seen as.
    ghost part_of: { Self.Shard → Part };

    // The shard of this number in hand.
    ghost in_hand: { Self.Held → ℕ → Option Self.Shard };

    /// Puts a shard in hand. None of its number may be there.
    fn add(held: &mut Self::Held, number: u32, shard: Self::Shard)
        requires low { number < 64 }
        requires absent { in_hand held.old number ≡ None }
        ensures here { in_hand held.new number ≡ Some shard }
        ensures others { (k : ℕ) → k ≢ number → in_hand held.new k ≡ in_hand held.old k };

    /// Takes the shard of this number out of hand, if it is there.
    fn remove(held: &mut Self::Held, number: u32) -> Option<Self::Shard>
        requires low { number < 64 }
        ensures shard { result ≡ in_hand held.old number }
        ensures here { in_hand held.new number ≡ None }
        ensures others { (k : ℕ) → k ≢ number → in_hand held.new k ≡ in_hand held.old k };
}
