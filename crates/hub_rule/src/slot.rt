//! What a slot holds.

/// What a slot of a hub holds: a shard, or the works on a desk.
#[derive(Drop)]
pub enum Slot<X, W> {
    /// A shard, which is out while a seat has it in hand.
    Shard(Option<X>),
    /// The works that lie on a desk. The last one is taken first.
    Desk(Vec<W>),
}
