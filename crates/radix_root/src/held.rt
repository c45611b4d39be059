// How many groups nodes hold, as far as none, one and several go.

ghost use Rattle.std.specs.Prelude.{◌++◌};
ghost use Rattle.radix_root.specs.Leaves.{Leaves};
ghost use Rattle.radix_root.specs.Nodes.{leaves_of};
ghost use Rattle.radix_root.specs.Holding.{IsHeld};

use crate::node::Node;
use calculus::Digest;

/// What nodes hold.
#[derive(Clone, Copy)]
pub(crate) enum Held {
    Nothing,
    /// The key of the one group, and its digest.
    One(Digest, Digest),
    Several,
}

impl Held {
    /// What nodes hold of which some hold this and the others that.
    fn and(self, other: Held) -> Held
        ensures { (ls ms : Leaves) → IsHeld self ls → IsHeld other ms → IsHeld result (ls ++ ms) }
    {
        match (self, other) {
            (Held::Nothing, _) => other,
            (_, Held::Nothing) => self,
            _ => Held::Several,
        }
    }
}

/// What these nodes hold.
pub(crate) fn held_by(children: &[Node]) -> Held
    ensures { IsHeld result (leaves_of children.now) }
{
    let mut held = Held::Nothing;
    for child in children {
        held = held.and(child.held());
    }
    held
}
