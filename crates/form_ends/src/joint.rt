//! What joins patterns.
ghost use Rattle.form_ends.specs.Chains.{inner_joint, joint_looseness, joint_mark, joints_below};
ghost use Rattle.std.specs.Prelude.{◌≡◌};

use grammar::Mark;

/// What joins patterns, the loosest first.
#[derive(Clone, Copy)]
pub enum Joint {
    /// One of them takes it.
    Either,
    /// Both take it.
    Both,
}

impl Joint {
    /// What joins tighter.
    pub fn inner(self) -> Option<Joint>
        ensures is { result ≡ inner_joint self }
        ensures tighter { joints_below result ≡ joint_looseness self }
    {
        match self {
            Joint::Either => Some(Joint::Both),
            Joint::Both => None,
        }
    }

    /// Its mark.
    pub fn mark(self) -> Mark
        ensures { result ≡ joint_mark self }
    {
        match self {
            Joint::Either => Mark::Either,
            Joint::Both => Mark::Both,
        }
    }
}
