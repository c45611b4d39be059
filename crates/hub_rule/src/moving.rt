//! Things moved behind others.
ghost use Rattle.std.specs.Prelude.{◌≡◌, ◌+◌, ◌≤◌, ◌++◌, length, vec_capacity};

/// Moves things behind others, with room for them.
pub fn move_all<T: Drop>(things: Vec<T>, all: &mut Vec<T>)
    requires { length all.old.items + length things.items ≤ vec_capacity all.old }
    ensures items { all.new.items ≡ all.old.items ++ things.items }
    ensures room { vec_capacity all.new ≡ vec_capacity all.old }
{
    for thing in things {
        all.push_reserved(thing);
    }
}
