// Which parts are closed forms of patterns.
ghost use Rattle.std.specs.Prelude.{◌≡◌, []};
ghost use Rattle.calculus.specs.Form.{all, pat, name_pat, name_part};
ghost use Rattle.calculus.specs.Tree.{trees};
ghost use Rattle.calculus.specs.Formed.{IsFine, Formed, Holds};
ghost use Rattle.rho_term.specs.Parts.{part_tree};
ghost use Rattle.printed_leaves.specs.Texts.{IsClosedForm};

use rho_term::{Part, Term};

/// What may be a closed form in a pattern is a part of a process: a tuple, a send or a bundle of
/// processes is none of patterns.
pub fn look_inside(p: &Part)
    ensures { Formed IsFine name_part (part_tree p.now) → IsClosedForm p.now }
{
    match p {
        Part::Tuple(members) => look_at_first(members),
        Part::Send { channel, .. } => look_at(channel),
        Part::Bundle { body, .. } => look_at(body),
        _ => {}
    }
}

fn look_at_first(members: &[Term])
    ensures { Holds IsFine (all pat) (trees members.now) → members.now ≡ [] }
{
    if !members.is_empty() {
        look_at(&members[0]);
    }
}

// A process is no pattern.
fn look_at(t: &Term)
    ensures names { Formed IsFine name_pat t.now → ⊥ }
    ensures processes { Formed IsFine pat t.now → ⊥ }
{
    let _parts = t.parts();
}
