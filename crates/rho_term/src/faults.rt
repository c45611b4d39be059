// What is a fault by itself: forms that the types allow and that are of no sort. Each is said as 1, and that there is
// none as 0.

ghost use Rattle.std.specs.Prelude.{◌≡◌, ◌-◌, ◌+◌, ◌≤◌, length};
ghost use Rattle.calculus.specs.Tree.{trees};
ghost use Rattle.calculus.specs.Form.{part as of_part, pat as process_pat, name_pat, pat_part, name_part, all as any_of};
ghost use Rattle.rho_term.specs.Parts.{part_tree, pat_part_tree};
ghost use Rattle.rho_term.specs.Measures.{sign};
ghost use Rattle.rho_term.specs.Faults.{faults, all_faults};

use crate::term::{Part, PatPart, Term};

/// A part of a pattern of names, whose faults as a part of a pattern were found: it may be a name variable.
pub(crate) fn name_part_faults(part: &PatPart, found: u32) -> u32
    requires { found ≡ sign (faults pat_part (pat_part_tree part.now)) }
    ensures { result ≡ sign (faults name_part (pat_part_tree part.now)) }
{
    match part {
        PatPart::NameVar => 0,
        _ => found,
    }
}

/// A closed form in a pattern, whose faults as a part of a process were found. It is a ground value, a receive, a `new`
/// or a `match`.
pub(crate) fn closed_faults(part: &Part, found: u32) -> u32
    requires { found ≡ sign (faults of_part (part_tree part.now)) }
    ensures { result ≡ sign (faults pat_part (part_tree part.now)) }
{
    match part {
        Part::Ground(_) => 0,
        Part::Receive { .. } => found,
        Part::New { .. } => found,
        Part::Match { .. } => found,
        Part::Tuple(members) => members_in_pattern(members),
        Part::Send { channel, .. } => in_pattern(channel),
        Part::Bundle { body, .. } => in_pattern(body),
        _ => 1,
    }
}

// A process where a pattern is wanted is a fault.
fn in_pattern(process: &Term) -> u32
    ensures some { result ≡ 1 }
    ensures pattern { 1 ≤ faults process_pat process.now }
    ensures names { 1 ≤ faults name_pat process.now }
{
    let _parts = process.parts();
    1
}

// And so are the members of a tuple there, or that it has none.
fn members_in_pattern(members: &Vec<Term>) -> u32
    ensures some { result ≡ 1 }
    ensures faults { 1 ≤ (1 - length members.now.items) + all_faults (any_of process_pat) (trees members.now.items) }
{
    match members.first() {
        Some(member) => in_pattern(member),
        None => 1,
    }
}

/// A tuple has a member.
pub(crate) fn tuple_faults(members: usize) -> u32
    ensures { result ≡ 1 - members }
{
    if members == 0 { 1 } else { 0 }
}

/// A digest has 32 bytes.
pub(crate) fn digest_faults(digest: &[u8]) -> u32
    ensures { result ≡ sign ((length digest.now - 32) + (32 - length digest.now)) }
{
    if digest.len() == 32 { 0 } else { 1 }
}
