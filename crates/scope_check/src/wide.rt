// How many parts and members patterns have.

ghost use Rattle.std.specs.Prelude.{◌≡◌, ◌+◌, not, map, count_by};
ghost use Rattle.calculus.specs.Written.{writtens};
ghost use Rattle.calculus.specs.Meaning.{pat_written};
ghost use Rattle.scope.specs.Rules.{is_wide_part, parts_of, all_parts_of, has_many_parts};
ghost use Rattle.rho_term.specs.Measures.{in_u32};

use calculus::Pat;

/// Whether a parallel pattern has more than one wide part or more than 8 thin ones.
pub fn is_wide(ps: &Vec<Pat>) -> bool
    ensures { result ≡ has_many_parts (all_parts_of (writtens (map pat_written ps.now.items))) }
{
    wide_parts(ps) >= 2 || thin_parts(ps) >= 9
}

// How many parts of these patterns take all that is left, up to the greatest `u32`.
#[cycle(wide)]
fn wide_parts(ps: &Vec<Pat>) -> u32
    ensures { result ≡ in_u32 (count_by (λ q. is_wide_part q) (all_parts_of (writtens (map pat_written ps.now.items)))) }
{
    let mut count: u32 = 0;
    for p in ps {
        count = count.saturating_add(wide_parts_of(p));
    }
    count
}

#[cycle(wide)]
fn wide_parts_of(p: &Pat) -> u32
    ensures { result ≡ in_u32 (count_by (λ q. is_wide_part q) (parts_of (pat_written p.now))) }
{
    match p {
        Pat::Par(ps) => wide_parts(ps),
        Pat::Wild => 1,
        Pat::Var(_) => 1,
        Pat::Simple(_) => 0,
        Pat::Same(_) => 1,
        Pat::Ground(_) => 0,
        Pat::Both(..) => 1,
        Pat::Either(..) => 1,
        Pat::Not(_) => 1,
        Pat::List(..) => 0,
        Pat::Tuple(_) => 0,
        Pat::Set(..) => 0,
        Pat::Map(..) => 0,
        Pat::Send { .. } => 0,
        Pat::Bundle { .. } => 0,
        Pat::Closed(_) => 0,
    }
}

// How many take one part, up to the greatest `u32`.
#[cycle(thin)]
fn thin_parts(ps: &Vec<Pat>) -> u32
    ensures { result ≡ in_u32 (count_by (λ q. not (is_wide_part q)) (all_parts_of (writtens (map pat_written ps.now.items)))) }
{
    let mut count: u32 = 0;
    for p in ps {
        count = count.saturating_add(thin_parts_of(p));
    }
    count
}

#[cycle(thin)]
fn thin_parts_of(p: &Pat) -> u32
    ensures { result ≡ in_u32 (count_by (λ q. not (is_wide_part q)) (parts_of (pat_written p.now))) }
{
    match p {
        Pat::Par(ps) => thin_parts(ps),
        Pat::Wild => 0,
        Pat::Var(_) => 0,
        Pat::Simple(_) => 1,
        Pat::Same(_) => 0,
        Pat::Ground(_) => 1,
        Pat::Both(..) => 0,
        Pat::Either(..) => 0,
        Pat::Not(_) => 0,
        Pat::List(..) => 1,
        Pat::Tuple(_) => 1,
        Pat::Set(..) => 1,
        Pat::Map(..) => 1,
        Pat::Send { .. } => 1,
        Pat::Bundle { .. } => 1,
        Pat::Closed(_) => 1,
    }
}
