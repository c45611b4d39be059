//! The patterns of processes and of names that the productions make of their constituents.
ghost use Rattle.calculus.specs.Meaning.{ground_label, name_pat_written, pat_written, proc_written, rest_written};
ghost use Rattle.grammar.specs.Values.{any_of, binder_of, type_of, both_of, bound_of, bundle_of, closed_of, either_of, ground_of, left_of, list_pattern_of, map_pattern_of, no_parts, not_of, par_of, patterns, quoted_of, same_of, send_of, seq_of, set_pattern_of, tuple_of};
ghost use Rattle.form_parts.specs.Forms.{HasTree, left_written, of_proc, pat_pairs_written, pat_row_written, sequence_written};
ghost use Rattle.std.specs.Prelude.{◌≡◌, ◌+◌, ◌<◌, ◌-◌, ◌^◌, [], IfOk, map, max, string_bytes};

use calculus::{Ground, NamePat, Pat, Proc, Rest, Rights, Simple};
use form_parts::part::{Left, Part, Sequence};
use form_parts::parts;
use grammar::Fault;
use std::alloc::Global;

/// Parts in parallel: one part is itself.
pub fn composed_pat(mut parts: Part<Vec<Pat>>) -> Part<Pat>
    ensures tree { pat_written result.value ≡ par_of patterns (map pat_written parts.value.items) }
    ensures height { result.height ≡ parts.height }
{
    let height = parts.height;
    if parts.value.len() == 1 {
        if let Some(only) = parts.value.pop() {
            return Part {
                value: only,
                height,
            };
        }
    }
    Part {
        value: Pat::Par(parts.value),
        height,
    }
}

/// A tuple of a first member and those of a row.
pub fn tuple_pat(first: Part<Pat>, row: Part<Vec<Pat>>) -> Result<Part<Pat>, Fault>
    requires first { first.height + 1 < 2 ^ 32 }
    requires row { row.height + 1 < 2 ^ 32 }
    ensures tree { HasTree pat_written result (tuple_of patterns (pat_written first.value) (pat_row_written row.value)) }
    ensures height { IfOk result (λ p. p.height ≡ max first.height row.height + 1) }
{
    let height = first.height.max(row.height) + 1;
    let mut members = row.value;
    members.insert(0, first.value)?;
    Ok(Part {
        value: Pat::Tuple(members),
        height,
    })
}

/// A bundle in a pattern.
pub fn bundle_pat(alloc: Global, rights: Rights, body: Part<Pat>) -> Result<Part<Pat>, Fault>
    requires body { body.height + 1 < 2 ^ 32 }
    ensures tree { HasTree pat_written result (bundle_of patterns rights (pat_written body.value)) }
    ensures height { IfOk result (λ p. p.height ≡ body.height + 1) }
{
    let height = body.height + 1;
    let body = Box::new(alloc, body.value)?;
    Ok(Part {
        value: Pat::Bundle { rights, body },
        height,
    })
}

/// `={P}`
pub fn same(alloc: Global, body: Part<Proc>) -> Result<Part<Pat>, Fault>
    requires body { body.height + 1 < 2 ^ 32 }
    ensures tree { HasTree pat_written result (same_of (proc_written body.value)) }
    ensures height { IfOk result (λ p. p.height ≡ body.height + 1) }
{
    let height = body.height + 1;
    let body = Box::new(alloc, body.value)?;
    Ok(Part {
        value: Pat::Same(body),
        height,
    })
}

/// A negated pattern.
pub fn not_pat(alloc: Global, arg: Part<Pat>) -> Result<Part<Pat>, Fault>
    requires arg { arg.height + 1 < 2 ^ 32 }
    ensures tree { HasTree pat_written result (not_of (pat_written arg.value)) }
    ensures height { IfOk result (λ p. p.height ≡ arg.height + 1) }
{
    let height = arg.height + 1;
    let arg = Box::new(alloc, arg.value)?;
    Ok(Part {
        value: Pat::Not(arg),
        height,
    })
}

/// Either of two patterns.
pub fn either(alloc: Global, left: Part<Pat>, right: Part<Pat>) -> Result<Part<Pat>, Fault>
    requires left { left.height + 1 < 2 ^ 32 }
    requires right { right.height + 1 < 2 ^ 32 }
    ensures tree { HasTree pat_written result (either_of (pat_written left.value) (pat_written right.value)) }
    ensures height { IfOk result (λ p. p.height ≡ max left.height right.height + 1) }
{
    let height = left.height.max(right.height) + 1;
    let (left, right) = parts::boxed_two(alloc, left.value, right.value)?;
    Ok(Part {
        value: Pat::Either(left, right),
        height,
    })
}

/// Both of two patterns.
pub fn both(alloc: Global, left: Part<Pat>, right: Part<Pat>) -> Result<Part<Pat>, Fault>
    requires left { left.height + 1 < 2 ^ 32 }
    requires right { right.height + 1 < 2 ^ 32 }
    ensures tree { HasTree pat_written result (both_of (pat_written left.value) (pat_written right.value)) }
    ensures height { IfOk result (λ p. p.height ≡ max left.height right.height + 1) }
{
    let height = left.height.max(right.height) + 1;
    let (left, right) = parts::boxed_two(alloc, left.value, right.value)?;
    Ok(Part {
        value: Pat::Both(left, right),
        height,
    })
}

/// A ground value as a pattern.
pub fn ground_pat(value: Ground) -> Part<Pat>
    ensures tree { pat_written result.value ≡ ground_of patterns (ground_label value) }
    ensures height { result.height ≡ 0 }
{
    Part {
        height: 0,
        value: Pat::Ground(value),
    }
}

/// A send in a pattern.
pub fn send_pat(channel: Part<NamePat>, args: Part<Vec<Pat>>, persistent: bool) -> Part<Pat>
    requires channel { channel.height + 1 < 2 ^ 32 }
    requires args { args.height + 1 < 2 ^ 32 }
    ensures tree { pat_written result.value ≡ send_of patterns persistent (name_pat_written channel.value) (pat_row_written args.value) }
    ensures height { result.height ≡ max channel.height args.height + 1 }
{
    Part {
        height: channel.height.max(args.height) + 1,
        value: Pat::Send {
            channel: channel.value,
            args: args.value,
            persistent,
        },
    }
}

/// A list of patterns.
pub fn list_pat(sequence: Part<Sequence>) -> Part<Pat>
    requires sequence { sequence.height + 1 < 2 ^ 32 }
    ensures tree { pat_written result.value ≡ list_pattern_of (sequence_written sequence.value) }
    ensures height { result.height ≡ sequence.height + 1 }
{
    Part {
        height: sequence.height + 1,
        value: Pat::List(sequence.value.pats, sequence.value.rest),
    }
}

/// A set of patterns.
pub fn set_pat(sequence: Part<Sequence>) -> Part<Pat>
    requires sequence { sequence.height + 1 < 2 ^ 32 }
    ensures tree { pat_written result.value ≡ set_pattern_of (sequence_written sequence.value) }
    ensures height { result.height ≡ sequence.height + 1 }
{
    Part {
        height: sequence.height + 1,
        value: Pat::Set(sequence.value.pats, sequence.value.rest),
    }
}

/// A map of patterns.
pub fn map_pat(pairs: Part<Vec<(Pat, Pat)>>, rest: Rest) -> Part<Pat>
    requires pairs { pairs.height + 1 < 2 ^ 32 }
    ensures tree { pat_written result.value ≡ map_pattern_of (pat_pairs_written pairs.value.items) (rest_written rest) }
    ensures height { result.height ≡ pairs.height + 1 }
{
    Part {
        height: pairs.height + 1,
        value: Pat::Map(pairs.value, rest),
    }
}

/// What stands in braces or parentheses in a pattern.
pub fn opened_pat(inner: Part<Pat>) -> Part<Pat>
    requires inner { inner.height + 1 < 2 ^ 32 }
    ensures tree { pat_written result.value ≡ pat_written inner.value }
    ensures height { result.height ≡ inner.height + 1 }
{
    Part {
        height: inner.height + 1,
        value: inner.value,
    }
}

/// No patterns.
pub fn no_pats(alloc: Global) -> Part<Vec<Pat>>
    ensures tree { map pat_written result.value.items ≡ [] }
    ensures height { result.height ≡ 0 }
{
    Part {
        value: Vec::new(alloc),
        height: 0,
    }
}

/// A quoted pattern.
pub fn quote_pat(alloc: Global, quoted: Part<Pat>) -> Result<Part<NamePat>, Fault>
    ensures tree { HasTree name_pat_written result (quoted_of (pat_written quoted.value)) }
    ensures height { IfOk result (λ p. p.height ≡ quoted.height) }
{
    let value = Box::new(alloc, quoted.value)?;
    Ok(Part {
        value: NamePat::Quote(value),
        height: quoted.height,
    })
}

/// A closed form in a pattern.
pub fn closed(alloc: Global, form: Part<Proc>) -> Result<Part<Pat>, Fault>
    ensures tree { HasTree pat_written result (closed_of (of_proc form)).tree }
    ensures height { IfOk result (λ p. p.height ≡ form.height) }
{
    let value = Box::new(alloc, form.value)?;
    Ok(Part {
        value: Pat::Closed(value),
        height: form.height,
    })
}

/// The pattern `Nil`.
pub fn nil_pat(alloc: Global) -> Part<Pat>
    ensures tree { pat_written result.value ≡ no_parts }
    ensures height { result.height ≡ 0 }
{
    Part {
        height: 0,
        value: Pat::Par(Vec::new(alloc)),
    }
}

/// A variable that is bound here.
pub fn bound(name: String) -> Part<Pat>
    ensures tree { pat_written result.value ≡ bound_of (string_bytes name) }
    ensures height { result.height ≡ 0 }
{
    Part {
        height: 0,
        value: Pat::Var(name),
    }
}

/// `_`
pub fn any() -> Part<Pat>
    ensures tree { pat_written result.value ≡ any_of }
    ensures height { result.height ≡ 0 }
{
    Part {
        height: 0,
        value: Pat::Wild,
    }
}

/// A simple type.
pub fn simple(simple: Simple) -> Part<Pat>
    ensures tree { pat_written result.value ≡ type_of simple }
    ensures height { result.height ≡ 0 }
{
    Part {
        height: 0,
        value: Pat::Simple(simple),
    }
}

/// Any name.
pub fn any_channel() -> Part<NamePat>
    ensures tree { name_pat_written result.value ≡ any_of }
    ensures height { result.height ≡ 0 }
{
    Part {
        height: 0,
        value: NamePat::Wild,
    }
}

/// A name that is bound here.
pub fn bound_channel(name: String) -> Part<NamePat>
    ensures tree { name_pat_written result.value ≡ binder_of (string_bytes name) }
    ensures height { result.height ≡ 0 }
{
    Part {
        height: 0,
        value: NamePat::Var(name),
    }
}

/// Patterns of a bind and a remainder.
pub fn left(pats: Part<Vec<NamePat>>, rest: Rest) -> Part<Left>
    ensures tree { left_written result.value ≡ (left_of (map name_pat_written pats.value.items) pats.height (rest_written rest)).tree }
    ensures height { result.height ≡ pats.height }
{
    Part {
        height: pats.height,
        value: Left {
            pats: pats.value,
            rest,
        },
    }
}

/// Patterns of a list or a set and a remainder.
pub fn sequence(pats: Part<Vec<Pat>>, rest: Rest) -> Part<Sequence>
    ensures tree { sequence_written result.value ≡ (seq_of (map pat_written pats.value.items) pats.height (rest_written rest)).tree }
    ensures height { result.height ≡ pats.height }
{
    Part {
        height: pats.height,
        value: Sequence {
            pats: pats.value,
            rest,
        },
    }
}

/// No patterns of names.
pub fn no_name_pats(alloc: Global) -> Part<Vec<NamePat>>
    ensures tree { map name_pat_written result.value.items ≡ [] }
    ensures height { result.height ≡ 0 }
{
    Part {
        value: Vec::new(alloc),
        height: 0,
    }
}

/// No pairs of patterns.
pub fn no_pairs(alloc: Global) -> Part<Vec<(Pat, Pat)>>
    ensures tree { pat_pairs_written result.value.items ≡ [] }
    ensures height { result.height ≡ 0 }
{
    Part {
        value: Vec::new(alloc),
        height: 0,
    }
}
