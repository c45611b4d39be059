// The calls of this crate.
ghost use Rattle.std.specs.Prelude.{[], IfOk};
ghost use Rattle.calculus.specs.CodeLaws.{IsShort};
ghost use Rattle.calculus.specs.Form.{a_bind, term, Fits, IsClosed};
ghost use Rattle.calculus.specs.Matching.{all_matches, bind_matches};
ghost use Rattle.rho_term.specs.Parts.{bind_tree};
ghost use Rattle.match_targets.specs.Targets.{AllReady};
ghost use Rattle.spatial_match.specs.Given.{IsClosedPattern};
ghost use Rattle.match_targets.specs.Found.{IsFirst};

use crate::forms::find_items;
use crate::parts::find_whole;
use rho_term::{Term, TermBind, TermPat};
use std::alloc::{AllocError, Global};

/// The bindings of the first match of a pattern against a process, in written order of the variables,
/// and None exactly where there is no match. The rule is that of the calculus: the list of all matches,
/// of which the first counts.
///
/// Both are closed, and their codes are shorter than 2^32 bytes. Want of memory is the one error.
pub fn first_match(
    alloc: Global,
    pattern: &TermPat,
    target: &Term,
) -> Result<Option<Vec<Term>>, AllocError>
    requires pattern { IsClosedPattern pattern.now }
    requires short_pattern { IsShort pattern.now }
    requires target { IsClosed target.now }
    requires short_target { IsShort target.now }
    ensures { IfOk result (λ o. IsFirst (all_matches pattern.now target.now) o) }
{
    find_whole(alloc, pattern, target)
}

/// The bindings of the first match of a bind against the arguments of a datum, in written order of the
/// variables, and None exactly where there is no match. The channel of the bind is not looked at.
///
/// The bind and the arguments are closed, and their codes are shorter than 2^32 bytes. Want of memory is
/// the one error.
pub fn match_bind(
    alloc: Global,
    bind: &TermBind,
    args: &[Term],
) -> Result<Option<Vec<Term>>, AllocError>
    requires bind { Fits a_bind [] (bind_tree bind.now) }
    requires short_bind { IsShort (bind_tree bind.now) }
    requires args { AllReady term args.now }
    ensures { IfOk result (λ o. IsFirst (bind_matches (bind_tree bind.now) args.now) o) }
{
    find_items(alloc, &bind.pats, bind.rest, args)
}
