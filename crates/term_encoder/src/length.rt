// Lengths of codes, known without making them.
ghost use Rattle.std.specs.Prelude.{◌≡◌, length};
ghost use Rattle.calculus.specs.Code.{code};
ghost use Rattle.term_encoder.specs.Sizes.{in_u64};

use rho_term::Term;

/// How many bytes the code of a process has, or the greatest `u64` where it has more. It takes no
/// memory and no time: the process keeps the number.
pub fn code_len(term: &Term) -> u64
    ensures { result ≡ in_u64 (length (code term.now)) }
{
    term.code_len()
}
