// What has a code: parts, processes and pairs. The order of two of them is found without their codes where they
// suit: their forms are of their sorts, no tuple in them is empty, and their codes are shorter than 2^32 bytes.

ghost use Rattle.std.specs.Prelude.{◌≡◌, ℕ, List, true, ⊤, IfOk};
ghost use Rattle.calculus.specs.Code.{code};
ghost use Rattle.calculus.specs.Form.{term as process, part as of_part, pair_of};
ghost use Rattle.calculus.specs.Order.{byte_cmp};
ghost use Rattle.rho_term.specs.Normal.{IsOrdered};
ghost use Rattle.rho_term.specs.Parts.{part_tree, pair_tree};
ghost use Rattle.term_order.specs.Orders.{Suits};

use rho_term::{Part, Term};
use std::alloc::{AllocError, Global};
use std::cmp::Ordering;
use term_encoder::{encode_part, encode_term};
use term_order::{pair_order, part_order, term_order};

// What the length of a code is to be less than.
const ROOM: u64 = 1 << 32;

/// What is put in the order of its code.
pub(crate) trait HasCode: Drop {
    // The bytes of the code.
    ghost bytes: { Self → List ℕ };

    // What is asked of it.
    ghost is_ready: { Self → Type 0 };

    // That its order is found without its code.
    ghost is_suited: { Self → Type 0 };

    /// Whether it is seen to suit.
    fn suits(&self) -> bool
        requires { is_ready self.now }
        ensures { result ≡ true → is_suited self.now };

    /// The order of the codes, which are not made.
    fn order(&self, other: &Self) -> Ordering
        requires first { is_suited self.now }
        requires second { is_suited other.now }
        ensures { result ≡ byte_cmp (bytes self.now) (bytes other.now) };

    /// The code. Want of memory is the one error.
    fn encoded(&self, alloc: Global) -> Result<Vec<u8>, AllocError>
        requires { is_ready self.now }
        ensures { IfOk result (λ v. v.items ≡ bytes self.now) };
}

impl HasCode for Part {
    ghost bytes = { λ p. code (part_tree p) };

    ghost is_ready = { λ p. IsOrdered (part_tree p) };

    ghost is_suited = { λ p. Suits of_part (part_tree p) };

    fn suits(&self) -> bool {
        if self.code_len() >= ROOM {
            return false;
        }
        self.is_faultless()
    }

    fn order(&self, other: &Part) -> Ordering {
        part_order(self, other)
    }

    fn encoded(&self, alloc: Global) -> Result<Vec<u8>, AllocError> {
        encode_part(alloc, self)
    }
}

impl HasCode for Term {
    ghost bytes = { code };

    ghost is_ready = { λ _. ⊤ };

    ghost is_suited = { Suits process };

    fn suits(&self) -> bool {
        if self.code_len() >= ROOM {
            return false;
        }
        self.is_faultless()
    }

    fn order(&self, other: &Term) -> Ordering {
        term_order(self, other)
    }

    fn encoded(&self, alloc: Global) -> Result<Vec<u8>, AllocError> {
        encode_term(alloc, self)
    }
}

// A pair has the key's code and then the value's.
impl HasCode for (Term, Term) {
    ghost bytes = { λ p. code (pair_tree p) };

    ghost is_ready = { λ _. ⊤ };

    ghost is_suited = { λ p. Suits (pair_of process) (pair_tree p) };

    fn suits(&self) -> bool {
        let length = self.0.code_len().saturating_add(self.1.code_len());
        if length >= ROOM {
            return false;
        }
        if !self.0.is_faultless() {
            return false;
        }
        self.1.is_faultless()
    }

    fn order(&self, other: &(Term, Term)) -> Ordering {
        pair_order(self, other)
    }

    fn encoded(&self, alloc: Global) -> Result<Vec<u8>, AllocError> {
        let mut bytes = encode_term(alloc, &self.0)?;
        let value = encode_term(alloc, &self.1)?;
        bytes.extend_from_slice(value.as_slice())?;
        Ok(bytes)
    }
}
