// What is left of the rows of a base.
ghost use Rattle.std.specs.Prelude.{◌≡◌, ◌≤◌, ◌+◌, ◌⊎◌, ◌∷◌, [], None, true, false, length, IfSome};
ghost use Rattle.std.specs.Str.{bytes_eq};
ghost use Rattle.calculus.specs.Order.{up_to, IsBelowFirst};
ghost use Rattle.next_states.specs.Pairs.{first_code, seconds};
ghost use Rattle.next_states.specs.Walks.{pairs_left};

use calculus::Digest;
use checkpoint::Mark;
use std::cmp::Ordering;

// Rows by their marks, and their codes one after another.
#[derive(Drop)]
pub(crate) struct Left<'a> {
    pub(crate) marks: &'a [Mark],
    pub(crate) text: &'a [u8],
}

impl<'a> Left<'a> {
    // The code of the first row, and no bytes where there is none.
    fn first(&self) -> &'a [u8]
        ensures { result.now ≡ first_code (pairs_left self.now) }
    {
        if self.marks.is_empty() {
            return &[];
        }
        let len = self.marks[0].len.min(self.text.len());
        &self.text[..len]
    }

    // Whether there is a first row, whose code is this.
    pub(crate) fn is_next(&self, code: &[u8]) -> bool
        ensures some { result ≡ true → 1 ≤ length self.now.marks.now }
        ensures code { result ≡ true → first_code (pairs_left self.now) ≡ code.now }
        ensures other { result ≡ false → (pairs_left self.now ≡ []) ⊎ (bytes_eq (first_code (pairs_left self.now)) code.now ≡ false) }
    {
        if self.marks.is_empty() {
            return false;
        }
        are_equal(self.first(), code)
    }

    // Whether there is a first row, whose code is less than this, where there is one.
    pub(crate) fn is_below(&self, code: Option<&[u8]>) -> bool
        ensures some { result ≡ true → 1 ≤ length self.now.marks.now }
        ensures none { result ≡ false → code.entry ≡ None → pairs_left self.now ≡ [] }
        ensures less { result ≡ true → IfSome code.entry (λ c. up_to c.now (first_code (pairs_left self.now)) ≡ false) }
        ensures least { result ≡ false → IfSome code.entry (λ c. IsBelowFirst c.now (seconds (pairs_left self.now))) }
    {
        if self.marks.is_empty() {
            return false;
        }
        match code {
            Some(code) => !is_up_to(code, self.first()),
            None => true,
        }
    }

    // Passes the first row, and gives the key of its group.
    pub(crate) fn pass(&mut self) -> Digest
        requires { 1 ≤ length self.old.marks.now }
        ensures pairs { pairs_left self.old ≡ (result.0, first_code (pairs_left self.old)) ∷ pairs_left self.new }
        ensures fewer { length self.new.marks.now + 1 ≡ length self.old.marks.now }
    {
        let mark = self.marks[0];
        let len = mark.len.min(self.text.len());
        self.text = &self.text[len..];
        self.marks = &self.marks[1..];
        mark.key
    }
}

// Whether two codes are equal.
fn are_equal(a: &[u8], b: &[u8]) -> bool
    ensures { result ≡ bytes_eq a.now b.now }
{
    a == b
}

// Whether a code is less than another, or equal.
fn is_up_to(a: &[u8], b: &[u8]) -> bool
    ensures { result ≡ up_to a.now b.now }
{
    a.cmp(b) != Ordering::Greater
}
