// A text that is being written.
ghost use Rattle.std.specs.Prelude.{◌≡◌, ◌++◌, ◌+◌, ◌≤◌, [], true, false, cond, ltb, length, codes, IfOk};
ghost use Rattle.calculus.specs.Form.{part as a_part};
ghost use Rattle.calculus.specs.Printed.{declared_texts, operand_text, separated, variable_text};
ghost use Rattle.calculus.specs.Shape.{held, leaf, only};
ghost use Rattle.calculus.specs.Texts.{to_hex};
ghost use Rattle.calculus.specs.Tree.{rest};
ghost use Rattle.calculus.specs.Variables.{bound};
ghost use Rattle.printed_leaves.specs.Texts.{Wrote, Adds, AddsTo, WritesName, text_of};
ghost use Rattle.printed_leaves.specs.Words.{before, remainder};
ghost use Rattle.rho_term.specs.Parts.{ground_tree, part_tree};

use crate::ground::put_ground;
use crate::{
    number_of, put, put_fresh, put_rest, put_space_since, put_variable, separate, uri_after,
};
use calculus::{Digest, Ground, Origin, TermRest};
use rho_term::{Part, Term};
use std::alloc::{AllocError, Global};

/// A text that is being written. Once memory was wanting, what is written is no text any more.
///
/// No text has fewer bytes than there are variables in scope, since each of them stands in it. So
/// where their number is greater, memory counts as wanting.
#[derive(Drop)]
pub struct Page {
    bytes: Vec<u8>,
    failed: bool,
}

impl Page {
    /// An empty one.
    pub fn new(alloc: Global) -> Page
        ensures { (result.failed ≡ false) × (result.bytes.items ≡ []) }
    {
        Page {
            bytes: Vec::new(alloc),
            failed: false,
        }
    }

    /// What was written, if it is a text.
    pub fn text(self) -> Result<Vec<u8>, AllocError>
        ensures { IfOk result (λ v. (self.failed ≡ false) × (v ≡ self.bytes)) }
    {
        if self.failed {
            return Err(AllocError);
        }
        Ok(self.bytes)
    }

    /// How many bytes it has.
    pub fn len(&self) -> usize
        ensures { result ≡ length self.now.bytes.items }
    {
        self.bytes.len()
    }

    // Memory was wanting, and the next variable has this number.
    fn fail(&mut self, next: usize) -> usize
        ensures failed { self.new.failed ≡ true }
        ensures next { result ≡ next }
    {
        self.failed = true;
        next
    }

    /// A word.
    pub fn word(&mut self, word: &[u8])
        ensures { Wrote self.old self.new (Adds word.now) }
    {
        match put(&mut self.bytes, word) {
            Ok(()) => {}
            Err(_) => self.failed = true,
        }
    }

    /// A word where it is wanted.
    pub fn word_if(&mut self, wanted: bool, word: &[u8])
        ensures { Wrote self.old self.new (Adds (cond wanted word.now [])) }
    {
        if wanted {
            self.word(word);
        }
    }

    /// A word where it is not spared.
    pub fn word_unless(&mut self, spared: bool, word: &[u8])
        ensures { Wrote self.old self.new (Adds (cond spared [] word.now)) }
    {
        if !spared {
            self.word(word);
        }
    }

    /// A mark before text number `index` of a list, unless it is the first.
    pub fn separate(&mut self, index: usize, mark: &[u8])
        ensures { Wrote self.old self.new (Adds (before index mark.now)) }
    {
        match separate(&mut self.bytes, index, mark) {
            Ok(()) => {}
            Err(_) => self.failed = true,
        }
    }

    /// A space, if more was written since the text had this length.
    pub fn space_since(&mut self, start: usize)
        ensures { Wrote self.old self.new (λ old new. Adds (cond (ltb start (length old)) (codes " ") []) old new) }
    {
        match put_space_since(&mut self.bytes, start) {
            Ok(()) => {}
            Err(_) => self.failed = true,
        }
    }

    /// The variable of this number.
    pub fn variable(&mut self, number: usize)
        ensures { Wrote self.old self.new (Adds (variable_text number)) }
    {
        match put_variable(&mut self.bytes, number) {
            Ok(()) => {}
            Err(_) => self.failed = true,
        }
    }

    /// A fresh name.
    pub fn fresh(&mut self, name: &Digest)
        ensures { Wrote self.old self.new (Adds (codes "$" ++ to_hex name.now.0)) }
    {
        match put_fresh(&mut self.bytes, name) {
            Ok(()) => {}
            Err(_) => self.failed = true,
        }
    }

    /// A ground value.
    pub fn ground(&mut self, value: &Ground)
        ensures { Wrote self.old self.new (Adds (text_of a_part (ground_tree value.now) 0 0)) }
    {
        match put_ground(&mut self.bytes, value) {
            Ok(()) => {}
            Err(_) => self.failed = true,
        }
    }

    /// The name of a process that is the drop of a variable or of a fresh name; of the name of another
    /// process the sign. Gives whether it was the whole name.
    pub fn name(&mut self, term: &Term, depth: usize) -> bool
        ensures { Wrote self.old self.new (WritesName (λ x. cond result [] (operand_text (held term.now) x)) term.now depth) }
    {
        match term.parts() {
            [] => self.sign(),
            [_, _, ..] => self.sign(),
            [single] => self.name_of(single, term, depth),
        }
    }

    // The same of a process of this one part.
    fn name_of(&mut self, part: &Part, term: &Term, depth: usize) -> bool
        requires { term.now ≡ only (part_tree part.now) }
        ensures { Wrote self.old self.new (WritesName (λ x. cond result [] (operand_text (held term.now) x)) term.now depth) }
    {
        match part {
            Part::NameVar(index) => {
                self.variable(number_of(depth, *index));
                true
            }
            Part::Fresh(name) => {
                self.fresh(name);
                true
            }
            _ => self.sign(),
        }
    }

    // The sign of a name that is not whole yet.
    fn sign(&mut self) -> bool
        ensures text { Wrote self.old self.new (Adds (codes "@")) }
        ensures more { result ≡ false }
    {
        self.word(b"@");
        false
    }

    /// A variable that a pattern binds. Gives the number of the next one.
    pub fn new_variable(&mut self, next: usize) -> usize
        ensures { Wrote self.old self.new (AddsTo (variable_text next) (next + 1) result) }
    {
        if self.bytes.len() < next {
            return self.fail(next);
        }
        self.variable(next);
        next + 1
    }

    /// The names that a `new` declares. Gives the number of variables in scope under it.
    pub fn declared(&mut self, names: &[Origin], depth: usize) -> usize
        ensures { Wrote self.old self.new (AddsTo (separated (codes ", ") (declared_texts depth names.now)) (depth + length names.now) result) }
    {
        let mut next = depth;
        for i in 0..names.len() {
            self.separate(i, b", ");
            next = self.new_variable(next);
            self.word(uri_after(names[i]));
        }
        next
    }

    /// A remainder after `index` members. Gives the number of the next variable.
    pub fn rest(
        &mut self,
        index: usize,
        mark: &[u8],
        dots: &[u8],
        ending: TermRest,
        next: usize,
    ) -> usize
        ensures { Wrote self.old self.new (AddsTo (remainder index mark.now dots.now ending next) (next + length (bound (leaf (rest ending)))) result) }
    {
        if self.bytes.len() < next {
            return self.fail(next);
        }
        match put_rest(&mut self.bytes, index, mark, dots, ending, next) {
            Ok(after) => after,
            Err(_) => self.fail(next),
        }
    }
}
