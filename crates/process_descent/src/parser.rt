//! A reader of processes.
ghost use Rattle.grammar.specs.Rules.{Sort};
ghost use Rattle.grammar.specs.Values.{processes};
ghost use Rattle.token_cursor.specs.Meaning.{view};
ghost use Rattle.token_cursor.specs.Reading.{Gives, of_proc};
ghost use Rattle.std.specs.Prelude.{◌≤◌, IfOk, length};

use crate::process;
use calculus::Proc;
use form_parts::part::Part;
use grammar::Fault;
use token_cursor::Cursor;

/// A reader of processes. After a fault the cursor stands where the fault shows,
/// unless memory ran out.
#[derive(Drop)]
pub struct Parser<'a> {
    pub cursor: Cursor<'a>,
}

impl<'a> Parser<'a> {
    /// Par ::= One { "|" One }
    pub fn par(&mut self, free: u32) -> Result<Part<Proc>, Fault>
        ensures reads { Gives free (Sort.Par processes) of_proc (view self.old.cursor.rest.now) result (view self.new.cursor.rest.now) }
        ensures room { IfOk result (λ p. p.height ≤ free) }
        ensures shorter { length self.new.cursor.rest.now ≤ length self.old.cursor.rest.now }
    {
        process::par(&mut self.cursor, free)
    }
}
