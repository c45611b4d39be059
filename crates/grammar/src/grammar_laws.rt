ghost use Rattle.std.specs.Prelude.{◌≡◌, ◌≤◌, ℕ, List, [], ◌∷◌};
ghost use Rattle.calculus.specs.Written.{Written};
ghost use Rattle.grammar.specs.Descent.{Descends, IsSure, Outcome, fault, read};
ghost use Rattle.grammar.specs.Rules.{Par, last};
ghost use Rattle.grammar.specs.Spells.{Reads, Spells, SpellsNothing};
ghost use Rattle.grammar.specs.Terminals.{Terminal, mark, terminals};
ghost use Rattle.grammar.specs.Values.{Spelt, processes, spelt};
ghost use Rattle.grammar.specs.declared.dialect.Dialect.{Dialect as Language};
ghost use Rattle.grammar.specs.declared.fault.Fault.TheVariants.{Syntax};
ghost use Rattle.grammar.specs.declared.mark.Mark.TheVariants.{End};
ghost use Rattle.tokens.specs.Token.{Notation, Token};

/// In each dialect a list of tokens, of a source or of a printed text, spells at most one process,
/// and its text has one height.
pub fn one_reading()
    ensures one_process { (n : Notation) (d : Language) (tokens : List Token) (p q : Written) (h k : ℕ)
        → Spells n d tokens p h → Spells n d tokens q k → p ≡ q }
    ensures one_height { (n : Notation) (d : Language) (tokens : List Token) (p q : Written) (h k : ℕ)
        → Spells n d tokens p h → Spells n d tokens q k → h ≡ k }
{}

/// Descent, which looks at the next tokens alone, reads just what is spelt within the bound on the
/// height.
pub fn descent_is_exact()
    ensures reads_what_is_spelt { (n : Notation) (d : Language) (tokens : List Token) (p : Written) (h free : ℕ)
        → Spells n d tokens p h → h ≤ free → Descends n d free tokens (read (spelt p h) (mark End ∷ [])) }
    ensures what_it_reads_is_spelt { (n : Notation) (d : Language) (tokens : List Token) (v : Spelt) (free : ℕ) (rest : List Terminal)
        → Descends n d free tokens (read v rest) → Reads d (last (Par processes)) (terminals n tokens) v rest }
    ensures one_outcome { (n : Notation) (d : Language) (tokens : List Token) (free : ℕ) (a b : Outcome)
        → Descends n d free tokens a → Descends n d free tokens b → IsSure a → IsSure b → a ≡ b }
    ensures syntax_spells_nothing { (n : Notation) (d : Language) (tokens : List Token) (free : ℕ) (rest : List Terminal)
        → Descends n d free tokens (fault Syntax rest) → SpellsNothing n d tokens }
{}
