ghost use Rattle.std.specs.Prelude.{◌≡◌, ◌∷◌, ◌+◌, ◌-◌, ◌<◌, ◌⊎◌, ℕ, false, List, length, take};
ghost use Rattle.calculus.specs.Written.{Written};
ghost use Rattle.grammar.specs.Descent.{Descends, IsSure, Outcome, fault, read};
ghost use Rattle.grammar.specs.Spells.{Spells};
ghost use Rattle.grammar.specs.Terminals.{Terminal, mark, sees};
ghost use Rattle.grammar.specs.Values.{Spelt};
ghost use Rattle.grammar.specs.declared.dialect.Dialect.{Dialect as Language};
ghost use Rattle.grammar.specs.declared.fault.Fault.TheVariants.{Syntax, TooDeep};
ghost use Rattle.grammar.specs.declared.mark.Mark.TheVariants.{End};
ghost use Rattle.grammar.specs.Places.{BeginsNothing, EndsAt, IsBeyondAt, PassesAt, PassesAtName, StartsWithin};
ghost use Rattle.tokens.specs.Token.{Notation, source, Token};

/// Where descent has no room for a form, the token there is the first up to which the tokens begin
/// no text within the bound on the height, and they do begin a higher one. In a printed text it may
/// be the fresh name before that token: a fresh name that begins a process begins a send, which is a
/// form, but descent opens it at its `!`. In a source descent stops so wherever there is such a token,
/// unless memory runs out.
pub fn too_deep_is_exact()
    ensures in_a_source { (d : Language) (free : ℕ) (tokens : List Token) (rest : List Terminal)
        → Descends source d free tokens (fault TooDeep rest) → PassesAt source d free tokens (length tokens - length rest) }
    ensures beyond { (n : Notation) (d : Language) (free : ℕ) (tokens : List Token) (rest : List Terminal)
        → Descends n d free tokens (fault TooDeep rest) → IsBeyondAt n d free tokens (length tokens - length rest) }
    ensures in_each_notation { (n : Notation) (d : Language) (free : ℕ) (tokens : List Token) (rest : List Terminal)
        → Descends n d free tokens (fault TooDeep rest)
        → PassesAt n d free tokens (length tokens - length rest) ⊎ PassesAtName n d free tokens (length tokens - length rest) }
    ensures found { (d : Language) (free : ℕ) (tokens : List Token) (k : ℕ) (out : Outcome)
        → PassesAt source d free tokens k → Descends source d free tokens out → IsSure out
        → (rest : List Terminal) × (out ≡ fault TooDeep rest) × (length tokens - length rest ≡ k) }
{}

/// At most one token is the first at which a bound on the height is passed, and then no text within
/// it is spelt; at most one is the first at which a text ends, and then no bound is passed.
pub fn places_are_decided()
    ensures one_place { (n : Notation) (d : Language) (free : ℕ) (tokens : List Token) (j k : ℕ)
        → PassesAt n d free tokens j → PassesAt n d free tokens k → j ≡ k }
    ensures one_end { (n : Notation) (d : Language) (free : ℕ) (tokens : List Token) (j k : ℕ)
        → EndsAt n d free tokens j → EndsAt n d free tokens k → j ≡ k }
    ensures apart { (n : Notation) (d : Language) (free : ℕ) (tokens : List Token) (j k : ℕ)
        → PassesAt n d free tokens j → EndsAt n d free tokens k → ⊥ }
    ensures higher { (n : Notation) (d : Language) (free : ℕ) (tokens : List Token) (k : ℕ) (p : Written) (h : ℕ)
        → IsBeyondAt n d free tokens k → Spells n d tokens p h → free < h }
{}

/// Where descent meets a fault of syntax, and where it has read a whole process that the end doesn't
/// follow or that tokens follow behind the end, the tokens before the place begin a text within the
/// bound, and with the one there none of any height. In a printed text a fresh name that begins a send may stand before the place; then
/// the bound may be passed at the name.
pub fn syntax_is_exact()
    ensures in_a_source { (d : Language) (free : ℕ) (tokens : List Token) (rest : List Terminal)
        → Descends source d free tokens (fault Syntax rest) → EndsAt source d free tokens (length tokens - length rest) }
    ensures refused { (n : Notation) (d : Language) (free : ℕ) (tokens : List Token) (rest : List Terminal)
        → Descends n d free tokens (fault Syntax rest) → length tokens - length rest < length tokens
        → BeginsNothing n d (take ((length tokens - length rest) + 1) tokens) }
    ensures before { (n : Notation) (d : Language) (free : ℕ) (tokens : List Token) (rest : List Terminal)
        → Descends n d free tokens (fault Syntax rest) → StartsWithin n d free tokens (length tokens - length rest) }
    ensures behind_a_process { (n : Notation) (d : Language) (free : ℕ) (tokens : List Token) (v : Spelt) (rest : List Terminal)
        → Descends n d free tokens (read v rest) → sees End rest ≡ false → EndsAt n d free tokens (length tokens - length rest) }
    ensures behind_the_end { (n : Notation) (d : Language) (free : ℕ) (tokens : List Token) (v : Spelt) (rest : List Terminal)
        → Descends n d free tokens (read v (mark End ∷ rest)) → EndsAt n d free tokens (length tokens - length rest) }
{}
