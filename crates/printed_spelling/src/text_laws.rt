// Each law stands in the contract of one function, which does nothing.

ghost use Rattle.printed_spelling.specs.TextLaws.{PrintedTextComesBack, PrintedTextSpells, PrintedTextSpellsOne};

/// The printed text of a closed process has tokens, and they spell its written process.
pub fn printed_text_spells()
    ensures law { PrintedTextSpells }
{}

/// The printed text of a closed process spells a process whose bare form is congruent to it, and none
/// whose bare form isn't.
pub fn printed_text_comes_back()
    ensures spells { PrintedTextComesBack }
    ensures spells_no_other { PrintedTextSpellsOne }
{}
