//! What is proved of sources: what breaks no rule of scope is closed, four bytes number its parts, and made inputs are
//! sources. Each law is the contract of a function that does nothing.
#![tactic(auto)]

ghost use Rattle.source_laws.specs.NumberedLaws.{SourceTextsAreNumberable, SourcesAreNumberable};
ghost use Rattle.source_laws.specs.Spelt.{MadeInputsAreSound};

pub mod examples;
pub mod laws;

/// Four bytes number the parts and names of what at most 2^24 tokens of a source spell.
pub fn sources_are_numberable()
    ensures law { SourcesAreNumberable }
{}

/// They number those of what a text of at most 2^20 bytes spells.
pub fn source_texts_are_numberable()
    ensures law { SourceTextsAreNumberable }
{}

/// A made input has tokens that spell a process within the height, which breaks no rule of scope.
pub fn made_inputs_are_sound()
    ensures law { MadeInputsAreSound }
{}
