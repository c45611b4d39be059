//! The tokens of sources and of printed terms. Each law of the definitions is the contract of a
//! function that does nothing.
#![tactic(auto)]

ghost use Rattle.std.specs.Prelude.{◌≡◌, ℕ, List, length};
ghost use Rattle.tokens.specs.Examples.{SendsOne, BadByteAlone, OpenAtTheEnd, BadEscape, OpenComment, ShortComment, TooLarge, Greatest, LoneBackslash, TwoBackslashes, BackslashBeforeBadByte, CutCharacter, UriHolds, KeyThenSign, KeyApartFromSign, NumberThenWord, Prefixes, PrintedBytes, SourceHasNoBytes, PrintedName};
ghost use Rattle.tokens.specs.Reading.{AreInOrder, HasTokens, IsLongestToken, IsRefused, Outcome, Reads, step, takes};
ghost use Rattle.tokens.specs.Token.{Notation, Refusal, Spanned, Token};

/// A text has at most one list of tokens, or at most one refusal, and not both.
pub fn one_reading()
    ensures one_list { (n : Notation) (text : List ℕ) (xs ys : List Spanned)
        → HasTokens n text xs → HasTokens n text ys → xs ≡ ys }
    ensures one_refusal { (n : Notation) (text : List ℕ) (r s : Refusal)
        → IsRefused n text r → IsRefused n text s → r ≡ s }
    ensures not_both { (n : Notation) (text : List ℕ) (xs : List Spanned) (r : Refusal)
        → HasTokens n text xs → IsRefused n text r → ⊥ }
{}

/// Each text has tokens or is refused.
pub fn each_text_is_read()
    ensures { (n : Notation) (text : List ℕ) → (outcome : Outcome) × Reads n 0 text outcome }
{}

/// A token is the longest one that begins at its place.
pub fn tokens_are_longest()
    ensures { (n : Notation) (at : ℕ) (text : List ℕ) (token : Token) (len : ℕ)
        → step n at text ≡ takes token len → IsLongestToken n text token len }
{}

/// The tokens of a text stand in order, each with the content that its form has, and the end is the
/// last.
pub fn tokens_are_in_order()
    ensures { (n : Notation) (text : List ℕ) (xs : List Spanned)
        → HasTokens n text xs → AreInOrder 0 (length text) xs }
{}

/// Texts with their tokens or refusals, worked out from the definitions.
pub fn worked_examples()
    ensures sends_one { SendsOne }
    ensures bad_byte_alone { BadByteAlone }
    ensures open_at_the_end { OpenAtTheEnd }
    ensures bad_escape { BadEscape }
    ensures open_comment { OpenComment }
    ensures short_comment { ShortComment }
    ensures too_large { TooLarge }
    ensures greatest { Greatest }
    ensures lone_backslash { LoneBackslash }
    ensures two_backslashes { TwoBackslashes }
    ensures backslash_before_bad_byte { BackslashBeforeBadByte }
    ensures cut_character { CutCharacter }
    ensures uri_holds { UriHolds }
    ensures key_then_sign { KeyThenSign }
    ensures key_apart_from_sign { KeyApartFromSign }
    ensures number_then_word { NumberThenWord }
    ensures prefixes { Prefixes }
    ensures printed_bytes { PrintedBytes }
    ensures source_has_no_bytes { SourceHasNoBytes }
    ensures printed_name { PrintedName }
{}
