ghost use Rattle.grammar.specs.PlaceExamples.{InnermostBlock, SendPasses, QuotedSendPasses, SecondSumPasses, PrefixPasses, QuotedDropPasses, NamePasses, NameStops, TwoBars, OpenSend, TwoNumbers, CaseOfMinus};

/// Tokens at which a bound on the height is passed, worked out by hand.
pub fn depth_examples()
    ensures innermost_block { InnermostBlock }
    ensures send_passes { SendPasses }
    ensures quoted_send_passes { QuotedSendPasses }
    ensures second_sum_passes { SecondSumPasses }
    ensures prefix_passes { PrefixPasses }
    ensures quoted_drop_passes { QuotedDropPasses }
    ensures name_passes { NamePasses }
    ensures name_stops { NameStops }
{}

/// Tokens at which a text ends.
pub fn syntax_examples()
    ensures two_bars { TwoBars }
    ensures open_send { OpenSend }
    ensures two_numbers { TwoNumbers }
    ensures case_of_minus { CaseOfMinus }
{}
