ghost use Rattle.grammar.specs.GrammarExamples.{SendsOne, LeansLeft, Tightness, MinusOfMinus, LeastInt, CallOnMinusOne, EmptyMap, Block, MapOfOne, TupleOfOne, ParInPar, DropOfName, DropOfQuote, IfWithoutElse, Contracts, JoinsTwo, BindsRest, CaseOfMinusOne, SameAsOutside, ListPattern, ClosedPattern, FixedName, PrintedBytes, PrintedName, PersistentJoin, PeekJoin, SixteenBinds, TwoHundredBlocks, LiteralAlone, TwoBars, OpenSend, PrefixOfNothing, CaseOfMinus, NoCase, IfInIf, OtherArrow, OtherThirdArrow, MixedSeparators, SeventeenBinds, CommaWithoutName, CommaWithoutMember, SendIsOpened, QuotedSendIsOpened, SecondSumIsOpened, CallIsOpened, SecondCallIsOpened, SecondEitherIsOpened, SecondBothIsOpened, AnySendIsOpened, PrefixIsOpened, QuotedDropIsOpened, InnerBlockIsOpened, ConnectiveIsOpened, OneBlockMore, OperatorsAreOpened, FormsAreOpened, PatternFormsAreOpened};

/// Texts with the processes that they spell, worked out by hand.
pub fn worked_examples()
    ensures sends_one { SendsOne }
    ensures leans_left { LeansLeft }
    ensures tightness { Tightness }
    ensures minus_of_minus { MinusOfMinus }
    ensures least_int { LeastInt }
    ensures call_on_minus_one { CallOnMinusOne }
    ensures empty_map { EmptyMap }
    ensures block { Block }
    ensures map_of_one { MapOfOne }
    ensures tuple_of_one { TupleOfOne }
    ensures par_in_par { ParInPar }
    ensures drop_of_name { DropOfName }
    ensures drop_of_quote { DropOfQuote }
    ensures if_without_else { IfWithoutElse }
    ensures contracts { Contracts }
    ensures joins_two { JoinsTwo }
    ensures binds_rest { BindsRest }
    ensures case_of_minus_one { CaseOfMinusOne }
    ensures same_as_outside { SameAsOutside }
    ensures list_pattern { ListPattern }
    ensures closed_pattern { ClosedPattern }
    ensures fixed_name { FixedName }
    ensures printed_bytes { PrintedBytes }
    ensures printed_name { PrintedName }
    ensures persistent_join { PersistentJoin }
    ensures peek_join { PeekJoin }
    ensures sixteen_binds { SixteenBinds }
    ensures two_hundred_blocks { TwoHundredBlocks }
{}

/// Texts that spell nothing, and where that shows.
pub fn refused_examples()
    ensures literal_alone { LiteralAlone }
    ensures two_bars { TwoBars }
    ensures open_send { OpenSend }
    ensures prefix_of_nothing { PrefixOfNothing }
    ensures case_of_minus { CaseOfMinus }
    ensures no_case { NoCase }
    ensures if_in_if { IfInIf }
    ensures other_arrow { OtherArrow }
    ensures other_third_arrow { OtherThirdArrow }
    ensures mixed_separators { MixedSeparators }
    ensures seventeen_binds { SeventeenBinds }
    ensures comma_without_name { CommaWithoutName }
    ensures comma_without_member { CommaWithoutMember }
{}

/// Where forms are opened that pass a bound on the height.
pub fn opened_examples()
    ensures send_is_opened { SendIsOpened }
    ensures quoted_send_is_opened { QuotedSendIsOpened }
    ensures second_sum_is_opened { SecondSumIsOpened }
    ensures call_is_opened { CallIsOpened }
    ensures second_call_is_opened { SecondCallIsOpened }
    ensures second_either_is_opened { SecondEitherIsOpened }
    ensures second_both_is_opened { SecondBothIsOpened }
    ensures any_send_is_opened { AnySendIsOpened }
    ensures prefix_is_opened { PrefixIsOpened }
    ensures quoted_drop_is_opened { QuotedDropIsOpened }
    ensures inner_block_is_opened { InnerBlockIsOpened }
    ensures connective_is_opened { ConnectiveIsOpened }
    ensures one_block_more { OneBlockMore }
    ensures operators_are_opened { OperatorsAreOpened }
    ensures forms_are_opened { FormsAreOpened }
    ensures pattern_forms_are_opened { PatternFormsAreOpened }
{}
