// Each law stands in the contract of one function, which does nothing.

ghost use Rattle.replays.specs.RunLaws.{AllowedStepsLead, EachListLeadsOrStops, EachLogIsAnswered, EachProcessLeads, LargeRoomsAgree, LegalListsLead, LegalStepsAreAllowed, NoListDoesBoth};

/// Before the first step, each closed process leads to exactly one state.
pub fn each_process_leads()
    ensures law { EachProcessLeads }
{}

/// From closed rows and a closed process, each allowed step leads on to exactly one state.
pub fn allowed_steps_lead()
    ensures law { AllowedStepsLead }
{}

/// From closed rows and a closed process, each list of steps leads to exactly one state or stops at exactly one of its steps.
pub fn each_list_leads_or_stops()
    ensures law { EachListLeadsOrStops }
{}

/// No list of steps leads to a state and stops.
pub fn no_list_does_both()
    ensures law { NoListDoesBoth }
{}

/// From closed rows and a closed process, a list of steps each of which is allowed after those before it leads to exactly one state.
pub fn legal_lists_lead()
    ensures law { LegalListsLead }
{}

/// In a list of steps that leads to a state, each step is allowed after those before it.
pub fn legal_steps_are_allowed()
    ensures law { LegalStepsAreAllowed }
{}

/// The state that a list leads to is had with any room that is large enough.
pub fn large_rooms_agree()
    ensures law { LargeRoomsAgree }
{}

/// On closed rows and a closed process, each log has exactly one answer.
pub fn each_log_is_answered()
    ensures law { EachLogIsAnswered }
{}
