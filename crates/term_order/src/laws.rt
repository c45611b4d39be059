// Each law stands in the contract of one function, which does nothing.

ghost use Rattle.term_order.specs.NormalLaws.{NormalCodesAreOne, NormalTermsAreOne};

/// Normal terms with one code are one term.
pub fn normal_codes_are_one()
    ensures law { NormalCodesAreOne }
{}

/// Two normal terms are equal exactly where their processes are congruent.
pub fn normal_terms_are_one()
    ensures law { NormalTermsAreOne }
{}
