// Laws of the definitions, each the contract of a function that does nothing.
ghost use Rattle.cel_types.specs.Laws.{AtMostOneKind, FaultsHaveNoKind, AtMostOneFault, ConditionsHaveNoFault, KindsAreComputed, FaultsAreComputed, KindsHaveHeads, AtMostOneOutcome, OutcomesAreOfTheKind, ConditionsComeToTruths};

/// A tree has at most one kind in a place.
pub fn at_most_one_kind()
    ensures { AtMostOneKind }
{}

/// A tree with a fault has no kind.
pub fn faults_have_no_kind()
    ensures { FaultsHaveNoKind }
{}

/// A tree has at most one fault in a place.
pub fn at_most_one_fault()
    ensures { AtMostOneFault }
{}

/// A condition has no fault in its place.
pub fn conditions_have_no_fault()
    ensures { ConditionsHaveNoFault }
{}

/// `kind_of` gives exactly the kind of a tree, or else its first fault.
pub fn kinds_are_computed()
    ensures kind { KindsAreComputed }
    ensures fault { FaultsAreComputed }
{}

/// A tree that has a kind has a head.
pub fn kinds_have_heads()
    ensures { KindsHaveHeads }
{}

/// A tree comes to at most one outcome in a context.
pub fn at_most_one_outcome()
    ensures { AtMostOneOutcome }
{}

/// What a tree of a kind comes to is a fault or a value of that kind.
pub fn outcomes_are_of_the_kind()
    ensures { OutcomesAreOfTheKind }
{}

/// A condition comes to a truth or to one of the faults.
pub fn conditions_come_to_truths()
    ensures { ConditionsComeToTruths }
{}
