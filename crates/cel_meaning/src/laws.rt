// Laws of the definitions, each the contract of a function that does nothing.
ghost use Rattle.cel_meaning.specs.Laws.{OutcomesAreComputed, PartsAreComputed};

/// A tree that has a kind comes to exactly what `outcome_of` gives.
pub fn outcomes_are_computed()
    ensures { OutcomesAreComputed }
{}

/// Each time has exactly the parts that `part_outcome` gives.
pub fn parts_are_computed()
    ensures { PartsAreComputed }
{}
