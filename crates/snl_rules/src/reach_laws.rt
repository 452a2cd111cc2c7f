//! Examples of targets, ways and words. Each function is its contract.

ghost use Rattle.snl_rules.specs.ReachExamples.{TargetExamples, NameExamples, WayExamples, WordExamples};

/// What the targets of small states are, and which states they mean.
pub fn examples_of_targets()
    ensures { TargetExamples }
{}

/// Which of three states are reached, where two have one name.
pub fn examples_of_ways()
    ensures { WayExamples }
{}

/// How many words the stores of a small program take, and some links.
pub fn examples_of_words()
    ensures { WordExamples }
{}

/// A state that only a state names that is not reached.
pub fn examples_of_names()
    ensures { NameExamples }
{}
