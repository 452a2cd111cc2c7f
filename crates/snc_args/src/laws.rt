//! Examples of the definitions that the contracts speak of. The function is its contract.

ghost use Rattle.snc_args.specs.Examples.{OptionExamples};

/// Which words are options, which of them are refused, and what is in force.
pub fn examples_of_options()
    ensures { OptionExamples }
{}
