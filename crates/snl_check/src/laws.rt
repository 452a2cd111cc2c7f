//! Examples of the definitions. Each function is its contract.

ghost use Rattle.snl_check.specs.Examples.{UseExamples, WaitExamples};

/// What is answered at the offsets of names.
pub fn examples_of_uses()
    ensures { UseExamples }
{}

/// Which options make a program wait for its channels.
pub fn examples_of_waiting()
    ensures { WaitExamples }
{}
