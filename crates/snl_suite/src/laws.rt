//! Laws of the definitions that the contracts here speak of. Each function is its contract.

ghost use Rattle.snl_suite.specs.Agreement.{SettledIsExact};
ghost use Rattle.snl_suite.specs.Examples.{EscapedExamples, FittingExamples, SettledExamples};

/// Where the wanted output could be read, `Same` is told exactly of an output that is what its file has.
pub fn settled_is_exact()
    ensures { SettledIsExact }
{}

/// What is told of some outputs.
pub fn examples_of_outputs()
    ensures { SettledExamples }
{}

/// Which programs some traces are of.
pub fn examples_of_names()
    ensures { FittingExamples }
{}

/// Some texts in XML.
pub fn examples_of_texts()
    ensures { EscapedExamples }
{}
