//! Laws of decimal numbers in units of a trace. A function is its contract.

ghost use Rattle.snl_units.specs.Examples.{ExactExamples};

/// What some decimal numbers are in units of a trace.
pub fn examples_of_exact()
    ensures { ExactExamples }
{}
