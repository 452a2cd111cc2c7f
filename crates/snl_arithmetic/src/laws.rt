//! Examples of arithmetic. The function is its contract.

ghost use Rattle.snl_arithmetic.specs.Examples.{ArithmeticExamples};

/// The ends of the range, signs and shifts.
pub fn examples_of_arithmetic()
    ensures { ArithmeticExamples }
{}
