//! Laws of short pieces of code. Each function is its contract, and does nothing.

ghost use Rattle.snl_vm.specs.ConditionExamples.{CodeExamples, OtherExamples, RangeExamples, VariableExamples};

/// Conditions of variables that are tests.
pub fn examples_of_variables()
    ensures { VariableExamples }
{}

/// Conditions of `delay` and of event flags that are tests.
pub fn examples_of_others()
    ensures { OtherExamples }
{}

/// Code that is no test.
pub fn examples_of_code()
    ensures { CodeExamples }
{}

/// Ranges, and pieces that are empty or not.
pub fn examples_of_ranges()
    ensures { RangeExamples }
{}
