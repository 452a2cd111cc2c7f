//! Examples of what sinks are told. Each function is its contract, and does nothing.

ghost use Rattle.snl_output.specs.Examples.{HoldExamples, WriteExamples};

/// What a sink tells of a small text after a call that failed, and after one that did not.
#[tactic(auto, using(crate::proofs::Examples::examples_of_writes))]
pub fn examples_of_writes()
    ensures { WriteExamples }
{}

/// The same of a text that comes to it by way of a line, which may hold it back.
#[tactic(auto, using(crate::proofs::Examples::examples_of_lines))]
pub fn examples_of_lines()
    ensures { HoldExamples }
{}
