//! Laws of the code of a program. Each function is its contract, and does nothing.

ghost use Rattle.snl_flat.specs.Examples.{FunctionExamples};
ghost use Rattle.snl_flat.specs.Pieces.{DepthIsEnough};

/// No piece of a program holds more operands at once than the program's depth says.
#[tactic(auto, using(crate::proofs::Deepest::depth_is_enough))]
pub fn depth_is_enough()
    ensures { DepthIsEnough }
{}

/// What is known of two functions, their code and their entries, and how deep and how long they are.
pub fn examples_of_functions()
    ensures { FunctionExamples }
{}
