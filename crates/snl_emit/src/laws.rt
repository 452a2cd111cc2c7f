//! Laws of the code that is made. Each is a function without code, whose contract is the law.

ghost use Rattle.snl_emit.specs.Examples.{CallCodeExamples, FunctionCodeExamples};
ghost use Rattle.snl_emit.specs.Right.{BlocksAreRight, ConditionsAreRight, ConstantsArePushed, DepthIsWithinTokens, FoldingIsRight, ProgramsAreReady};

/// What is computed when code is made is what the expression gives.
pub fn folding_is_right()
    ensures { FoldingIsRight }
{}

/// A constant expression that does not fault is one instruction.
pub fn constants_are_pushed()
    ensures { ConstantsArePushed }
{}

/// The code of a condition is right for it, wherever it stands.
pub fn conditions_are_right()
    ensures { ConditionsAreRight }
{}

/// The code of a block is right for it, wherever it stands.
pub fn blocks_are_right()
    ensures { BlocksAreRight }
{}

/// Code that begins with that of the functions is ready for their calls, whatever follows.
pub fn programs_are_ready()
    ensures { ProgramsAreReady }
{}

/// No expression needs more operands than it has tokens, and as many more as a function that it may call.
pub fn depth_is_within_tokens()
    ensures { DepthIsWithinTokens }
{}

/// The code of some functions.
pub fn examples_of_function_code()
    ensures { FunctionCodeExamples }
{}

/// The code of some calls, the room that it needs, and what it does.
pub fn examples_of_call_code()
    ensures { CallCodeExamples }
{}
