//! Laws of the plan of a program. Each function is its contract, and does nothing.

ghost use Rattle.snl_load.specs.Examples.{RunExample, SizeExample};
ghost use Rattle.snl_load.specs.FunctionExamples.{FunctionRunExample, FunctionSizeExample};
ghost use Rattle.snl_load.specs.NameExamples.{NameExamples};
ghost use Rattle.snl_load.specs.Right.{PlansAreRight};

/// What the plan of a program runs, with the program's code, is what the program means on its tree, without the pieces of
/// the states that are not reached.
pub fn plans_are_right()
    ensures { PlansAreRight }
{}

/// What a small program does with values of a channel: it is computed from the definitions alone.
pub fn examples()
    ensures { RunExample }
{}

/// The size of the same program, with and without its second state.
pub fn sizes()
    ensures { SizeExample }
{}

/// What a small program with a function does with values of a channel: a call gives what the function returns, its parameter keeps
/// its number behind the call, and what does not fit the function's type is a fault. It is computed from the definitions alone.
pub fn examples_of_functions()
    ensures { FunctionRunExample }
{}

/// The size of the same program.
pub fn sizes_of_functions()
    ensures { FunctionSizeExample }
{}

/// Where names stand in some lists.
pub fn examples_of_names()
    ensures { NameExamples }
{}
