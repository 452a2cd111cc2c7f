//! Examples of copies that are written, and of some that are not. Each function is its contract.

ghost use Rattle.snl_copies.specs.Examples.{CodeExamples, InterlockExamples};

/// A valve that one state set opens, and of which another one reads a copy that is never written.
pub fn examples_of_an_interlock()
    ensures { InterlockExamples }
{}

/// Copies that are written by functions, by a get and by values out of a queue.
pub fn examples_of_code()
    ensures { CodeExamples }
{}
