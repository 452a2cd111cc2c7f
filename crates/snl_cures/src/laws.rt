//! Examples of cures. Each function is its contract.

ghost use Rattle.snl_cures.specs.Examples.{MendedExamples, CureExamples};

/// Tokens with a cure of each sort.
pub fn examples_of_mended()
    ensures { MendedExamples }
{}

/// What is a cure of a small program, and what is none.
pub fn examples_of_cures()
    ensures { CureExamples }
{}
