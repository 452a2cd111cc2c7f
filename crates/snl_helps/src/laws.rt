//! Examples of helps. Each function is its contract.

ghost use Rattle.snl_helps.specs.Examples.{HelpExamples, LineExamples, NameExamples};

/// What helps at some words.
pub fn examples_of_helps()
    ensures { HelpExamples }
{}

/// What helps at the tokens of two lines.
pub fn examples_of_lines()
    ensures { LineExamples }
{}

/// What helps at calls and names.
pub fn examples_of_names()
    ensures { NameExamples }
{}
