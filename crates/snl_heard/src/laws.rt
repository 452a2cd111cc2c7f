//! Examples of what is heard and written. Each function is its contract.

ghost use Rattle.snl_heard.specs.Examples.{AmongExamples, HeardExamples, PrintedExamples, WordExamples};

/// The words of some lines.
pub fn examples_of_words()
    ensures { WordExamples }
{}

/// What is heard of some lines.
pub fn examples_of_heard()
    ensures { HeardExamples }
{}

/// Where a line of the trace stands among the lines that it makes a program write.
pub fn examples_of_among()
    ensures { AmongExamples }
{}

/// What of an output is of the program, and what of the requirement.
pub fn examples_of_printed()
    ensures { PrintedExamples }
{}
