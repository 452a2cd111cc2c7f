//! Examples of messages. Each function is its contract.

ghost use Rattle.snl_messages.specs.Examples.{TextExamples, OptionExamples};

/// Every message, with its letter, number, text and place.
pub fn examples_of_texts()
    ensures { TextExamples }
{}

/// Which options are in force, and which messages they let through.
pub fn examples_of_options()
    ensures { OptionExamples }
{}
