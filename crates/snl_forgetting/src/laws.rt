//! Laws of the words of functions. Each is a function without code, whose contract is the law.

ghost use Rattle.snl_forgetting.specs.Accepted.{AcceptedForget, AcceptedNameTheirOwn};
ghost use Rattle.snl_forgetting.specs.Examples.{OwnExamples};
ghost use Rattle.snl_forgetting.specs.Forgotten.{NoCallLeavesWords};

/// Whatever earlier calls left in the words of functions: each condition and each block of an accepted program gives the same value, or
/// comes to the same fault, writes the same text, and leaves the same world, but for these words.
pub fn accepted_forget()
    ensures { AcceptedForget }
{}

/// The same of any condition and any block. A function has to name no variable of functions but its parameters and those of the blocks
/// round the name, and each call has to have a value for each parameter.
pub fn no_call_leaves_words()
    ensures { NoCallLeavesWords }
{}

/// So it is of the functions of each accepted program.
pub fn accepted_name_their_own()
    ensures { AcceptedNameTheirOwn }
{}

/// Functions that name their own variables alone, and functions that do not: of these a call sees what another one left.
pub fn own_examples()
    ensures { OwnExamples }
{}
