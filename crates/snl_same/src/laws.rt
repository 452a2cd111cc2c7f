//! Laws of the definitions that the contract of `compare` speaks of. Each function is its contract.

ghost use Rattle.snl_same.specs.Examples.{DifferenceExamples, EndExamples, KeptExamples, LastExamples, WordExamples};
ghost use Rattle.snl_same.specs.Firsts.{NoneIsSame};
ghost use Rattle.snl_same.specs.Loaded.{LoadedMeans};

/// Two lists of lines have no first difference exactly if they are the same.
pub fn none_is_same()
    ensures { NoneIsSame }
{}

/// What a loaded machine makes of lines and events is what its program means.
pub fn loaded_means()
    ensures { LoadedMeans }
{}

/// The words of some lines.
pub fn examples_of_words()
    ensures { WordExamples }
{}

/// Which of some puts come last.
pub fn examples_of_last_puts()
    ensures { LastExamples }
{}

/// Where some lists of lines differ first.
pub fn examples_of_differences()
    ensures { DifferenceExamples }
{}

/// What is compared of some texts.
pub fn examples_of_kept()
    ensures { KeptExamples }
{}

/// Which ends are alike.
pub fn examples_of_ends()
    ensures { EndExamples }
{}
