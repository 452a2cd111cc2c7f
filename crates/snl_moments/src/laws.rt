//! Laws of the definitions that the contract of `moments` speaks of. Each function is its contract.

ghost use Rattle.snl_moments.specs.Examples.{TextExamples, TimeExamples};
ghost use Rattle.snl_moments.specs.Loaded.{LoadedMeans};
ghost use Rattle.snl_moments.specs.Wakes.{TicksAreWakes};

/// What a loaded machine makes of lines and events is what its program means.
pub fn loaded_means()
    ensures { LoadedMeans }
{}

/// A `tick` at the time of the next wake does what the wake does.
pub fn ticks_are_wakes()
    ensures { TicksAreWakes }
{}

/// Some texts with their last newline.
pub fn examples_of_texts()
    ensures { TextExamples }
{}

/// Which times are in order.
pub fn examples_of_times()
    ensures { TimeExamples }
{}
