//! Laws of the definitions that tell what a requirement hears. Each function is its contract.

ghost use Rattle.snl_observer.specs.Examples.{ObservedExamples, RunExamples, StandExamples};
ghost use Rattle.snl_observer.specs.Loaded.{LoadedMeans};
ghost use Rattle.snl_observer.specs.Stands.{StandsGoOn};

/// What is heard of a run over six lines, of one with a bad line, and of one that comes to its end.
pub fn examples_of_runs()
    ensures { RunExamples }
{}

/// How a requirement stands behind some lines.
pub fn examples_of_stands()
    ensures { StandExamples }
{}

/// What is told of an interlock and of its requirement, also where one of them faults.
pub fn examples_of_observed()
    ensures { ObservedExamples }
{}

/// A requirement that goes on stands behind more lines where these lead it; one that has ended hears nothing more.
pub fn stands_go_on()
    ensures { StandsGoOn }
{}

/// What a machine that is loaded of a program makes of lines is what the program means.
pub fn loaded_means()
    ensures { LoadedMeans }
{}
