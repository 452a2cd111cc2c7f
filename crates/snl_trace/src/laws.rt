//! Laws of the definitions that the contract of `run` speaks of. Each function is its contract.

ghost use Rattle.snl_trace.specs.Examples.{LineExamples, RunExamples, TimeExamples, ValueExamples};
ghost use Rattle.snl_trace.specs.RunOver.{EndsWithItsSource, NothingFollows, RestGoesOn, RunsOverAll, TextBegins};

/// The text over the first lines of a trace is a prefix of the text over all of them.
pub fn text_begins()
    ensures { TextBegins }
{}

/// After the last line nothing is written, and nothing changes.
pub fn nothing_follows()
    ensures { NothingFollows }
{}

/// Where a trace ended behind some lines, the run over more lines is what that one was, and then the rest from its last
/// world on.
pub fn rest_goes_on()
    ensures { RestGoesOn }
{}

/// Where it is known what a source has left, the run over what it gave is the run over all.
pub fn runs_over_all()
    ensures { RunsOverAll }
{}

/// A trace ends only where its source does.
pub fn ends_with_its_source()
    ensures { EndsWithItsSource }
{}

/// What some fields are worth as values, and which are none.
pub fn examples_of_values()
    ensures { ValueExamples }
{}

/// The same of times.
pub fn examples_of_times()
    ensures { TimeExamples }
{}

/// Which lines some texts have.
pub fn examples_of_lines()
    ensures { LineExamples }
{}

/// What a run does over some lines, of which one may be bad.
pub fn examples_of_runs()
    ensures { RunExamples }
{}
