//! A program that runs over one trace after another, and what these runs showed.

ghost use Rattle.std.specs.Prelude.{◌≡◌, ◌++◌, ◌-◌, ◌^◌, ◌<◌, ℕ, Bool, List, [], Some, IfOk, OnErr, OnOk};
ghost use Rattle.snl_syntax.specs.Programs.{ProgramTree};
ghost use Rattle.snl_channels.specs.Links.{Link};
ghost use Rattle.snl_machine.specs.MachineOf.{IsMachineOf, StaysMachineOf, fixed_of, world_held};
ghost use Rattle.snl_names.specs.declared.options.Options.{Options};
ghost use Rattle.snl_output.specs.Devices.{counted};
ghost use Rattle.snl_output.specs.TraceLines.{whole_lines};
ghost use Rattle.snl_trace.specs.Ends.{sink_failed, source_failed};
ghost use Rattle.snl_coverage.specs.Coverage.{AreCounts};
ghost use Rattle.snl_coverage.specs.Runners.{IsRunner, RunsOnceMore};
ghost use Rattle.snc.specs.Runs.{RunsLike};
ghost use Rattle.snl_coverage.specs.Shapes.{charted, go_texts};

use crate::counters::counts_of;
use crate::coverage::Coverage;
use crate::seen::{Counting, RunCoverage, counting_of};
use snl_machine::{Machine, Sink, Snapshot};
use snl_trace::{End, Source, run};
use snl_watch::Watch;
use std::alloc::{AllocError, Global};

/// A program that runs over one trace after another, each time from its start, and what these runs showed of it.
#[derive(Drop)]
pub struct Runner {
    pub(crate) machine: Box<Machine>,
    /// The machine before its first event.
    pub(crate) start: Snapshot,
    pub(crate) coverage: Coverage,
}

/// How a run over a whole trace ended, and where its lines went.
#[derive(Drop)]
pub struct Covered<S> {
    /// How it ended.
    pub end: End,
    /// Where its lines went.
    pub sink: S,
}

/// What came of a run over a whole trace.
#[derive(Drop)]
struct Ran<S> {
    seen: RunCoverage,
    end: End,
    sink: S,
}

/// Runs a machine over a trace, and counts the lines of the clauses of its chart.
fn ran_over<R: Source, S: Sink + Drop>(
    alloc: Global,
    machine: &mut Machine,
    coverage: &Coverage,
    trace: &mut R,
    sink: S,
) -> Result<Ran<S>, AllocError>
    requires trace { R.failures trace.old < 2 ^ 64 - 1 }
    requires fresh { R.gave trace.old ≡ [] }
    requires sink { S.failures sink < 2 ^ 64 - 1 }
    requires untold { (text : List ℕ) → S.told sink ≡ Some text → text ≡ [] }
    ensures ran { IfOk result (λ o. (p : ProgramTree) (ls : List Link) (waits : Bool)
        (budget : ℕ) → IsMachineOf p ls waits budget machine.old → RunsLike p ls waits budget
        (world_held machine.old) (R.gave trace.new) (R.ended trace.new) (S.told sink)
        (S.told o.sink) o.end) }
    ensures counts { IfOk result (λ o. (text : List ℕ) → S.told o.sink ≡ Some text →
        AreCounts (go_texts (charted coverage.now.chart)) o.seen.shown.items
        (whole_lines text)) }
    ensures fixed { fixed_of machine.new ≡ fixed_of machine.old }
    ensures stays { StaysMachineOf machine.old machine.new }
    ensures source { IfOk result (λ o. R.failures trace.new
        ≡ counted (source_failed o.end) (R.failures trace.old)) }
    ensures sink { IfOk result (λ o. S.failures o.sink
        ≡ counted (sink_failed o.end) (S.failures sink)) }
{
    let counting = counting_of(alloc, &coverage.chart, coverage.puts.as_slice())?;
    let Counting { texts, counter } = counting;
    let mut watch = Watch::new(counter, sink);
    let end = run(machine, trace, &mut watch);
    let (counter, sink) = watch.into_parts();
    let shown = counts_of(alloc, &counter, texts.as_slice())?;
    let trail = counter.into_trail();
    Ok(Ran {
        seen: RunCoverage { shown, trail },
        end,
        sink,
    })
}

impl Runner {
    /// Runs the program over a trace from its start. What the run showed is added to what earlier ones did.
    ///
    /// Of the trace nothing was read yet. The lines of the run go to `sink`, which was told nothing yet, and which is handed back.
    /// Fails only where memory ran out; what is known of the runs is lost then.
    pub fn over<R: Source, S: Sink + Drop>(
        &mut self,
        alloc: Global,
        trace: &mut R,
        sink: S,
    ) -> Result<Covered<S>, AllocError>
        requires trace { R.failures trace.old < 2 ^ 64 - 1 }
        requires fresh { R.gave trace.old ≡ [] }
        requires sink { S.failures sink < 2 ^ 64 - 1 }
        requires untold { (text : List ℕ) → S.told sink ≡ Some text → text ≡ [] }
        ensures ran { IfOk result (λ o. (macros : List ℕ) (budget : ℕ)
            (lines : List (List ℕ)) (whole : ProgramTree) (options : Options) →
            IsRunner macros budget lines whole options self.old → RunsOnceMore macros budget
            lines (R.gave trace.new) (R.ended trace.new) (S.told sink) (S.told o.sink) whole
            options o.end self.new) }
        ensures source { IfOk result (λ o. R.failures trace.new
            ≡ counted (source_failed o.end) (R.failures trace.old)) }
        ensures sink { IfOk result (λ o. S.failures o.sink
            ≡ counted (sink_failed o.end) (S.failures sink)) }
    {
        let Runner {
            machine,
            start,
            coverage,
        } = self;
        let machine = machine.as_mut();
        machine.restore(start);
        let ran = ran_over(alloc, machine, coverage, trace, sink)?;
        coverage.add(&ran.seen);
        Ok(Covered {
            end: ran.end,
            sink: ran.sink,
        })
    }

    /// Adds the counts of other runs of the program, in the order of the tallies of its coverage: where those of its lines are right
    /// for some lines, the counts are right for these lines too. The only error is that memory ends; nothing was added then.
    pub fn add_counts(&mut self, alloc: Global, counts: &[u64]) -> Result<(), AllocError>
        ensures ran { OnOk result ((macros : List ℕ) (budget : ℕ) (lines more : List (List ℕ))
            (whole : ProgramTree) (options : Options) (others ns : List ℕ) →
            IsRunner macros budget lines whole options self.old →
            counts.now ≡ others ++ ns →
            AreCounts (go_texts (charted self.old.coverage.chart)) ns more →
            IsRunner macros budget (lines ++ more) whole options self.new) }
        ensures err { OnErr result (self.new ≡ self.old) }
    {
        self.coverage.add_counts(alloc, counts)
    }

    /// What the runs showed so far.
    pub fn coverage(&self) -> &Coverage
        ensures { result.now ≡ self.now.coverage }
    {
        &self.coverage
    }
}
