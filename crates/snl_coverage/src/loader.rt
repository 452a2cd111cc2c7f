//! From the bytes of a source to a program that runs over traces.

ghost use Rattle.std.specs.Prelude.{[], IfOk, string_bytes};
ghost use Rattle.std.specs.Option.{option_map, unwrap_or};
ghost use Rattle.snl_syntax.specs.view.Programs.{program_view};
ghost use Rattle.snl_check.specs.Waits.{waits};
ghost use Rattle.snl_machine.specs.Loading.{IsLoaded};
ghost use Rattle.snc.specs.Answered.{IsAnswered, macros_in};
ghost use Rattle.snl_coverage.specs.Coverage.{AreCounts};
ghost use Rattle.snl_coverage.specs.Runners.{IsBoxedRunner, IsCharted, IsRunner};
ghost use Rattle.snl_coverage.specs.Shapes.{charted, go_texts};

use crate::coverage::Coverage;
use crate::program_chart::{Charted, charted_of};
use crate::runner::Runner;
use crate::seen::{RunCoverage, unseen};
use snc::{Answered, Maker, answer, boxed, macros_of};
use snc_args::Job;
use snl_check::Checked;
use snl_links::links;
use snl_machine::{Loads, Machine};
use std::alloc::{AllocError, Global};

/// What is known of the runs of a checked program that is lent: nothing yet.
fn coverage_of<'a>(
    checked: &Checked<'a>,
    alloc: Global,
    source: &[u8],
    job: &Job,
) -> Result<Coverage, AllocError>
    ensures chart { IfOk result (λ c. IsCharted (program_view checked.now.program) c.chart) }
    ensures counts { IfOk result (λ c. AreCounts (go_texts (charted c.chart))
        c.shown.items []) }
{
    let macros = macros_of(job);
    let links = links(alloc, checked, &macros)?;
    let Charted { chart, puts } = charted_of(alloc, checked, source, links.as_slice())?;
    let RunCoverage { shown, trail } = unseen(alloc, &chart, puts.as_slice())?;
    Ok(Coverage {
        chart,
        puts,
        shown,
        trail,
        begun: 0,
    })
}

/// The machine of a checked program that is lent, in a box: what is in one is cheap to prove things about where it is dropped.
fn machine_of<'a>(
    checked: &Checked<'a>,
    alloc: Global,
    job: &Job,
) -> Result<Box<Machine>, AllocError>
    ensures { IfOk result (λ m. IsLoaded (program_view checked.now.program) (macros_in job.now)
        (waits checked.now.options) job.now.budget m.value) }
{
    let macros = macros_of(job);
    let machine = checked.machine(alloc, &macros, job.budget)?;
    boxed(alloc, machine)
}

/// A checked program that is lent, before its first run.
fn runner_by<'a>(
    checked: &Checked<'a>,
    alloc: Global,
    source: &[u8],
    job: &Job,
) -> Result<Runner, AllocError>
    ensures { IfOk result (IsRunner (macros_in job.now) job.now.budget []
        (program_view checked.now.program) checked.now.options) }
{
    let coverage = coverage_of(checked, alloc, source, job)?;
    let machine = machine_of(checked, alloc, job)?;
    let start = machine.as_ref().snapshot(alloc)?;
    Ok(Runner {
        machine,
        start,
        coverage,
    })
}

/// Makes that, in a box.
struct Launching;

impl Maker<Box<Runner>> for Launching {
    ghost right = { λ maker job. IsBoxedRunner (macros_in job) job.budget };

    fn make<'a>(
        checked: &Checked<'a>,
        alloc: Global,
        source: &[u8],
        job: &Job,
        _maker: &Self,
    ) -> Result<Box<Runner>, AllocError> {
        let runner = runner_by(checked, alloc, source, job)?;
        boxed(alloc, runner)
    }
}

/// Reads and checks a source and, if it has no error, makes its program ready to run over traces.
///
/// `job` has the options, the macros and the budget, as `snlrun` has them. Fails only where memory ran out.
pub fn runner_of(
    alloc: Global,
    source: &[u8],
    job: &Job,
) -> Result<Answered<Box<Runner>>, AllocError>
    ensures { IfOk result (λ r. IsAnswered
        (IsBoxedRunner (unwrap_or (option_map string_bytes job.now.macros) []) job.now.budget)
        job.now.options (string_bytes job.now.file) source.now r.messages.items r.made) }
{
    answer(alloc, job, source, &Launching)
}
