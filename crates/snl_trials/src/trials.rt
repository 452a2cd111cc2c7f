//! A run of a program, beside the output that is wanted of it.

ghost use Rattle.std.specs.Prelude.{◌≡◌, ◌↔◌, ◌-◌, ◌^◌, ◌<◌, ℕ, List, [], IfOk, IsTrue};
ghost use Rattle.snc.specs.Outcomes.{code_of};
ghost use Rattle.snl_names.specs.declared.options.Options.{Options};
ghost use Rattle.snl_syntax.specs.Programs.{ProgramTree};
ghost use Rattle.snl_trials.specs.Right.{HasRun, IsToldExactly};
ghost use Rattle.snl_coverage.specs.Runners.{IsRunner};

use snc::{Status, status_of};
use snl_coverage::{Covered, Runner};
use snl_suite::{Agreement, Comparer};
use snl_trace::{End, Source};
use std::alloc::{AllocError, Global};

/// What came of a test.
#[derive(Drop)]
pub struct Trial<W: Source> {
    /// How the run ended; None where the program has an error.
    pub end: Option<End>,
    /// The status of that.
    pub status: Status,
    /// How the output stands beside the wanted one.
    pub agreement: Agreement,
    /// Whether the output is the wanted one, and the status too.
    pub is_right: bool,
    /// Where both differ first.
    pub comparer: Comparer<W>,
}

/// Whether an output is the wanted one, and a status too.
fn is_right(agreement: Agreement, code: u8, wanted: u8) -> bool
    ensures { IsTrue result ↔ ((agreement ≡ Agreement.Same) × (code ≡ wanted)) }
{
    match agreement {
        Agreement::Same => code == wanted,
        Agreement::Apart | Agreement::Broken => false,
    }
}

/// What came of a test whose output was compared, and whose run ended so.
fn settled<W: Source + Drop>(
    comparer: Comparer<W>,
    end: Option<End>,
    status: Status,
    wanted: u8,
) -> Trial<W>
    ensures end { result.end ≡ end }
    ensures status { result.status ≡ status }
    ensures output { result.comparer.told.bytes ≡ comparer.told.bytes }
    ensures right { IsToldExactly result.is_right result.agreement result.comparer.told.bytes
        (W.gave result.comparer.ahead.inner) (W.ended result.comparer.ahead.inner)
        (code_of status) wanted }
{
    let mut comparer = comparer;
    let agreement = comparer.finish();
    Trial {
        end,
        status,
        agreement,
        is_right: is_right(agreement, status.code(), wanted),
        comparer,
    }
}

/// Runs a program over a trace from its start, as `snlrun` runs it, and compares its output with what a file has, as both come. Answers
/// whether all of it is that, and the status of the run the one that is wanted.
///
/// Of the trace and of the file nothing was read yet. The run goes on behind a difference. Fails only where memory ran out.
pub fn tried<R: Source, W: Source + Drop>(
    alloc: Global,
    runner: &mut Runner,
    trace: &mut R,
    file: W,
    wanted: u8,
) -> Result<Trial<W>, AllocError>
    requires trace { R.failures trace.old < 2 ^ 64 - 1 }
    requires fresh { R.gave trace.old ≡ [] }
    requires file { W.failures file < 2 ^ 64 - 1 }
    requires unread { W.gave file ≡ [] }
    ensures ran { IfOk result (λ t. (macros : List ℕ) (budget : ℕ) (lines : List (List ℕ))
        (whole : ProgramTree) (options : Options) → IsRunner macros budget lines whole options
        runner.old → HasRun macros budget (R.gave trace.new) (R.ended trace.new)
        t.comparer.told.bytes whole options t.end) }
    ensures right { IfOk result (λ t. IsToldExactly t.is_right t.agreement
        t.comparer.told.bytes (W.gave t.comparer.ahead.inner) (W.ended t.comparer.ahead.inner)
        (code_of t.status) wanted) }
{
    let comparer = Comparer::new(alloc, file)?;
    let ran = runner.over(alloc, trace, comparer)?;
    let Covered { end, sink } = ran;
    Ok(settled(sink, Some(end), status_of(end), wanted))
}

/// The same of a program that has an error: it is not run, it writes nothing, and its status is 1.
pub fn untried<W: Source + Drop>(alloc: Global, file: W, wanted: u8) -> Result<Trial<W>, AllocError>
    requires file { W.failures file < 2 ^ 64 - 1 }
    requires unread { W.gave file ≡ [] }
    ensures output { IfOk result (λ t. t.comparer.told.bytes ≡ []) }
    ensures right { IfOk result (λ t. IsToldExactly t.is_right t.agreement
        t.comparer.told.bytes (W.gave t.comparer.ahead.inner) (W.ended t.comparer.ahead.inner)
        1 wanted) }
{
    let comparer = Comparer::new(alloc, file)?;
    Ok(settled(comparer, None, Status::SourceErrors, wanted))
}
