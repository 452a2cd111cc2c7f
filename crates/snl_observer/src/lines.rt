//! One line of a trace, heard by a requirement that goes on, wherever it stands.

ghost use Rattle.std.specs.Prelude.{◌≡◌, ◌-◌, ◌^◌, ◌<◌, ℕ, List, [], IfOk, None, Some, map};
ghost use Rattle.snl_outline.specs.Names.{seen};
ghost use Rattle.snl_observer.specs.Heard.{heard_told};
ghost use Rattle.snl_observer.specs.Lasting.{HearsSo, lasting_of};

use crate::closes::Ending;
use crate::current_states::Standing;
use crate::line_step::Done;
use crate::logs::Log;
use crate::programs::Program;
use crate::requirement_input::hear_done;
use snl_heard::Page;
use snl_output::Sink;
use std::alloc::{AllocError, Global};

/// What a requirement did at a line of the trace.
#[derive(Drop)]
pub struct LineHeard<K> {
    /// How it ended there, if it did.
    pub how: Option<Ending>,
    /// Whether a line could not be written whole.
    pub is_stuck: bool,
    /// Where the lines of the program and its own went.
    pub sink: K,
}

/// Nothing was written yet, and the requirement goes on. The only error is that memory ends.
fn log_on<K: Sink + Drop>(alloc: Global, sink: K) -> Result<Log<K>, AllocError>
    requires fresh { (text : List ℕ) → K.told sink ≡ Some text → text ≡ [] }
    requires works { K.failures sink < 2 ^ 64 - 1 }
    ensures watch { IfOk result (λ log. log.page.watch.bytes ≡ []) }
    ensures how { IfOk result (λ log. log.how ≡ None) }
{
    let standing = Standing::new(alloc, Vec::new(alloc), Vec::new(alloc))?;
    Ok(Log::new(alloc, Page::new(sink), standing))
}

/// Lets a requirement that goes on hear a line of the trace that its program has done, and what there is to be heard of the lines that
/// this wrote there, as `observe` does. The lines of both go to the sink, those of the requirement with `# watch ` in front of each.
///
/// Where the requirement makes a mistake, or a line could not be written, not all was heard. The only error is that memory ends.
pub fn line_heard<K: Sink + Drop>(
    alloc: Global,
    run: &Program,
    watch: &mut Program,
    line: &[u8],
    done: Done,
    sink: K,
) -> Result<LineHeard<K>, AllocError>
    requires silent { done.ms ≡ None → run.now.page.text.items ≡ [] }
    requires fresh { (text : List ℕ) → K.told sink ≡ Some text → text ≡ [] }
    requires works { K.failures sink < 2 ^ 64 - 1 }
    ensures heard { IfOk result (λ h. HearsSo (heard_told (map seen run.now.sets.items)
        line.now done.ms done.end run.now.page.text.items) watch.old.machine
        watch.new.machine h.how h.is_stuck (K.told h.sink)) }
    ensures lasts { lasting_of watch.new ≡ lasting_of watch.old }
{
    let mut log = log_on(alloc, sink)?;
    hear_done(run, watch, &mut log, line, done);
    let Log { page, how, .. } = log;
    Ok(LineHeard {
        how,
        is_stuck: page.is_stuck(),
        sink: page.into_out(),
    })
}
