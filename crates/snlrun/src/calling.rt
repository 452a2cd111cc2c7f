//! The session of a call, on its two streams.

ghost use Rattle.std.specs.Prelude.{◌≡◌, [], true, IfOk, string_bytes};
ghost use Rattle.std.specs.Option.{option_map, unwrap_or};
ghost use Rattle.snc_cli.specs.Streams.{taken_by};
ghost use Rattle.snlrun.specs.Calls.{IsCall};

use snc::{Job, Status, session};
use snc_cli::{Lines, Stream};
use snl_trace::End;
use std::alloc::{AllocError, Global};
use std::io::Stdin;

/// What came of a call.
#[derive(Drop)]
pub struct Called {
    /// A line for each message about the source.
    pub messages: Vec<u8>,
    /// How the run ended; None where a message is an error.
    pub end: Option<End>,
    /// What the rules and the run give for the exit status.
    pub status: Status,
    /// Whether all lines have gone out.
    pub is_out: bool,
}

/// Reads and checks a program and, if it has no error, runs it over standard input, and writes out what is held back then. What
/// standard output took is what the rules and the meaning of the program give for the bytes that standard input gave.
///
/// Of standard input nothing was read yet, and nothing was written to standard output. Fails only where memory ran out.
pub fn session_on(
    alloc: Global,
    source: &[u8],
    job: &Job,
    trace: &mut Stream<Stdin>,
    lines: &mut Lines,
) -> Result<Called, AllocError>
    requires unread { trace.old.input.past.bytes ≡ [] }
    requires unfailed { trace.old.failures ≡ 0 }
    requires unwritten { taken_by lines.old ≡ [] }
    requires unrefused { lines.old.failures ≡ 0 }
    ensures call { IfOk result (λ called. IsCall job.now.options (string_bytes job.now.file)
        (unwrap_or (option_map string_bytes job.now.macros) []) source.now job.now.budget
        trace.new.input.past.bytes trace.new.ended (taken_by lines.new) called.messages.items
        called.end called.status) }
    ensures out { IfOk result (λ called. called.is_out ≡ true →
        lines.new.out.past.bytes ≡ taken_by lines.new) }
{
    let (messages, end, status) = session(alloc, source, job, trace, lines)?;
    let is_out = lines.finish().is_ok();
    Ok(Called {
        messages,
        end,
        status,
        is_out,
    })
}
