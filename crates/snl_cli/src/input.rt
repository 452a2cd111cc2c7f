//! The trace on standard input.

ghost use Rattle.std.specs.Prelude.{◌≡◌, [], IfOk};

use crate::trace_report::compared;
use snc::Status;
use snc_cli::Stream;
use snl_trace::{Source, SourceFault};
use snl_units::{ChannelUnits, Comparison};
use snl_views::Overheard;
use snl_watch::Tally;
use std::io::{IsTerminal, Stdin};
use std::time::{Duration, Instant};

/// How far the trace was read, and when that was told last.
#[derive(Drop)]
struct Progress {
    tally: Tally,
    told: Instant,
}

/// The trace on standard input, which is overheard. Where that is a terminal, the user is told so before the first read. If it is
/// asked for, standard error tells once a second how many lines were read.
#[derive(Drop)]
pub struct Input<'c> {
    rt: &'c HostRuntime,
    stream: Stream<Stdin>,
    heard: Overheard,
    units: Option<Comparison<'c>>,
    is_begun: bool,
    progress: Option<Progress>,
}

impl<'c> Input<'c> {
    /// Nothing was read yet. What its first comments say of its numbers is compared with some units, where there are some. Fails only
    /// where memory ran out.
    pub fn new(
        rt: &'c HostRuntime,
        tells: bool,
        units: Option<&'c [ChannelUnits]>,
    ) -> Result<Self, Status>
        ensures gave { IfOk result (λ input. input.stream.input.past.bytes ≡ []) }
        ensures failures { IfOk result (λ input. input.stream.failures ≡ 0) }
    {
        Ok(Input {
            rt,
            stream: Stream::new(rt.stdin()),
            heard: Overheard::new(rt.alloc())?,
            units: compared(rt, units)?,
            is_begun: false,
            progress: if tells { begun(rt) } else { None },
        })
    }

    /// What was overheard of it.
    pub fn heard(&self) -> &Overheard {
        &self.heard
    }

    /// What its first comments say of its numbers, beside the units that it is compared with.
    pub fn units(&self) -> Option<&Comparison<'c>> {
        self.units.as_ref()
    }
}

/// Nothing was read yet; None where there is no clock.
fn begun(rt: &HostRuntime) -> Option<Progress> {
    match Instant::now(rt) {
        Ok(told) => Some(Progress {
            tally: Tally::new(),
            told,
        }),
        Err(_) => None,
    }
}

/// Tells that the trace is read from a terminal, where it is.
fn tell_terminal(rt: &HostRuntime) {
    if rt.stdin().is_terminal() {
        let _ = eprintln!(rt; "snl: reading the trace from the terminal; end it by Ctrl-D");
    }
}

/// Counts what was read, and tells of it where a second has passed.
fn count(rt: &HostRuntime, progress: &mut Progress, piece: &[u8]) {
    progress.tally.take(piece);
    let Ok(now) = Instant::now(rt) else {
        return;
    };
    if now.duration_since(progress.told) < Duration::from_secs(1) {
        return;
    }
    progress.told = now;
    let lines = progress.tally.lines();
    let last = progress.tally.last();
    let _ = eprintln!(rt; "snl: {lines} lines read, the last at {last}");
}

impl Source for Input<'_> {
    ghost gave = { λ input. input.stream.input.past.bytes };

    ghost ended = { λ input. input.stream.ended };

    ghost broke = { λ input. input.stream.broke };

    ghost failures = { λ input. input.stream.failures };

    fn read(&mut self, room: &mut [u8]) -> Result<usize, SourceFault> {
        if !self.is_begun {
            self.is_begun = true;
            tell_terminal(self.rt);
        }
        let size = self.stream.next(room)?;
        if let Some(progress) = &mut self.progress {
            count(self.rt, progress, &room[..size]);
        }
        self.heard.take(&room[..size]);
        if let Some(units) = &mut self.units {
            units.take(&room[..size]);
        }
        Ok(size)
    }
}
