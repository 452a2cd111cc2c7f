//! The clock of a search.

use snl_alphabet::Watches;
use std::io::IsTerminal;
use std::time::{Duration, Instant};

/// The clock is looked at once in so many times that a search asks whether to go on: a look takes a fifteenth of what a short line does.
const EACH: u32 = 16;

/// Where so many milliseconds have passed since the last look, lines are long: then it is looked at the next time, too.
const LONG: u64 = 10;

/// The clock of a search, which tells once a second how far it has come where standard error is a terminal.
#[derive(Drop)]
pub struct Clock<'c> {
    rt: &'c HostRuntime,
    /// When the call began; None where there is no clock.
    begun: Option<Instant>,
    /// When that was told last.
    told: Option<Instant>,
    /// How many seconds the call may take.
    seconds: u32,
    /// Since when in the call the search runs, of two searches the one that runs now.
    since: Duration,
    /// How long after the call began it has to be over.
    most: Duration,
    /// When the clock was looked at last.
    looked: Option<Instant>,
    /// How often the search may ask before it is looked at again.
    left: u32,
    /// How long it takes at most to check the levels that are whole: no longer than to search them, since it does each line once.
    check: Duration,
}

impl<'c> Clock<'c> {
    /// The clock of a call that began at a time.
    pub fn new(rt: &'c HostRuntime, begun: Option<Instant>, seconds: u32) -> Self {
        let told = if rt.stderr().is_terminal() {
            begun
        } else {
            None
        };
        Clock {
            rt,
            begun,
            told,
            seconds,
            since: Duration::from_secs(0),
            most: Duration::from_secs(u64::from(seconds)),
            looked: None,
            left: 0,
            check: Duration::from_secs(0),
        }
    }

    /// How long the call takes by now; None where there is no clock.
    fn passed(&self) -> Option<Duration> {
        let begun = self.begun?;
        let now = Instant::now(self.rt).ok()?;
        Some(now.duration_since(begun))
    }

    /// How often the search may ask before the next look, by the time of this one.
    fn pause(&mut self, now: Instant) -> u32 {
        let pause = match self.looked {
            Some(last) if now.duration_since(last) < Duration::from_millis(LONG) => EACH - 1,
            _ => 0,
        };
        self.looked = Some(now);
        pause
    }
}

/// Tells how far a search has come, where a second has passed.
fn tell_progress(
    rt: &HostRuntime,
    told: &mut Option<Instant>,
    now: Instant,
    worlds: usize,
    levels: usize,
) {
    if let Some(last) = *told {
        if now.duration_since(last) >= Duration::from_secs(1) {
            *told = Some(now);
            let s = if levels == 1 { "" } else { "s" };
            let _ = eprintln!(rt; "snl: {worlds} worlds, {levels} whole level{s}");
        }
    }
}

impl Watches for Clock<'_> {
    fn goes_on(&mut self, worlds: usize, levels: usize) -> bool {
        if self.left > 0 {
            self.left -= 1;
            return true;
        }
        let Some(begun) = self.begun else {
            return true;
        };
        let Ok(now) = Instant::now(self.rt) else {
            return true;
        };
        tell_progress(self.rt, &mut self.told, now, worlds, levels);
        let goes_on = now.duration_since(begun).saturating_add(self.check) < self.most;
        let pause = self.pause(now);
        self.left = if goes_on { pause } else { 0 };
        goes_on
    }

    fn has_time(&mut self) -> bool {
        let Some(passed) = self.passed() else {
            return true;
        };
        let took = passed.saturating_sub(self.since);
        let has_time = passed.saturating_add(took) < self.most;
        if has_time {
            self.check = took;
        }
        has_time
    }

    fn halve(&mut self) {
        self.most = Duration::from_millis(u64::from(self.seconds).saturating_mul(500));
    }

    fn go_on(&mut self) {
        self.most = Duration::from_secs(u64::from(self.seconds));
        if let Some(passed) = self.passed() {
            self.since = passed;
        }
    }
}
