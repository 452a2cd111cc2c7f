//! How many lines were read, and what became of the values.

ghost use Rattle.std.specs.Prelude.{◌≡◌, ◌+◌, ◌<◌, ◌-◌, ◌^◌, IfOk};
ghost use Rattle.snl_import.specs.Counts.{left_total};

use crate::errors::{ImportError, one_more};
use snl_logs::Cause;

/// Why a value is left out.
#[derive(Clone, Copy, Debug, PartialEq, Eq)]
pub enum Left {
    /// It is no number of 64 bits.
    NoValue(Cause),
    /// No line of a trace can have its name or its time, or as many values.
    Unfit,
    /// It was not the last one of its channel before the trace begins.
    Early,
    /// The program has no such channel.
    Foreign,
    /// The program has the channel, and its variables cannot hold the value.
    Misfit,
}

/// How many values were left out, by their causes.
#[derive(Clone, Copy, Debug, PartialEq, Eq)]
pub struct LeftOut {
    /// `nan` and `inf`.
    pub not_finite: u64,
    /// Numbers beyond 64 bits.
    pub too_large: u64,
    /// Texts that stand for no number.
    pub no_number: u64,
    /// Arrays and texts of no elements.
    pub empty: u64,
    /// Those that no line of a trace can have.
    pub unfit: u64,
    /// Those before the trace begins that were not the last ones of their channels.
    pub early: u64,
    /// Those of channels that the program does not have.
    pub foreign: u64,
    /// Those that the variables of the program cannot hold.
    pub misfit: u64,
}

impl LeftOut {
    /// One more.
    fn with(self, left: Left) -> LeftOut
        requires { left_total self < 2 ^ 64 - 1 }
        ensures { left_total result ≡ left_total self + 1 }
    {
        let mut all = self;
        match left {
            Left::NoValue(Cause::NotFinite) => all.not_finite += 1,
            Left::NoValue(Cause::TooLarge) => all.too_large += 1,
            Left::NoValue(Cause::NoNumber) => all.no_number += 1,
            Left::NoValue(Cause::Empty) => all.empty += 1,
            Left::Unfit => all.unfit += 1,
            Left::Early => all.early += 1,
            Left::Foreign => all.foreign += 1,
            Left::Misfit => all.misfit += 1,
        }
        all
    }
}

/// How many lines were read, and what became of the values. Each line is understood or not, and each value was written or left out.
#[derive(Clone, Copy, Debug, PartialEq, Eq)]
pub struct Counts {
    /// The lines that were read.
    pub lines: u64,
    /// Those that were understood.
    pub understood: u64,
    /// Those that were not.
    pub unknown: u64,
    /// The values that the lines have.
    pub values: u64,
    /// Those that were written, a line each.
    pub written: u64,
    /// Those that were left out.
    pub left: LeftOut,
    ghost each_line: { understood + unknown ≡ lines },
    ghost each_value: { written + left_total left ≡ values },
}

impl Counts {
    /// Nothing was read.
    pub fn new() -> Counts
        ensures lines { result.lines ≡ 0 }
        ensures written { result.written ≡ 0 }
    {
        Counts {
            lines: 0,
            understood: 0,
            unknown: 0,
            values: 0,
            written: 0,
            left: LeftOut {
                not_finite: 0,
                too_large: 0,
                no_number: 0,
                empty: 0,
                unfit: 0,
                early: 0,
                foreign: 0,
                misfit: 0,
            },
        }
    }

    /// One line more, which is understood.
    pub fn with_understood(self) -> Result<Counts, ImportError>
        ensures lines { IfOk result (λ counts. counts.lines ≡ self.lines + 1) }
        ensures written { IfOk result (λ counts. counts.written ≡ self.written) }
    {
        let mut counts = self;
        counts.lines = one_more(self.lines)?;
        counts.understood = self.understood + 1;
        Ok(counts)
    }

    /// One line more, which is not understood.
    pub fn with_unknown(self) -> Result<Counts, ImportError>
        ensures lines { IfOk result (λ counts. counts.lines ≡ self.lines + 1) }
        ensures written { IfOk result (λ counts. counts.written ≡ self.written) }
    {
        let mut counts = self;
        counts.lines = one_more(self.lines)?;
        counts.unknown = self.unknown + 1;
        Ok(counts)
    }

    /// One value more, which is written.
    pub fn with_written(self) -> Result<Counts, ImportError>
        ensures lines { IfOk result (λ counts. counts.lines ≡ self.lines) }
        ensures written { IfOk result (λ counts. counts.written ≡ self.written + 1) }
    {
        let mut counts = self;
        counts.values = one_more(self.values)?;
        counts.written = self.written + 1;
        Ok(counts)
    }

    /// One value more, which is left out.
    pub fn with_left(self, left: Left) -> Result<Counts, ImportError>
        ensures lines { IfOk result (λ counts. counts.lines ≡ self.lines) }
        ensures written { IfOk result (λ counts. counts.written ≡ self.written) }
    {
        let mut counts = self;
        counts.values = one_more(self.values)?;
        counts.left = self.left.with(left);
        Ok(counts)
    }
}
