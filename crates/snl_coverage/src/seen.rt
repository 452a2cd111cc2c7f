//! What is seen in the runs of a program: the lines of its clauses, and what becomes of its states and channels.

ghost use Rattle.std.specs.Prelude.{◌≡◌, [], IfOk};
ghost use Rattle.snl_watch.specs.Counts.{no_cut, reading_of};
ghost use Rattle.snl_watch.specs.Seen.{seen};
ghost use Rattle.snl_watch.specs.Sets.{names_in};
ghost use Rattle.snl_coverage.specs.Coverage.{AreCounts};
ghost use Rattle.snl_coverage.specs.Shapes.{bytes_of, charted, go_texts};

use crate::charts::Chart;
use crate::counters::{counter_of, counts_of};
use crate::coverage::PutChart;
use crate::go_lines::go_texts;
use crate::puts::no_puts;
use snl_watch::{Counter, Trail};
use std::alloc::{AllocError, Global};

/// What runs showed. Counts stop at the largest number of 64 bits.
#[derive(Drop)]
pub(crate) struct RunCoverage {
    /// In how many lines a transition between the two states of each clause stands, in the order of the clauses.
    pub shown: Vec<u64>,
    /// What became of each clause, state and channel.
    pub trail: Trail,
}

/// The texts of the lines of a program's clauses, and who counts such lines.
#[derive(Drop)]
pub(crate) struct Counting {
    pub texts: Vec<Vec<u8>>,
    pub counter: Counter,
}

/// Nothing was counted yet of a run of a program that puts to some channels. The only error is that memory ends.
pub(crate) fn counting_of(
    alloc: Global,
    chart: &Chart,
    puts: &[PutChart],
) -> Result<Counting, AllocError>
    ensures texts { IfOk result (λ c. bytes_of c.texts.items ≡ go_texts (charted chart.now)) }
    ensures fresh { IfOk result (λ c. seen c.counter
        ≡ reading_of (names_in c.counter.keys) c.counter.room no_cut) }
{
    let texts = go_texts(alloc, chart)?;
    let puts = no_puts(alloc, puts)?;
    let counter = counter_of(alloc, chart, texts.as_slice(), puts)?;
    Ok(Counting { texts, counter })
}

/// Nothing was seen yet of a program that puts to some channels. The only error is that memory ends.
pub(crate) fn unseen(
    alloc: Global,
    chart: &Chart,
    puts: &[PutChart],
) -> Result<RunCoverage, AllocError>
    ensures { IfOk result (λ s. AreCounts (go_texts (charted chart.now)) s.shown.items []) }
{
    let Counting { texts, counter } = counting_of(alloc, chart, puts)?;
    let shown = counts_of(alloc, &counter, texts.as_slice())?;
    let trail = counter.into_trail();
    Ok(RunCoverage { shown, trail })
}
