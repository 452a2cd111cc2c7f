//! The chart of a checked program, made while the program is lent.

ghost use Rattle.std.specs.Prelude.{IfOk};
ghost use Rattle.snl_syntax.specs.view.Programs.{program_view};
ghost use Rattle.snl_coverage.specs.Runners.{IsCharted};

use crate::charts::Chart;
use crate::coverage::PutChart;
use crate::puts::{put_charts, put_names};
use indexmap::IndexSet;
use snl_check::Checked;
use snl_legends::Conditions;
use snl_links::Link;
use snl_outline::outline_of;
use snl_text::lex;
use std::alloc::{AllocError, Global};

/// What the tokens of a source say that its tree does not.
#[derive(Drop)]
struct SourceMarks {
    conditions: Conditions,
    /// The offsets of the names behind `pvPut`.
    puts: Vec<usize>,
}

/// The marks of a source that can be read. The only error is that memory ends.
fn marks_of(alloc: Global, source: &[u8]) -> Result<SourceMarks, AllocError> {
    match lex(alloc, source) {
        Ok(lexed) => {
            let tokens = lexed.tokens.as_slice();
            let conditions = Conditions::of(alloc, source, tokens)?;
            let puts = put_names(alloc, tokens)?;
            Ok(SourceMarks { conditions, puts })
        }
        Err(_) => Err(AllocError),
    }
}

/// Where the variables are declared that a checked program puts.
fn declared_puts<'a>(
    alloc: Global,
    checked: &Checked<'a>,
    names: &[usize],
) -> Result<IndexSet<usize>, AllocError> {
    let mut declared = IndexSet::new(alloc);
    for name in names {
        if let Some(pos) = checked.declared(*name) {
            declared.insert(pos.offset as usize)?;
        }
    }
    Ok(declared)
}

/// A chart, and the channels that a `pvPut` names.
#[derive(Drop)]
pub(crate) struct Charted {
    pub chart: Chart,
    pub puts: Vec<PutChart>,
}

/// The chart of a checked program that is lent, and the channels that it puts, by its links.
pub(crate) fn charted_of<'a>(
    alloc: Global,
    checked: &Checked<'a>,
    source: &[u8],
    links: &[Link],
) -> Result<Charted, AllocError>
    ensures { IfOk result (λ o. IsCharted (program_view checked.now.program) o.chart) }
{
    let SourceMarks { conditions, puts } = marks_of(alloc, source)?;
    let declared = declared_puts(alloc, checked, puts.as_slice())?;
    let puts = put_charts(alloc, source, links, &declared)?;
    let outline = outline_of(alloc, checked.program())?;
    let chart = Chart {
        outline,
        conditions,
    };
    Ok(Charted { chart, puts })
}
