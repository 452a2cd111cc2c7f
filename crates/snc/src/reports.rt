//! `report`: what is said of a source, its tables, and the status.

ghost use Rattle.std.specs.Prelude.{◌≡◌, IfOk, string_bytes};
ghost use Rattle.snl_syntax.specs.view.Programs.{program_view};
ghost use Rattle.snl_channels.specs.Tables.{tables};
ghost use Rattle.snc.specs.Outcomes.{IsReport};
ghost use Rattle.snc.specs.ReportSteps.{AreTablesOf};

use crate::answering::{Answered, Maker, answer};
use crate::jobs::{Report, Status};
use snc_args::Job;
use snl_check::Checked;
use snl_links::tables_of;
use snl_syntax::Program;
use std::alloc::{AllocError, Global};

/// Makes the tables of a program, where the job asks for them; else nothing.
struct Tables;

impl Maker<Vec<u8>> for Tables {
    ghost right = { λ maker job whole options text. AreTablesOf job.tables whole text.items };

    fn make<'a>(
        checked: &Checked<'a>,
        alloc: Global,
        _source: &[u8],
        job: &Job,
        _maker: &Self,
    ) -> Result<Vec<u8>, AllocError> {
        if job.tables {
            let text = text_of_tables(alloc, checked.program())?;
            Ok(text)
        } else {
            Ok(Vec::new(alloc))
        }
    }
}

/// Reads and checks a program: all messages of the language, and the tables of its links and states where the job asks
/// for them and no message is an error.
///
/// Fails only where memory ran out.
pub fn report(alloc: Global, source: &[u8], job: &Job) -> Result<Report, AllocError>
    ensures { IfOk result (λ r. IsReport job.now.options job.now.tables
        (string_bytes job.now.file) source.now r.messages.items r.tables.items r.status) }
{
    let Answered { messages, made } = answer(alloc, job, source, &Tables)?;
    match made {
        Some(tables) => Ok(Report {
            messages,
            tables,
            status: Status::Well,
        }),
        None => Ok(Report {
            messages,
            tables: Vec::new(alloc),
            status: Status::SourceErrors,
        }),
    }
}

/// The tables of a program as text.
fn text_of_tables(alloc: Global, program: &Program) -> Result<Vec<u8>, AllocError>
    ensures { IfOk result (λ text. text.items ≡ tables (program_view program.now)) }
{
    let mut text = Vec::new(alloc);
    tables_of(alloc, program, &mut text)?;
    Ok(text)
}
