//! `snl tree` and `snl sets`: a program as a text, without a run.

use crate::asked::Asked;
use snc::{Answered, Job, Maker, Status, answer};
use snc_cli::write;
use snl_check::Checked;
use snl_json::tree_text;
use snl_outline::{OutlineForm, outline_text};
use std::alloc::{AllocError, Global};

/// What is written of a program.
#[derive(Clone, Copy)]
pub enum ProgramText {
    /// Its tree as JSON, on a line.
    Tree,
    /// A line for each of its states.
    States,
    /// The same as declarations.
    Declarations,
}

impl Maker<Vec<u8>> for ProgramText {
    ghost right = { λ maker job whole options text. Unit {0} };

    fn make<'a>(
        checked: &Checked<'a>,
        alloc: Global,
        _source: &[u8],
        _job: &Job,
        maker: &Self,
    ) -> Result<Vec<u8>, AllocError> {
        let program = checked.program();
        match maker {
            ProgramText::Tree => {
                let mut line = tree_text(alloc, program)?.into_bytes();
                line.push(b'\n')?;
                Ok(line)
            }
            ProgramText::States => outline_text(alloc, program, OutlineForm::Numbers),
            ProgramText::Declarations => outline_text(alloc, program, OutlineForm::Declarations),
        }
    }
}

/// Writes a text; answers the status.
fn written(rt: &HostRuntime, text: &[u8]) -> Status {
    match write(rt, text) {
        Ok(()) => Status::Well,
        Err(failed) => failed,
    }
}

/// Writes what is asked for of a program, where no message about it is an error. The messages come behind it.
pub fn answered_text(rt: &HostRuntime, asked: Asked, text: ProgramText) -> Result<Status, Status> {
    let Answered { messages, made } = answer(rt.alloc(), &asked.call.job, asked.source, &text)?;
    let status = match made {
        Some(text) => written(rt, text.as_slice()),
        None => Status::SourceErrors,
    };
    asked.tell(rt, messages.as_slice());
    Ok(status)
}
