//! One way in: a source is judged, and its program is lent to who makes something of it.

ghost use Rattle.std.specs.Prelude.{◌≡◌, IfOk, string_bytes};
ghost use Rattle.snl_syntax.specs.Programs.{ProgramTree};
ghost use Rattle.snl_syntax.specs.view.Programs.{program_view};
ghost use Rattle.snl_names.specs.declared.options.Options as options;
ghost use Rattle.snc_args.specs.declared.words.Job as words;
ghost use Rattle.snc.specs.Answered.{IsAnswered};

use crate::messages::{Judgement, judged};
use snc_args::Job;
use snl_check::Checked;
use std::alloc::{AllocError, Global};

/// What makes something of a program that has no error, while that is lent to it.
///
/// No function but `answer` owns a whole program: to own one and to lend it is dear to prove. So nothing that is made has a part of
/// the program in it.
pub trait Maker<O> {
    /// What is right of what is made, by the job, the tree of the program and the options in force.
    ghost right: { Self → words.Job → ProgramTree → options.Options → O → Type 0 };

    /// Makes it. `source` is what the program was read from. The only error is that memory ends.
    fn make<'a>(
        checked: &Checked<'a>,
        alloc: Global,
        source: &[u8],
        job: &Job,
        maker: &Self,
    ) -> Result<O, AllocError>
        ensures { IfOk result (right maker.now job.now (program_view checked.now.program)
            checked.now.options) };
}

/// What came of a source.
#[derive(Drop)]
pub struct Answered<O> {
    /// A line for each message, in the order of the source.
    pub messages: Vec<u8>,
    /// What was made of its program; None where a message is an error.
    pub made: Option<O>,
}

/// Reads and checks a source, whose file is called as the job says, under the options of the job; and if no message is an error, has
/// something made of its program.
///
/// Fails only where memory ran out.
pub fn answer<O: Drop, M: Maker<O>>(
    alloc: Global,
    job: &Job,
    source: &[u8],
    maker: &M,
) -> Result<Answered<O>, AllocError>
    ensures { IfOk result (λ a. IsAnswered (M.right maker.now job.now) job.now.options
        (string_bytes job.now.file) source.now a.messages.items a.made) }
{
    let Judgement { messages, checked } = judged(alloc, job.file.as_bytes(), source, job.options)?;
    let Some(checked) = checked else {
        return Ok(Answered {
            messages,
            made: None,
        });
    };
    let made = M::make(checked.as_ref(), alloc, source, job, maker)?;
    Ok(Answered {
        messages,
        made: Some(made),
    })
}
