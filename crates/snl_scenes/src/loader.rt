//! From the bytes of a source to a program whose moments can be told.

ghost use Rattle.std.specs.Prelude.{[], IfOk, IfSome, string_bytes};
ghost use Rattle.std.specs.Option.{option_map, unwrap_or};
ghost use Rattle.snl_syntax.specs.view.Programs.{program_view};
ghost use Rattle.snc.specs.Answered.{IsAnswered, macros_in};
ghost use Rattle.snl_moments.specs.Loaded.{IsUntold};
ghost use Rattle.snl_scenes.specs.Staged.{IsBoxedScene, IsSubjectOf};

use crate::names::{Legend, legend_of};
use snc::{Answered, Maker, answer, boxed, macros_of};
use snc_args::Job;
use snl_check::Checked;
use snl_links::links;
use snl_machine::Tied;
use snl_moments::{Subject, subject_of};
use std::alloc::{AllocError, Global};

/// A program whose moments can be told, and what its parts are called.
#[derive(Drop)]
pub struct Scene {
    /// The program.
    pub subject: Box<Subject>,
    pub(crate) legend: Legend,
}

/// What the links of a program are tied to.
fn ties_of(alloc: Global, subject: &Subject) -> Result<Vec<Tied>, AllocError> {
    let mut ties = Vec::new(alloc);
    for number in 0..usize::MAX {
        let Some(tie) = subject.link(number) else {
            return Ok(ties);
        };
        ties.push(tie)?;
    }
    Ok(ties)
}

/// The program of a checked one, for so many moments, in a box: what is in one is cheap to prove things about where it is dropped. The only
/// error is that memory ends.
fn boxed_subject<'a>(
    checked: &Checked<'a>,
    alloc: Global,
    job: &Job,
    count: usize,
) -> Result<Box<Subject>, AllocError>
    ensures { IfOk result (λ s. IsSubjectOf (macros_in job.now) job.now.budget
        (program_view checked.now.program) checked.now.options s.value) }
{
    let macros = macros_of(job);
    let subject = subject_of(alloc, checked, &macros, job.budget, count)?;
    boxed(alloc, subject)
}

/// What the parts of a program that is ready are called.
fn legend_by<'a>(
    checked: &Checked<'a>,
    alloc: Global,
    source: &[u8],
    job: &Job,
    subject: &Subject,
) -> Result<Legend, AllocError> {
    let macros = macros_of(job);
    let links = links(alloc, checked, &macros)?;
    let ties = ties_of(alloc, subject)?;
    legend_of(alloc, checked, source, links.as_slice(), ties)
}

/// Makes the scene of a checked program, for so many moments.
#[derive(Clone, Copy)]
struct Staging {
    count: usize,
}

impl Maker<Box<Scene>> for Staging {
    ghost right = { λ maker job. IsBoxedScene (macros_in job) job.budget };

    fn make<'a>(
        checked: &Checked<'a>,
        alloc: Global,
        source: &[u8],
        job: &Job,
        maker: &Self,
    ) -> Result<Box<Scene>, AllocError> {
        let subject = boxed_subject(checked, alloc, job, maker.count)?;
        let legend = legend_by(checked, alloc, source, job, subject.as_ref())?;
        boxed(alloc, Scene { subject, legend })
    }
}

/// Reads and checks a source and, if it has no error, makes its program ready for so many moments, with the options, the macros and the
/// budget of a job. The only error is that memory ends.
pub fn ready_of(
    alloc: Global,
    source: &[u8],
    job: &Job,
    count: usize,
) -> Result<Answered<Box<Scene>>, AllocError>
    ensures answer { IfOk result (λ r. IsAnswered
        (IsBoxedScene (unwrap_or (option_map string_bytes job.now.macros) []) job.now.budget)
        job.now.options (string_bytes job.now.file) source.now r.messages.items r.made) }
    ensures untold { IfOk result (λ r. IfSome r.made (λ scene.
        IsUntold scene.value.subject.value)) }
{
    let answered = answer(alloc, job, source, &Staging { count })?;
    Ok(answered)
}
