//! What a run of a checked program needs, made while the program is lent.

ghost use Rattle.std.specs.Prelude.{IfOk};
ghost use Rattle.snl_syntax.specs.view.Programs.{program_view};
ghost use Rattle.snc.specs.Answered.{macros_in};
ghost use Rattle.snl_views.specs.Prepared.{IsBoxedPrepared, IsPrepared};

use snc::{Maker, boxed, macros_of};
use snc_args::Job;
use snl_check::Checked;
use snl_links::{Link, links};
use snl_machine::{Loads, Machine};
use std::alloc::{AllocError, Global};

/// What stands once a program is loaded.
#[derive(Drop)]
pub struct Prepared {
    /// Its links, in the order of its definitions, with the macros of the call.
    pub links: Vec<Link>,
    /// Its machine, which has not started.
    pub machine: Machine,
    /// Whether the program waits for its channels before it starts.
    pub waits: bool,
}

/// What the run of a checked program needs that is lent, with the macros and the budget of the job.
pub(crate) fn prepared_of<'a>(
    checked: &Checked<'a>,
    alloc: Global,
    job: &Job,
) -> Result<Prepared, AllocError>
    ensures { IfOk result (IsPrepared (macros_in job.now) job.now.budget
        (program_view checked.now.program) checked.now.options) }
{
    let macros = macros_of(job);
    let links = links(alloc, checked, &macros)?;
    let machine = checked.machine(alloc, &macros, job.budget)?;
    Ok(Prepared {
        links,
        machine,
        waits: checked.waits(),
    })
}

/// Makes that, in a box.
pub(crate) struct Preparing;

impl Maker<Box<Prepared>> for Preparing {
    ghost right = { λ maker job. IsBoxedPrepared (macros_in job) job.budget };

    fn make<'a>(
        checked: &Checked<'a>,
        alloc: Global,
        _source: &[u8],
        job: &Job,
        _maker: &Self,
    ) -> Result<Box<Prepared>, AllocError> {
        let prepared = prepared_of(checked, alloc, job)?;
        boxed(alloc, prepared)
    }
}
