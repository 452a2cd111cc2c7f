//! What is found of a program.

ghost use Rattle.std.specs.Prelude.{◌≡◌, map, IfOk};
ghost use Rattle.snl_messages.specs.Messages.{said};
ghost use Rattle.snl_check.specs.Accepted.{has_no_error};
ghost use Rattle.snl_check.specs.Findings.{AreFindings};
ghost use Rattle.snl_check.specs.declared.findings.Findings as declared;
ghost use Rattle.snl_names.specs.declared.options.Options as sites;

use snl_messages::{Message, Severity, messages_by, options_in_force};
use snl_resolve::{Options, Site, UseTable, sites_of};
use snl_syntax::Program;
use std::alloc::{AllocError, Global};

/// What is found of a program.
#[derive(Drop)]
pub struct Findings<'a> {
    /// In order.
    pub messages: Vec<Message>,
    /// Those in force.
    pub options: Options,
    /// The places that a rule may speak of.
    pub sites: Vec<Site<'a>>,
    /// What the names of the program mean.
    pub uses: UseTable,
}

impl<'a> Findings<'a> {
    /// Whether none of the messages is an error.
    pub fn are_accepted(&self) -> bool
        ensures { result ≡ has_no_error (map said self.now.messages.items) }
    {
        has_no_error(self.messages.as_slice())
    }
}

/// Whether none of the messages is an error.
fn has_no_error(messages: &[Message]) -> bool
    ensures { result ≡ has_no_error (map said messages.now) }
{
    for message in messages {
        if let Severity::Error = message.severity {
            return false;
        }
    }
    true
}

/// Finds the messages of a program where these options are given with it, its sites, and what its names mean.
fn findings_of<'a>(
    alloc: Global,
    program: &Program<'a>,
    given: Options,
) -> Result<Findings<'a>, AllocError>
    ensures { IfOk result (AreFindings program.now given) }
{
    let sites = sites_of(alloc, program)?;
    let messages = messages_by(alloc, program, sites.as_slice(), given)?;
    let uses = UseTable::of(alloc, sites.as_slice())?;
    let options = options_in_force(program, given);
    Ok(Findings {
        messages,
        options,
        sites,
        uses,
    })
}

/// What findings can be made of while it is lent. A function that owns a whole program and lends it
/// is dear to prove; one that owns a value of a type parameter is not.
pub trait HasFindings<'a> {
    ghost found: { Self → sites.Options → declared.Findings → Type 0 };

    /// The findings, where these options are given.
    fn examine(&self, alloc: Global, given: Options) -> Result<Findings<'a>, AllocError>
        ensures { IfOk result (found self.now given) };
}

impl<'a> HasFindings<'a> for Program<'a> {
    ghost found = { AreFindings };

    fn examine(&self, alloc: Global, given: Options) -> Result<Findings<'a>, AllocError> {
        findings_of(alloc, self, given)
    }
}

/// A program with what is found of it.
#[derive(Drop)]
pub struct Examined<'a, T> {
    /// The program.
    pub program: T,
    /// What is found of it.
    pub findings: Findings<'a>,
}

/// Finds what there is of a program where these options are given with it, and hands the program on.
/// The only error is that memory ends; the program is dropped then.
pub fn examine_owned<'a, T: HasFindings<'a> + Drop>(
    alloc: Global,
    program: T,
    given: Options,
) -> Result<Examined<'a, T>, AllocError>
    ensures same { IfOk result (λ e. e.program ≡ program) }
    ensures found { IfOk result (λ e. T.found program given e.findings) }
{
    let findings = program.examine(alloc, given)?;
    Ok(Examined { program, findings })
}
