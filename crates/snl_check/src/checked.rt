//! The check of a program, and a program that passed it.

ghost use Rattle.std.specs.Prelude.{◌≡◌, ◌↔◌, map, Contains, IfOk, IfSome, IsSome};
ghost use Rattle.std.proofs.Props.{props};
ghost use Rattle.snl_syntax.specs.view.Programs.{program_view};
ghost use Rattle.snl_names.specs.Programs.{sites as sites_in};
ghost use Rattle.snl_names.specs.UseTables.{IsTableOf};
ghost use Rattle.snl_names.specs.Uses.{declared_of};
ghost use Rattle.snl_messages.specs.Messages.{Said, IsInOrder, said};
ghost use Rattle.snl_messages.specs.Says.{IsSaid};
ghost use Rattle.snl_messages.specs.Silence as silence;
ghost use Rattle.snl_check.specs.Accepted.{IsAccepted};
ghost use Rattle.snl_check.specs.Waits.{waits};

use crate::findings::{Examined, Findings, examine_owned};
use snl_messages::Message;
use snl_resolve::{Options, Site, UseTable};
use snl_syntax::Program;
use snl_text::Pos;
use std::alloc::{AllocError, Global};

/// A program of which no error is said.
pub struct Checked<'a> {
    program: Program<'a>,
    /// Those in force.
    options: Options,
    /// The places of the program that a rule may speak of.
    sites: Vec<Site<'a>>,
    /// What the names of the program mean.
    uses: UseTable,
    pub ghost accepted: { IsAccepted options program },
    ghost sited: { sites.items ≡ sites_in (program_view program) },
    ghost bound: { IsTableOf uses (program_view program) } by { Prim.hlevel props },
}

// Written out: a derived drop is proved anew wherever such a value ends.
impl<'a> Drop for Checked<'a> {
    fn drop(self) {
        let Checked {
            program: _,
            options: _,
            sites: _,
            uses: _,
        } = self;
    }
}

impl<'a> Checked<'a> {
    /// The program, of which no error is said under the options in force.
    pub fn program(&self) -> &Program<'a>
        ensures tree { result.now ≡ self.now.program }
        ensures accepted { IsAccepted self.now.options result.now }
    {
        &self.program
    }

    /// The options in force: of each letter the last sign, and those of the program come after those
    /// given with it (Compiling SNL Programs, "Options").
    pub fn options(&self) -> Options
        ensures { result ≡ self.now.options }
    {
        self.options
    }

    /// Where the variable or the event flag is declared that the name at a byte offset of the source
    /// means (SNL Reference, "Variable Scope").
    ///
    /// None where no name is used at the offset, and where it is a predefined one.
    pub fn declared(&self, offset: usize) -> Option<Pos>
        ensures { result ≡ declared_of (program_view self.now.program) offset }
    {
        self.uses.declared(offset)
    }

    /// The table that answers this, for all names of the program.
    pub fn uses(&self) -> &UseTable
        ensures { IsTableOf result.now (program_view self.now.program) }
    {
        &self.uses
    }

    /// The places of the program that a rule may speak of, with what is known there: in the order of the source, but that the
    /// declared names stand first in their scope.
    pub fn sites(&self) -> &[Site<'a>]
        ensures { result.now ≡ sites_in (program_view self.now.program) }
    {
        self.sites.as_slice()
    }

    /// Whether the program waits for its channels before it starts: every named channel connected,
    /// and each monitored one valued. `-c` turns it off (Compiling SNL Programs, "Options").
    pub fn waits(&self) -> bool
        ensures { result ≡ waits self.now.options }
    {
        self.options.c.unwrap_or(true)
    }
}

/// What a check found.
#[derive(Drop)]
pub struct Outcome<'a> {
    /// By place in the source, at one place errors before warnings, then by number.
    pub messages: Vec<Message>,
    /// There exactly when no error is said.
    pub checked: Option<Checked<'a>>,
}

/// Gives all messages of a program where these options are given with it, and the program itself
/// where none of them is an error (SNL Reference; Compiling SNL Programs, "Options").
///
/// Fails only where the messages, or the tables that find them, found no room in memory; the program
/// is dropped then.
pub fn check<'a>(
    alloc: Global,
    program: Program<'a>,
    given: Options,
) -> Result<Outcome<'a>, AllocError>
    ensures exactly { IfOk result (λ o. (m : Said) → Contains (map said o.messages.items) m
        ↔ IsSaid given (program_view program.entry) program.entry.embedded.items
        program.entry.beyond m) }
    ensures in_order { IfOk result (λ o. IsInOrder (map said o.messages.items)) }
    ensures accepted { IfOk result (λ o. IsSome o.checked ↔ IsAccepted
        (silence.options_in_force (program_view program.entry) given) program.entry) }
    ensures same { IfOk result (λ o. IfSome o.checked (λ c. c.program ≡ program.entry)) }
    ensures options { IfOk result (λ o. IfSome o.checked (λ c. c.options
        ≡ silence.options_in_force (program_view program.entry) given)) }
{
    let Examined { program, findings } = examine_owned(alloc, program, given)?;
    let is_accepted = findings.are_accepted();
    let Findings {
        messages,
        options,
        sites,
        uses,
    } = findings;
    let checked = if is_accepted {
        Some(Checked {
            program,
            options,
            sites,
            uses,
        })
    } else {
        None
    };
    Ok(Outcome { messages, checked })
}
