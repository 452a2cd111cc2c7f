//! All messages of a program.

ghost use Rattle.std.specs.Prelude.{◌≡◌, ◌↔◌, ◌⊎◌, true, map, Contains, OnOk, IfOk};
ghost use Rattle.snl_syntax.specs.view.Programs.{program_view};
ghost use Rattle.snl_names.specs.Programs as spec;
ghost use Rattle.snl_messages.specs.Findings.{Finding};
ghost use Rattle.snl_messages.specs.Entries.{finding_in};
ghost use Rattle.snl_messages.specs.Given.{IsGiven};
ghost use Rattle.snl_messages.specs.Lists.{found};
ghost use Rattle.snl_messages.specs.Messages.{Said, IsInOrder, said};
ghost use Rattle.snl_messages.specs.Says.{IsFound, IsOfWords, IsFoundAtAll, IsSaid};
ghost use Rattle.snl_messages.specs.Silence.{is_safe, lets_through};

use crate::entries::{Entry, has_error};
use crate::gathering::{
    note_beyond, note_embedded, note_mode, note_overfull, note_rules, note_unreached, note_words,
};
use crate::messages::Message;
use crate::ordering::in_order;
use crate::silence::{options_in_force, silence};
use snl_reach::unreached;
use snl_resolve::{Options, Site};
use snl_rules::{Broken, broken_rules, is_overfull, overfull_sets};
use snl_syntax::Program;
use snl_text::Token;
use std::alloc::{AllocError, Global};

/// All that is found of a program but for the limits of words, from the rules that are broken and
/// the names of the states that cannot be reached.
fn gathered<'a>(
    alloc: Global,
    program: &Program<'a>,
    options: Options,
    broken: &[Broken<'a>],
    names: &[Token<'a>],
) -> Result<Vec<Entry>, AllocError>
    ensures { IfOk result (λ entries. map finding_in entries.items
        ≡ found broken.now names.now program.now.embedded.items program.now.beyond
        (is_safe options) program.now.word) }
{
    let mut entries = Vec::new(alloc);
    note_rules(alloc, broken, &mut entries)?;
    note_unreached(alloc, names, &mut entries)?;
    note_embedded(alloc, program.embedded.as_slice(), &mut entries)?;
    note_beyond(alloc, program.beyond, &mut entries)?;
    let is_safe = options.s.unwrap_or(false);
    note_mode(alloc, is_safe, program.word, &mut entries)?;
    Ok(entries)
}

/// All that is found of a program but for the limits of words.
fn findings<'a>(
    alloc: Global,
    program: &Program<'a>,
    sites: &[Site<'a>],
    options: Options,
) -> Result<Vec<Entry>, AllocError>
    requires { sites.now ≡ spec.sites (program_view program.now) }
    ensures { IfOk result (λ entries. (f : Finding) → Contains (map finding_in entries.items) f
        ↔ IsFound options (program_view program.now) program.now.embedded.items
        program.now.beyond f) }
{
    let broken = broken_rules(alloc, sites)?;
    let names = unreached(alloc, program)?;
    let entries = gathered(alloc, program, options, broken.as_slice(), names.as_slice())?;
    Ok(entries)
}

/// Notes the limits of words that a program passes.
fn note_limits<'a>(
    alloc: Global,
    program: &Program<'a>,
    sites: &[Site<'a>],
    entries: &mut Vec<Entry>,
) -> Result<(), AllocError>
    requires { sites.now ≡ spec.sites (program_view program.now) }
    ensures { OnOk result ((f : Finding) → Contains (map finding_in entries.new.items) f
        ↔ (Contains (map finding_in entries.old.items) f
        ⊎ IsOfWords (program_view program.now) f)) }
{
    let sets = overfull_sets(alloc, program)?;
    note_overfull(alloc, sets.as_slice(), entries)?;
    let is_overfull = is_overfull(alloc, program, sites)?;
    note_words(alloc, is_overfull, program.word, entries)?;
    Ok(())
}

/// All that is found of a program.
fn all_findings<'a>(
    alloc: Global,
    program: &Program<'a>,
    sites: &[Site<'a>],
    options: Options,
) -> Result<Vec<Entry>, AllocError>
    requires { sites.now ≡ spec.sites (program_view program.now) }
    ensures { IfOk result (λ entries. (f : Finding) → Contains (map finding_in entries.items) f
        ↔ IsFoundAtAll options (program_view program.now) program.now.embedded.items
        program.now.beyond f) }
{
    let mut entries = findings(alloc, program, sites, options)?;
    if !has_error(entries.as_slice()) {
        note_limits(alloc, program, sites, &mut entries)?;
    }
    Ok(entries)
}

/// The messages that options let through, of what is found, in order.
fn given_in_order(
    alloc: Global,
    options: Options,
    mut entries: Vec<Entry>,
) -> Result<Vec<Message>, AllocError>
    ensures given { IfOk result (λ messages. (m : Said) → Contains (map said messages.items) m
        ↔ IsGiven (λ f. Contains (map finding_in entries.items) f
        × (lets_through options f ≡ true)) m) }
    ensures ordered { IfOk result (λ messages. IsInOrder (map said messages.items)) }
{
    silence(options, &mut entries);
    let messages = in_order(alloc, entries)?;
    Ok(messages)
}

/// All messages of a program that has these sites, where these options are given with it: by place, at one place errors before
/// warnings, and then by number; one for each place and number (SNL Reference; Compiling SNL Programs, "Options"). The only error is
/// that memory ends.
pub fn messages_by<'a>(
    alloc: Global,
    program: &Program<'a>,
    sites: &[Site<'a>],
    given: Options,
) -> Result<Vec<Message>, AllocError>
    requires { sites.now ≡ spec.sites (program_view program.now) }
    ensures exactly { IfOk result (λ messages. (m : Said) → Contains (map said messages.items) m
        ↔ IsSaid given (program_view program.now) program.now.embedded.items
        program.now.beyond m) }
    ensures in_order { IfOk result (λ messages. IsInOrder (map said messages.items)) }
{
    let options = options_in_force(program, given);
    let entries = all_findings(alloc, program, sites, options)?;
    let messages = given_in_order(alloc, options, entries)?;
    Ok(messages)
}
