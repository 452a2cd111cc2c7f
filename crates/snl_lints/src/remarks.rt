//! The lints, and what they remark on a program.

ghost use Rattle.std.specs.Prelude.{◌≡◌, ◌++◌, OnOk, IfOk};
ghost use Rattle.std.specs.List.{flat_map};
ghost use Rattle.snl_syntax.specs.view.Programs.{program_view};
ghost use Rattle.snl_names.specs.UseTables.{IsTableOf, declared_at};
ghost use Rattle.snl_channels.specs.Links.{spelled};
ghost use Rattle.snl_lints.specs.Constants.{lacks_number, misses_element};
ghost use Rattle.snl_lints.specs.FactTables.{AreBlank, given_in, known_in, known_by_tables};
ghost use Rattle.snl_lints.specs.Touches.{touches};
ghost use Rattle.snl_lints.specs.Lints as spec;

use crate::channels::{has_undefined, is_open, is_unspoken_after};
use crate::constants::{lacks_number, misses_element};
use crate::facts::{Fact, VariableFacts};
use crate::parts::touches_of;
use crate::tables::{Tables, note_all};
use crate::touches::{Touch, add};
use snl_channels::{MacroTable, Macros};
use snl_names::formats::unquoted;
use snl_names::{Query, UseTable};
use snl_syntax::Program;
use snl_text::{Pos, Token};
use std::alloc::{AllocError, Global};

/// What is no error and seldom meant. docs/tools/check.md tells each by its name.
#[derive(Clone, Copy)]
pub enum Lint {
    /// A clause leads back to its own state, which has an `entry` or `exit` block that is not done then.
    Itself,
    /// A variable is set in one state set and read in another, and each has a copy of its own.
    Shared,
    /// A variable of a channel is read, and nothing gives it a value.
    Stale,
    /// A variable is monitored, and is not read and sets no event flag.
    Unread,
    /// A variable of a channel is set, and is never put.
    Unput,
    /// A condition is an assignment.
    Equals,
    /// A condition is `a, b`.
    Comma,
    /// `pvPutComplete` of a variable that is never put with the word `ASYNC`.
    Answered,
    /// A macro in the name of a channel has no definition.
    Undefined,
    /// A brace in the name of a channel is not closed.
    Unclosed,
    /// No line of a trace can name a channel.
    Unspoken,
    /// An operator faults by its constants.
    Faulting,
    /// A variable is given a number that its type lacks.
    Unfitting,
    /// A variable has no element of a constant subscript.
    Missing,
}

/// What a lint remarks, and where.
#[derive(Clone, Copy)]
pub struct Remark<'a> {
    /// Which lint it is.
    pub lint: Lint,
    /// Where it is said: at a name, at an operator, or at the name of a channel.
    pub token: Token<'a>,
}

/// What remarks are made by: what the names of a program mean, and what stands for macros in the names of its channels.
#[derive(Clone, Copy)]
struct Sources<'s, 'm> {
    alloc: Global,
    uses: &'s UseTable,
    macros: &'s MacroTable<'m>,
}

/// Adds a remark at a token, where a test holds.
fn push_when<'a>(
    remarks: &mut Vec<Remark<'a>>,
    token: Token<'a>,
    lint: Lint,
    test: bool,
) -> Result<(), AllocError>
    ensures { OnOk result (remarks.new.items
        ≡ remarks.old.items ++ spec.when test lint token.entry) }
{
    if test {
        add(remarks, Remark { lint, token })
    } else {
        Ok(())
    }
}

/// Whether something brings a variable the value of its channel.
fn is_refreshed(facts: &VariableFacts, variable: usize) -> bool
    ensures { result ≡ spec.is_refreshed (known_in facts.now) variable }
{
    facts.is_done(Fact::Monitored, variable) || facts.is_done(Fact::Got, variable)
}

/// Whether a variable of a channel is read, and nothing gives it a value.
fn is_stale(facts: &VariableFacts, variable: usize) -> bool
    ensures { result ≡ spec.is_stale (known_in facts.now) variable }
{
    facts.is_done(Fact::Assigned, variable)
        && facts.is_done(Fact::Read, variable)
        && !facts.is_done(Fact::Set, variable)
        && !is_refreshed(facts, variable)
}

/// Whether a variable of a channel is set, and is never put.
fn is_unput(facts: &VariableFacts, variable: usize) -> bool
    ensures { result ≡ spec.is_unput (known_in facts.now) variable }
{
    facts.is_done(Fact::Assigned, variable)
        && facts.is_done(Fact::Set, variable)
        && !facts.is_done(Fact::Put, variable)
        && !is_refreshed(facts, variable)
}

/// Whether there is a variable, and it is never read and sets no event flag.
fn is_unread(facts: &VariableFacts, place: Option<Pos>) -> bool
    ensures { result ≡ spec.of_meant (spec.is_unread (known_in facts.now)) place }
{
    match place {
        Some(place) => {
            !facts.is_done(Fact::Read, place.offset as usize)
                && !facts.is_done(Fact::Flagged, place.offset as usize)
        }
        None => false,
    }
}

/// Whether there is a variable, and it is never put with the word `ASYNC`.
fn is_answered(facts: &VariableFacts, place: Option<Pos>) -> bool
    ensures { result ≡ spec.of_meant (spec.is_answered (known_in facts.now)) place }
{
    match place {
        Some(place) => !facts.is_done(Fact::PutAsync, place.offset as usize),
        None => false,
    }
}

/// Adds what is remarked at a declared name.
fn push_declared<'a>(
    token: Token<'a>,
    tables: &Tables,
    remarks: &mut Vec<Remark<'a>>,
) -> Result<(), AllocError>
    ensures { OnOk result (remarks.new.items
        ≡ remarks.old.items ++ spec.at_declared (known_by_tables tables.now) token.entry) }
{
    let variable = token.pos.offset as usize;
    push_when(remarks, token, Lint::Shared, tables.is_shared(variable))?;
    push_when(
        remarks,
        token,
        Lint::Stale,
        is_stale(&tables.facts, variable),
    )?;
    push_when(
        remarks,
        token,
        Lint::Unput,
        is_unput(&tables.facts, variable),
    )
}

/// Adds what is remarked at the name in a `monitor`.
fn push_monitored<'a>(
    token: Token<'a>,
    facts: &VariableFacts,
    uses: &UseTable,
    remarks: &mut Vec<Remark<'a>>,
) -> Result<(), AllocError>
    ensures { OnOk result (remarks.new.items ≡ remarks.old.items
        ++ spec.at_monitored (declared_at uses.now) (known_in facts.now) token.entry) }
{
    let test = is_unread(facts, uses.declared(token.pos.offset as usize));
    push_when(remarks, token, Lint::Unread, test)
}

/// Adds what is remarked at the name in a call.
fn push_asked<'a>(
    token: Token<'a>,
    query: Query,
    facts: &VariableFacts,
    uses: &UseTable,
    remarks: &mut Vec<Remark<'a>>,
) -> Result<(), AllocError>
    ensures { OnOk result (remarks.new.items ≡ remarks.old.items
        ++ spec.at_asked (declared_at uses.now) (known_in facts.now) query token.entry) }
{
    match query {
        Query::PvPutComplete => {
            let test = is_answered(facts, uses.declared(token.pos.offset as usize));
            push_when(remarks, token, Lint::Answered, test)
        }
        _ => Ok(()),
    }
}

/// Whether the variable that a name means lacks a number that it is given.
fn is_unfitting(tables: &Tables, place: Option<Pos>, number: i64) -> bool
    ensures { result ≡ spec.of_meant (λ v. lacks_number ((known_by_tables tables.now).held v)
        number) place }
{
    match place {
        Some(place) => lacks_number(tables.held(place.offset as usize), number),
        None => false,
    }
}

/// Whether the variable that a name means has no element of a number.
fn is_missing(tables: &Tables, place: Option<Pos>, number: i64) -> bool
    ensures { result ≡ spec.of_meant (λ v. misses_element ((known_by_tables tables.now).held v)
        number) place }
{
    match place {
        Some(place) => misses_element(tables.held(place.offset as usize), number),
        None => false,
    }
}

/// Adds what is remarked at the name of a channel.
fn push_channel<'a>(
    alloc: Global,
    token: Token<'a>,
    macros: &MacroTable,
    remarks: &mut Vec<Remark<'a>>,
) -> Result<(), AllocError>
    ensures { OnOk result (remarks.new.items ≡ remarks.old.items
        ++ spec.at_channel (given_in macros.now) token.entry) }
{
    let name = unquoted(token.text);
    push_when(remarks, token, Lint::Undefined, has_undefined(name, macros))?;
    push_when(remarks, token, Lint::Unclosed, is_open(name))?;
    let is_unspoken = is_unspoken_after(alloc, name, macros)?;
    push_when(remarks, token, Lint::Unspoken, is_unspoken)
}

/// Adds what is remarked at one touch of a variable.
fn push_variable<'a>(
    touch: &Touch<'a>,
    tables: &Tables,
    uses: &UseTable,
    remarks: &mut Vec<Remark<'a>>,
) -> Result<(), AllocError>
    ensures { OnOk result (remarks.new.items ≡ remarks.old.items
        ++ spec.at_variable (declared_at uses.now) (known_by_tables tables.now) touch.now) }
{
    match touch {
        Touch::Declares(name) => push_declared(*name, tables, remarks),
        Touch::Monitors(name) => push_monitored(*name, &tables.facts, uses, remarks),
        Touch::Asks(query, name) => push_asked(*name, *query, &tables.facts, uses, remarks),
        Touch::Stores(name, number) => {
            let test = is_unfitting(tables, uses.declared(name.pos.offset as usize), *number);
            push_when(remarks, *name, Lint::Unfitting, test)
        }
        Touch::Picks(name, number) => {
            let test = is_missing(tables, uses.declared(name.pos.offset as usize), *number);
            push_when(remarks, *name, Lint::Missing, test)
        }
        _ => Ok(()),
    }
}

/// Adds what is remarked at one touch.
fn push_remarks_at<'a>(
    touch: &Touch<'a>,
    tables: &Tables,
    sources: Sources,
    remarks: &mut Vec<Remark<'a>>,
) -> Result<(), AllocError>
    ensures { OnOk result (remarks.new.items ≡ remarks.old.items
        ++ spec.remarks_at (declared_at sources.entry.uses.now)
        (given_in sources.entry.macros.now) (known_by_tables tables.now) touch.now) }
{
    match touch {
        Touch::Names(name) => push_channel(sources.alloc, *name, sources.macros, remarks),
        Touch::Equals(operator) => push_when(remarks, *operator, Lint::Equals, true),
        Touch::Comma(operator) => push_when(remarks, *operator, Lint::Comma, true),
        Touch::Returns(name) => push_when(remarks, *name, Lint::Itself, true),
        Touch::Faults(operator) => push_when(remarks, *operator, Lint::Faulting, true),
        Touch::Lacks(name) => push_when(remarks, *name, Lint::Unfitting, true),
        _ => push_variable(touch, tables, sources.uses, remarks),
    }
}

/// Adds what is remarked at these touches.
fn push_remarks<'a>(
    touches: &[Touch<'a>],
    tables: &Tables,
    sources: Sources,
    remarks: &mut Vec<Remark<'a>>,
) -> Result<(), AllocError>
    ensures { OnOk result (remarks.new.items ≡ remarks.old.items
        ++ flat_map (spec.remarks_at (declared_at sources.entry.uses.now)
        (given_in sources.entry.macros.now) (known_by_tables tables.now)) touches.now) }
{
    for touch in touches {
        push_remarks_at(touch, tables, sources, remarks)?;
    }
    Ok(())
}

/// Fills the tables, and adds what is remarked.
fn push_all<'a>(
    program: &Program<'a>,
    touches: &[Touch<'a>],
    sources: Sources,
    tables: &mut Tables,
    remarks: &mut Vec<Remark<'a>>,
) -> Result<(), AllocError>
    requires { AreBlank tables.old }
    ensures { OnOk result (remarks.new.items ≡ remarks.old.items
        ++ spec.remarks_by (declared_at sources.entry.uses.now)
        (given_in sources.entry.macros.now) (program_view program.now) touches.now) }
{
    note_all(sources.alloc, program, touches, sources.uses, tables)?;
    push_remarks(touches, tables, sources, remarks)?;
    Ok(())
}

/// Adds what is remarked, by tables of its own.
fn push_by_tables<'a>(
    program: &Program<'a>,
    touches: &[Touch<'a>],
    sources: Sources,
    remarks: &mut Vec<Remark<'a>>,
) -> Result<(), AllocError>
    ensures { OnOk result (remarks.new.items ≡ remarks.old.items
        ++ spec.remarks_by (declared_at sources.entry.uses.now)
        (given_in sources.entry.macros.now) (program_view program.now) touches.now) }
{
    let mut tables = Tables::new(sources.alloc);
    let pushed = push_all(program, touches, sources, &mut tables, remarks);
    drop(tables);
    pushed
}

/// What the lints remark, by the macros of a program and a call.
fn remarks_by<'a>(program: &Program<'a>, sources: Sources) -> Result<Vec<Remark<'a>>, AllocError>
    ensures { IfOk result (λ remarks. remarks.items
        ≡ spec.remarks_by (declared_at sources.entry.uses.now) (given_in sources.entry.macros.now)
        (program_view program.now)
        (touches (declared_at sources.entry.uses.now) (program_view program.now))) }
{
    let touches = touches_of(sources.alloc, program, sources.uses)?;
    let mut remarks = Vec::new(sources.alloc);
    push_by_tables(program, touches.as_slice(), sources, &mut remarks)?;
    Ok(remarks)
}

/// A text that may be missing, without its quotes.
fn spelled(text: Option<Token<'_>>) -> &[u8]
    ensures { result.now ≡ spelled text.entry }
{
    match text {
        Some(text) => unquoted(text.text),
        None => b"",
    }
}

/// What the lints remark on a program, in the order of the source (docs/tools/check.md has the lints).
///
/// `uses` is the table of the program's names; the macros of the call come behind those of the program's own text, as in a run. What
/// is remarked on a program that the check refuses may follow from what is wrong there. The only error is that memory ends.
pub fn remarks_of<'a>(
    alloc: Global,
    program: &Program<'a>,
    uses: &UseTable,
    macros: &Macros,
) -> Result<Vec<Remark<'a>>, AllocError>
    requires { IsTableOf uses.now (program_view program.now) }
    ensures { IfOk result (λ remarks. remarks.items
        ≡ spec.remarks_of (program_view program.now) macros.now.text.now) }
{
    let table = MacroTable::of(alloc, spelled(program.macros), macros.text)?;
    let remarks = remarks_by(
        program,
        Sources {
            alloc,
            uses,
            macros: &table,
        },
    )?;
    Ok(remarks)
}
