//! A line for each state of a program.

ghost use Rattle.std.specs.Prelude.{◌≡◌, ◌∷◌, ◌++◌, [], codes, decimal, map, IfOk, OnOk};
ghost use Rattle.std.specs.List.{concat};
ghost use Rattle.snl_syntax.specs.view.Programs.{program_view, state_set_view};
ghost use Rattle.snl_outline.specs.Outline as spec;

use itoa::Buffer;
use snl_syntax::{Program, StateSet};
use snl_text::Token;
use std::alloc::{AllocError, Global};

/// What the line of a state says.
#[derive(Clone, Copy)]
pub enum OutlineForm {
    /// `SET NUMBER STATE line LINE`.
    Numbers,
    /// `int SET_STATE = NUMBER;`, a declaration for another program.
    Declarations,
}

/// Adds pieces, one behind the other.
fn push_all(pieces: &[&[u8]], out: &mut Vec<u8>) -> Result<(), AllocError>
    ensures { OnOk result (out.new.items
        ≡ out.old.items ++ concat (map (λ piece. piece.now) pieces.now)) }
{
    for piece in pieces {
        out.extend_from_slice(piece)?;
    }
    Ok(())
}

/// Adds `SET NUMBER STATE line LINE`.
fn push_numbers<'t>(
    set: &'t [u8],
    number: usize,
    state: &'t [u8],
    line: usize,
    out: &mut Vec<u8>,
) -> Result<(), AllocError>
    ensures { OnOk result (out.new.items ≡ out.old.items
        ++ spec.numbers_line set.now number state.now line) }
{
    let mut number_digits = Buffer::new();
    let mut line_digits = Buffer::new();
    let number = number_digits.format(number).as_bytes();
    let line = line_digits.format(line).as_bytes();
    push_all(
        &[set, b" ", number, b" ", state, b" line ", line, b"\n"],
        out,
    )
}

/// Adds `int SET_STATE = NUMBER;`.
fn push_declaration<'t>(
    set: &'t [u8],
    number: usize,
    state: &'t [u8],
    out: &mut Vec<u8>,
) -> Result<(), AllocError>
    ensures { OnOk result (out.new.items ≡ out.old.items
        ++ spec.declaration_line set.now number state.now) }
{
    let mut digits = Buffer::new();
    let number = digits.format(number).as_bytes();
    push_all(&[b"int ", set, b"_", state, b" = ", number, b";\n"], out)
}

/// Adds the line of a state.
fn push_state<'a>(
    set: Token<'a>,
    number: usize,
    state: Token<'a>,
    form: OutlineForm,
    out: &mut Vec<u8>,
) -> Result<(), AllocError>
    ensures { OnOk result (out.new.items ≡ out.old.items
        ++ spec.state_line form set.entry.text.now number state.entry) }
{
    match form {
        OutlineForm::Numbers => push_numbers(
            set.text,
            number,
            state.text,
            state.pos.line as usize,
            out,
        ),
        OutlineForm::Declarations => push_declaration(set.text, number, state.text, out),
    }
}

/// Adds the lines of a state set.
fn push_set(set: &StateSet, form: OutlineForm, out: &mut Vec<u8>) -> Result<(), AllocError>
    ensures { OnOk result (out.new.items ≡ out.old.items
        ++ spec.set_text form (state_set_view set.now)) }
{
    for (number, state) in set.states.as_slice().iter().enumerate() {
        push_state(set.name, number, state.name, form, out)?;
    }
    Ok(())
}

/// Adds the lines of state sets.
fn push_sets(sets: &[StateSet], form: OutlineForm, out: &mut Vec<u8>) -> Result<(), AllocError>
    ensures { OnOk result (out.new.items ≡ out.old.items
        ++ spec.sets_text form (map state_set_view sets.now)) }
{
    for set in sets {
        push_set(set, form, out)?;
    }
    Ok(())
}

/// A line for each state of a program, state set by state set, in the order of the source (SNL Reference, "State Set").
///
/// The states of a state set have the numbers from 0 on; the first is the initial one. The line of a state is that of its name, from
/// 1 on. The only error is that memory ends.
pub fn outline_text<'a>(
    alloc: Global,
    program: &Program<'a>,
    form: OutlineForm,
) -> Result<Vec<u8>, AllocError>
    ensures { IfOk result (λ text. text.items ≡ spec.outline form (program_view program.now)) }
{
    let mut out = Vec::new(alloc);
    push_sets(program.state_sets.as_slice(), form, &mut out)?;
    Ok(out)
}
