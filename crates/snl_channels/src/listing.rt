//! The tables of a program as text: its links, its state sets, their states and clauses.

ghost use Rattle.std.specs.Prelude.{◌≡◌, ◌++◌, map, codes, OnOk, OnErr};
ghost use Rattle.std.specs.List.{flat_map};
ghost use Rattle.snl_syntax.specs.view.Programs.{target_view, clause_view, state_view, state_set_view, program_view};
ghost use Rattle.snl_channels.specs.Appended.{Begun};
ghost use Rattle.snl_channels.specs.Tables as spec;

use crate::appending::put_pieces;
use crate::channels::spelled;
use crate::ties::{Named, Tie, ties_of};
use itoa::Buffer;
use snl_resolve::sign_in_force;
use snl_syntax::{Clause, Program, State, StateSet, Target};
use std::alloc::{AllocError, Global};

/// The name of an event flag, or `-`.
fn flag_word<'a>(flag: Option<Named<'a>>) -> &'a [u8]
    ensures { result.now ≡ spec.flag_word flag.entry }
{
    match flag {
        Some(flag) => flag.name,
        None => b"-",
    }
}

fn monitor_word(monitored: bool) -> &'static [u8]
    ensures { result.now ≡ spec.monitor_word monitored }
{
    if monitored { b"monitor" } else { b"-" }
}

fn sign_word(on: bool) -> &'static [u8]
    ensures { result.now ≡ spec.sign_word on }
{
    if on { b"+" } else { b"-" }
}

/// Appends a word, a name and a newline.
fn put_name<'t>(word: &'t [u8], name: &'t [u8], out: &mut Vec<u8>) -> Result<(), AllocError>
    ensures whole { OnOk result (out.new.items
        ≡ out.old.items ++ spec.name_line word.now name.now) }
    ensures begun { OnErr result (Begun out.old.items out.new.items
        (spec.name_line word.now name.now)) }
{
    put_pieces(&[word, name, b"\n"], out)
}

/// Appends the beginning of the line of a link: its elements.
fn put_elements<'t>(
    name: &'t [u8],
    first: usize,
    count: usize,
    out: &mut Vec<u8>,
) -> Result<(), AllocError>
    ensures whole { OnOk result (out.new.items
        ≡ out.old.items ++ spec.elements_words name.now first count) }
    ensures begun { OnErr result (Begun out.old.items out.new.items
        (spec.elements_words name.now first count)) }
{
    let mut first_buffer = Buffer::new();
    let mut count_buffer = Buffer::new();
    let first = first_buffer.format(first).as_bytes();
    let count = count_buffer.format(count).as_bytes();
    put_pieces(&[b"channel ", name, b" ", first, b" ", count], out)
}

/// Appends the rest of the line of a link: its channel, and what is said of it.
fn put_said<'t>(
    channel: &'t [u8],
    monitor: &'t [u8],
    flag: &'t [u8],
    queue: u64,
    out: &mut Vec<u8>,
) -> Result<(), AllocError>
    ensures whole { OnOk result (out.new.items
        ≡ out.old.items ++ spec.said_words channel.now monitor.now flag.now queue) }
    ensures begun { OnErr result (Begun out.old.items out.new.items
        (spec.said_words channel.now monitor.now flag.now queue)) }
{
    let mut buffer = Buffer::new();
    let queue = buffer.format(queue).as_bytes();
    put_pieces(
        &[
            b" \"", channel, b"\" ", monitor, b" ", flag, b" ", queue, b"\n",
        ],
        out,
    )
}

/// Appends the line of a link.
fn put_channel(tie: &Tie, out: &mut Vec<u8>) -> Result<(), AllocError>
    ensures whole { OnOk result (out.new.items ≡ out.old.items ++ spec.channel_line tie.now) }
    ensures begun { OnErr result (Begun out.old.items out.new.items (spec.channel_line tie.now)) }
{
    let channel = spelled(tie.channel);
    let monitor = monitor_word(tie.monitored);
    let flag = flag_word(tie.flag);
    put_elements(tie.variable.name, tie.first, tie.count, out)?;
    put_said(channel, monitor, flag, tie.queue, out)?;
    Ok(())
}

/// Appends the lines of links.
fn put_channels(ties: &[Tie], out: &mut Vec<u8>) -> Result<(), AllocError>
    ensures whole { OnOk result (out.new.items
        ≡ out.old.items ++ flat_map spec.channel_line ties.now) }
    ensures begun { OnErr result (Begun out.old.items out.new.items
        (flat_map spec.channel_line ties.now)) }
{
    for tie in ties {
        put_channel(tie, out)?;
    }
    Ok(())
}

/// Appends the line of a state with these signs.
fn put_options<'t>(
    name: &'t [u8],
    t: &'t [u8],
    e: &'t [u8],
    x: &'t [u8],
    out: &mut Vec<u8>,
) -> Result<(), AllocError>
    ensures whole { OnOk result (out.new.items
        ≡ out.old.items ++ spec.options_line name.now t.now e.now x.now) }
    ensures begun { OnErr result (Begun out.old.items out.new.items
        (spec.options_line name.now t.now e.now x.now)) }
{
    put_pieces(&[b"state ", name, b" ", t, b"t", e, b"e", x, b"x\n"], out)
}

/// Appends the line of a state.
fn put_state_line(state: &State, out: &mut Vec<u8>) -> Result<(), AllocError>
    ensures whole { OnOk result (out.new.items
        ≡ out.old.items ++ spec.state_line (state_view state.now)) }
    ensures begun { OnErr result (Begun out.old.items out.new.items
        (spec.state_line (state_view state.now))) }
{
    let definitions = state.definitions.as_slice();
    let t = sign_word(sign_in_force(b't', definitions));
    let e = sign_word(sign_in_force(b'e', definitions));
    let x = sign_word(sign_in_force(b'x', definitions));
    put_options(state.name.text, t, e, x, out)
}

/// Appends the line of the clause of a number, from 1 on.
fn put_when(number: usize, target: Target, out: &mut Vec<u8>) -> Result<(), AllocError>
    ensures whole { OnOk result (out.new.items
        ≡ out.old.items ++ spec.when_line number (target_view target.entry)) }
    ensures begun { OnErr result (Begun out.old.items out.new.items
        (spec.when_line number (target_view target.entry))) }
{
    let mut buffer = Buffer::new();
    let number = buffer.format(number).as_bytes();
    match target {
        Target::State(name) => {
            put_pieces(&[b"when ", number, b" state ", name.text, b"\n"], out)
        }
        Target::Exit => put_pieces(&[b"when ", number, b" exit\n"], out),
    }
}

/// Appends the lines of the clauses of a state.
fn put_clauses(clauses: &[Clause], out: &mut Vec<u8>) -> Result<(), AllocError>
    ensures whole { OnOk result (out.new.items
        ≡ out.old.items ++ spec.clause_lines 0 (map clause_view clauses.now)) }
    ensures begun { OnErr result (Begun out.old.items out.new.items
        (spec.clause_lines 0 (map clause_view clauses.now))) }
{
    for (index, clause) in clauses.iter().enumerate() {
        put_when(index + 1, clause.target, out)?;
    }
    Ok(())
}

/// Appends the lines of a state and its clauses.
fn put_state(state: &State, out: &mut Vec<u8>) -> Result<(), AllocError>
    ensures whole { OnOk result (out.new.items
        ≡ out.old.items ++ spec.state_lines (state_view state.now)) }
    ensures begun { OnErr result (Begun out.old.items out.new.items
        (spec.state_lines (state_view state.now))) }
{
    put_state_line(state, out)?;
    put_clauses(state.clauses.as_slice(), out)?;
    Ok(())
}

/// Appends the lines of states.
fn put_states(states: &[State], out: &mut Vec<u8>) -> Result<(), AllocError>
    ensures whole { OnOk result (out.new.items
        ≡ out.old.items ++ flat_map spec.state_lines (map state_view states.now)) }
    ensures begun { OnErr result (Begun out.old.items out.new.items
        (flat_map spec.state_lines (map state_view states.now))) }
{
    for state in states {
        put_state(state, out)?;
    }
    Ok(())
}

/// Appends the lines of a state set and its states.
fn put_set(set: &StateSet, out: &mut Vec<u8>) -> Result<(), AllocError>
    ensures whole { OnOk result (out.new.items
        ≡ out.old.items ++ spec.set_lines (state_set_view set.now)) }
    ensures begun { OnErr result (Begun out.old.items out.new.items
        (spec.set_lines (state_set_view set.now))) }
{
    put_name(b"ss ", set.name.text, out)?;
    put_states(set.states.as_slice(), out)?;
    Ok(())
}

/// Appends the lines of state sets.
fn put_sets(sets: &[StateSet], out: &mut Vec<u8>) -> Result<(), AllocError>
    ensures whole { OnOk result (out.new.items
        ≡ out.old.items ++ flat_map spec.set_lines (map state_set_view sets.now)) }
    ensures begun { OnErr result (Begun out.old.items out.new.items
        (flat_map spec.set_lines (map state_set_view sets.now))) }
{
    for set in sets {
        put_set(set, out)?;
    }
    Ok(())
}

/// Appends the tables of a program as text, line by line: `program PROG`, `channel VAR FIRST COUNT "NAME" MON
/// FLAG QUEUE` for each link, then `ss SS`, `state STATE OPTIONS` and `when K state TARGET` or `when K exit`. The names of channels stand as spelled, before macros.
/// The only error is that memory ends: a beginning of the text was appended then.
pub fn tables_of(alloc: Global, program: &Program, out: &mut Vec<u8>) -> Result<(), AllocError>
    ensures whole { OnOk result (out.new.items
        ≡ out.old.items ++ spec.tables (program_view program.now)) }
    ensures begun { OnErr result (Begun out.old.items out.new.items
        (spec.tables (program_view program.now))) }
{
    let ties = ties_of(alloc, program)?;
    put_name(b"program ", program.name.text, out)?;
    put_channels(ties.as_slice(), out)?;
    put_sets(program.state_sets.as_slice(), out)?;
    Ok(())
}
