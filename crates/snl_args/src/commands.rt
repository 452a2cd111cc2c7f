//! What the words take that run a program over a trace, look at one or search.

use crate::arguments::{Argument, Number, Takes, argument_list};

/// What `waits` takes alone.
pub(crate) const OF_WAITS: [Argument; 1] = argument_list! {
    "units": Takes::Text("FILE"), "A file of units, as snl-port writes it: where those of the trace differ is told";
};

/// What `run` takes alone.
pub(crate) const OF_RUN: [Argument; 4] = argument_list! {
    "whole": Takes::Nothing, "Fold no blocks of lines that repeat";
    "watch": Takes::Text("W"), "The file of a requirement: a program that hears inputs, puts and states";
    "never": Takes::Texts("SS.STATE"), "A state that the requirement may not come into; several add up";
    "units": Takes::Text("FILE"), "A file of units, as snl-port writes it: notes show values in these";
};

/// What `cover` takes alone.
pub(crate) const OF_COVER: [Argument; 6] = argument_list! {
    "fail-under": Takes::Percent, "End with status 1 where less of the clauses was taken";
    "trace": Takes::Texts("FILE"), "A trace, in the place of standard input; several add up";
    "trace-list": Takes::Text("LIST"), "A file that names traces, a path a line; - for standard input";
    "add": Takes::Texts("FILE"), "The counts that another call wrote; several add up";
    "add-list": Takes::Text("LIST"), "A file that names such files, a path a line; - for standard input";
    "counts": Takes::Text("FILE"), "The file that the counts go to";
};

/// What `graph` takes alone.
pub(crate) const OF_GRAPH: [Argument; 2] = argument_list! {
    "no-trace": Takes::Nothing, "Read no trace, and tell no counts";
    "counts": Takes::Texts("FILE"), "The counts that snl cover wrote, in the place of a trace; several add up";
};

/// What `sets` takes alone.
pub(crate) const OF_SETS: [Argument; 1] = argument_list! {
    "declare": Takes::Nothing, "Write declarations: int SET_STATE = NUMBER;";
};

/// What `search` takes in front of what each search takes.
pub(crate) const OF_RULES: [Argument; 2] = argument_list! {
    "never": Takes::Texts("LINE|SS.STATE"), "A line that the output may not have, or a state that may not be entered";
    "never-end": Takes::Texts("TEXT"), "What no output line may end with, compared as bytes";
};

/// What each search takes.
pub(crate) const OF_SEARCH: [Argument; 12] = argument_list! {
    "like": Takes::Text("TRACE"), "A recorded trace, whose values take the place of those of the source";
    "values": Takes::Texts("NAME=V,V.."), "The values of a channel, in the place of those of the source";
    "first": Takes::Texts("NAME=V"), "Its value at the start";
    "units": Takes::Text("FILE"), "A file of units, as snl-port writes it: the values of these options are in it";
    "gaps": Takes::Texts("MS,MS..|all"), "Times between lines, in the place of 0; the next wake is one more, with all for ticks alone";
    "down": Takes::Texts("NAME"), "A channel that can go down and up";
    "lines": Takes::Number(Number { value: "K", least: 1, usual: "4" }), "How many lines behind the start";
    "worlds": Takes::Number(Number { value: "N", least: 1, usual: "1000000" }), "How many worlds are kept";
    "memory": Takes::Number(Number { value: "MB", least: 1, usual: "2000" }), "How many million bytes they take";
    "seconds": Takes::Number(Number { value: "S", least: 1, usual: "60" }), "How many seconds the search takes";
    "budget": Takes::Number(Number { value: "N", least: 1, usual: "300" }), "The ticks of an instant in the search";
    "out": Takes::Text("FILE"), "Where the trace of what was found goes";
};

/// What `search` takes of a recorded day.
pub(crate) const OF_DAY: [Argument; 3] = argument_list! {
    "after": Takes::Text("TRACE"), "A recorded trace: each start has the first of its lines, in the place of first values";
    "every": Takes::Text("N"), "A start after each Nth line of it; without this after each line";
    "at": Takes::Text("MS,MS.."), "A start at each of these times of it, all wakes up to then done";
};

/// What `search` takes behind it.
pub(crate) const OF_ANSWERS: [Argument; 3] = argument_list! {
    "cover": Takes::Text("DIR"), "The folder of traces that take the clauses, each a shortest one";
    "watch": Takes::Text("W"), "The file of a requirement: --never names a state of it, SS.STATE";
    "part": Takes::Text("I/N"), "Go over each Nth start from the Ith on: one of N jobs";
};
