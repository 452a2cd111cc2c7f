//! Sections of docs: the lints. scripts/pages makes this file.

/// `shared`
const SHARED: &str = "\
### `shared`

A variable that state set A sets and state set B reads. Each state set has a copy of its own, so that B goes on with the value that it
had: `'runs' is set in one state set and read in another`. Put an event flag in its place, or assign it to a channel that both monitor.
";

/// `stale`
const STALE: &str = "\
### `stale`

A variable of a channel that is read, and never gets a value of that channel: it stays what it was at the start. Add `monitor NAME;`, or a
`pvGet` in front of where it is read.
";

/// `unput`
const UNPUT: &str = "\
### `unput`

A variable of a channel that is set, and whose value never leaves the program. Add `pvPut(NAME);` behind what sets it.
";

/// `unread`
const UNREAD: &str = "\
### `unread`

A `monitor` of a variable that nothing reads, and that sets no event flag: the program waits at its start for a channel that it does not
need. Take the `monitor` out, or read the variable.
";

/// `answered`
const ANSWERED: &str = "\
### `answered`

`pvPutComplete(NAME)` where no put of NAME has `ASYNC`. Such a put is answered at once, so the condition is always 1 and waits for nothing.
Write `pvPut(NAME, ASYNC);`.
";

/// `macro`
const MACRO: &str = "\
### `macro`

A macro in the name of a channel that nothing gives a value, as `{P}` in `assign x to \"{P}VOLT\";` where the program is `program p` and the
call has no MACROS. Nothing stands in its place, so that the channel is `VOLT`. Name a value in the program, `program p(\"P=LAB:\")`, or in the
call: `snl check --macros P=LAB: FILE`, `snlrun FILE P=LAB: < TRACE`. A value that is empty is one: `P=`. A `{` without a `}` behind it stays
in the name.
";

/// `unspoken`
const UNSPOKEN: &str = "\
### `unspoken`

A channel that no line of a trace can name, so that it is never up and never has a value: a name with a blank, as `\"TANK LEVEL\"`, with a byte that
is no printable ASCII, or with more than 32,763 bytes. Write the name of the channel as the control system has it. Where nothing is left
of a name there is no channel, and the lint says nothing.
";

/// `constant`
const CONSTANT: &str = "\
### `constant`

What goes wrong whenever it is computed, whatever the values of the channels are: an operator that faults by its constants, as in `1 << 64` and
`x / 0`; `x = 300` where x is a `char`; `a[3]` of `int a[3]`. Where the run comes to it, it ends with a fault (docs/LANGUAGE.md, \"Faults\"):
`overflow`, `division by zero`, `bad shift count`, `value does not fit`, `subscript out of range`. Mend the number, or give the variable a wider type. A part that is
never computed, as the right one of `0 && 1 / 0`, has the remark too. Arguments of a call and what a function returns are not compared with their types.
";

/// `equals`
const EQUALS: &str = "\
### `equals`

A condition that is an assignment, as in `when (x = 1)`: it sets x, and is true where the value is not 0. `==` compares; `when ((x = 1))`
says that the assignment is meant.
";

/// `comma`
const COMMA: &str = "\
### `comma`

A condition `a, b`: a is computed and decides nothing. Write `a && b`; where a decimal number was meant, it has a point, and only
`delay` takes one.
";

/// `itself`
const ITSELF: &str = "\
### `itself`

A clause that leads from a state back to the same state, which has an `entry` or `exit` block. That is no transition out of the state, so the
block is not done again: a put in `entry` does not come again. `option -e;` in the state does the `entry` block each time, `option -x;` the
`exit` block.
";

/// The section of a name, where it is one of these.
pub(crate) fn page_of(name: &str) -> Option<&'static str> {
    match name {
        "shared" => Some(SHARED),
        "stale" => Some(STALE),
        "unput" => Some(UNPUT),
        "unread" => Some(UNREAD),
        "answered" => Some(ANSWERED),
        "macro" => Some(MACRO),
        "unspoken" => Some(UNSPOKEN),
        "constant" => Some(CONSTANT),
        "equals" => Some(EQUALS),
        "comma" => Some(COMMA),
        "itself" => Some(ITSELF),
        _ => None,
    }
}
