//! What is told of the words.

/// What the help of a word tells, beside its arguments.
pub(crate) struct Texts {
    /// The call.
    pub usage: &'static str,
    /// What the word does, in front of the arguments.
    pub about: &'static str,
    /// What stands behind them.
    pub more: &'static str,
}

/// What the words do, in groups.
pub(crate) static WORDS: &str = "\
Usage: snl [+X|-X].. WORD [OPTIONS] ..

Look:
  check   The messages about a program, and what in it is seldom meant
  explain The section of the manual about a message or a lint
  waits   When a program begins over a trace, or what it still waits for
  cover   What of a program no run showed: clauses, states, channels
  graph   A picture of a program, for Graphviz
  tree    The tree of a program as JSON, for scripts
  sets    The state sets of a program and their states, with numbers and lines

Record:
  trace   Recorded logs of channels as a trace: camonitor, CSV, JSON, exports

Run:
  run     A run with notes on what fired and why, blocks that repeat folded, and a summary
  at      The state of a program at a time of a trace, and what its clauses wait for
  same    Where two programs differ over a trace, or over any
  test    Programs beside recorded traces and the outputs that are wanted

Search:
  search  Traces over a small alphabet, the shortest first, for what must not happen
";

/// What `snl --help` tells in front of the words.
pub(crate) static ABOUT: &str = "\
The companion of snc and snlrun: what goes round a dry run of a program in the State Notation Language.
";

/// What `snl --help` tells behind the words.
pub(crate) static MORE: &str = "\
snl WORD --help tells what a word takes, with an example, and snl --version the version.

Options of the language: a sign and letters, as +u (more warnings) or -w (no warnings).

Status: 0 done, 1 no: the program has errors, or the answer of the word is no, 2 the words of
the call are wrong, 3 the file, the input or the output failed, 4 memory ran out,
5 the program faulted, 6 a line of the trace is bad, 7 a bound stopped a search.

Licence: Apache-2.0
";

/// What `snl waits --help` tells.
pub(crate) const WAITS: Texts = Texts {
    usage: "snl waits [±X..] [--budget N] [--progress] [--units FILE] FILE [MACROS] < TRACE",
    about: "\
When a program begins over a trace, or what it still waits for where the trace ends: channels that
are not up or have no value, and names in the trace that the program does not have.",
    more: "\
The trace is read from standard input, up to the line at which the program begins.

With --units, what its first comments say of its numbers is compared with FILE, and what differs is told.

Example: snl waits light.st < light.trace

Status: 0 the program began, 1 it did not, or it has errors, or the units differ, 2 the words of the call are wrong,
3 a file, the input or the output failed, 4 memory ran out, 6 a line of the trace is bad.",
};

/// What `snl run --help` tells.
pub(crate) const RUN: Texts = Texts {
    usage: "snl run [±X..] [--whole] [--watch W [--never SS.STATE]..] [--budget N] [--progress] [--units FILE] FILE [MACROS] < TRACE",
    about: "\
The lines that snlrun writes, with notes between them: which clause fired and what its condition saw,
which put was refused and why. A block of lines that repeats is written once. A summary ends it.",
    more: "\
The trace is read from standard input. A line that begins with # is a note; with --whole, all others are the
lines of snlrun, byte for byte. Where the first comments of the trace tell the date of 0 ms, notes have the time of day.

With --units, notes show values as what they stand for. What these comments say of the numbers is compared with FILE:
what differs is told behind the run.

With --watch a requirement hears the trace, each put and each state of the program (docs/tools/requirements.md), and
what it writes stands beside, each line with '# watch ' in front. Where it comes into a state of --never, the run ends there.

Example: snl run light.st < light.trace
         snl run --watch short.st --never lamp.late light.st < light.trace

Status: 0 the trace or the program ended, 1 a program has errors, the units differ, or a state of --never came to be, 2 the
words of the call are wrong, 3 a file, the input or the output failed, 4 memory ran out, 5 the program faulted, or the
requirement made a mistake, 6 a line of the trace is bad.",
};

/// What `snl cover --help` tells.
pub(crate) const COVER: Texts = Texts {
    usage: "snl cover [±X..] [--budget N] [--progress] [--fail-under PERCENT] [--trace FILE].. [--trace-list LIST] [--add FILE].. \
     [--add-list LIST] [--counts FILE] FILE [MACROS] [< TRACE]",
    about: "\
What of a program no run showed: clauses that were never taken, states that were never entered, and
channels that a pvPut names and that were never put to; and a last line with the sums.",
    more: "\
Each trace is a run from the start, and their counts add up. With none of --trace, --trace-list, --add and
--add-list the trace is read from standard input.

With --counts the counts go to a file, which another call adds to its own by --add: those of the same program, macros,
options and budget, by the same version of snl. Other files are refused.

Example: snl cover --fail-under 80 --trace monday.trace --trace tuesday.trace pump.st
         snl cover --add monday.cov --add tuesday.cov pump.st

Status: 0 done, 1 less of the clauses was taken than --fail-under asks, or the program has errors,
2 the words of the call are wrong, 3 a file, the input or the output failed, 4 memory ran out,
5 the program faulted, 6 a line of a trace is bad.",
};

/// What `snl graph --help` tells.
pub(crate) const GRAPH: Texts = Texts {
    usage: "snl graph [±X..] [--budget N] [--progress] [--no-trace] [--counts FILE].. FILE [MACROS] [< TRACE]",
    about: "\
A picture of a program, for dot of Graphviz: its states and the clauses that lead from one to another,
with how often each was taken. What was never taken is red and dashed.",
    more: "\
The trace is read from standard input, but with --no-trace, and with --counts: then the counts are those of the runs
that wrote such files.

Example: snl graph light.st < light.trace | dot -Tsvg > light.svg
         snl graph --counts monday.cov light.st | dot -Tsvg > monday.svg

Status: 0 done, 1 the program has errors, 2 the words of the call are wrong, 3 the file, the input or
the output failed, 4 memory ran out, 5 the program faulted, 6 a line of the trace is bad.",
};

/// What `snl tree --help` tells.
pub(crate) const TREE: Texts = Texts {
    usage: "snl tree [±X..] FILE [MACROS]",
    about: "\
The tree of a program as JSON: a list of rows, of which each is a form with its parts and the last one is the
program. docs/tools/tree.md tells what stands in a row.",
    more: "\
No trace is read. MACROS change nothing.

Example: snl tree light.st > light.json

Status: 0 done, 1 the program has errors, 2 the words of the call are wrong, 3 the file or the output failed,
4 memory ran out.",
};

/// What `snl sets --help` tells.
pub(crate) const SETS: Texts = Texts {
    usage: "snl sets [±X..] [--declare] FILE [MACROS]",
    about: "\
A line for each state of a program, in the order of the source: its state set, its number there, its name, and the
line of its name. With --declare a line int SET_STATE = NUMBER; for another program that speaks of these states.",
    more: "\
No trace is read. MACROS change nothing.

Example: snl sets light.st

Status: 0 done, 1 the program has errors, 2 the words of the call are wrong, 3 the file or the output failed,
4 memory ran out.",
};

/// What `snl check --help` tells.
pub(crate) const CHECK: Texts = Texts {
    usage: "snl check [±X..] [--macros MACROS] [--format text|gcc|json] [--no-lint NAME|NAME=LINE].. [--strict] FILE..",
    about: "\
The messages of snc about a program, and behind them what in it is no error and seldom meant, a line each, with the
name of the lint in brackets.",
    more: "\
No trace is read. The lints are itself, shared, stale, unread, unput, equals, comma, answered, macro, unspoken and
constant; docs/tools/check.md tells of each.

Example: snl check --no-lint unread light.st

Status: 0 done, 1 the program has errors, or with --strict a lint says something, 2 the words of the call are wrong,
3 the file or the output failed, 4 memory ran out.",
};

/// What `snl explain --help` tells.
pub(crate) const EXPLAIN: Texts = Texts {
    usage: "snl explain NAME",
    about: "\
The section of the manual about a message or a lint: when it comes, an example, and what to do.",
    more: "\
No file is read. snl check writes the numbers and the names.

Example: snl explain E20

Status: 0 done, 2 there is no such message or lint, 3 the output failed, 4 memory ran out.",
};

/// What `snl same --help` tells.
pub(crate) const SAME: Texts = Texts {
    usage: "snl same [±X..] [--but CHANNEL].. [--puts] [--whole] [--budget N] [--progress] OLD NEW [MACROS] < TRACE",
    about: "\
Where two programs differ first over a trace: the line of the trace, the lines that they write there, the
clauses that fired last and the states; then how it goes on.",
    more: "\
The trace is read from standard input. Options of the language, MACROS and --budget are those of both.
With --search they are compared over every trace over a small alphabet: snl same --search --help.

Example: snl same --puts light.st light-new.st < light.trace

Status: 0 they are the same, 1 they differ, or a program has errors, 2 the words of the call are wrong,
3 a file, the input or the output failed, 4 memory ran out, 5 both faulted alike, 6 a line of the trace is bad.",
};

/// What `snl same --search --help` tells.
pub(crate) const SAME_SEARCH: Texts = Texts {
    usage: "snl same --search [±X..] [--but CHANNEL].. [--puts] [--like TRACE] [--values NAME=V,V..].. [--first NAME=V].. [--units FILE] \
     [--gaps MS,MS..|all] [--down NAME].. [--lines K] [--worlds N] [--memory MB] [--seconds S] [--budget N] [--out FILE] OLD NEW [MACROS]",
    about: "\
Every trace over a small alphabet, the shortest first, for one over which two programs differ: in the lines that they write
at a line of the trace, or in how they end there. The values come from the constants of both sources.",
    more: "\
The first lines of the answer tell the starts and the alphabet. Behind a difference stand the lines of a shortest trace that leads
there, and what snl same tells over it. Options of the language and MACROS are those of both.

Example: snl same --search --puts light.st light-new.st

Status: 0 they are the same, up to so many lines or whatever the length, 1 they differ, or a program has errors, 2 the words of
the call are wrong, 3 a file or the output failed, 4 memory ran out, 6 a line of TRACE is bad, 7 a bound stopped it, or neither
program can begin, or no line can come behind the start.",
};

/// What `snl at --help` tells.
pub(crate) const AT: Texts = Texts {
    usage: "snl at [±X..] MS[,MS]..|--trip|--into SS.STATE [--budget N] [--progress] FILE [MACROS] < TRACE",
    about: "\
What a program is at a time of a trace: its states and since when, what each of their clauses waits for, its variables, event
flags, queues, channels and last puts. All lines up to that time were done, and all delays that end by then.",
    more: "\
The trace is read from standard input, and no further than the last time. With --trip it is told where the program faults,
with --into where it came last into a state, in the place of times.

Example: snl at 4100,5200 light.st < light.trace
         snl at --into room.lit light.st < light.trace

Status: 0 told, 1 there is no fault, or no way into the state, or the program has errors, 2 the words of the call are wrong,
3 the file, the input or the output failed, 4 memory ran out, 5 the program faulted before a time, 6 a line of the trace is bad.",
};

/// What `snl test --help` tells.
pub(crate) const TEST: Texts = Texts {
    usage: "snl test [±X..] [--junit FILE] [--bless [--force]] PATH..",
    about: "\
Programs as test suites: of each NAME.st the run over NAME.trace has to write what NAME.out has, and the runs over
NAME-DAY.trace what NAME-DAY.out has. A line for each test, and behind one that failed the first difference.",
    more: "\
NAME.args has further words of the call, one a line, and NAME.status or NAME-DAY.status the exit status that is
wanted, if not 0. A program without any trace runs over an empty one.

With --bless, what came is written as what is wanted: what changed is told.

Example: snl test --junit report.xml programs

Status: 0 each test is right, 1 one is not, 2 the words of the call are wrong, or a PATH has no test, 3 a file or the
output failed, 4 memory ran out.",
};

/// What `snl search --help` tells.
pub(crate) const SEARCH: Texts = Texts {
    usage: "snl search [±X..] [--watch W] [--never LINE|SS.STATE].. [--never-end TEXT].. [--like TRACE] [--after TRACE [--every N|--at MS,MS..]] [--values NAME=V,V..].. \
     [--first NAME=V].. [--units FILE] [--gaps MS,MS..|all] [--down NAME].. [--lines K] [--worlds N] [--memory MB] [--seconds S] [--budget N] [--out FILE] [--cover DIR] \
     [--part I/N] FILE [MACROS]",
    about: "\
Every trace over a small alphabet, the shortest first, for a fault of the program and for output lines that must
not come. The values come from the constants of the source. A note tells of each channel that is put twice at one
time with other values.",
    more: "\
The first lines of the answer tell what is looked for, the starts and the alphabet. The lines of a trace stand behind what was
found.

With --units FILE a value of --never, --values and --first is one of the control system, as 2.5 or On: it is scaled exactly, and
one that is no whole number of a trace then is refused. The answer has the numbers of a trace.

With --watch W each trace runs beside the requirement W, as in snl run --watch, and --never names a state of W that may not come to be.

With --after TRACE the search starts in a recorded day: each start has the first lines of TRACE, in the place of first values.
There is one after each line, with --every N after each Nth, with --at MS,MS.. at these times.

With --part I/N the search goes over each Nth start alone, from the Ith on, and says so: N jobs share it, and
snl search --join ANSWER.. joins their answers.

Example: snl search --never 'put LAB:LAMP 1' light.st

Status: 0 no such trace does what must not happen, 1 something was found, or the program has errors, 2 the words of
the call are wrong, 3 a file or the output failed, 4 memory ran out, 6 a line of TRACE is bad, 7 a bound stopped it, or the
program cannot begin, or no line can come behind the start.",
};

/// What `snl search --join --help` tells.
pub(crate) const JOIN: Texts = Texts {
    usage: "snl search --join ANSWER..",
    about: "\
The answers of the jobs that went over the parts of one search, joined: of how long traces all of them say that none does what must
not happen.",
    more: "\
The answers are taken as they stand: what is told is their sum, and no proof. Each part has to be there, of the same program, words,
values and version.

Example: snl search --join part1.txt part2.txt part3.txt

Status: 0 no such trace does what must not happen, 1 something was found, 2 the words of the call are wrong, 3 a file is no
answer of a part, or one of another search, or a file or the output failed, 4 memory ran out, 7 a part is missing, or a
bound stopped one.",
};

/// What `snl trace --help` tells.
pub(crate) const TRACE: Texts = Texts {
    usage: "snl trace [±X..] [--program FILE [--macros MACROS]] [--units FILE] [--scale NAME=K].. [--enum NAME=TEXT:N,..].. [--value NAME=N].. \
     [--offset FILE=+HH:MM].. [--lead S] [--severity] [--from T] [--to T] LOG..",
    about: "\
A trace of recorded logs. Their forms are told by their first lines: camonitor, caget -t, archiver CSV and JSON, exports of
Phoebus, and tables with a column for the time and one for each channel. Several logs are merged by time.",
    more: "\
The trace goes to standard output. Standard error tells what was not understood, rounded or left out, and in its last line how
many values were written.

With --program each line is one that a run of the program takes: values of other channels are left out, and those that no
variable can hold. Channels that it does not monitor are up from the begin on.

Example: snl trace --program light.st --scale LAB:VOLTAGE=3 light.log > light.trace

Status: 0 done, 1 a log gave no value, a monitored channel of the program has none, or the program has errors, 2 the words of
the call are wrong, 3 a file or the output failed, 4 memory ran out.",
};
