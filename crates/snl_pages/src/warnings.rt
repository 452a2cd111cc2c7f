//! Sections of docs: the warnings. scripts/pages makes this file.

/// `W1`
const W1: &str = "\
### W1: `not in safe mode, safe mode is used`

```snl
program p
ss s { state a { when () { } state a } }
```

```
p.st:1: warning: W1 not in safe mode, safe mode is used
```

At the word `program`, where `+s` is not in force. The program runs in safe mode all the same: each state set has
its own copy of the variables. Write `option +s;` to say so.
";

/// `W2`
const W2: &str = "\
### W2: `state 'NAME' cannot be reached`

```snl
program p
option +s;
ss s {
  state a { when () { } state a }
  state b { when () { } state b }
}
```

```
p.st:5: warning: W2 state 'b' cannot be reached
```

At the name of a state to which no way leads from the first state of its state set, by the targets of clauses and
state statements. Add a clause that leads there, or take the state out.
";

/// `W3`
const W3: &str = "\
### W3: `clause is never reached`

```snl
program p
option +s;
int x;
ss s {
  state a {
    when () { } state a
    when (x > 1) { } state a
  }
}
```

```
p.st:7: warning: W3 clause is never reached
```

At a `when` after a clause of the same state that is always taken: its condition is empty, or is constant and not 0.
Put the clause that is always taken last.
";

/// `W4`
const W4: &str = "\
### W4: `'NAME' is synced but not monitored`

```snl
program p
option +s;
int x;
assign x to \"a\";
evflag f;
sync x to f;
ss s { state a { when (efTest(f)) { } state a } }
```

```
p.st:6: warning: W4 'x' is synced but not monitored
```

At the name in a `sync` or `syncQ` of an element that no `monitor` names: the flag is never set by the channel. Add
a `monitor`.
";

/// `W5`
const W5: &str = "\
### W5: `variable 'NAME' is not used`

```snl +u
program p
option +s;
int x;
ss s { state a { when () { } state a } }
```

```
p.st:3: warning: W5 variable 'x' is not used
```

Only under `+u`. At the declared name of a variable that no name means. An `assign`, `monitor`, `sync` or `syncQ` is
a use. Take the variable out.
";

/// `W6`
const W6: &str = "\
### W6: `event flag 'NAME' is not used`

```snl +u
program p
option +s;
evflag f;
ss s { state a { when () { } state a } }
```

```
p.st:3: warning: W6 event flag 'f' is not used
```

Only under `+u`. At the declared name of an event flag that no name means. Take the flag out.
";

/// `W7`
const W7: &str = "\
### W7: `state 'NAME' has no clauses`

```snl
program p
option +s;
ss s {
  state a { when () { } state b }
  state b { }
}
```

```
p.st:5: warning: W7 state 'b' has no clauses
```

At the state's name. The program can get into this state, and never out of it. Add a clause; where that is meant to
be the end, the message does no harm.
";

/// `W8`
const W8: &str = "\
### W8: `function 'NAME' is not used`

```snl +u
program p
option +s;
int twice(int n) { return 2 * n; }
ss s { state a { when () { } state a } }
```

```
p.st:3: warning: W8 function 'twice' is not used
```

Only under `+u`. At the name of a function that no call means. A call with wrong arguments means it too, and so does one
in a function that is not used; of a function whose name is that of a built-in one, calls mean the built-in one. Take the
function out.
";

/// The section of a name, where it is one of these.
pub(crate) fn page_of(name: &str) -> Option<&'static str> {
    match name {
        "W1" => Some(W1),
        "W2" => Some(W2),
        "W3" => Some(W3),
        "W4" => Some(W4),
        "W5" => Some(W5),
        "W6" => Some(W6),
        "W7" => Some(W7),
        "W8" => Some(W8),
        _ => None,
    }
}
