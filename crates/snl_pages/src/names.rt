//! Sections of docs: what is told of names. scripts/pages makes this file.

/// `E13`
const E13: &str = "\
### E13: `'NAME' is not declared`

```snl
program p
option +s;
ss s { state a { when (speed > 1) { } state a } }
```

```
p.st:3: error: E13 'speed' is not declared
```

At a name that no scope round it declares and that is not predefined. Declare it, or mend its spelling. A name
inside the parentheses of a call that E16 or E17 refuses has no such message.
";

/// `E14`
const E14: &str = "\
### E14: `'NAME' is declared twice`

```snl
program p
option +s;
int x;
long x;
ss s { state a { when (x > 1) { } state a } }
```

```
p.st:4: error: E14 'x' is declared twice
```

At the second and each later declaration of a name in one scope, of a variable or an event flag, and at the name of a function
that an earlier or a built-in one has. The first one is meant by all uses. Take the others out, or give them other names.
";

/// `E15`
const E15: &str = "\
### E15: `'NAME' is not a variable`

```snl
program p
option +s;
evflag ready;
ss s { state a { when (ready) { } state a } }
```

```
p.st:4: error: E15 'ready' is not a variable
```

At an event flag that is used as a value, and at an event flag or a predefined name where a variable has to stand:
as the target of an assignment, in `assign`, `monitor`, `sync` and `syncQ`, and as the argument of a call that wants
a variable. For the value of a flag write `efTest(NAME)`.
";

/// `E16`
const E16: &str = "\
### E16: `unknown function 'NAME'`

```snl
program p
option +s;
ss s { state a { when () { ramp(1); } state a } }
```

```
p.st:3: error: E16 unknown function 'ramp'
```

At the name of a call of a function that is neither built in nor defined above: a function sees those that stand before it, and
not itself. Nothing inside the parentheses is checked, but names there count as used. Move the function up; in place of a call
of itself write a loop; and write out what a function of C did, or make a function of the program for it.
";

/// `E17`
const E17: &str = "\
### E17: `wrong arguments for 'NAME'`

```snl
program p
option +s;
int x;
assign x to \"a\";
ss s { state a { when () { pvPut(x + 1); } state a } }
```

```
p.st:5: error: E17 wrong arguments for 'pvPut'
```

At the name of a call with too many or too few arguments, or with arguments of another form: `pvPut`, `pvGet`,
`pvConnected` and `pvPutComplete` take one variable or element, behind which a `pvPut` may have the word `ASYNC`, `pvGetQ`
and `pvFlushQ` one variable, `efSet` and the like one event flag, `delay` one expression, `pvChannelCount` and
`pvConnectCount` nothing, `printf` a string and then expressions, and a function of the program an expression for each of its
parameters. Nothing inside the parentheses is checked, but names there count as used. Here the value has to go into
a variable first.
";

/// `E18`
const E18: &str = "\
### E18: `delay is only allowed in a when condition`

```snl
program p
option +s;
ss s { state a { when () { delay(1); } state a } }
```

```
p.st:3: error: E18 delay is only allowed in a when condition
```

At a `delay` in a block, in an initialiser or in a function. Move it into the parentheses of a `when`; a condition may hand
one to a function, as in `when (is_late(delay(2)))`.
";

/// `E19`
const E19: &str = "\
### E19: `'NAME' is assigned twice`

```snl
program p
option +s;
int x;
assign x to \"a\";
assign x to \"b\";
ss s { state a { when (x > 1) { } state a } }
```

```
p.st:5: error: E19 'x' is assigned twice
```

At the name in an `assign` of a variable or an element that an earlier `assign` names. Take one of the two out. An
`assign` of a name that is not declared has E13 alone, and counts for nothing.
";

/// `E20`
const E20: &str = "\
### E20: `'NAME' is not assigned`

```snl
program p
option +s;
int x;
monitor x;
ss s { state a { when (x > 1) { } state a } }
```

```
p.st:4: error: E20 'x' is not assigned
```

At the name in a `monitor`, `sync` or `syncQ`, or in a call such as `pvPut`, where no `assign` names the variable,
or the element that is meant. It does not matter whether the `assign` stands before or after it. Add an `assign`. A name
that is not declared has E13 alone.
";

/// `E21`
const E21: &str = "\
### E21: `'NAME' is not an event flag`

```snl
program p
option +s;
int x;
ss s { state a { when () { efSet(x); } state a } }
```

```
p.st:4: error: E21 'x' is not an event flag
```

At a name that is declared, where an event flag has to stand: in `sync` and `syncQ`, and in `efSet` and the like.
Declare the flag by `evflag`.
";

/// `E22`
const E22: &str = "\
### E22: `'NAME' is synced twice`

```snl
program p
option +s;
int x;
assign x to \"a\";
monitor x;
evflag f, g;
sync x to f;
sync x to g;
ss s { state a { when (efTest(f)) { } state a } }
```

```
p.st:8: error: E22 'x' is synced twice
```

At the name in a `sync` or `syncQ` of an element that an earlier `sync` or `syncQ` names. Take one of the two out.
";

/// `E23`
const E23: &str = "\
### E23: `'NAME' has no queue`

```snl
program p
option +s;
int x;
assign x to \"a\";
monitor x;
ss s { state a { when (pvGetQ(x)) { } state a } }
```

```
p.st:6: error: E23 'x' has no queue
```

At the variable of a `pvGetQ` or `pvFlushQ` for which there is no `syncQ`. Add one.
";

/// The section of a name, where it is one of these.
pub(crate) fn page_of(name: &str) -> Option<&'static str> {
    match name {
        "E13" => Some(E13),
        "E14" => Some(E14),
        "E15" => Some(E15),
        "E16" => Some(E16),
        "E17" => Some(E17),
        "E18" => Some(E18),
        "E19" => Some(E19),
        "E20" => Some(E20),
        "E21" => Some(E21),
        "E22" => Some(E22),
        "E23" => Some(E23),
        _ => None,
    }
}
