//! Sections of docs: what is told of states, statements and values. scripts/pages makes this file.

/// `E24`
const E24: &str = "\
### E24: `state 'NAME' is defined twice`, `state set 'NAME' is defined twice`

```snl
program p
option +s;
ss s {
  state a { when () { } state a }
  state a { when () { } state a }
}
```

```
p.st:5: error: E24 state 'a' is defined twice
p.st:5: warning: W2 state 'a' cannot be reached
```

At the name of the second and each later state of that name in its state set, or state set of that name in the
program. A target means the first, so no way leads to a later one, and W2 says so. Give each its own name.
";

/// `E25`
const E25: &str = "\
### E25: `no state 'NAME' in this state set`

```snl
program p
option +s;
ss s {
  state a { when () { } state end }
}
ss t {
  state end { when () { } state end }
}
```

```
p.st:4: error: E25 no state 'end' in this state set
```

At the target of a clause or of a state statement that names no state of the state set it stands in. A target cannot
lead into another state set.
";

/// `E26`
const E26: &str = "\
### E26: `state statement not allowed here`

```snl
program p
option +s;
ss s {
  state a {
    entry { state a; }
    when () { } state a
  }
}
```

```
p.st:5: error: E26 state statement not allowed here
```

At a `state NAME;` outside of a clause's block, as in an entry or exit block or in a function. Only a transition can
change its target; a function may give a number, by which the block decides.
";

/// `E27`
const E27: &str = "\
### E27: `'WORD' outside a loop`

```snl
program p
option +s;
ss s { state a { when () { break; } state a } }
```

```
p.st:3: error: E27 'break' outside a loop
```

At a `break` or `continue` that stands in no `while` or `for`. Take it out, or put the statement in a loop.
";

/// `E28`
const E28: &str = "\
### E28: `bad initialiser for 'NAME'`

```snl
program p
option +s;
int x;
int y = x + 1;
ss s { state a { when (x > y) { } state a } }
```

```
p.st:4: error: E28 bad initialiser for 'y'
```

At a declared name: a list for a variable without elements, a single value for an array, or more values than the
array has elements. For a variable outside of blocks also where a value is not constant, faults, or does not fit the
type. Give such a variable its value in an `entry` block.
";

/// `E29`
const E29: &str = "\
### E29: `wrong array use of 'NAME'`

```snl
program p
option +s;
int x[2];
ss s { state a { when (x > 1) { } state a } }
```

```
p.st:4: error: E29 wrong array use of 'x'
```

At the name: an array without a subscript as a value or target; a variable without elements that has one; two or
more dimensions; a size that is not constant, faults or is below 1; a list of channels for a variable without
elements, with a subscript, or longer than the array; in a definition a subscript that is not constant, faults or is
out of range. In `monitor`, `sync` and the calls on channels also a subscript on an array that is assigned as a
whole, and in those calls no subscript on one that is assigned by elements; a `syncQ` with a subscript, or of an
array that is assigned by elements. Here `x[0]` or `x[1]` has to be written.
";

/// `E30`
const E30: &str = "\
### E30: `not assignable`

```snl
program p
option +s;
ss s { state a { when () { 1 = 2; } state a } }
```

```
p.st:3: error: E30 not assignable
```

At the operator of an assignment, `++` or `--` whose target is neither a name nor an element. Parentheses around a
target may stand. Where the two sides are to be compared write `==`.
";

/// `E31`
const E31: &str = "\
### E31: `option '+X' is not supported`, `option '-X' is not supported`

```snl
program p
option +s;
option +a;
ss s { state a { when () { } state a } }
```

```
p.st:3: error: E31 option '+a' is not supported
```

At the letters of an option, with the first letter that is refused and its sign. For a program the letters are
`a c d e i l m r s u w W`, but `+a` and `-e` are refused; for a state they are `t e x`. The other letters of the
same option still act. Take the letter out.
";

/// `E32`
const E32: &str = "\
### E32: `bad printf format`

```snl
program p
option +s;
ss s { state a { when () { printf(\"%x\\n\", 1); } state a } }
```

```
p.st:3: error: E32 bad printf format
```

At the string of a `printf`: it has an escape other than `\\n`, `\\t`, `\\\\` and `\\\"`, a conversion other than `%d`,
`%ld` and `%%`, or not as many conversions as arguments follow.
";

/// `E33`
const E33: &str = "\
### E33: `queue size must be 1 to 4096`

```snl
program p
option +s;
int x;
assign x to \"a\";
monitor x;
evflag f;
syncQ x to f 4097;
ss s { state a { when (pvGetQ(x)) { } state a } }
```

```
p.st:7: error: E33 queue size must be 1 to 4096
```

At the number after a `syncQ`. Give another one.
";

/// `E34`
const E34: &str = "\
### E34: `'NAME' has no value`

```snl
program p
option +s;
void tell() { printf(\"here\"); }
ss s { state a { when (tell()) { } state a } }
```

```
p.st:4: error: E34 'tell' has no value
```

At the name in a call of a `void` function whose value would be used. Such a call is a statement of its own: `tell();`. So
each call in `(tell());`, `tell(), tell();`, the parts of a `for` and the argument of another call has E34. Behind
`return` it has E34, too.
";

/// `E35`
const E35: &str = "\
### E35: `return not allowed here`

```snl
program p
option +s;
int twice(int n) { return; }
void tell() { return 1; }
ss s { state a { when () { return; } state a } }
```

```
p.st:3: error: E35 return not allowed here
p.st:4: error: E35 return not allowed here
p.st:5: error: E35 return not allowed here
```

At `return`: outside of a function, without a value in one that has a value, with one in a `void` function. Give the value, or
take it away; the block of a clause ends by itself.
";

/// The section of a name, where it is one of these.
pub(crate) fn page_of(name: &str) -> Option<&'static str> {
    match name {
        "E24" => Some(E24),
        "E25" => Some(E25),
        "E26" => Some(E26),
        "E27" => Some(E27),
        "E28" => Some(E28),
        "E29" => Some(E29),
        "E30" => Some(E30),
        "E31" => Some(E31),
        "E32" => Some(E32),
        "E33" => Some(E33),
        "E34" => Some(E34),
        "E35" => Some(E35),
        _ => None,
    }
}
