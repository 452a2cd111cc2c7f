//! Sections of docs: what is told of a source that is no program, or of a form that is not supported. scripts/pages makes this file.

/// `E01`
const E01: &str = "\
### E01: `syntax error at 'TOKEN'`, `syntax error at end of file`

```snl
program p
option +s;
int y;
ss s { state a { when () { y = ; } state a } }
```

```
p.st:4: error: E01 syntax error at ';'
```

The message stands at the first token that no valid program has there, given all that is before it. If there is no
such token, but something is missing, it stands at the end of the file. TOKEN is spelled as in the source. Look at
that token and at what stands right before it; here a value is missing.
";

/// `E02`
const E02: &str = "\
### E02: `nesting deeper than 64 at 'TOKEN'`

```snl
program p
option +s;
ss s {
  state a { when (
((((((((((((((((((((((((((((((((((((((((((((((((((((((((((((((((
(1)))))))))))))))))))))))))))))))))))))))))))))))))))))))))))))))))) { } state a }
}
```

```
p.st:6: error: E02 nesting deeper than 64 at '('
```

It stands at the first token that valid programs may have there, but only such as are nested deeper than 64; here at
the 65th parenthesis. `docs/GRAMMAR.md`, \"Nesting\", says what counts. An `else` counts up to the end of its
statement, which is the rest of the chain: in the block of a clause a chain may have 63 `if`, and at the 64th stands
E02. Keep a part of the value in a variable, or a part of the chain in a state of its own.
";

/// `E03`
const E03: &str = "\
### E03: the source cannot be cut into tokens

```snl
program p
option +s;
int x = 09;
ss s { state a { when () { } state a } }
```

```
p.st:3: error: E03 bad number
```

At the first place where nothing can stand (`docs/GRAMMAR.md`, \"Source text\"). Here 09 begins like an octal number,
and 9 is no octal digit.

| Text | When |
|---|---|
| `bad byte` | nothing begins with the byte, as with `@` or `$` |
| | a `'` that begins no character constant; a `#` that begins no marker, as in `#define` |
| `unclosed comment` | a `/*` that no `*/` follows; the place is the `/*` |
| `unclosed string` | a control byte, a newline too, or the end comes before the closing `\"`; at the opening one |
| `bad number` | a word that begins like a number and is none, or a whole number above 9223372036854775807 |
| `source longer than 1048576 bytes` | the file is too long; at line 1, before all other messages |
| `unclosed embedded C` | a `%{` that no `}%` follows; the place is the `%{` |

If a marker stood before that place, FILE and LINE are those that it gave.

A file with `#define` or `#include` has to go through the preprocessor first: `cpp -P FILE > NEW` makes a file to go on
with, and `bin/snc <(cpp FILE)` checks with no file in between and tells the lines of FILE.
";

/// `E04`
const E04: &str = "\
### E04: `limit passed: WHAT`

```snl
program p
option +s;
int x[1025];
ss s { state a { when () { } state a } }
```

```
p.st:3: error: E04 limit passed: 1024 elements
```

The program is larger than this compiler takes. Make it smaller at the place that the message names.

| WHAT | When | Place |
|---|---|---|
| `65536 tokens` | the source has more tokens | the first token too many |
| `64 state sets` | the program has more state sets | the `ss` of the 65th |
| `1024 states` | the program has more states, in all state sets together | the `state` of the 1,025th |
| `1024 channels` | `assign` definitions name more; a whole variable counts once | the `assign` that passes the limit |
| `1024 elements` | an array is longer | its declared name |
| `65536 words in a state set` | what one state set keeps is too large | its `ss` |
| `1048576 words` | what all state sets, functions, buffers and queues keep is too large | the word `program` |
| `256 functions` | the program defines more, those with E14 too | the name of the 257th |

A state set keeps a word for each element of each variable of the program, of its own, of its states and of their
blocks; those of the blocks of the program itself count to the first state set. To what all of them keep come, for
each element that is assigned to a channel, one word of its buffer, and as many as its queue is long; and for each function its
parameters, the variables of its blocks, and one word.

Limits at different places are told all. Of two at one place the first of this table is given. The two of words are given only
where no other error is: first mend the others.
";

/// `E10`
const E10: &str = "\
### E10: `embedded C is not supported`

```snl
program p
option +s;
%% int c;
ss s { state a { when () { } state a } }
```

```
p.st:3: error: E10 embedded C is not supported
```

At each piece of embedded C, that is at its `%%` or `%{`: C has no meaning here. Take the piece out, and write in
SNL what it did.

What a piece holds is not read, so neither are markers in it. Where an `#include` stands inside of `%{ .. }%` and `cpp`
has put a file there, the lines that are told behind it are too large: line 740, say, in a file of eight. Take the
embedded C out before `cpp` runs; then all lines are right.
";

/// `E11`
const E11: &str = "\
### E11: `type 'TYPE' is not supported`

```snl
program p
option +s;
double x;
ss s { state a { when (x > 1) { } state a } }
```

```
p.st:3: error: E11 type 'double' is not supported
```

At the type of a declaration: `float`, `double`, `string`, `unsigned long`, `int64_t` or `uint64_t`. Use a type of
whole numbers, as `long`: a quantity with decimals is counted in a smaller unit, as 2.5 V in thousandths by 2500,
and a text becomes a number with a legend (docs/BY_HAND.md, \"Units\", has a table). For `unsigned long` the message
stands at `unsigned`, and quotes both words with one space between them. The variable counts as a `long` from there
on.
";

/// `E12`
const E12: &str = "\
### E12: `decimal constant not allowed here`

```snl
program p
option +s;
int x;
ss s {
  state a { when (delay(1.5)) {
    x = 2.5;
  } state a }
}
```

```
p.st:6: error: E12 decimal constant not allowed here
```

At a decimal constant, as `2.5`, that is not the whole argument of a `delay`, or that has a digit other than 0 after
the third decimal. Only a call like `delay(1.5)` takes one; a constant in parentheses or with a sign is refused
there too. Use whole numbers of a smaller unit.
";

/// The section of a name, where it is one of these.
pub(crate) fn page_of(name: &str) -> Option<&'static str> {
    match name {
        "E01" => Some(E01),
        "E02" => Some(E02),
        "E03" => Some(E03),
        "E04" => Some(E04),
        "E10" => Some(E10),
        "E11" => Some(E11),
        "E12" => Some(E12),
        _ => None,
    }
}
