//! What helps where a token cannot stand.

ghost use Rattle.std.specs.Prelude.{◌≡◌};
ghost use Rattle.std.specs.Option.{option_map};
ghost use Rattle.snl_helps.specs.Helps as spec;

/// At a statement or an operator of C that is not supported.
fn statement_help(name: &[u8]) -> Option<&'static [u8]>
    ensures { option_map (λ help. help.now) result ≡ spec.statement_help name.now }
{
    if name == b"switch".as_slice() {
        Some(b"no 'switch': if and else if")
    } else if name == b"case".as_slice() {
        Some(b"no 'case': if and else if")
    } else if name == b"default".as_slice() {
        Some(b"no 'default': else")
    } else if name == b"do".as_slice() {
        Some(b"no 'do': while, with a first pass before it")
    } else if name == b"goto".as_slice() {
        Some(b"no 'goto': a state for each place to go to")
    } else if name == b"sizeof".as_slice() {
        Some(b"no 'sizeof': write the number of elements")
    } else if name == b"bool".as_slice() {
        Some(b"no 'bool': int, with 0 and 1")
    } else {
        None
    }
}

/// At a definition of C or of the sequencer that is not supported, else at the others.
fn definition_help(name: &[u8]) -> Option<&'static [u8]>
    ensures { option_map (λ help. help.now) result ≡ spec.definition_help name.now }
{
    if name == b"const".as_slice() {
        Some(b"no 'const': leave the word out, or write the number where it is used")
    } else if name == b"enum".as_slice() {
        Some(b"no 'enum': write the numbers, with a comment for each")
    } else if name == b"struct".as_slice() {
        Some(b"no 'struct': a variable for each member")
    } else if name == b"typedef".as_slice() {
        Some(b"no 'typedef': write the type itself")
    } else if name == b"static".as_slice() {
        Some(b"no 'static': a variable of the program or of a state set stays")
    } else if name == b"extern".as_slice() {
        Some(b"no 'extern': nothing outside of the program can be named")
    } else if name == b"foreign".as_slice() {
        Some(b"no 'foreign': nothing outside of the program can be named")
    } else {
        statement_help(name)
    }
}

/// At a keyword with capital letters, else at the others.
fn capital_help(name: &[u8]) -> Option<&'static [u8]>
    ensures { option_map (λ help. help.now) result ≡ spec.capital_help name.now }
{
    if name == b"When".as_slice() {
        Some(b"keywords have small letters: when")
    } else if name == b"WHEN".as_slice() {
        Some(b"keywords have small letters: when")
    } else if name == b"State".as_slice() {
        Some(b"keywords have small letters: state")
    } else if name == b"STATE".as_slice() {
        Some(b"keywords have small letters: state")
    } else if name == b"If".as_slice() {
        Some(b"keywords have small letters: if")
    } else if name == b"Else".as_slice() {
        Some(b"keywords have small letters: else")
    } else if name == b"Entry".as_slice() {
        Some(b"keywords have small letters: entry")
    } else if name == b"Exit".as_slice() {
        Some(b"keywords have small letters: exit")
    } else {
        definition_help(name)
    }
}

/// What helps at a token of this text that cannot stand where it does; none where nothing is known.
pub fn help_at(name: &[u8]) -> Option<&'static [u8]>
    ensures { option_map (λ help. help.now) result ≡ spec.help_at name.now }
{
    if name == b"and".as_slice() {
        Some(b"an operator is a sign: && for 'and'")
    } else if name == b"or".as_slice() {
        Some(b"an operator is a sign: || for 'or'")
    } else if name == b"not".as_slice() {
        Some(b"an operator is a sign: ! for 'not'")
    } else if name == b"then".as_slice() {
        Some(b"no 'then' stands behind a condition: a statement or a block does")
    } else if name == b"elseif".as_slice() {
        Some(b"two words: else if")
    } else if name == b"elif".as_slice() {
        Some(b"two words: else if")
    } else if name == b"endif".as_slice() {
        Some(b"a block ends with }")
    } else {
        capital_help(name)
    }
}
