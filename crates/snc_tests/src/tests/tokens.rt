//! Tokens by `lex`: their places in bytes, their files, and what numbers and characters are worth.

use snl_text::{LexFault, Pos, character_value, decimal_value, lex, whole_value};
use std::alloc::Global;
use std::test::Fail;

/// The places of the tokens, of the embedded pieces and of the end, and the number of names; or the fault.
fn places(alloc: Global, source: &[u8]) -> Result<String, Fail> {
    let mut shown = String::new(alloc);
    let lexed = match lex(alloc, source) {
        Ok(lexed) => lexed,
        Err(fault) => {
            let Pos { offset, file, line } = fault.pos().ok_or("memory")?;
            return Ok(format!(in alloc; "{fault} {offset} {file}:{line}")?);
        }
    };
    for token in &lexed.tokens {
        let (kind, Pos { offset, file, line }) = (token.kind, token.pos);
        shown.push_str(&format!(in alloc; "{kind:?} {offset} {file}:{line}, ")?)?;
    }
    let (count, names) = (lexed.embedded.len(), lexed.files.len());
    let Pos { offset, file, line } = lexed.eof;
    shown.push_str(&format!(in alloc; "C {count}, end {offset} {file}:{line}, names {names}")?)?;
    Ok(shown)
}

const PLACES: [(&[u8], &str); 4] = [
    (
        b"a\nstate\r\n <<=",
        "Name 0 0:1, State 2 0:2, LessLessEqual 10 0:3, C 0, end 13 0:3, names 0",
    ),
    (
        b"# 1 \"f\"\na\n# 5 \"g\"\nb\n# 9 \"f\"\nc\n# 3\nd",
        "Name 8 1:1, Name 18 2:5, Name 28 1:9, Name 34 1:3, C 0, end 35 1:3, names 2",
    ),
    (
        b"a%%b\n# 9 \"f\"\n %{x\n}%%{}%",
        "Name 0 0:1, C 3, end 24 1:10, names 1",
    ),
    (b"a\n# 7 \"f\"\n  09", "bad number 12 1:7"),
];

const WHOLES: [(&[u8], Option<i64>); 14] = [
    (b"0", Some(0)),
    (b"00", Some(0)),
    (b"10", Some(10)),
    (b"010", Some(8)),
    (b"0x10", Some(16)),
    (b"0XaFL", Some(175)),
    (b"7l", Some(7)),
    (b"9223372036854775807", Some(9_223_372_036_854_775_807)),
    (b"0777777777777777777777", Some(9_223_372_036_854_775_807)),
    (b"9223372036854775808", None),
    (b"08", None),
    (b"", None),
    (b"L", None),
    (b"1.5", None),
];

const CHARACTERS: [(&[u8], Option<u8>); 12] = [
    (b"'a'", Some(b'a')),
    (b"'\"'", Some(b'"')),
    (b"'\\n'", Some(10)),
    (b"'\\t'", Some(9)),
    (b"'\\r'", Some(13)),
    (b"'\\0'", Some(0)),
    (b"'\\\\'", Some(92)),
    (b"'\\''", Some(39)),
    (b"'\\\"'", Some(34)),
    (b"'ab'", None),
    (b"'a'b", None),
    (b"a", None),
];

const DECIMALS: [(&[u8], Option<(u64, bool)>); 9] = [
    (b"0.5", Some((500, true))),
    (b".5", Some((500, true))),
    (b"1.", Some((1000, true))),
    (b"12.3456", Some((12_345, false))),
    (b"12.345000", Some((12_345, true))),
    (b"0.0001", Some((0, false))),
    (b"1000000000000.999", Some((1_000_000_000_000_999, true))),
    (b"1000000000001.", None),
    (b".", None),
];

#[test]
fn places_of_tokens(rt: HostRuntime) -> Result<(), Fail> {
    for (source, wanted) in PLACES {
        let found = places(rt.alloc(), source)?;
        assert_eq!(rt; found.as_str(), wanted);
    }
    assert!(rt; LexFault::Memory.text().is_none() && LexFault::Memory.pos().is_none());
    Ok(())
}

#[test]
fn values(rt: HostRuntime) {
    for (text, wanted) in WHOLES {
        assert_eq!(rt; whole_value(text), wanted);
    }
    for (text, wanted) in CHARACTERS {
        assert_eq!(rt; character_value(text), wanted);
    }
    for (text, wanted) in DECIMALS {
        let found = decimal_value(text).map(|value| (value.thousandths, value.is_exact));
        assert_eq!(rt; found, wanted);
    }
}
