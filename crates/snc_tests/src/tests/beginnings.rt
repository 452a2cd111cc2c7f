//! What is left of a text where memory is refused. `cases/requests.py` has each request of the test refused in turn, and reads
//! what it says then.

use crate::PROGRAM;
use crate::tests::programs::{Question, asked};
use std::str;
use std::test::Fail;

/// The tables of the program, as docs/TABLES.md has them.
const TABLES: &[u8] = b"program p
channel x 0 1 \"a\" monitor - 0
channel y 0 1 \"b\" - - 0
ss s
state lo +t+e+x
when 1 state hi
state hi +t+e+x
";

#[test]
fn tables_or_their_beginning(rt: HostRuntime) -> Result<(), Fail> {
    let mut left = Vec::new(rt.alloc());
    let failed = asked(&rt, rt.alloc(), PROGRAM, Question::Tables, &mut left)?;
    let text = str::from_utf8(left.as_slice())?;
    if failed > 0 {
        return Err(Fail::new(format_args!("left: {text}")));
    }
    assert_eq!(rt; text.as_bytes(), TABLES);
    Ok(())
}
