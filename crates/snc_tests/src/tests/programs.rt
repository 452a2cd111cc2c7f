//! What a checked program tells: its options in force, whether it waits for its channels, where a name is declared, its links, its
//! tables, its code.

use crate::tests::made::checked;
use snl_check::Checked;
use snl_code::{Code, Piece, compile};
use snl_links::{Macros, links, tables};
use snl_meaning::Instr;
use std::alloc::{AllocError, Global};
use std::process::Abort;
use std::test::Fail;

/// Prints the value of its channel, and ends. The last state is never reached.
const PRINTS: &[u8] = b"program p option +s; int x; assign x to \"c\"; monitor x;
ss s { state a { when (x) { printf(\"%d\", x); } exit } state b { entry { printf(\"b\"); } when () {} state b } }";

/// The offsets of the first `x`, which declares the variable, and of the one in the condition.
const DECLARED: u32 = 25;

const USED: usize = 79;

const TABLES: &[u8] =
    b"program p\nchannel x 0 1 \"c\" monitor - 0\nss s\nstate a +t+e+x\nwhen 1 exit\nstate b +t+e+x\nwhen 1 state b\n";

/// A program but for the terms of a sum: a condition that compares with the sum.
const SUM_BEGINS: &[u8] = b"program s option +s; int x; ss s { state w { when (x == 0";

const SUM_ENDS: &[u8] = b") {} state w } }";

/// All that a program tells is right.
fn tells<'a, A: Abort>(checked: &Checked<'a>, rt: &A, alloc: Global) -> Result<usize, Fail> {
    has_settings(checked, rt);
    has_tables(checked, rt, alloc)?;
    has_links(checked, rt, alloc)?;
    has_code(checked, rt, alloc)?;
    Ok(0)
}

fn has_settings<'a, A: Abort>(checked: &Checked<'a>, rt: &A) {
    let options = checked.options();
    assert!(rt; options.s == Some(true) && options.w.is_none(), "options");
    assert!(rt; checked.waits(), "waits");
    let declared = checked.declared(USED).map(|pos| pos.offset);
    assert!(rt; declared == Some(DECLARED), "declared");
}

fn has_tables<'a, A: Abort>(checked: &Checked<'a>, rt: &A, alloc: Global) -> Result<(), Fail> {
    let mut text = Vec::new(alloc);
    tables(alloc, checked, &mut text)?;
    assert_eq!(rt; text.as_slice(), TABLES);
    Ok(())
}

fn has_links<'a, A: Abort>(checked: &Checked<'a>, rt: &A, alloc: Global) -> Result<(), Fail> {
    let macros = Macros {
        text: b"".as_slice(),
    };
    let links = links(alloc, checked, &macros)?;
    assert_eq!(rt; links.len(), 1);
    for link in &links {
        assert_eq!(rt; link.name.as_slice(), b"c".as_slice());
        assert!(rt; link.count == 1 && link.monitored, "link");
    }
    Ok(())
}

fn has_code<'a, A: Abort>(checked: &Checked<'a>, rt: &A, alloc: Global) -> Result<(), Fail> {
    let code = compile(alloc, checked)?;
    reached(rt, &code);
    pieces(rt, &code);
    Ok(())
}

/// A state that is not reached has no code, and no number beyond the states is held.
fn reached<A: Abort>(rt: &A, code: &Code) {
    assert!(rt; code.holds(0, 0) && !code.holds(0, 1), "reached");
    assert!(rt; !code.holds(0, 2) && !code.holds(1, 0), "not there");
    let entry = code.start(Piece::Entry { set: 0, state: 1 });
    assert!(rt; entry.is_none(), "entry");
}

/// The condition pushes the variable and ends; the block pushes it, prints, drops what the call gives, and ends.
fn pieces<A: Abort>(rt: &A, code: &Code) {
    assert_eq!(rt; code.len(), 6);
    let (set, state, clause) = (0, 0, 0);
    let condition = first_of(code, Piece::Condition { set, state, clause });
    assert!(rt;
        matches!(condition, Some(Instr::Load(variable)) if variable.size == 1),
        "condition"
    );
    let block = first_of(code, Piece::Block { set, state, clause });
    assert!(rt; matches!(block, Some(Instr::Load(_))), "block");
    assert_eq!(rt; code.text(0), b"\"%d\"".as_slice());
    assert!(rt; code.text(2).is_empty(), "no text");
}

/// The instruction with which a piece begins.
fn first_of(code: &Code, piece: Piece) -> Option<Instr> {
    let number = code.start(piece)?;
    if number < code.len() {
        Some(code.instr(number))
    } else {
        None
    }
}

/// How many instructions the code of a program has.
fn length_of<'a>(checked: &Checked<'a>, alloc: Global) -> Result<usize, Fail> {
    let code = compile(alloc, checked)?;
    Ok(code.len())
}

/// What is asked of a program.
#[derive(Clone, Copy)]
pub enum Question {
    /// That all that it tells is right.
    Told,
    /// How many instructions its code has.
    Length,
    /// How many tables failed to be written, of one; what was written is appended.
    Tables,
}

/// The answer to a question of a checked program, by a number.
fn answer<'a, A: Abort>(
    checked: &Checked<'a>,
    rt: &A,
    alloc: Global,
    question: Question,
    text: &mut Vec<u8>,
) -> Result<usize, Fail> {
    match question {
        Question::Told => tells(checked, rt, alloc),
        Question::Length => length_of(checked, alloc),
        Question::Tables => Ok(usize::from(tables(alloc, checked, text).is_err())),
    }
}

/// The answer to a question of the program that a source spells.
pub fn asked<A: Abort>(
    rt: &A,
    alloc: Global,
    source: &[u8],
    question: Question,
    text: &mut Vec<u8>,
) -> Result<usize, Fail> {
    let checked = checked(alloc, b"", source)?;
    answer(&checked, rt, alloc, question, text)
}

#[test]
fn what_a_program_tells(rt: HostRuntime) -> Result<(), Fail> {
    let mut text = Vec::new(rt.alloc());
    let _none = asked(&rt, rt.alloc(), PRINTS, Question::Told, &mut text)?;
    Ok(())
}

/// The program with a sum of 1,000 variables, each with its `+`.
fn long_sum(alloc: Global) -> Result<Vec<u8>, AllocError> {
    let mut source = Vec::from_slice(alloc, SUM_BEGINS)?;
    for _term in 0..1000 {
        source.extend_from_slice(b" + x")?;
    }
    source.extend_from_slice(SUM_ENDS)?;
    Ok(source)
}

/// In a sum of variables each name and each `+` is an instruction: none does a whole expression.
#[test]
fn code_of_a_long_sum(rt: HostRuntime) -> Result<(), Fail> {
    let source = long_sum(rt.alloc())?;
    let mut text = Vec::new(rt.alloc());
    let length = asked(
        &rt,
        rt.alloc(),
        source.as_slice(),
        Question::Length,
        &mut text,
    )?;
    assert!(rt; 2_000 <= length);
    Ok(())
}
