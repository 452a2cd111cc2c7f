//! The text of remarks: a line for each.

ghost use Rattle.std.specs.Prelude.{◌≡◌, [], ◌∷◌, ◌++◌, map, OnOk, IfOk, codes, decimal, string_bytes};
ghost use Rattle.std.specs.List.{concat};
ghost use Rattle.snl_lints.specs.Columns.{IsCounted};
ghost use Rattle.snl_lints.specs.Lines as spec;

use crate::columns::{Counted, column_at};
use crate::remarks::{Lint, Remark};
use itoa::Buffer;
use std::alloc::{AllocError, Global};

/// A text that a program was read from, with what its files are called.
#[derive(Clone, Copy)]
pub struct Text<'t, 'a> {
    /// All bytes that were read.
    pub source: &'t [u8],
    /// What the file is called that they were read from.
    pub file: &'t [u8],
    /// The names that markers gave, the first of which has number 1.
    pub marked: &'t [&'a [u8]],
}

/// The lint of a name, of those that speak of what is done with a variable.
fn variable_lint_named(name: &[u8]) -> Option<Lint>
    ensures { result ≡ spec.variable_lint_of name.now }
{
    if name == b"shared".as_slice() {
        Some(Lint::Shared)
    } else if name == b"stale".as_slice() {
        Some(Lint::Stale)
    } else if name == b"unread".as_slice() {
        Some(Lint::Unread)
    } else if name == b"unput".as_slice() {
        Some(Lint::Unput)
    } else {
        None
    }
}

/// The lint of a name, of those that speak of channels and constants. What one name has several of counts by the first.
fn constant_lint_named(name: &[u8]) -> Option<Lint>
    ensures { result ≡ spec.constant_lint_of name.now }
{
    if name == b"macro".as_slice() {
        Some(Lint::Undefined)
    } else if name == b"unspoken".as_slice() {
        Some(Lint::Unspoken)
    } else if name == b"constant".as_slice() {
        Some(Lint::Faulting)
    } else {
        variable_lint_named(name)
    }
}

/// The lint of a name; none where it is unknown. Of several that have one name it is the first.
pub fn lint_named(name: &[u8]) -> Option<Lint>
    ensures { result ≡ spec.lint_of name.now }
{
    if name == b"itself".as_slice() {
        Some(Lint::Itself)
    } else if name == b"equals".as_slice() {
        Some(Lint::Equals)
    } else if name == b"comma".as_slice() {
        Some(Lint::Comma)
    } else if name == b"answered".as_slice() {
        Some(Lint::Answered)
    } else {
        constant_lint_named(name)
    }
}

/// The name of a lint.
pub fn name_of(lint: Lint) -> &'static [u8]
    ensures { result.now ≡ spec.name_of lint }
{
    match lint {
        Lint::Itself => b"itself",
        Lint::Shared => b"shared",
        Lint::Stale => b"stale",
        Lint::Unread => b"unread",
        Lint::Unput => b"unput",
        Lint::Equals => b"equals",
        Lint::Comma => b"comma",
        Lint::Answered => b"answered",
        Lint::Undefined | Lint::Unclosed => b"macro",
        Lint::Unspoken => b"unspoken",
        Lint::Faulting | Lint::Unfitting | Lint::Missing => b"constant",
    }
}

/// What a remark says behind the token that it quotes.
pub fn words_of(lint: Lint) -> &'static [u8]
    ensures { result.now ≡ spec.words_of lint }
{
    match lint {
        Lint::Itself => {
            b"' leads back to itself and leaves its entry or exit block out; options -e and -x do them"
        }
        Lint::Shared => {
            b"' is set in one state set and read in another, and each has a copy of its own"
        }
        Lint::Stale => b"' is read, and no monitor, pvGet or assignment gives it a value",
        Lint::Unread => b"' is monitored and never read",
        Lint::Unput => b"' is set and never put",
        Lint::Equals => {
            b"' sets a variable in a condition; == compares, and ((x = y)) is taken as meant"
        }
        Lint::Comma => b"' in a condition: what stands before it decides nothing; && takes both",
        Lint::Answered => b"' is never put with ASYNC, so pvPutComplete is always 1",
        Lint::Undefined => {
            b"' has a macro that neither the program nor MACROS defines: nothing stands in its place"
        }
        Lint::Unclosed => b"' has a { that no } follows: it stays in the name",
        Lint::Unspoken => {
            b"' names a channel that no trace can name: a name there is printable ASCII without blanks, at most 32763 bytes"
        }
        Lint::Faulting => b"' faults by its constants whenever it is computed",
        Lint::Unfitting => b"' is given a number that its type does not have",
        Lint::Missing => b"' has no element of this number",
    }
}

/// What a file is called, by its number: 0 is the file that was read.
pub fn file_name<'t>(text: Text<'t, 't>, file: usize) -> &'t [u8]
    ensures { result.now ≡ spec.file_name text.entry.file.now (map
        (λ name. name.now) text.entry.marked.now) file }
{
    if file == 0 {
        return text.file;
    }
    match text.marked.get(file - 1) {
        Some(name) => name,
        None => text.file,
    }
}

/// Adds pieces, one behind the other.
fn push_all(out: &mut Vec<u8>, pieces: &[&[u8]]) -> Result<(), AllocError>
    ensures { OnOk result (out.new.items
        ≡ out.old.items ++ concat (map (λ piece. piece.now) pieces.now)) }
{
    for piece in pieces {
        out.extend_from_slice(piece)?;
    }
    Ok(())
}

/// Adds a place, and what is quoted there.
fn push_place<'t>(
    out: &mut Vec<u8>,
    file: &'t [u8],
    line: usize,
    column: usize,
    quoted: &'t [u8],
) -> Result<(), AllocError>
    ensures { OnOk result (out.new.items ≡ out.old.items
        ++ concat (file.now ∷ codes ":" ∷ decimal line ∷ codes ":" ∷ decimal column
        ∷ codes ": warning: '" ∷ quoted.now ∷ [])) }
{
    let mut line_digits = Buffer::new();
    let mut column_digits = Buffer::new();
    let line = line_digits.format(line).as_bytes();
    let column = column_digits.format(column).as_bytes();
    push_all(
        out,
        &[file, b":", line, b":", column, b": warning: '", quoted],
    )?;
    Ok(())
}

/// Adds words, and a name in brackets.
fn push_words<'t>(out: &mut Vec<u8>, words: &'t [u8], name: &'t [u8]) -> Result<(), AllocError>
    ensures { OnOk result (out.new.items ≡ out.old.items
        ++ concat (words.now ∷ codes " [" ∷ name.now ∷ codes "]\n" ∷ [])) }
{
    push_all(out, &[words, b" [", name, b"]\n"])
}

/// Adds the line of a remark, whose column is counted from a place on, mostly that of the remark before.
fn push_line(
    out: &mut Vec<u8>,
    text: Text,
    counted: &mut Counted,
    remark: &Remark,
) -> Result<(), AllocError>
    requires { IsCounted text.source.now counted.old }
    ensures counted { IsCounted text.entry.source.now counted.new }
    ensures line { OnOk result (out.new.items ≡ out.old.items
        ++ spec.line_of text.entry.source.now (map (λ name. name.now) text.entry.marked.now)
        text.entry.file.now remark.now) }
{
    let pos = remark.token.pos;
    let file = file_name(text, pos.file as usize);
    *counted = column_at(text.source, *counted, pos.offset as usize);
    push_place(
        out,
        file,
        pos.line as usize,
        counted.column,
        remark.token.text,
    )?;
    push_words(out, words_of(remark.lint), name_of(remark.lint))
}

/// Whether a name is one of these.
fn is_among(names: &[String], name: &[u8]) -> bool
    ensures { result ≡ spec.is_among (map string_bytes names.now) name.now }
{
    for next in names {
        if next.as_bytes() == name {
            return true;
        }
    }
    false
}

/// Adds a name, and the number of a line behind `=`.
fn push_numbered(out: &mut Vec<u8>, name: &[u8], line: usize) -> Result<(), AllocError>
    ensures { OnOk result (out.new.items ≡ out.old.items
        ++ concat (name.now ∷ codes "=" ∷ decimal line ∷ [])) }
{
    let mut digits = Buffer::new();
    let line = digits.format(line).as_bytes();
    push_all(out, &[name, b"=", line])?;
    Ok(())
}

/// Whether `NAME=LINE` is one of these.
fn is_line_among(
    alloc: Global,
    names: &[String],
    name: &[u8],
    line: usize,
) -> Result<bool, AllocError>
    ensures { IfOk result (λ found. found ≡ spec.is_among (map string_bytes names.now)
        (concat (name.now ∷ codes "=" ∷ decimal line ∷ []))) }
{
    let mut word = Vec::new(alloc);
    push_numbered(&mut word, name, line)?;
    Ok(is_among(names, word.as_slice()))
}

/// Whether what a lint says on a line is silenced, by the name of the lint or by `NAME=LINE`. The only error is that memory ends.
pub fn is_silenced(
    alloc: Global,
    silenced: &[String],
    lint: Lint,
    line: usize,
) -> Result<bool, AllocError>
    ensures { IfOk result (λ found. found
        ≡ spec.is_silenced (map string_bytes silenced.now) lint line) }
{
    let name = name_of(lint);
    if is_among(silenced, name) {
        Ok(true)
    } else {
        is_line_among(alloc, silenced, name, line)
    }
}

/// Adds the line of a remark, where it is not silenced.
fn push_unless(
    alloc: Global,
    out: &mut Vec<u8>,
    silenced: &[String],
    text: Text,
    counted: &mut Counted,
    remark: &Remark,
) -> Result<(), AllocError>
    requires { IsCounted text.source.now counted.old }
    ensures counted { IsCounted text.entry.source.now counted.new }
    ensures line { OnOk result (out.new.items ≡ out.old.items
        ++ spec.line_unless (map string_bytes silenced.now) text.entry.source.now
        (map (λ name. name.now) text.entry.marked.now) text.entry.file.now remark.now) }
{
    if is_silenced(alloc, silenced, remark.lint, remark.token.pos.line as usize)? {
        Ok(())
    } else {
        push_line(out, text, counted, remark)
    }
}

/// Adds the lines of remarks.
fn push_lines(
    alloc: Global,
    out: &mut Vec<u8>,
    silenced: &[String],
    text: Text,
    remarks: &[Remark],
) -> Result<(), AllocError>
    ensures { OnOk result (out.new.items ≡ out.old.items
        ++ spec.remarks_text (map string_bytes silenced.now) text.entry.source.now
        (map (λ name. name.now) text.entry.marked.now) text.entry.file.now remarks.now) }
{
    let mut counted = Counted::start();
    for remark in remarks {
        push_unless(alloc, out, silenced, text, &mut counted, remark)?;
    }
    Ok(())
}

/// A line `FILE:LINE:COLUMN: warning: TEXT [NAME]` for each remark that is not silenced: by the name of its lint, or by `NAME=LINE`.
///
/// The column counts bytes, from 1 on. The only error is that memory ends.
pub fn lines_of(
    alloc: Global,
    silenced: &[String],
    text: Text,
    remarks: &[Remark],
) -> Result<Vec<u8>, AllocError>
    ensures { IfOk result (λ lines. lines.items
        ≡ spec.remarks_text (map string_bytes silenced.now) text.entry.source.now
        (map (λ name. name.now) text.entry.marked.now) text.entry.file.now remarks.now) }
{
    let mut out = Vec::new(alloc);
    push_lines(alloc, &mut out, silenced, text, remarks)?;
    Ok(out)
}
