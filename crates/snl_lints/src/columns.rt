//! The columns of places in a text, which mostly come in its order: each is counted from the one before.

ghost use Rattle.std.specs.Prelude.{◌≡◌, ◌≤◌, suc, length};
ghost use Rattle.snl_lints.specs.Columns as spec;

/// A place whose column was counted.
#[derive(Clone, Copy)]
pub struct Counted {
    /// How many bytes stand in front of it.
    pub offset: usize,
    /// Its column, in bytes from 1 on.
    pub column: usize,
}

impl Counted {
    /// The begin of a text.
    pub fn start() -> Counted
        ensures { result ≡ spec.start }
    {
        Counted {
            offset: 0,
            column: 1,
        }
    }
}

/// An offset, or the end of a text where it is past that.
fn within(text: &[u8], offset: usize) -> usize
    ensures place { result ≡ spec.within text.now offset }
    ensures inside { result ≤ length text.now }
{
    if offset < text.len() {
        offset
    } else {
        text.len()
    }
}

/// The column of a place that does not stand in front of one whose column was counted.
#[tactic(auto, using(crate::proofs::ColumnLaws::column_newline, crate::proofs::ColumnLaws::column_more))]
fn forward(text: &[u8], from: Counted, to: usize) -> usize
    requires counted { spec.IsCounted text.now from }
    requires behind { from.offset ≤ to }
    requires inside { to ≤ length text.now }
    ensures column { result ≡ spec.column_at text.now to }
    ensures small { result ≤ suc to }
{
    let mut column = from.column;
    for at in from.offset..to {
        if text[at] == b'\n' {
            column = 1;
        } else {
            column += 1;
        }
    }
    column
}

/// The place at a number of bytes.
fn place_at(text: &[u8], from: Counted, to: usize) -> Counted
    requires counted { spec.IsCounted text.now from }
    requires inside { to ≤ length text.now }
    ensures counted { spec.IsCounted text.now result }
    ensures place { result.column ≡ spec.column_at text.now to }
{
    let from = if from.offset <= to {
        from
    } else {
        Counted::start()
    };
    let column = forward(text, from, to);
    Counted { offset: to, column }
}

/// The place at an offset, with its column, from one whose column was counted: quick where that stands in front of it.
pub fn column_at(text: &[u8], from: Counted, offset: usize) -> Counted
    requires counted { spec.IsCounted text.now from }
    ensures counted { spec.IsCounted text.now result }
    ensures column { result.column ≡ spec.column_of text.now offset }
{
    place_at(text, from, within(text, offset))
}
