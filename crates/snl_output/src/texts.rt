//! Texts in rows of a fixed length. To copy a row takes two moves, however long the text is that stands at its front.

ghost use Rattle.std.specs.Prelude.{◌≡◌, ◌+◌, ◌-◌, ◌≤◌, ◌++◌, decimal, drop, length, take, IfOk};

use itoa::{Buffer, write_digits};
use std::alloc::{AllocError, Global};

/// How many bytes a row has. A number has 20 at most.
pub(crate) const ROW: usize = 24;

/// How many bytes the digits of a number are written into, and where they end there: so a row goes from their first one on.
const WIDE: usize = 64;

const END: usize = 40;

/// A text that has no more bytes than a row.
#[derive(Clone, Copy)]
pub struct Short {
    /// Its bytes, and behind them any others.
    bytes: [u8; ROW],
    /// How many it has.
    count: usize,
    ghost within: { count ≤ 24 },
}

/// A text, whose front stands in a row.
#[derive(Drop)]
pub struct Text {
    pub(crate) front: Short,
    /// What is behind the front: nothing, where the row holds all of it.
    pub(crate) more: Vec<u8>,
}

/// Writes a piece over the bytes from a place on.
#[inline(always)]
pub(crate) fn place(bytes: &mut [u8], at: usize, piece: &[u8])
    requires { at + length piece.now ≤ length bytes.old }
    ensures front { take (at + length piece.now) bytes.new ≡ take at bytes.old ++ piece.now }
    ensures length { length bytes.new ≡ length bytes.old }
{
    bytes[at..at + piece.len()].copy_from_slice(piece);
}

/// Writes the digits of a natural number over the bytes from a place on, and others behind them; answers how many digits there are.
#[inline(always)]
pub(crate) fn place_natural(bytes: &mut [u8], at: usize, number: u64) -> usize
    requires { at + 24 ≤ length bytes.old }
    ensures front { take (at + result) bytes.new ≡ take at bytes.old ++ decimal number }
    ensures short { result ≤ 24 }
    ensures length { length bytes.new ≡ length bytes.old }
{
    let mut wide = [0; WIDE];
    let start = write_digits(number, &mut wide, END);
    place(bytes, at, &wide[start..start + ROW]);
    END - start
}

impl Short {
    ghost use Rattle.std.specs.Fmt.{signed_decimal};
    ghost use Rattle.snl_output.specs.Texts.{short_of};

    /// The front of a text, of so many bytes.
    fn front(text: &[u8], count: usize) -> Self
        requires within { count ≤ length text.now }
        requires short { count ≤ 24 }
        ensures { short_of result ≡ take count text.now }
    {
        let mut bytes = [0; ROW];
        place(&mut bytes, 0, &text[..count]);
        Short { bytes, count }
    }

    /// What stands in a wide row from a place on, up to where the digits of a number end.
    #[inline(always)]
    fn from(wide: &[u8; WIDE], start: usize) -> Self
        requires digits { 16 ≤ start }
        requires within { start ≤ 40 }
        ensures { short_of result ≡ take (40 - start) (drop start wide.now) }
    {
        let mut bytes = [0; ROW];
        place(&mut bytes, 0, &wide[start..start + ROW]);
        Short {
            bytes,
            count: END - start,
        }
    }

    /// The digits of a natural number.
    #[inline(always)]
    pub fn natural(number: u64) -> Self
        ensures { short_of result ≡ decimal number }
    {
        let mut wide = [0; WIDE];
        let start = write_digits(number, &mut wide, END);
        Short::from(&wide, start)
    }

    /// The digits of a number, with the sign of one below 0.
    #[inline(always)]
    pub fn number(number: i64) -> Self
        ensures { short_of result ≡ signed_decimal number }
    {
        if number >= 0 {
            return Short::natural(number as u64);
        }
        Short::below_zero(number)
    }

    /// The same, in the way that knows all numbers.
    #[inline(never)]
    pub(crate) fn below_zero(number: i64) -> Self
        ensures { short_of result ≡ signed_decimal number }
    {
        let mut digits = Buffer::new();
        let text = digits.format(number).as_bytes();
        Short::front(text, text.len())
    }

    /// Its bytes.
    pub fn as_slice(&self) -> &[u8]
        ensures { result.now ≡ short_of self.now }
    {
        &self.bytes[..self.count]
    }

    /// Writes it over the bytes from a place on, and the rest of its row behind it.
    #[inline(always)]
    pub(crate) fn lay(&self, bytes: &mut [u8], at: usize)
        requires { at + 24 ≤ length bytes.old }
        ensures front { take (at + self.now.count) bytes.new ≡ take at bytes.old
            ++ short_of self.now }
        ensures length { length bytes.new ≡ length bytes.old }
    {
        place(bytes, at, &self.bytes);
    }

    /// The same, with a text behind it.
    #[inline(always)]
    pub(crate) fn lay_with(&self, bytes: &mut [u8], at: usize, text: &[u8])
        requires { at + 24 + length text.now ≤ length bytes.old }
        ensures front { take (at + self.now.count + length text.now) bytes.new
            ≡ take at bytes.old ++ (short_of self.now ++ text.now) }
        ensures length { length bytes.new ≡ length bytes.old }
    {
        self.lay(bytes, at);
        place(bytes, at + self.count, text);
    }

    /// How many it has.
    #[inline(always)]
    pub(crate) fn len(&self) -> usize
        ensures { result ≡ self.now.count }
    {
        self.count
    }
}

impl Text {
    ghost use Rattle.snl_output.specs.Texts.{text_in};

    /// A text of its own. The only error is that memory ends.
    pub fn of(alloc: Global, text: &[u8]) -> Result<Self, AllocError>
        ensures { IfOk result (λ t. text_in t ≡ text.now) }
    {
        let count = text.len().min(ROW);
        let more = Vec::from_slice(alloc, &text[count..])?;
        Ok(Text {
            front: Short::front(text, count),
            more,
        })
    }
}
