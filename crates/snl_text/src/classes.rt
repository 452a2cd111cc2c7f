//! Classes of bytes, and how long a run of one class is.

ghost use Rattle.snl_text.specs.Bytes.{is_blank, is_control, is_digit, is_in_line, is_inner_blank, is_letter, is_name_byte, is_number_byte};
ghost use Rattle.std.specs.List.{prefix_len};
ghost use Rattle.std.specs.Prelude.{◌<◌, ◌==◌, ◌≡◌, ◌≢◌, ◌≤◌, Bool, IsTrue, length, slice_index, ℕ};

/// The byte at a place, or 0 past the end. No rule asks for a byte 0.
pub fn byte_at(bytes: &[u8], place: usize) -> u8
    ensures value { result ≡ slice_index bytes.now place }
    ensures within { result ≢ 0 → place < length bytes.now }
{
    if place < bytes.len() { bytes[place] } else { 0 }
}

/// Whether a byte parts tokens and is no part of one: a space, a tab, a line feed, a vertical tab, a form feed or a
/// carriage return.
pub fn is_blank(byte: u8) -> bool
    ensures { result ≡ is_blank byte }
{
    byte == b' ' || matches!(byte, b'\t'..=b'\r')
}

/// The first byte of a name.
pub fn is_letter(byte: u8) -> bool
    ensures { result ≡ is_letter byte }
{
    matches!(byte, b'a'..=b'z' | b'A'..=b'Z' | b'_')
}

pub fn is_digit(byte: u8) -> bool
    ensures { result ≡ is_digit byte }
{
    matches!(byte, b'0'..=b'9')
}

/// A byte that ends a string which is still open.
pub fn is_control(byte: u8) -> bool
    ensures { result ≡ is_control byte }
{
    byte < 0x20 && byte != b'\t' || byte == 0x7F
}

/// A set of bytes.
pub trait ByteClass {
    ghost has: { ℕ → Bool };

    fn has(byte: u8) -> bool
        ensures { result ≡ has byte };
}

/// The bytes of a name, after its first.
pub struct NameByte;

impl ByteClass for NameByte {
    ghost has = { is_name_byte };

    fn has(byte: u8) -> bool {
        is_letter(byte) || is_digit(byte)
    }
}

/// The bytes of a word that begins like a number.
pub struct NumberByte;

impl ByteClass for NumberByte {
    ghost has = { is_number_byte };

    fn has(byte: u8) -> bool {
        is_letter(byte) || is_digit(byte) || byte == b'.'
    }
}

/// The digits 0 to 9.
pub struct Digit;

impl ByteClass for Digit {
    ghost has = { is_digit };

    fn has(byte: u8) -> bool {
        is_digit(byte)
    }
}

/// The digit 0.
pub struct Zero;

impl ByteClass for Zero {
    ghost has = { λ byte. byte == 48 };

    fn has(byte: u8) -> bool {
        byte == b'0'
    }
}

/// The blanks that may stand inside a line.
pub struct InnerBlank;

impl ByteClass for InnerBlank {
    ghost has = { is_inner_blank };

    fn has(byte: u8) -> bool {
        is_blank(byte) && byte != b'\n'
    }
}

/// All bytes but the newline.
pub struct InLine;

impl ByteClass for InLine {
    ghost has = { is_in_line };

    fn has(byte: u8) -> bool {
        byte != b'\n'
    }
}

/// How many bytes at the front are of a class.
pub fn run<C: ByteClass>(bytes: &[u8]) -> usize
    ensures value { result ≡ prefix_len C.has bytes.now }
    ensures within { result ≤ length bytes.now }
    ensures some { 0 < length bytes.now → IsTrue (C.has (slice_index bytes.now 0)) → 0 < result }
{
    for (i, byte) in bytes.iter().enumerate() {
        if !C::has(*byte) {
            return i;
        }
    }
    bytes.len()
}
