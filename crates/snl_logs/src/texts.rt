//! Parts of a text.

ghost use Rattle.std.specs.Prelude.{◌≡◌, ◌++◌};

/// Whether a byte is a space, a tab or what ends a line.
pub fn is_blank(byte: u8) -> bool {
    matches!(byte, b' ' | b'\t' | b'\r' | b'\n')
}

/// A line without what ends it: a newline, and a carriage return in front of that.
pub fn without_end(line: &[u8]) -> &[u8] {
    let bare = match line {
        [front @ .., b'\n'] => front,
        _ => line,
    };
    match bare {
        [front @ .., b'\r'] => front,
        _ => bare,
    }
}

/// A text without the blanks that it begins with.
pub fn trimmed_start(text: &[u8]) -> &[u8] {
    let mut left = text;
    while let [first, behind @ ..] = left {
        if !is_blank(*first) {
            return left;
        }
        left = behind;
    }
    left
}

/// A text without the blanks that it ends with.
pub fn trimmed_end(text: &[u8]) -> &[u8] {
    let mut left = text;
    while let [before @ .., last] = left {
        if !is_blank(*last) {
            return left;
        }
        left = before;
    }
    left
}

/// A text up to its first blank, and from there on.
pub fn word_of(text: &[u8]) -> (&[u8], &[u8])
    ensures { text.now ≡ result.0.now ++ result.1.now }
{
    let mut place = 0;
    while place < text.len() && !is_blank(text[place]) {
        place += 1;
    }
    text.split_at(place)
}

/// A text up to behind its last blank, and its last word.
pub fn last_word_of(text: &[u8]) -> (&[u8], &[u8])
    ensures { text.now ≡ result.0.now ++ result.1.now }
{
    let mut place = text.len();
    while place > 0 && !is_blank(text[place - 1]) {
        place -= 1;
    }
    text.split_at(place)
}

/// The digits that a text begins with, and the text behind them.
pub fn digits_of(text: &[u8]) -> (&[u8], &[u8])
    ensures { text.now ≡ result.0.now ++ result.1.now }
{
    let mut place = 0;
    while place < text.len() && text[place].is_ascii_digit() {
        place += 1;
    }
    text.split_at(place)
}

/// The number that 1 to 18 digits spell.
pub fn spelled(digits: &[u8]) -> Option<u64> {
    if digits.is_empty() || digits.len() > 18 {
        return None;
    }
    let mut number = 0u64;
    for digit in digits {
        if !digit.is_ascii_digit() {
            return None;
        }
        number = number
            .checked_mul(10)?
            .checked_add(u64::from(*digit - b'0'))?;
    }
    Some(number)
}
