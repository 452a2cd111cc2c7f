//! Whether two units are the same: whether a number of a trace stands for the same by both.

ghost use Rattle.std.specs.Prelude.{◌≡◌};
ghost use Rattle.snl_units.specs.Values as values;

use crate::units::{TextNumber, Unit};

/// The number of a text, if it has one.
pub(crate) fn number_in(numbers: &[TextNumber], text: &[u8]) -> Option<i64>
    ensures { result ≡ values.number_in numbers.now text.now }
{
    for one in numbers {
        if one.text.as_slice() == text {
            return Some(one.number);
        }
    }
    None
}

/// Whether each text of one list has the same number in the other.
fn are_in(numbers: &[TextNumber], others: &[TextNumber]) -> bool {
    for one in numbers {
        if number_in(others, one.text.as_slice()) != Some(one.number) {
            return false;
        }
    }
    true
}

/// Whether two patterns have the same pieces.
fn are_same_pieces(left: &[Vec<u8>], right: &[Vec<u8>]) -> bool {
    if left.len() != right.len() {
        return false;
    }
    for (place, piece) in left.iter().enumerate() {
        if right.get(place).map(|other| other.as_slice()) != Some(piece.as_slice()) {
            return false;
        }
    }
    true
}

/// Whether two units are the same. Of texts the order says nothing.
pub(crate) fn are_same(left: &Unit, right: &Unit) -> bool {
    match (left, right) {
        (Unit::Scale(top, bottom), Unit::Scale(other_top, other_bottom)) => {
            top == other_top && bottom == other_bottom
        }
        (Unit::Enum(numbers), Unit::Enum(others)) => {
            are_in(numbers.as_slice(), others.as_slice())
                && are_in(others.as_slice(), numbers.as_slice())
        }
        (Unit::Text(pieces), Unit::Text(others)) => {
            are_same_pieces(pieces.as_slice(), others.as_slice())
        }
        (Unit::Severity, Unit::Severity) | (Unit::Time, Unit::Time) => true,
        _ => false,
    }
}
