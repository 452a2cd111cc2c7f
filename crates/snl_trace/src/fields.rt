//! A line cut into fields.

ghost use Rattle.std.specs.Prelude.{◌≡◌, ◌∷◌, [], ◌<◌, ◌≤◌, false, length, take, drop, IfSome, MatchOption};
ghost use Rattle.std.specs.Bool.{OnTrue};
ghost use Rattle.std.specs.List.{list_all};
ghost use Rattle.snl_trace.specs.Fields as spec;
ghost use Rattle.snl_trace.specs.Fields.{fields, begins_blank};

use bstr::ByteSlice;

/// Whether a byte is a space or a tab.
#[inline(always)]
pub fn is_blank(byte: u8) -> bool
    ensures { result ≡ spec.is_blank byte }
{
    matches!(byte, b' ' | b'\t')
}

/// Whether a byte may stand in the line of an event.
fn is_text(byte: u8) -> bool
    ensures { result ≡ spec.is_text byte }
{
    matches!(byte, b' '..=b'~' | b'\t')
}

/// Whether all bytes of a line may stand in the line of an event. It looks at all of them without a branch, which the
/// compiler turns into a look at sixteen at once.
pub fn is_ascii_text(line: &[u8]) -> bool
    ensures { result ≡ list_all spec.is_text line.now }
{
    let mut all = true;
    for byte in line {
        all &= is_text(*byte);
    }
    all
}

/// Whether the first byte of a text is this one.
#[tactic(auto, using(crate::proofs::FieldLaws::begins_with_not))]
pub fn begins_with(text: &[u8], first: u8) -> bool
    ensures value { result ≡ spec.begins_with first text.now }
    ensures size { OnTrue result (0 < length text.now) }
{
    text.first() == Some(&first)
}

fn is_all_blank(line: &[u8]) -> bool
    ensures { result ≡ list_all spec.is_blank line.now }
{
    line.iter().all(|byte| is_blank(*byte))
}

/// Whether a line tells no event: a comment, or nothing but spaces and tabs.
#[tactic(auto, unfolding(crate::specs::Fields::is_silent))]
pub fn is_silent(line: &[u8]) -> bool
    ensures { result ≡ spec.is_silent line.now }
{
    begins_with(line, b'#') || is_all_blank(line)
}

/// A text without the blanks that it begins with.
#[tactic(auto, using(crate::proofs::FieldLaws::fields_blank, crate::proofs::FieldLaws::begins_blank_empty))]
#[inline(always)]
pub fn trimmed(text: &[u8]) -> &[u8]
    ensures same { fields result.now ≡ fields text.now }
    ensures begins { begins_blank result.now ≡ false }
    ensures shorter { length result.now ≤ length text.now }
{
    let mut left = text;
    while let Some((first, behind)) = left.split_first() {
        if !is_blank(*first) {
            return left;
        }
        left = behind;
    }
    left
}

/// Where the field ends with which a text begins: at its first blank, or with the text.
#[inline(always)]
fn field_end(text: &[u8]) -> usize
    requires filled { 0 < length text.now }
    requires begins { begins_blank text.now ≡ false }
    ensures cut { fields text.now ≡ take result text.now ∷ fields (drop result text.now) }
    ensures more { 0 < result }
    ensures within { result ≤ length text.now }
{
    match text.find_byteset(b" \t") {
        Some(end) => end,
        None => text.len(),
    }
}

/// The first field of a text, and the text behind it; None where there is no field.
#[tactic(auto, using(crate::proofs::FieldLaws::fields_empty))]
#[inline(always)]
pub fn first_field(text: &[u8]) -> Option<(&[u8], &[u8])>
    ensures cut { MatchOption result (fields text.now ≡ [])
        (λ cut. fields text.now ≡ cut.0.now ∷ fields cut.1.now) }
    ensures shorter { IfSome result (λ cut. length cut.1.now < length text.now) }
{
    let left = trimmed(text);
    if left.is_empty() {
        return None;
    }
    Some(left.split_at(field_end(left)))
}
