//! Texts as bytes: cut at a mark, and without the blanks round them.

ghost use Rattle.std.specs.Prelude.{◌≡◌, ◌≤◌, ◌<◌, length, option_map, IfSome, bytes_eq};
ghost use Rattle.snl_channels.specs.Texts as spec;

use snl_text::is_blank;

/// A text cut at the first byte that is a mark.
#[derive(Clone, Copy)]
pub struct Cut<'a> {
    /// All of the text where it has no mark.
    pub before: &'a [u8],
    /// None where it has no mark.
    pub after: Option<&'a [u8]>,
}

/// Cuts a text at the first byte that is a mark.
pub fn cut_at(text: &[u8], mark: u8) -> Cut<'_>
    ensures before { result.before.now ≡ spec.before mark text.now }
    ensures after { option_map (λ t. t.now) result.after ≡ spec.after mark text.now }
    ensures shorter { IfSome result.after (λ t. length t.now < length text.now) }
{
    for (index, byte) in text.iter().enumerate() {
        if *byte == mark {
            return Cut {
                before: &text[..index],
                after: Some(&text[index + 1..]),
            };
        }
    }
    Cut {
        before: text,
        after: None,
    }
}

fn without_leading(text: &[u8]) -> &[u8]
    ensures { result.now ≡ spec.without_leading text.now }
{
    let mut left = text;
    while let Some((first, more)) = left.split_first() {
        if !is_blank(*first) {
            return left;
        }
        left = more;
    }
    left
}

fn without_trailing(text: &[u8]) -> &[u8]
    ensures { result.now ≡ spec.without_trailing text.now }
{
    let mut left = text;
    while let Some((last, before)) = left.split_last() {
        if !is_blank(*last) {
            return left;
        }
        left = before;
    }
    left
}

/// A text without the blanks at both ends.
pub fn trimmed(text: &[u8]) -> &[u8]
    ensures { result.now ≡ spec.trimmed text.now }
{
    without_trailing(without_leading(text))
}
