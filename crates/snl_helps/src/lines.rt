//! What helps at a token that cannot stand, by the words of its line.

ghost use Rattle.std.specs.Prelude.{◌≡◌, slice_get};
ghost use Rattle.std.specs.Option.{option_map};
ghost use Rattle.snl_helps.specs.Helps as spec;

use crate::helps::help_at;
use snl_text::Token;

/// The text of a token by its number, if there is one and it stands on this line.
fn text_on<'a>(tokens: &[Token<'a>], line: usize, at: usize) -> Option<&'a [u8]>
    ensures { option_map (λ text. text.now) result ≡ spec.text_on line (slice_get tokens.now at) }
{
    match tokens.get(at) {
        Some(token) if (token.pos.line as usize) == line => Some(token.text),
        _ => None,
    }
}

/// What helps at the last of so many first tokens at which something is known, up to the first that stands on another line.
fn help_before(tokens: &[Token], line: usize, count: usize) -> Option<&'static [u8]>
    ensures { option_map (λ help. help.now) result ≡ spec.help_before tokens.now line count }
{
    for at in (0..count).rev() {
        match text_on(tokens, line, at) {
            None => return None,
            Some(text) => {
                if let Some(help) = help_at(text) {
                    return Some(help);
                }
            }
        }
    }
    None
}

/// What helps where the token of this number is the first that cannot stand (docs/MESSAGES.md, E01): something that is known of its
/// text, or of the nearest token in front of it on its line.
///
/// None where nothing is known, and where there are no more tokens.
pub fn help_for(tokens: &[Token], k: usize) -> Option<&'static [u8]>
    ensures { option_map (λ help. help.now) result ≡ spec.help_for tokens.now k }
{
    match tokens.get(k) {
        Some(token) => help_before(tokens, token.pos.line as usize, k + 1),
        None => None,
    }
}
