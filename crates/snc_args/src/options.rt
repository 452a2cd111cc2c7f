//! The words of a call that are options of the language: a sign and letters (SNL Reference, "Option").

ghost use Rattle.std.specs.Prelude.{◌≡◌, IfOk, map, option_map};
ghost use Rattle.std.specs.String.{string_bytes};
ghost use Rattle.snl_names.specs.Options as letter;
ghost use Rattle.snc_args.specs.Options as spec;

use snl_names::{Options, is_program_letter};
use std::alloc::{AllocError, Global};

/// An option: its sign, `true` for `+`, and the letters that follow it, of which there is at least one.
#[derive(Clone, Copy)]
struct OptionWord<'w> {
    on: bool,
    letters: &'w str,
}

/// The option that a word is, if it is one.
fn option_of(word: &str) -> Option<OptionWord<'_>>
    ensures { option_map spec.setting_of result ≡ spec.option_of word.now }
{
    match word.as_bytes() {
        [b'+', _, ..] => Some(OptionWord {
            on: true,
            letters: &word[1..],
        }),
        [b'-', first, ..] if *first != b'-' => Some(OptionWord {
            on: false,
            letters: &word[1..],
        }),
        _ => None,
    }
}

/// Whether a character may follow this sign.
fn is_supported(on: bool, character: char) -> bool
    ensures { result ≡ letter.is_program_letter on character }
{
    character.is_ascii() && is_program_letter(on, character as u8)
}

/// The first character of an option that may not follow its sign.
fn refused_letter(option: OptionWord<'_>) -> Option<char>
    ensures { result ≡ spec.refused_letter (spec.setting_of option.entry) }
{
    option
        .letters
        .chars()
        .find(|character| !is_supported(option.on, *character))
}

/// The sign and the first refused character of the first option that has one.
pub fn first_refused(words: &[String]) -> Option<(char, char)>
    ensures { result ≡ spec.first_refused (spec.options_among (map string_bytes words.now)) }
{
    for word in words {
        if let Some(option) = option_of(word.as_str()) {
            if let Some(character) = refused_letter(option) {
                let sign = if option.on { '+' } else { '-' };
                return Some((sign, character));
            }
        }
    }
    None
}

/// What the options say together: of each letter the last sign is in force.
pub fn options_in_force(words: &[String]) -> Options
    ensures { result ≡ spec.options_in_force (spec.options_among (map string_bytes words.now)) }
{
    let mut options = Options::none();
    for word in words {
        if let Some(option) = option_of(word.as_str()) {
            options = options.after(option.on, option.letters.as_bytes());
        }
    }
    options
}

/// The words that are no options, in order. Fails only where memory ran out.
pub fn rest_of<'w>(alloc: Global, words: &'w [String]) -> Result<Vec<&'w str>, AllocError>
    ensures { IfOk result (λ rest.
        map (λ w. w.now) rest.items ≡ spec.rest_words (map string_bytes words.now)) }
{
    let mut rest = Vec::new(alloc);
    for word in words {
        if option_of(word.as_str()).is_none() {
            rest.push(word.as_str())?;
        }
    }
    Ok(rest)
}
