//! The letters of options.

ghost use Rattle.std.specs.Prelude.{◌≡◌, map};
ghost use Rattle.snl_syntax.specs.view.Definitions.{definition_view, setting_view};
ghost use Rattle.snl_names.specs.Options as spec;

use snl_syntax::{Def, Setting};
use snl_text::Kind;

/// The signs in force of the letters that change what is said of a program or how it starts:
/// `true` for `+`, None where no option has the letter (SNL Reference, "Option").
#[derive(Clone, Copy)]
pub struct Options {
    /// Safe mode is asked for.
    pub s: Option<bool>,
    /// The program waits for its channels before it starts.
    pub c: Option<bool>,
    /// Names that are not used have warnings.
    pub u: Option<bool>,
    /// Warnings are given.
    pub w: Option<bool>,
}

/// Whether one of the letters is this one.
fn has_letter(letters: &[u8], letter: u8) -> bool
    ensures { result ≡ spec.is_among letters.now letter }
{
    letters.iter().any(|next| letter == *next)
}

/// The sign that an option with this sign and these letters gives to a letter, if it has the letter.
fn sign_said(letter: u8, on: bool, letters: &[u8]) -> Option<bool>
    ensures { result ≡ spec.sign_said letter on letters.now }
{
    if has_letter(letters, letter) {
        Some(on)
    } else {
        None
    }
}

/// The sign that a definition gives to a letter, `true` for `+`.
fn sign_by(letter: u8, definition: &Def) -> Option<bool>
    ensures { result ≡ spec.sign_by letter (definition_view definition.now) }
{
    match definition {
        Def::Setting(setting) => {
            let on = matches!(setting.sign.kind, Kind::Plus);
            sign_said(letter, on, setting.name.text)
        }
        _ => None,
    }
}

/// The sign of a letter that is in force among the definitions of a state, `true` for `+`: that of the last option with the
/// letter, and `+` where none has it (SNL Reference, "State Options").
pub fn sign_in_force(letter: u8, definitions: &[Def]) -> bool
    ensures { result ≡ spec.sign_in_force letter (map definition_view definitions.now) }
{
    let mut on = true;
    for definition in definitions {
        if let Some(sign) = sign_by(letter, definition) {
            on = sign;
        }
    }
    on
}

impl Options {
    /// The signs where there is no option.
    pub fn none() -> Options
        ensures { result ≡ spec.no_options }
    {
        Options {
            s: None,
            c: None,
            u: None,
            w: None,
        }
    }

    /// The signs after one more option with this sign, `true` for `+`, and these letters: of each
    /// letter the last sign is in force.
    pub fn after(self, on: bool, letters: &[u8]) -> Options
        ensures { result ≡ spec.after_option on letters.now self }
    {
        Options {
            s: sign_said(b's', on, letters).or(self.s),
            c: sign_said(b'c', on, letters).or(self.c),
            u: sign_said(b'u', on, letters).or(self.u),
            w: sign_said(b'w', on, letters).or(self.w),
        }
    }
}

/// Whether it is a letter of the program's options, with `+` or with `-`.
pub fn is_program_letter(on: bool, letter: u8) -> bool
    ensures { result ≡ spec.is_program_letter on letter }
{
    match letter {
        b'a' => !on,
        b'e' => on,
        b'c' | b'd' | b'i' | b'l' | b'm' | b'r' | b's' | b'u' | b'w' | b'W' => true,
        _ => false,
    }
}

/// Whether it is a letter of a state's options.
fn is_state_letter(letter: u8) -> bool
    ensures { result ≡ spec.is_state_letter letter }
{
    matches!(letter, b't' | b'e' | b'x')
}

/// The first of some letters that is none of the program's.
fn refused_in_program(on: bool, letters: &[u8]) -> Option<u8>
    ensures { result ≡ spec.first_refused (spec.is_program_letter on) letters.now }
{
    for letter in letters {
        if !is_program_letter(on, *letter) {
            return Some(*letter);
        }
    }
    None
}

/// The first of some letters that is none of a state's.
fn refused_in_state(letters: &[u8]) -> Option<u8>
    ensures { result ≡ spec.first_refused spec.is_state_letter letters.now }
{
    for letter in letters {
        if !is_state_letter(*letter) {
            return Some(*letter);
        }
    }
    None
}

/// The first letter of an option that is refused, of a state's or of the program's (SNL Reference,
/// "State Options" and "Option").
pub fn refused(in_state: bool, setting: Setting) -> Option<u8>
    ensures { result ≡ spec.refused in_state (setting_view setting.entry) }
{
    if in_state {
        refused_in_state(setting.name.text)
    } else {
        let on = matches!(setting.sign.kind, Kind::Plus);
        refused_in_program(on, setting.name.text)
    }
}
