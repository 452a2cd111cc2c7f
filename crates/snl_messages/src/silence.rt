//! The options in force, and the messages that they let through.

ghost use Rattle.std.specs.Prelude.{◌≡◌, filter};
ghost use Rattle.snl_syntax.specs.view.Definitions.{definition_view};
ghost use Rattle.snl_syntax.specs.view.Programs.{program_view};
ghost use Rattle.snl_names.specs.Options.{options_by, sign_by};
ghost use Rattle.snl_messages.specs.Entries.{finding_in, severity_by};
ghost use Rattle.snl_messages.specs.Silence as spec;

use crate::entries::Entry;
use snl_resolve::Options;
use snl_syntax::{Def, Program};
use snl_text::Kind;

/// The options in force after a definition, where `before` were.
fn after_definition(before: Options, definition: &Def) -> Options
    ensures { result ≡ options_by (λ letter. sign_by letter (definition_view definition.now)) before }
{
    match definition {
        Def::Setting(setting) => {
            let on = matches!(setting.sign.kind, Kind::Plus);
            before.after(on, setting.name.text)
        }
        _ => before,
    }
}

/// The options in force in a program, where `given` were given with it: of each letter the last
/// sign, and those of the program come after the given ones (Compiling SNL Programs, "Options").
pub fn options_in_force(program: &Program, given: Options) -> Options
    ensures { result ≡ spec.options_in_force (program_view program.now) given }
{
    let mut options = given;
    let definitions = program.definitions.as_slice();
    for definition in definitions {
        options = after_definition(options, definition);
    }
    options
}

/// Whether options let a message with this letter and number through.
fn is_let_through(options: Options, is_warning: bool, number: u8) -> bool
    ensures { result ≡ spec.is_let_through options (severity_by is_warning) number }
{
    if !is_warning {
        true
    } else if number == 5 || number == 6 || number == 8 {
        options.w.unwrap_or(true) && options.u.unwrap_or(false)
    } else {
        options.w.unwrap_or(true)
    }
}

/// Keeps the messages that options let through.
pub fn silence(options: Options, entries: &mut Vec<Entry>)
    ensures { entries.new.items
        ≡ filter (λ e. spec.lets_through options (finding_in e)) entries.old.items }
{
    entries.retain(|entry| is_let_through(options, entry.key.is_warning, entry.key.number));
}
