//! Which declaration the name at a place means.

ghost use Rattle.std.specs.Prelude.{◌≡◌};
ghost use Rattle.snl_names.specs.Uses as spec;

use crate::sites::{Meaning, Site};
use snl_text::{Pos, Token};

/// The place of the declaration that a name means, of a variable or an event flag.
pub fn declared_pos(meaning: Meaning) -> Option<Pos>
    ensures { result ≡ spec.declared_pos meaning }
{
    match meaning {
        Meaning::Variable(declared, _) | Meaning::Flag(declared) => Some(declared),
        Meaning::Number | Meaning::Nothing => None,
    }
}

/// The name that a site uses, with what it means there.
pub fn use_at<'a>(site: &Site<'a>) -> Option<(Token<'a>, Meaning)>
    ensures { result ≡ spec.use_at site.now }
{
    match site {
        Site::Use { name, meaning, .. } | Site::Defined { name, meaning, .. } => {
            Some((*name, *meaning))
        }
        _ => None,
    }
}
