//! What follows the word `explain`: the name of a message or of a lint, whose section is told.

use crate::arguments::{Argument, Takes, argument_list};
use crate::calls::{CallFault, usage};
use crate::forms::{Synopsis, found_by};
use crate::texts;
use snl_pages::{nearest_name, page_named};
use std::alloc::{AllocError, Global};

/// What `explain` takes.
const OF_EXPLAIN: [Argument; 1] = argument_list! {
    "NAME": Takes::Place, "The number of a message, as E20 or W7, or the name of a lint";
};

static EXPLAIN: Synopsis = Synopsis {
    texts: texts::EXPLAIN,
    arguments: &[&OF_EXPLAIN],
};

/// The section of a name, or that there is none.
fn section_of(alloc: Global, name: &str) -> Result<CallFault, AllocError> {
    match page_named(name) {
        Some(text) => Ok(CallFault::Told(String::from_str(alloc, text)?)),
        None => {
            let nearest = nearest_name(alloc, name)?;
            let wrong = format!(in alloc;
                "there is no message and no lint '{name}'; the nearest is '{nearest}'"
            )?;
            Ok(usage(alloc, wrong.as_str()))
        }
    }
}

/// What follows `explain`: it asks for no file, so all that it tells is a text.
pub(crate) fn read_explain(alloc: Global, words: &[&str]) -> CallFault {
    match found_by(alloc, &EXPLAIN, words) {
        Ok(matches) => match section_of(alloc, matches.get_str("NAME").unwrap_or("")) {
            Ok(section) => section,
            Err(_) => CallFault::Memory,
        },
        Err(fault) => fault,
    }
}
