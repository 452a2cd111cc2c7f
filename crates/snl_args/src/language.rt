//! The words of a call that ask for help by one letter, which is none of the language's options.

use std::alloc::{AllocError, Global};

/// A word, or `--help` in the place of `-h` where that asks for help.
fn with_name(word: &str, is_open: bool) -> &str {
    if is_open && word == "-h" {
        "--help"
    } else {
        word
    }
}

/// The words with `--help` in the place of each `-h`. Behind `--` the word stays as it is, and is refused as an option. Fails
/// only where memory ran out.
pub(crate) fn with_help(alloc: Global, words: &[String]) -> Result<Vec<String>, AllocError> {
    let mut all = Vec::new(alloc);
    let mut is_open = true;
    for word in words {
        is_open = is_open && word.as_str() != "--";
        all.push(String::from_str(alloc, with_name(word.as_str(), is_open))?)?;
    }
    Ok(all)
}
