//! The recorded trace that a call names.

use snc::Status;
use snc_cli::opened;
use snl_args::SearchWords;
use std::fs::File;

/// The recorded trace that the words of a call name, if they do. Where it cannot be opened, the user is told.
pub fn recorded(rt: &HostRuntime, words: &SearchWords) -> Result<Option<File>, Status> {
    match &words.wanted.like {
        Some(name) => Ok(Some(opened(rt, "snl", name.as_str())?)),
        None => Ok(None),
    }
}
