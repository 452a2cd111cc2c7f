//! MACROS of a call: what stands in their place by mistake, and what is noted of them.

use snc::Status;
use snc_cli::tell;
use snl_args::{Call, misplaced_text};
use snl_views::macro_notes;
use std::fs;

/// Whether a word gives no macro a value, or is the name of a file that is there.
fn is_misplaced(rt: &HostRuntime, macros: &str) -> bool {
    !macros.contains('=') || fs::exists(rt, macros).unwrap_or(false)
}

/// Sees that the MACROS of a call are some. Where they are not, standard error tells the call that was meant.
pub fn check_macros(rt: &HostRuntime, call: &Call) -> Result<(), Status> {
    match &call.job.macros {
        Some(macros) if !macros.is_empty() && is_misplaced(rt, macros.as_str()) => {
            let text = misplaced_text(rt.alloc(), call, macros.as_str())?;
            tell(rt, text.as_bytes());
            Err(Status::Usage)
        }
        _ => Ok(()),
    }
}

/// A line for each macro of a call that its source does not use.
pub fn notes_of(rt: &HostRuntime, source: &[u8], call: &Call) -> Result<Vec<u8>, Status> {
    let Some(macros) = &call.job.macros else {
        return Ok(Vec::new(rt.alloc()));
    };
    Ok(macro_notes(rt.alloc(), source, macros.as_str())?)
}
