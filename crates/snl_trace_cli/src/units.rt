//! The file of units of a call.

use snc::Status;
use snc_cli::source_in;
use snl_args::Call;
use snl_units::{ChannelUnits, UnitsFault, units_of};

/// How many bytes a file of units has at most.
const MOST: usize = 1_048_576;

/// What a file of units says. Where a line of it is wrong, or it is too long, the user is told.
fn units_in(rt: &HostRuntime, file: &str) -> Result<Vec<ChannelUnits>, Status> {
    let text = source_in(rt, "snl", file)?;
    if text.len() > MOST {
        let _ = eprintln!(rt; "snl: {file} has more than {MOST} bytes: it is no file of units");
        return Err(Status::Usage);
    }
    match units_of(rt.alloc(), text.as_slice()) {
        Ok(units) => Ok(units),
        Err(UnitsFault::Memory) => Err(Status::Memory),
        Err(fault) => {
            let _ = eprintln!(rt; "{fault}");
            Err(Status::Usage)
        }
    }
}

/// What the file of units says that a call names; nothing where it names none.
pub fn units_for(rt: &HostRuntime, call: &Call) -> Result<Vec<ChannelUnits>, Status> {
    match &call.units {
        Some(file) => units_in(rt, file.as_str()),
        None => Ok(Vec::new(rt.alloc())),
    }
}
