//! The program that a trace of logs is made for.

use crate::macros::notes_of;
use snc::{Answered, Loading, Status, answer};
use snc_args::Job;
use snc_cli::{source_in, tell};
use snl_args::Call;
use snl_import::{ProgramChannel, WishedProgram};
use snl_machine::Machine;
use std::alloc::{AllocError, Global};

/// A program that a trace is made for.
#[derive(Drop)]
pub struct Traced {
    /// Its machine, which never starts.
    pub machine: Box<Machine>,
    /// What names it, and its channels.
    pub program: WishedProgram,
    /// What is noted of its macros, and the messages about it.
    pub messages: Vec<u8>,
}

/// The channels of a machine's program, by their names.
fn names_of(alloc: Global, machine: &Machine) -> Result<Vec<ProgramChannel>, AllocError> {
    let mut channels = Vec::new(alloc);
    for number in 0..machine.link_count() {
        match machine.channel_name(number) {
            Some(name) => channels.push(ProgramChannel {
                name: Vec::from_slice(alloc, name)?,
                is_monitored: false,
            })?,
            None => return Ok(channels),
        }
    }
    Ok(channels)
}

/// Notes whether the channel of a link is monitored.
fn note_link(machine: &Machine, number: usize, channels: &mut [ProgramChannel]) {
    let Some(link) = machine.link(number) else {
        return;
    };
    let Some(place) = link.channel else {
        return;
    };
    if let Some(channel) = channels.get_mut(place) {
        channel.is_monitored = channel.is_monitored || link.is_monitored;
    }
}

/// The channels of a machine's program, in their order.
fn channels_of(alloc: Global, machine: &Machine) -> Result<Vec<ProgramChannel>, AllocError> {
    let mut channels = names_of(alloc, machine)?;
    for number in 0..machine.link_count() {
        note_link(machine, number, channels.as_mut_slice());
    }
    Ok(channels)
}

/// The words that name a program in a call.
fn words_of(alloc: Global, job: &Job) -> Result<Vec<u8>, AllocError> {
    let mut words = Vec::from_slice(alloc, job.file.as_bytes())?;
    if let Some(macros) = &job.macros {
        words.push(b' ')?;
        words.extend_from_slice(macros.as_bytes())?;
    }
    Ok(words)
}

/// What a trace is made for, by the machine of its program.
fn traced_of(
    alloc: Global,
    machine: Box<Machine>,
    job: &Job,
    messages: Vec<u8>,
) -> Result<Traced, AllocError> {
    let program = WishedProgram {
        words: words_of(alloc, job)?,
        channels: channels_of(alloc, machine.as_ref())?,
    };
    Ok(Traced {
        machine,
        program,
        messages,
    })
}

/// The program that the words of a call name. Where it has an error, standard error tells so.
pub fn traced_program(rt: &HostRuntime, call: &Call) -> Result<Traced, Status> {
    let job = &call.job;
    let source = source_in(rt, "snl", job.file.as_str())?;
    let mut notes = notes_of(rt, source.as_slice(), call)?;
    let Answered { messages, made } = answer(rt.alloc(), job, source.as_slice(), &Loading)?;
    notes.extend_from_slice(messages.as_slice())?;
    match made {
        Some(machine) => Ok(traced_of(rt.alloc(), machine, job, notes)?),
        None => {
            tell(rt, notes.as_slice());
            Err(Status::SourceErrors)
        }
    }
}
