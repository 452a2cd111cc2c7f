//! Notes that wait for the next line of a run, and those in front of a line, in room that is never made anew.

ghost use Rattle.std.specs.Prelude.{◌≡◌, ◌≤◌, length, take, true};
ghost use Rattle.snl_watch.specs.Folding as spec;

use crate::noted::are_notes;
use std::alloc::{AllocError, Global};
use std::mem;

/// How many bytes of notes wait for a line at most.
const WAITING: usize = 512;

/// How many bytes the room for them has: also for the line that says that there are more.
const ROOM: usize = 523;

/// What stands where notes were left out.
const MORE: &[u8] = b"# and more\n";

/// Notes that wait for the next line, one behind the other, each with its newline.
#[derive(Drop)]
pub(crate) struct Waiting {
    alloc: Global,
    room: Vec<u8>,
    /// How many bytes of the room are taken.
    used: usize,
    /// Whether some notes were left out.
    is_full: bool,
}

/// The front of a room that is taken.
#[inline(always)]
pub(crate) fn taken(room: &Vec<u8>, used: usize) -> &[u8] {
    match room.get(..used) {
        Some(front) => front,
        None => b"",
    }
}

impl Waiting {
    /// No note waits. Fails only where memory ran out.
    pub(crate) fn new(alloc: Global) -> Result<Self, AllocError> {
        Ok(Waiting {
            alloc,
            room: vec![in alloc; 0u8; ROOM]?,
            used: 0,
            is_full: false,
        })
    }

    /// Whether no note waits.
    pub(crate) fn is_empty(&self) -> bool {
        self.used == 0
    }

    /// Whether some notes were left out.
    pub(crate) fn is_full(&self) -> bool {
        self.is_full
    }

    /// How many bytes wait.
    pub(crate) fn len(&self) -> usize {
        self.used
    }

    /// Adds a piece of a note; None where there is no room.
    #[inline(always)]
    pub(crate) fn add(&mut self, piece: &[u8]) -> Option<()> {
        let end = self.used.checked_add(piece.len())?;
        if end > self.room.len() {
            return None;
        }
        self.room[self.used..end].copy_from_slice(piece);
        self.used = end;
        Some(())
    }

    /// Leaves out the note that was added last, where it was not added whole or there is no room for it, and says that there
    /// are more.
    pub(crate) fn settle(&mut self, before: usize, added: Option<()>) {
        if added.is_some() && self.used <= WAITING {
            return;
        }
        self.is_full = true;
        self.used = before;
        let _more = self.add(MORE);
    }

    /// Takes the notes that wait, with their room, which `put_back` gives back.
    pub(crate) fn take(&mut self) -> (Vec<u8>, usize) {
        let used = self.used;
        self.is_full = false;
        self.used = 0;
        (mem::replace(&mut self.room, Vec::new(self.alloc)), used)
    }

    /// Gives room back for the next notes.
    pub(crate) fn put_back(&mut self, room: Vec<u8>) {
        self.room = room;
    }
}

/// Notes in front of a line: extra lines and nothing else, of which none reads as the line of a fold.
#[derive(Drop)]
pub(crate) struct LineNotes {
    room: Vec<u8>,
    /// How many bytes of the room are taken.
    used: usize,
    ghost within: { used ≤ length room.items },
    ghost noted: { spec.are_notes (take used room.items) ≡ true },
}

impl LineNotes {
    /// No note. Fails only where memory ran out.
    pub(crate) fn new(alloc: Global) -> Result<Self, AllocError> {
        Ok(LineNotes {
            room: vec![in alloc; 0u8; ROOM]?,
            used: 0,
        })
    }

    /// The notes.
    #[inline(always)]
    pub(crate) fn as_slice(&self) -> &[u8]
        ensures { spec.are_notes result.now ≡ true }
    {
        &self.room[..self.used]
    }

    /// Takes the notes that wait, where they are such; else none. What stood here is gone. Both rooms are exchanged.
    #[inline(always)]
    pub(crate) fn take(&mut self, waiting: &mut Waiting) {
        self.used = 0;
        let used = waiting.used;
        waiting.is_full = false;
        waiting.used = 0;
        if used == 0 || used > waiting.room.len() || !are_notes(&waiting.room[..used]) {
            return;
        }
        mem::swap(&mut self.room, &mut waiting.room);
        self.used = used;
    }
}
