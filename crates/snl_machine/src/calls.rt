//! The events that a machine takes, and what it tells.

ghost use Rattle.std.specs.Prelude.{◌≡◌, ◌↔◌, ◌-◌, ◌^◌, ◌<◌, ℕ, Bool, List, Some, IsTrue, OnErr};
ghost use Rattle.snl_syntax.specs.Programs.{ProgramTree};
ghost use Rattle.snl_channels.specs.Links.{Link};
ghost use Rattle.snl_load.specs.Meaning.{program_meaning};
ghost use Rattle.snl_meaning.specs.Frames.{at_time, frame_of};
ghost use Rattle.snl_meaning.specs.Links.{home_of};
ghost use Rattle.snl_schedule.specs.Event.{HasInstant, line_of};
ghost use Rattle.snl_schedule.specs.Steps.{line_steps};
ghost use Rattle.snl_vm.specs.Counting.{Adds};
ghost use Rattle.snl_output.specs.Devices.{counted, stopped_by_sink};
ghost use Rattle.snl_output.specs.Does.{Does};
ghost use Rattle.snl_machine.specs.Holding.{loaded_by};
ghost use Rattle.snl_machine.specs.Lookup.{channel_of, fits_of};
ghost use Rattle.snl_machine.specs.MachineOf.{IsMachineOf, StaysMachineOf, fixed_of, task_held, words_held, world_held};

use crate::machine::Machine;
use snl_load::channel_number;
use snl_meaning::Live;
use snl_output::{Sink, Stop};
use snl_schedule::{Event, ProgramContext, fits, take};
use snl_vm::{CodeContext, Steps};
use std::sync::ledger::Ledger;

impl Machine {
    /// The number of the channel of a name; None where the program uses no such channel. Channels have the numbers from 0
    /// on, in the order in which `assign` definitions first name them.
    pub fn channel(&self, name: &[u8]) -> Option<usize>
        ensures { result ≡ channel_of self.now name.now }
    {
        channel_number(&self.names, name)
    }

    /// Whether a channel of this name has this number.
    #[inline(always)]
    pub fn is_channel(&self, number: usize, name: &[u8]) -> bool
        ensures { IsTrue result ↔ (channel_of self.now name.now ≡ Some number) }
    {
        match self.names.as_slice().get(number) {
            Some(named) => named.as_slice() == name,
            None => false,
        }
    }

    /// The word of a state set's copy where the elements of a link begin: with it who hears that a clause fired tells the value
    /// of a variable among the words. State sets and links have the numbers from 0 on, in the order of their definitions. None
    /// where the copy does not have the link's variable, or there is no such state set or link.
    pub fn home(&self, set: usize, link: usize) -> Option<usize>
        ensures { result ≡ home_of set link (world_held self.now) }
    {
        self.memory.store.home(set, link)
    }

    /// The time of the last event, in milliseconds, or of the wake at which the program ended; 0 before the first event.
    pub fn time(&self) -> u64
        ensures { result ≡ (world_held self.now).time }
    {
        self.memory.store.time
    }

    /// How many words the machine holds: the elements of variables, also of functions, of buffers and queues, and what it knows of
    /// state sets, links, event flags and channels, with the room of the operands and a place for each function where a call goes
    /// on. They were made by `load`, no event changes their number, and no call after `load` takes more. Code, names and the tables
    /// of links are not among them.
    pub fn footprint(&self) -> u64
        ensures { result ≡ words_held self.now }
    {
        self.footprint
    }

    /// Whether an event speaks of a channel of this machine, and each value that a link of that channel keeps fits the
    /// link's variable.
    pub fn fits(&self, event: &Event) -> bool
        ensures { result ≡ fits_of self.now event.now }
    {
        fits(event, self.names.len(), &self.plan)
    }

    /// Does what a line of a trace asks for at a time in milliseconds, and hands the lines of the run to the sink. A
    /// machine that has ended does nothing.
    ///
    /// After a fault, and where the sink fails, the machine has ended, and what was written stands. Its time is then that of the
    /// instant in which that happened: at a wake before the line's time, or at that of the line.
    ///
    /// Each instruction that it executes is one of the steps, which take no bytes at run time: `steps` grows by exactly as many as
    /// the runs of code have in the instants of this call. Where the sink fails, it grows by at most these.
    pub fn event<S: Sink, L: Ledger>(
        &mut self,
        ms: u64,
        event: &Event,
        sink: &mut S,
        steps: &mut Steps<L>,
    ) -> Result<Live, Stop>
        requires { S.failures sink.old < 2 ^ 64 - 1 }
        ensures does { Does (λ live. live) result (world_held self.new) (S.told sink.old)
            (S.told sink.new)
            (line_of (task_held self.old).program self.old.budget ms event.now
            (world_held self.old)) }
        ensures means { (p : ProgramTree) (ls : List Link) (waits : Bool) (budget : ℕ) →
            IsMachineOf p ls waits budget self.old → Does (λ live. live) result
            (world_held self.new) (S.told sink.old) (S.told sink.new) (line_of
            (program_meaning p ls waits) budget ms event.now (world_held self.old)) }
        ensures steps { Adds result (line_steps (loaded_by self.old.plan self.old.code)
            self.old.budget ms event.now (world_held self.old)) steps.old steps.new }
        ensures ended { OnErr result ((world_held self.new).phase ≡ Live.Ended) }
        ensures fixed { fixed_of self.new ≡ fixed_of self.old }
        ensures frame { at_time 0 (frame_of (world_held self.new))
            ≡ at_time 0 (frame_of (world_held self.old)) }
        ensures stays { StaysMachineOf self.old self.new }
        ensures time { OnErr result (HasInstant (task_held self.old).program self.old.budget ms
            (world_held self.old) (world_held self.new).time) }
        ensures failures { S.failures sink.new
            ≡ counted (stopped_by_sink result) (S.failures sink.old) }
    {
        let code = self.code.code();
        let program = ProgramContext {
            code: self.code.fused(),
            plan: &self.plan,
            context: CodeContext {
                formats: self.formats.as_slice(),
                functions: code.functions(),
                room: code.depth(),
            },
            budget: self.budget,
        };
        take(ms, event, &program, &mut self.memory, sink, steps)
    }
}
