//! Events, one after another, each with the wakes before it.

ghost use Rattle.std.specs.Prelude.{◌≡◌, OnErr};
ghost use Rattle.snl_schedule.specs.Event as spec;
ghost use Rattle.snl_vm.specs.Counting.{Adds};
ghost use Rattle.snl_vm.specs.Memory.{CanGoOn, DoesOn, KeepsButTime};
ghost use Rattle.snl_vm.specs.Views.{world_of};
ghost use Rattle.snl_schedule.specs.Loaded.{CanRunLoaded, loaded, program_of, wanted_in};
ghost use Rattle.snl_schedule.specs.Steps.{all_wakes_steps, event_steps, passed_steps, line_steps};

use crate::arrivals::{answer, connect, fit_links, receive};
use crate::events::Event;
use crate::instants::instant;
use crate::plans::{Plan, ProgramContext};
use snl_meaning::Live;
use snl_output::{Sink, Stop};
use snl_vm::{Memory, Steps, Store};
use std::sync::ledger::Ledger;

/// Lets an event change the channels and the buffers of their links.
fn apply(event: &Event, program: &ProgramContext, store: &mut Store)
    ensures { world_of store.new ≡ spec.applied (program_of (loaded program.now)) event.now
        (world_of store.old) }
{
    match event {
        Event::Up(channel) => connect(*channel, true, store),
        Event::Down(channel) => {
            connect(*channel, false, store);
            answer(*channel, program, store);
        }
        Event::Val(channel, values) => receive(*channel, values.as_slice(), program, store),
        Event::Done(channel) => answer(*channel, program, store),
        Event::Tick | Event::Other => {}
    }
}

/// Whether an event speaks of one of so many channels, and each value that a link of that channel keeps fits the type of
/// the link's variable.
pub fn fits(event: &Event, channels: usize, plan: &Plan) -> bool
    ensures { result ≡ spec.is_event_fit channels plan.now.links.items event.now }
{
    match event {
        Event::Up(channel) | Event::Down(channel) | Event::Done(channel) => *channel < channels,
        Event::Val(channel, values) => {
            *channel < channels && fit_links(*channel, values.as_slice(), plan)
        }
        Event::Tick | Event::Other => true,
    }
}

/// The wake, if the program runs and its wake comes before a time.
fn next_wake(ms: u64, store: &Store) -> Option<u64>
    ensures { result ≡ spec.wake_before ms (world_of store.now) }
{
    match (store.phase, store.wake) {
        (Live::Running, Some(wake)) if wake < ms => Some(wake),
        _ => None,
    }
}

/// An instant at each wake before a time. Each wake lies after the one before it, so there are no more than
/// milliseconds until that time.
fn wake_each<S: Sink, L: Ledger>(
    ms: u64,
    program: &ProgramContext,
    memory: &mut Memory,
    sink: &mut S,
    steps: &mut Steps<L>,
) -> Result<(), Stop>
    requires ready { CanGoOn S.failures (wanted_in program.now) memory.old sink.old }
    requires runs { CanRunLoaded (loaded program.now) }
    ensures does { DoesOn S.told (λ x. x) result memory.old memory.new sink.old sink.new
        (spec.all_wakes (program_of (loaded program.now)) program.now.budget ms) }
    ensures steps { Adds result (all_wakes_steps (loaded program.now) program.now.budget ms
        (world_of memory.old.store)) steps.old steps.new }
    ensures time { OnErr result (spec.HasInstant (program_of (loaded program.now))
        program.now.budget ms (world_of memory.old.store) (world_of memory.new.store).time) }
    ensures keeps { KeepsButTime S.failures result memory.old memory.new sink.old sink.new }
{
    for _wake in memory.store.time..ms {
        match next_wake(ms, &memory.store) {
            None => return Ok(()),
            Some(wake) => {
                memory.store.time = wake;
                match instant(program, memory, sink, steps) {
                    Ok(()) => {}
                    Err(stop) => return Err(stop),
                }
            }
        }
    }
    Ok(())
}

/// The same. Where no wake is noted, the time and how far the program has come are not looked at.
#[inline(always)]
fn wake_up<S: Sink, L: Ledger>(
    ms: u64,
    program: &ProgramContext,
    memory: &mut Memory,
    sink: &mut S,
    steps: &mut Steps<L>,
) -> Result<(), Stop>
    requires ready { CanGoOn S.failures (wanted_in program.now) memory.old sink.old }
    requires runs { CanRunLoaded (loaded program.now) }
    ensures does { DoesOn S.told (λ x. x) result memory.old memory.new sink.old sink.new
        (spec.all_wakes (program_of (loaded program.now)) program.now.budget ms) }
    ensures steps { Adds result (all_wakes_steps (loaded program.now) program.now.budget ms
        (world_of memory.old.store)) steps.old steps.new }
    ensures time { OnErr result (spec.HasInstant (program_of (loaded program.now))
        program.now.budget ms (world_of memory.old.store) (world_of memory.new.store).time) }
    ensures keeps { KeepsButTime S.failures result memory.old memory.new sink.old sink.new }
{
    match memory.store.wake {
        None => Ok(()),
        Some(_) => wake_each(ms, program, memory, sink, steps),
    }
}

/// An event at its time, unless the program has ended.
fn happen<S: Sink, L: Ledger>(
    ms: u64,
    event: &Event,
    program: &ProgramContext,
    memory: &mut Memory,
    sink: &mut S,
    steps: &mut Steps<L>,
) -> Result<(), Stop>
    requires ready { CanGoOn S.failures (wanted_in program.now) memory.old sink.old }
    requires runs { CanRunLoaded (loaded program.now) }
    ensures does { DoesOn S.told (λ x. x) result memory.old memory.new sink.old sink.new
        (λ w. spec.event_by (program_of (loaded program.now)) program.now.budget ms event.now
        w.phase w) }
    ensures steps { Adds result (event_steps (loaded program.now) program.now.budget ms event.now
        (world_of memory.old.store).phase (world_of memory.old.store)) steps.old steps.new }
    ensures time { OnErr result ((world_of memory.new.store).time ≡ ms) }
    ensures goes_on { OnErr result ((world_of memory.old.store).phase ≡ Live.Ended → ⊥) }
    ensures keeps { KeepsButTime S.failures result memory.old memory.new sink.old sink.new }
{
    if memory.store.phase == Live::Ended {
        return Ok(());
    }
    memory.store.time = ms;
    apply(event, program, &mut memory.store);
    instant(program, memory, sink, steps)
}

/// All wakes before the time of an event, and then the event.
fn pass<S: Sink, L: Ledger>(
    ms: u64,
    event: &Event,
    program: &ProgramContext,
    memory: &mut Memory,
    sink: &mut S,
    steps: &mut Steps<L>,
) -> Result<(), Stop>
    requires ready { CanGoOn S.failures (wanted_in program.now) memory.old sink.old }
    requires runs { CanRunLoaded (loaded program.now) }
    ensures does { DoesOn S.told (λ x. x) result memory.old memory.new sink.old sink.new
        (spec.passed (program_of (loaded program.now)) program.now.budget ms event.now) }
    ensures steps { Adds result (passed_steps (loaded program.now) program.now.budget ms event.now
        (world_of memory.old.store)) steps.old steps.new }
    ensures time { OnErr result (spec.HasInstant (program_of (loaded program.now))
        program.now.budget ms (world_of memory.old.store) (world_of memory.new.store).time) }
    ensures keeps { KeepsButTime S.failures result memory.old memory.new sink.old sink.new }
{
    match wake_up(ms, program, memory, sink, steps) {
        Ok(()) => happen(ms, event, program, memory, sink, steps),
        Err(stop) => Err(stop),
    }
}

/// Does what a line of a trace asks for at a time in milliseconds, with the ticks of the program's budget for each instant, and
/// hands the lines of the run to the sink. Before that it runs the program at each time before the line's at which a `delay` is
/// over (SNL Reference, "delay"). After the end of a run it does nothing.
///
/// After a fault, and where the sink fails, the run has ended, and what was written stands. Each instruction that is executed
/// is one of the steps.
pub fn take<S: Sink, L: Ledger>(
    ms: u64,
    event: &Event,
    program: &ProgramContext,
    memory: &mut Memory,
    sink: &mut S,
    steps: &mut Steps<L>,
) -> Result<Live, Stop>
    requires ready { CanGoOn S.failures (wanted_in program.now) memory.old sink.old }
    requires runs { CanRunLoaded (loaded program.now) }
    ensures does { DoesOn S.told (λ live. live) result memory.old memory.new sink.old sink.new
        (spec.line_of (program_of (loaded program.now)) program.now.budget ms event.now) }
    ensures steps { Adds result (line_steps (loaded program.now) program.now.budget ms event.now
        (world_of memory.old.store)) steps.old steps.new }
    ensures ended { OnErr result ((world_of memory.new.store).phase ≡ Live.Ended) }
    ensures time { OnErr result (spec.HasInstant (program_of (loaded program.now))
        program.now.budget ms (world_of memory.old.store) (world_of memory.new.store).time) }
    ensures keeps { KeepsButTime S.failures result memory.old memory.new sink.old sink.new }
{
    if memory.store.phase == Live::Ended {
        return Ok(Live::Ended);
    }
    match pass(ms, event, program, memory, sink, steps) {
        Ok(()) => Ok(memory.store.phase),
        Err(stop) => {
            memory.store.phase = Live::Ended;
            Err(stop)
        }
    }
}
