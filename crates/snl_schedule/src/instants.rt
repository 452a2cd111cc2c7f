//! What happens at one time: rounds of one turn for each state set.

ghost use Rattle.std.specs.Prelude.{◌≡◌, ◌-◌, ◌^◌, ◌<◌};
ghost use Rattle.snl_vm.specs.Counting.{Adds};
ghost use Rattle.snl_vm.specs.Memory.{CanGoOn, DoesOn, Keeps};
ghost use Rattle.snl_vm.specs.Views.{world_of};
ghost use Rattle.snl_schedule.specs.Instant as spec;
ghost use Rattle.snl_schedule.specs.Loaded.{CanRunLoaded, loaded, program_of, wanted_in};
ghost use Rattle.snl_schedule.specs.Steps.{owned_steps, round_steps, all_rounds_steps, instant_steps};

use crate::plans::{ProgramContext, SetContext};
use crate::starting::{are_ready, leave_program, start};
use crate::transitions::Turned;
use crate::turns::turn;
use snl_meaning::Live;
use snl_output::{Sink, Stop, write_exit};
use snl_vm::{Memory, PieceContext, Steps};
use std::sync::ledger::Ledger;

/// What is known of a round after one more turn.
fn later(before: Turned, turned: Turned) -> Turned
    ensures { result ≡ spec.later before turned }
{
    match turned {
        Turned::Stayed => before,
        Turned::Moved | Turned::Exited => turned,
    }
}

/// Whether a turn led out of the program.
fn is_exit(turned: Turned) -> bool
    ensures { result ≡ spec.is_exit turned }
{
    match turned {
        Turned::Exited => true,
        Turned::Stayed | Turned::Moved => false,
    }
}

/// A turn of each state set, up to one that leads out of the program; answers whether one had a transition.
fn round<S: Sink, L: Ledger>(
    program: &ProgramContext,
    memory: &mut Memory,
    sink: &mut S,
    steps: &mut Steps<L>,
) -> Result<Turned, Stop>
    requires ready { CanGoOn S.failures (wanted_in program.now) memory.old sink.old }
    requires runs { CanRunLoaded (loaded program.now) }
    ensures does { DoesOn S.told (λ t. t) result memory.old memory.new sink.old sink.new
        (spec.round_of (program_of (loaded program.now))) }
    ensures steps { Adds result (round_steps (loaded program.now) (world_of memory.old.store))
        steps.old steps.new }
    ensures keeps { Keeps S.failures result memory.old memory.new sink.old sink.new }
{
    memory.store.due = None;
    let mut before = Turned::Stayed;
    for (set, plan) in program.plan.sets.iter().enumerate() {
        let context = PieceContext {
            set,
            name: plan.name.as_slice(),
            print: Some(plan.print()),
            program: &program.context,
        };
        let state_set = SetContext {
            plan,
            code: &program.code,
            context,
        };
        match turn(&state_set, memory, sink, steps) {
            Ok(turned) => before = later(before, turned),
            Err(stop) => return Err(stop),
        }
        if is_exit(before) {
            return Ok(before);
        }
    }
    Ok(before)
}

/// The last line of a program.
fn close<S: Sink>(name: &[u8], memory: &mut Memory, sink: &mut S) -> Result<(), Stop>
    requires failures { S.failures sink.old < 2 ^ 64 - 1 }
    ensures does { DoesOn S.told (λ x. x) result memory.old memory.new sink.old sink.new
        (spec.closed_by name.now) }
    ensures keeps { Keeps S.failures result memory.old memory.new sink.old sink.new }
{
    match write_exit(sink, memory.store.time, name) {
        Ok(()) => {
            memory.store.phase = Live::Ended;
            Ok(())
        }
        Err(_) => Err(Stop::Sink),
    }
}

/// The end of a program by a transition that leads out of it: its exit block, and its line.
fn exit<S: Sink, L: Ledger>(
    program: &ProgramContext,
    memory: &mut Memory,
    sink: &mut S,
    steps: &mut Steps<L>,
) -> Result<(), Stop>
    requires ready { CanGoOn S.failures (wanted_in program.now) memory.old sink.old }
    requires runs { CanRunLoaded (loaded program.now) }
    ensures does { DoesOn S.told (λ x. x) result memory.old memory.new sink.old sink.new
        (spec.exited (program_of (loaded program.now))) }
    ensures steps { Adds result (owned_steps (loaded program.now)
        program.now.plan.now.blocks.exit (world_of memory.old.store)) steps.old steps.new }
    ensures keeps { Keeps S.failures result memory.old memory.new sink.old sink.new }
{
    match leave_program(program, memory, sink, steps) {
        Ok(()) => close(program.plan.name.as_slice(), memory, sink),
        Err(stop) => Err(stop),
    }
}

/// Rounds until one has no transition, or leads out of the program. Each transition spends a tick, so there are no more
/// rounds than ticks are left, and one.
pub fn rounds<S: Sink, L: Ledger>(
    program: &ProgramContext,
    memory: &mut Memory,
    sink: &mut S,
    steps: &mut Steps<L>,
) -> Result<(), Stop>
    requires ready { CanGoOn S.failures (wanted_in program.now) memory.old sink.old }
    requires runs { CanRunLoaded (loaded program.now) }
    ensures does { DoesOn S.told (λ x. x) result memory.old memory.new sink.old sink.new
        (spec.all_rounds (program_of (loaded program.now))) }
    ensures steps { Adds result (all_rounds_steps (loaded program.now) (world_of memory.old.store))
        steps.old steps.new }
    ensures keeps { Keeps S.failures result memory.old memory.new sink.old sink.new }
{
    for _round in 0..u64::from(memory.store.ticks) + 1 {
        match round(program, memory, sink, steps) {
            Ok(Turned::Moved) => {}
            Ok(Turned::Stayed) => {
                memory.store.wake = memory.store.due;
                return Ok(());
            }
            Ok(Turned::Exited) => return exit(program, memory, sink, steps),
            Err(stop) => return Err(stop),
        }
    }
    Ok(())
}

/// What happens at one time, with the ticks of the program's budget: the start, if it is due, and rounds until one has no
/// transition.
#[inline(always)]
pub fn instant<S: Sink, L: Ledger>(
    program: &ProgramContext,
    memory: &mut Memory,
    sink: &mut S,
    steps: &mut Steps<L>,
) -> Result<(), Stop>
    requires ready { CanGoOn S.failures (wanted_in program.now) memory.old sink.old }
    requires runs { CanRunLoaded (loaded program.now) }
    ensures does { DoesOn S.told (λ x. x) result memory.old memory.new sink.old sink.new
        (spec.instant_of (program_of (loaded program.now)) program.now.budget) }
    ensures steps { Adds result (instant_steps (loaded program.now) program.now.budget
        (world_of memory.old.store)) steps.old steps.new }
    ensures keeps { Keeps S.failures result memory.old memory.new sink.old sink.new }
{
    memory.store.ticks = program.budget;
    match memory.store.phase {
        Live::Ended => Ok(()),
        Live::Running => rounds(program, memory, sink, steps),
        Live::Waiting => {
            if !are_ready(
                program.plan.waits,
                program.plan.links.as_slice(),
                &mut memory.store,
            ) {
                return Ok(());
            }
            match start(program, memory, sink, steps) {
                Ok(()) => rounds(program, memory, sink, steps),
                Err(stop) => Err(stop),
            }
        }
    }
}
