//! The start of a program, once its channels are there.

ghost use Rattle.std.specs.Prelude.{◌≡◌, ◌||◌, false, not, is_none, IfSome, Some, option_map, slice_get};
ghost use Rattle.std.specs.Bool.{OnTrue};
ghost use Rattle.std.specs.List.{list_all};
ghost use Rattle.snl_vm.specs.Counting.{Adds};
ghost use Rattle.snl_vm.specs.Memory.{CanGoOn, DoesOn, Keeps};
ghost use Rattle.snl_vm.specs.Running.{context_by, wanted_by};
ghost use Rattle.snl_vm.specs.Views.{world_of};
ghost use Rattle.snl_schedule.specs.Instant as spec;
ghost use Rattle.snl_schedule.specs.Loaded.{CanRunLoaded, loaded, own_context, program_of, wanted_in};
ghost use Rattle.snl_schedule.specs.Plans.{CanTurn, context_on, set_on, state_at};
ghost use Rattle.snl_schedule.specs.Steps.{owned_steps, begun_steps, begun_sets_steps, opened_steps, started_steps};

use crate::plans::{ProgramContext, SetContext};
use crate::refreshing::refresh;
use crate::transitions::enter;
use crate::turns::do_told;
use snl_meaning::{Live, Tied};
use snl_output::{Sink, Stop, write_start};
use snl_vm::{Memory, PieceContext, Steps, Store};
use std::sync::ledger::Ledger;

/// What is known of a channel; a link without one waits for nothing.
fn is_so(known: &[bool], channel: Option<usize>) -> bool
    ensures { result ≡ spec.is_so known.now channel }
{
    match channel {
        None => true,
        Some(channel) => known.get(channel).copied().unwrap_or(false),
    }
}

/// Whether the channel of a link is connected and, where the link is monitored, was valued.
fn is_ready(link: Tied, store: &Store) -> bool
    ensures { result ≡ spec.is_link_ready (world_of store.now) link }
{
    is_so(store.ups.as_slice(), link.channel)
        && (is_so(store.valued.as_slice(), link.channel) || !link.is_monitored)
}

/// Whether the link that the start waited for when this was last looked at still is not ready.
fn is_awaited(links: &[Tied], store: &Store) -> bool
    ensures { OnTrue result (list_all (spec.is_link_ready (world_of store.now)) links.now
        ≡ false) }
{
    match links.get(store.awaited) {
        Some(link) => !is_ready(*link, store),
        None => false,
    }
}

/// The number of the first link that is not ready, if there is one.
fn first_missing(links: &[Tied], store: &Store) -> Option<usize>
    ensures none { is_none result
        ≡ list_all (spec.is_link_ready (world_of store.now)) links.now }
    ensures which { IfSome result (λ number. option_map (spec.is_link_ready (world_of store.now))
        (slice_get links.now number) ≡ Some false) }
{
    for (number, link) in links.iter().enumerate() {
        if !is_ready(*link, store) {
            return Some(number);
        }
    }
    None
}

/// Whether a program can start: it does not wait, or its links are ready. The link that was not when this was last asked is looked at first, so as long as it
/// is not ready no other one is looked at.
pub fn are_ready(waits: bool, links: &[Tied], store: &mut Store) -> bool
    ensures value { result
        ≡ (not waits || list_all (spec.is_link_ready (world_of store.old)) links.now) }
    ensures same { world_of store.new ≡ world_of store.old }
{
    if !waits {
        return true;
    }
    if is_awaited(links, store) {
        return false;
    }
    match first_missing(links, store) {
        Some(number) => {
            store.awaited = number;
            false
        }
        None => true,
    }
}

/// Every state set takes in the values that came.
fn refresh_sets(program: &ProgramContext, store: &mut Store)
    ensures { world_of store.new ≡ spec.refreshed_sets (program_of (loaded program.now)).sets
        (world_of store.old) }
{
    for (set, _) in program.plan.sets.iter().enumerate() {
        refresh(set, store);
    }
}

/// A state set enters its first state.
fn begin<S: Sink, L: Ledger>(
    state_set: &SetContext,
    memory: &mut Memory,
    sink: &mut S,
    steps: &mut Steps<L>,
) -> Result<(), Stop>
    requires ready { CanGoOn S.failures (wanted_by state_set.now.context) memory.old sink.old }
    requires runs { CanTurn state_set.now }
    ensures does { DoesOn S.told (λ x. x) result memory.old memory.new sink.old sink.new
        (spec.begun (set_on state_set.now)) }
    ensures steps { Adds result (begun_steps (context_on state_set.now) state_set.now.code.now
        (state_at state_set.now 0) (world_of memory.old.store)) steps.old steps.new }
    ensures keeps { Keeps S.failures result memory.old memory.new sink.old sink.new }
{
    enter(&mut memory.store, state_set.context.set, 0, true);
    match state_set.plan.states.get(0) {
        Some(state) => {
            let context = &state_set.context;
            do_told(
                state.blocks.entry,
                state_set.code,
                context,
                memory,
                sink,
                steps,
            )
        }
        None => Ok(()),
    }
}

/// Every state set enters its first state, up to one whose entry block stops the run.
fn begin_sets<S: Sink, L: Ledger>(
    program: &ProgramContext,
    memory: &mut Memory,
    sink: &mut S,
    steps: &mut Steps<L>,
) -> Result<(), Stop>
    requires ready { CanGoOn S.failures (wanted_in program.now) memory.old sink.old }
    requires runs { CanRunLoaded (loaded program.now) }
    ensures does { DoesOn S.told (λ x. x) result memory.old memory.new sink.old sink.new
        (spec.begun_sets (program_of (loaded program.now)).sets) }
    ensures steps { Adds result (begun_sets_steps (loaded program.now) 0
        program.now.plan.now.sets.items (world_of memory.old.store)) steps.old steps.new }
    ensures keeps { Keeps S.failures result memory.old memory.new sink.old sink.new }
{
    for (set, plan) in program.plan.sets.iter().enumerate() {
        let context = PieceContext {
            set,
            name: plan.name.as_slice(),
            print: Some(plan.print()),
            program: &program.context,
        };
        let state_set = SetContext {
            plan,
            code: &program.code,
            context,
        };
        match begin(&state_set, memory, sink, steps) {
            Ok(()) => {}
            Err(stop) => return Err(stop),
        }
    }
    Ok(())
}

/// The name of the first state set; empty where there is none.
fn first_name<'t>(program: &ProgramContext<'t>) -> &'t [u8]
    ensures { result.now ≡ spec.first_name (program_of (loaded program.now)).sets }
{
    match program.plan.sets.get(0) {
        Some(set) => set.name.as_slice(),
        None => &[],
    }
}

/// What the program's own blocks run with: the copy and the name of the first state set.
fn own_context<'t>(program: &'t ProgramContext<'t>) -> PieceContext<'t>
    ensures means { context_by result ≡ own_context (loaded program.now) }
    ensures room { wanted_by result ≡ wanted_in program.now }
{
    PieceContext {
        set: 0,
        name: first_name(program),
        print: None,
        program: &program.context,
    }
}

/// The program's entry block.
fn enter_program<S: Sink, L: Ledger>(
    program: &ProgramContext,
    memory: &mut Memory,
    sink: &mut S,
    steps: &mut Steps<L>,
) -> Result<(), Stop>
    requires ready { CanGoOn S.failures (wanted_in program.now) memory.old sink.old }
    requires runs { CanRunLoaded (loaded program.now) }
    ensures does { DoesOn S.told (λ x. x) result memory.old memory.new sink.old sink.new
        (spec.owned (program_of (loaded program.now)) (program_of (loaded program.now)).entry) }
    ensures steps { Adds result (owned_steps (loaded program.now)
        program.now.plan.now.blocks.entry (world_of memory.old.store)) steps.old steps.new }
    ensures keeps { Keeps S.failures result memory.old memory.new sink.old sink.new }
{
    let own = own_context(program);
    do_told(
        program.plan.blocks.entry,
        &program.code,
        &own,
        memory,
        sink,
        steps,
    )
}

/// The program's exit block.
pub fn leave_program<S: Sink, L: Ledger>(
    program: &ProgramContext,
    memory: &mut Memory,
    sink: &mut S,
    steps: &mut Steps<L>,
) -> Result<(), Stop>
    requires ready { CanGoOn S.failures (wanted_in program.now) memory.old sink.old }
    requires runs { CanRunLoaded (loaded program.now) }
    ensures does { DoesOn S.told (λ x. x) result memory.old memory.new sink.old sink.new
        (spec.owned (program_of (loaded program.now)) (program_of (loaded program.now)).exit) }
    ensures steps { Adds result (owned_steps (loaded program.now)
        program.now.plan.now.blocks.exit (world_of memory.old.store)) steps.old steps.new }
    ensures keeps { Keeps S.failures result memory.old memory.new sink.old sink.new }
{
    let own = own_context(program);
    do_told(
        program.plan.blocks.exit,
        &program.code,
        &own,
        memory,
        sink,
        steps,
    )
}

/// What follows the line of the start: refresh, the program's entry block, first states.
fn open<S: Sink, L: Ledger>(
    program: &ProgramContext,
    memory: &mut Memory,
    sink: &mut S,
    steps: &mut Steps<L>,
) -> Result<(), Stop>
    requires ready { CanGoOn S.failures (wanted_in program.now) memory.old sink.old }
    requires runs { CanRunLoaded (loaded program.now) }
    ensures does { DoesOn S.told (λ x. x) result memory.old memory.new sink.old sink.new
        (spec.opened (program_of (loaded program.now))) }
    ensures steps { Adds result (opened_steps (loaded program.now) (world_of memory.old.store))
        steps.old steps.new }
    ensures keeps { Keeps S.failures result memory.old memory.new sink.old sink.new }
{
    refresh_sets(program, &mut memory.store);
    match enter_program(program, memory, sink, steps) {
        Ok(()) => begin_sets(program, memory, sink, steps),
        Err(stop) => Err(stop),
    }
}

/// The start. A block may stop it.
pub fn start<S: Sink, L: Ledger>(
    program: &ProgramContext,
    memory: &mut Memory,
    sink: &mut S,
    steps: &mut Steps<L>,
) -> Result<(), Stop>
    requires ready { CanGoOn S.failures (wanted_in program.now) memory.old sink.old }
    requires runs { CanRunLoaded (loaded program.now) }
    ensures does { DoesOn S.told (λ x. x) result memory.old memory.new sink.old sink.new
        (spec.started (program_of (loaded program.now))) }
    ensures steps { Adds result (started_steps (loaded program.now) (world_of memory.old.store))
        steps.old steps.new }
    ensures keeps { Keeps S.failures result memory.old memory.new sink.old sink.new }
{
    match write_start(sink, memory.store.time, program.plan.name.as_slice()) {
        Ok(()) => {
            memory.store.phase = Live::Running;
            open(program, memory, sink, steps)
        }
        Err(_) => Err(Stop::Sink),
    }
}
