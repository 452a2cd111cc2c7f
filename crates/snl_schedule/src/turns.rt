//! The turn of a state set: refresh, conditions, and a transition.

ghost use Rattle.std.specs.Prelude.{◌≡◌, ℕ, map, slice_get, Some, IfOk};
ghost use Rattle.snl_vm.specs.Counting.{Adds};
ghost use Rattle.snl_vm.specs.Memory.{CanGoOn, DoesOn, Keeps};
ghost use Rattle.snl_vm.specs.Running.{context_by, wanted_by};
ghost use Rattle.snl_meaning.specs.World.{World, copy_of};
ghost use Rattle.snl_vm.specs.Views.{world_of};
ghost use Rattle.snl_schedule.specs.Plans.{CanDo, CanTest, CanFire, CanRunAll, CanTurn, block_at, test_at, tested_by, clause_of, clause_by, context_on, set_on};
ghost use Rattle.snl_schedule.specs.Steps.{AddsUpTo, block_steps, held_steps, chosen_steps, clauses_in, fired_steps, transition_steps_on, tried_steps, turn_steps};
ghost use Rattle.snl_schedule.specs.Turn as spec;

use crate::plans::{ClausePlan, SetContext};
use crate::refreshing::refresh;
use crate::transitions::{Turned, do_block, transit};
use snl_output::{Fired, Sink, Stop, fault_text, write_fault};
use snl_vm::{FusedCode, Memory, PieceContext, Steps, Store, Test, evaluate, holds_by};
use std::sync::ledger::Ledger;

/// Whether the condition at an address holds, by a run of its code.
#[inline(always)]
fn evaluated<S: Sink, L: Ledger>(
    start: usize,
    state_set: &SetContext,
    memory: &mut Memory,
    sink: &mut S,
    steps: &mut Steps<L>,
) -> Result<bool, Stop>
    requires ready { CanGoOn S.failures (wanted_by state_set.now.context) memory.old sink.old }
    requires runs { CanTest (context_on state_set.now) state_set.now.code.now (Some start) }
    ensures does { DoesOn S.told (λ b. b) result memory.old memory.new sink.old sink.new
        (test_at (context_on state_set.now) state_set.now.code.now (Some start)) }
    ensures steps { Adds result (held_steps (context_on state_set.now) state_set.now.code.now
        (Some start) (world_of memory.old.store)) steps.old steps.new }
    ensures keeps { Keeps S.failures result memory.old memory.new sink.old sink.new }
{
    // A copy for the call, so that the rest of a turn has the context in registers of the processor.
    let context = state_set.context;
    match evaluate(state_set.code, start, &context, memory, sink, steps) {
        Ok(number) => Ok(number != 0),
        Err(stop) => Err(stop),
    }
}

/// Whether a condition holds. A missing one does. For one that is a test no code is run.
#[inline(always)]
fn holds<S: Sink, L: Ledger>(
    condition: Option<usize>,
    test: Test,
    state_set: &SetContext,
    memory: &mut Memory,
    sink: &mut S,
    steps: &mut Steps<L>,
) -> Result<bool, Stop>
    requires ready { CanGoOn S.failures (wanted_by state_set.now.context) memory.old sink.old }
    requires runs { CanTest (context_on state_set.now) state_set.now.code.now condition }
    requires tested { test ≡ tested_by state_set.now.code.now condition }
    ensures does { DoesOn S.told (λ b. b) result memory.old memory.new sink.old sink.new
        (test_at (context_on state_set.now) state_set.now.code.now condition) }
    ensures steps { Adds result (held_steps (context_on state_set.now) state_set.now.code.now
        condition (world_of memory.old.store)) steps.old steps.new }
    ensures keeps { Keeps S.failures result memory.old memory.new sink.old sink.new }
{
    match condition {
        None => Ok(true),
        Some(start) => match holds_by(
            test,
            state_set.code,
            start,
            &state_set.context,
            &mut memory.store,
            steps,
        ) {
            Some(is_true) => Ok(is_true),
            None => evaluated(start, state_set, memory, sink, steps),
        },
    }
}

/// The first clause whose condition holds. Those after it are not evaluated.
fn first_true<S: Sink, L: Ledger>(
    clauses: &[ClausePlan],
    state_set: &SetContext,
    memory: &mut Memory,
    sink: &mut S,
    steps: &mut Steps<L>,
) -> Result<Option<ClausePlan>, Stop>
    requires ready { CanGoOn S.failures (wanted_by state_set.now.context) memory.old sink.old }
    requires runs { CanRunAll (context_on state_set.now) state_set.now.code.now clauses.now }
    ensures runs { IfOk result (CanFire (context_on state_set.now) state_set.now.code.now) }
    ensures does { DoesOn S.told (clause_by (context_on state_set.now) state_set.now.code.now)
        result memory.old memory.new sink.old sink.new (spec.chosen
        (map (clause_of (context_on state_set.now) state_set.now.code.now) clauses.now)) }
    ensures steps { (fire : ClausePlan → World → ℕ) → AddsUpTo fire result
        (world_of memory.new.store) (chosen_steps (context_on state_set.now)
        state_set.now.code.now fire clauses.now (world_of memory.old.store)) steps.old steps.new }
    ensures keeps { Keeps S.failures result memory.old memory.new sink.old sink.new }
{
    for clause in clauses {
        match holds(
            clause.condition,
            clause.test,
            state_set,
            memory,
            sink,
            steps,
        ) {
            Ok(true) => return Ok(Some(*clause)),
            Ok(false) => {}
            Err(stop) => return Err(stop),
        }
    }
    Ok(None)
}

/// Lets the sink hear which clause of a state was chosen, with the words of the state set's copy as the conditions left them.
fn hear<S: Sink>(clause: usize, state: usize, set: usize, store: &Store, sink: &mut S)
    ensures told { S.told sink.new ≡ S.told sink.old }
    ensures failures { S.failures sink.new ≡ S.failures sink.old }
{
    let ms = store.time;
    let fired = Fired {
        ms,
        set,
        state,
        clause,
    };
    sink.fired(fired, store.words(set));
}

/// The transition of the clause that was chosen, if one was.
fn fire<S: Sink, L: Ledger>(
    clause: Option<ClausePlan>,
    from: usize,
    state_set: &SetContext,
    memory: &mut Memory,
    sink: &mut S,
    steps: &mut Steps<L>,
) -> Result<Turned, Stop>
    requires ready { CanGoOn S.failures (wanted_by state_set.now.context) memory.old sink.old }
    requires clause { CanFire (context_on state_set.now) state_set.now.code.now clause }
    requires runs { CanTurn state_set.now }
    ensures does { DoesOn S.told (λ t. t) result memory.old memory.new sink.old sink.new
        (spec.fired (set_on state_set.now) from
        (clause_by (context_on state_set.now) state_set.now.code.now clause)) }
    ensures steps { Adds result (fired_steps (transition_steps_on state_set.now from) clause
        (world_of memory.old.store)) steps.old steps.new }
    ensures keeps { Keeps S.failures result memory.old memory.new sink.old sink.new }
{
    match clause {
        None => Ok(Turned::Stayed),
        Some(clause) => {
            let set = state_set.context.set;
            hear(clause.number, from, set, &memory.store, sink);
            transit(clause, from, state_set, memory, sink, steps)
        }
    }
}

/// The clauses of a state by its number; none where there is no such state.
fn clauses_of<'t>(state_set: &SetContext<'t>, state: usize) -> &'t [ClausePlan]
    requires runs { CanTurn state_set.now }
    ensures means { map (clause_of (context_on state_set.now) state_set.now.code.now) result.now
        ≡ (spec.state_in (set_on state_set.now) state).clauses }
    ensures plans { result.now ≡ clauses_in (slice_get state_set.now.plan.now.states.items state) }
    ensures runs { CanRunAll (context_on state_set.now) state_set.now.code.now result.now }
{
    match state_set.plan.states.get(state) {
        Some(state) => state.clauses.as_slice(),
        None => &[],
    }
}

/// The conditions of the state of a number, and the transition of the clause that fires.
fn try_state<S: Sink, L: Ledger>(
    from: usize,
    state_set: &SetContext,
    memory: &mut Memory,
    sink: &mut S,
    steps: &mut Steps<L>,
) -> Result<Turned, Stop>
    requires ready { CanGoOn S.failures (wanted_by state_set.now.context) memory.old sink.old }
    requires runs { CanTurn state_set.now }
    ensures does { DoesOn S.told (λ t. t) result memory.old memory.new sink.old sink.new
        (spec.tried (set_on state_set.now) from) }
    ensures steps { Adds result (tried_steps (context_on state_set.now) state_set.now.code.now
        state_set.now.plan.now from (world_of memory.old.store)) steps.old steps.new }
    ensures keeps { Keeps S.failures result memory.old memory.new sink.old sink.new }
{
    let clauses = clauses_of(state_set, from);
    match first_true(clauses, state_set, memory, sink, steps) {
        Ok(clause) => fire(clause, from, state_set, memory, sink, steps),
        Err(stop) => Err(stop),
    }
}

/// The number of the state that a state set is in.
fn state_now(store: &Store, set: usize) -> usize
    ensures { result ≡ (copy_of set (world_of store.now)).state }
{
    match store.copies.get(set) {
        Some(copy) => copy.state,
        None => 0,
    }
}

/// One turn of a state set; answers which transition it had. A fault in it is told in a line.
pub fn turn<S: Sink, L: Ledger>(
    state_set: &SetContext,
    memory: &mut Memory,
    sink: &mut S,
    steps: &mut Steps<L>,
) -> Result<Turned, Stop>
    requires ready { CanGoOn S.failures (wanted_by state_set.now.context) memory.old sink.old }
    requires runs { CanTurn state_set.now }
    ensures does { DoesOn S.told (λ t. t) result memory.old memory.new sink.old sink.new
        (spec.turn_of (set_on state_set.now)) }
    ensures steps { Adds result (turn_steps (context_on state_set.now) state_set.now.code.now
        state_set.now.plan.now (world_of memory.old.store)) steps.old steps.new }
    ensures keeps { Keeps S.failures result memory.old memory.new sink.old sink.new }
{
    let PieceContext { set, name, .. } = state_set.context;
    refresh(set, &mut memory.store);
    let state = state_now(&memory.store, set);
    match try_state(state, state_set, memory, sink, steps) {
        Ok(turned) => Ok(turned),
        Err(Stop::Sink) => Err(Stop::Sink),
        Err(Stop::Fault(fault, line)) => {
            match write_fault(sink, memory.store.time, name, line, fault_text(fault)) {
                Ok(()) => Err(Stop::Fault(fault, line)),
                Err(_) => Err(Stop::Sink),
            }
        }
    }
}

/// A block that belongs to no turn, if there is one. A fault in it is told in a line, which names the state set of the
/// context.
pub fn do_told<S: Sink, L: Ledger>(
    start: Option<usize>,
    code: &FusedCode,
    context: &PieceContext,
    memory: &mut Memory,
    sink: &mut S,
    steps: &mut Steps<L>,
) -> Result<(), Stop>
    requires ready { CanGoOn S.failures (wanted_by context.now) memory.old sink.old }
    requires runs { CanDo (context_by context.now) code.now start }
    ensures does { DoesOn S.told (λ x. x) result memory.old memory.new sink.old sink.new
        (λ w. spec.told_fault context.now.name.now
        (block_at (context_by context.now) code.now start w)) }
    ensures steps { Adds result (block_steps (context_by context.now) code.now start
        (world_of memory.old.store)) steps.old steps.new }
    ensures keeps { Keeps S.failures result memory.old memory.new sink.old sink.new }
{
    match do_block(start, code, context, memory, sink, steps) {
        Ok(()) => Ok(()),
        Err(Stop::Sink) => Err(Stop::Sink),
        Err(Stop::Fault(fault, line)) => {
            match write_fault(
                sink,
                memory.store.time,
                context.name,
                line,
                fault_text(fault),
            ) {
                Ok(()) => Err(Stop::Fault(fault, line)),
                Err(_) => Err(Stop::Sink),
            }
        }
    }
}
