//! A transition of a state set: the line, the states that it leads from and to with their blocks, and the way out.

ghost use Rattle.std.specs.Prelude.{◌≡◌, ◌-◌, ◌^◌, ◌<◌, is_err};
ghost use Rattle.snl_output.specs.Devices.{counted, Wrote};
ghost use Rattle.snl_output.specs.Lines.{go_line};
ghost use Rattle.snl_vm.specs.Counting.{Adds};
ghost use Rattle.snl_vm.specs.Memory.{CanGoOn, DoesOn, Keeps};
ghost use Rattle.snl_meaning.specs.Run.{steps_of};
ghost use Rattle.snl_vm.specs.Running.{context_by, left_at, wanted_by};
ghost use Rattle.snl_vm.specs.Views.{world_of};
ghost use Rattle.snl_schedule.specs.Goes.{name_at, target_name};
ghost use Rattle.snl_schedule.specs.Plans.{CanDo, CanRun, CanTurn, block_at, clause_on, context_on, set_on, state_at};
ghost use Rattle.snl_schedule.specs.Steps.{block_steps, due_steps, left_steps, come_steps, crossed_steps, arrived_steps, acted_steps, transition_steps_on};
ghost use Rattle.snl_schedule.specs.Turn as spec;

use crate::goes::{name_at, target_name};
use crate::plans::{ClausePlan, Destination, SetContext, SetPlan};
use snl_output::{Sink, SinkFault, Stop, Went, write_go, write_timed};
use snl_vm::{FusedCode, Memory, PieceContext, Steps, Store, pass_by, perform, spend};
use std::sync::ledger::Ledger;

/// How a turn, or a round of turns, came to its end.
#[derive(Clone, Copy)]
pub enum Turned {
    /// Without a transition.
    Stayed,
    /// With a transition to a state.
    Moved,
    /// With one that leads out of the program: no other turn follows.
    Exited,
}

/// An entry or an exit block, if there is one.
pub fn do_block<S: Sink, L: Ledger>(
    start: Option<usize>,
    code: &FusedCode,
    context: &PieceContext,
    memory: &mut Memory,
    sink: &mut S,
    steps: &mut Steps<L>,
) -> Result<(), Stop>
    requires ready { CanGoOn S.failures (wanted_by context.now) memory.old sink.old }
    requires runs { CanDo (context_by context.now) code.now start }
    ensures does { DoesOn S.told (λ x. x) result memory.old memory.new sink.old sink.new
        (block_at (context_by context.now) code.now start) }
    ensures steps { Adds result (block_steps (context_by context.now) code.now start
        (world_of memory.old.store)) steps.old steps.new }
    ensures keeps { Keeps S.failures result memory.old memory.new sink.old sink.new }
{
    match start {
        None => Ok(()),
        Some(start) => match perform(code, start, context, memory, sink, steps) {
            Ok(_) => Ok(()),
            Err(stop) => Err(stop),
        },
    }
}

/// The same of a state, where it is due.
fn do_if_due<S: Sink, L: Ledger>(
    is_due: bool,
    start: Option<usize>,
    state_set: &SetContext,
    memory: &mut Memory,
    sink: &mut S,
    steps: &mut Steps<L>,
) -> Result<(), Stop>
    requires ready { CanGoOn S.failures (wanted_by state_set.now.context) memory.old sink.old }
    requires runs { CanDo (context_on state_set.now) state_set.now.code.now start }
    ensures does { DoesOn S.told (λ x. x) result memory.old memory.new sink.old sink.new
        (spec.if_due is_due (block_at (context_on state_set.now) state_set.now.code.now start)) }
    ensures steps { Adds result (due_steps (context_on state_set.now) state_set.now.code.now
        is_due start (world_of memory.old.store)) steps.old steps.new }
    ensures keeps { Keeps S.failures result memory.old memory.new sink.old sink.new }
{
    if is_due {
        let context = state_set.context;
        do_block(start, state_set.code, &context, memory, sink, steps)
    } else {
        Ok(())
    }
}

/// Whether something is due on the way from a state to a state: always where they differ, and where they are the same
/// only if the state does it again.
fn is_due(again: bool, from: usize, to: usize) -> bool
    ensures { result ≡ spec.is_due again from to }
{
    again || from != to
}

/// A state set is in a state from now on. The time of its entry is now, where that is due.
pub fn enter(store: &mut Store, set: usize, state: usize, is_timed: bool)
    ensures { world_of store.new ≡ spec.entered_in set state is_timed (world_of store.old) }
{
    let now = store.time;
    if let Some(copy) = store.copies.get_mut(set) {
        copy.state = state;
        if is_timed {
            copy.entered = now;
        }
    }
}

/// The state that is left: its exit block, where that is due.
fn leave<S: Sink, L: Ledger>(
    from: usize,
    to: usize,
    state_set: &SetContext,
    memory: &mut Memory,
    sink: &mut S,
    steps: &mut Steps<L>,
) -> Result<(), Stop>
    requires ready { CanGoOn S.failures (wanted_by state_set.now.context) memory.old sink.old }
    requires runs { CanTurn state_set.now }
    ensures does { DoesOn S.told (λ x. x) result memory.old memory.new sink.old sink.new
        (spec.left_for (set_on state_set.now) from to) }
    ensures steps { Adds result (left_steps (context_on state_set.now) state_set.now.code.now
        from to (state_at state_set.now from) (world_of memory.old.store)) steps.old steps.new }
    ensures keeps { Keeps S.failures result memory.old memory.new sink.old sink.new }
{
    match state_set.plan.states.get(from) {
        Some(state) => {
            let due = is_due(state.again.exit, from, to);
            do_if_due(due, state.blocks.exit, state_set, memory, sink, steps)
        }
        None => Ok(()),
    }
}

/// The state that is entered: the time of its entry, and its entry block, where they are due.
fn come<S: Sink, L: Ledger>(
    from: usize,
    to: usize,
    state_set: &SetContext,
    memory: &mut Memory,
    sink: &mut S,
    steps: &mut Steps<L>,
) -> Result<(), Stop>
    requires ready { CanGoOn S.failures (wanted_by state_set.now.context) memory.old sink.old }
    requires runs { CanTurn state_set.now }
    ensures does { DoesOn S.told (λ x. x) result memory.old memory.new sink.old sink.new
        (spec.come_to (set_on state_set.now) from to) }
    ensures steps { Adds result (come_steps (context_on state_set.now) state_set.now.code.now
        from to (state_at state_set.now to) (world_of memory.old.store)) steps.old steps.new }
    ensures keeps { Keeps S.failures result memory.old memory.new sink.old sink.new }
{
    let set = state_set.context.set;
    match state_set.plan.states.get(to) {
        Some(state) => {
            let is_timed = is_due(state.again.time, from, to);
            enter(&mut memory.store, set, to, is_timed);
            let due = is_due(state.again.entry, from, to);
            do_if_due(due, state.blocks.entry, state_set, memory, sink, steps)
        }
        None => {
            enter(&mut memory.store, set, to, true);
            Ok(())
        }
    }
}

/// From a state to a state.
fn cross<S: Sink, L: Ledger>(
    from: usize,
    to: usize,
    state_set: &SetContext,
    memory: &mut Memory,
    sink: &mut S,
    steps: &mut Steps<L>,
) -> Result<Turned, Stop>
    requires ready { CanGoOn S.failures (wanted_by state_set.now.context) memory.old sink.old }
    requires runs { CanTurn state_set.now }
    ensures does { DoesOn S.told (λ t. t) result memory.old memory.new sink.old sink.new
        (spec.crossed (set_on state_set.now) from to) }
    ensures steps { Adds result (crossed_steps (context_on state_set.now) state_set.now.code.now
        state_set.now.plan.now from to (world_of memory.old.store)) steps.old steps.new }
    ensures keeps { Keeps S.failures result memory.old memory.new sink.old sink.new }
{
    match leave(from, to, state_set, memory, sink, steps) {
        Ok(()) => match come(from, to, state_set, memory, sink, steps) {
            Ok(()) => Ok(Turned::Moved),
            Err(stop) => Err(stop),
        },
        Err(stop) => Err(stop),
    }
}

/// A transition of a state set.
#[derive(Clone, Copy)]
struct Transition {
    /// The number of the state that it leads from.
    from: usize,
    /// The number of its clause among those of that state. It says only where its line is looked for.
    clause: usize,
    /// Where it leads.
    target: Destination,
}

/// Writes the line of a transition. Where the clause of the number leads there, that line is ready but for its time.
fn tell<S: Sink>(
    plan: &SetPlan,
    transition: Transition,
    ms: u64,
    sink: &mut S,
) -> Result<(), SinkFault>
    requires { S.failures sink.old < 2 ^ 64 - 1 }
    ensures told { Wrote result (go_line ms plan.now.name.items
        (name_at plan.now.states.items transition.from)
        (target_name plan.now.states.items transition.target))
        (S.told sink.old) (S.told sink.new) }
    ensures failures { S.failures sink.new ≡ counted (is_err result) (S.failures sink.old) }
{
    let Transition {
        from,
        clause,
        target,
    } = transition;
    match plan.go(from, clause, target) {
        Some(text) => write_timed(sink, ms, text),
        None => {
            let states = plan.states.as_slice();
            let to = target_name(states, target);
            write_go(sink, ms, plan.name.as_slice(), name_at(states, from), to)
        }
    }
}

/// Lets the sink hear of a transition whose line was written.
fn hear<S: Sink>(transition: Transition, set: usize, ms: u64, sink: &mut S)
    ensures told { S.told sink.new ≡ S.told sink.old }
    ensures failures { S.failures sink.new ≡ S.failures sink.old }
{
    let to = match transition.target {
        Destination::State(state) => Some(state),
        Destination::Exit => None,
    };
    sink.went(Went {
        ms,
        set,
        from: transition.from,
        to,
        clause: transition.clause,
    });
}

/// Writes the line of a transition, and goes on to the new state. One that leads out of the program enters none.
fn arrive<S: Sink, L: Ledger>(
    transition: Transition,
    state_set: &SetContext,
    memory: &mut Memory,
    sink: &mut S,
    steps: &mut Steps<L>,
) -> Result<Turned, Stop>
    requires ready { CanGoOn S.failures (wanted_by state_set.now.context) memory.old sink.old }
    requires runs { CanTurn state_set.now }
    ensures does { DoesOn S.told (λ t. t) result memory.old memory.new sink.old sink.new
        (spec.arrived (set_on state_set.now) transition.from transition.target) }
    ensures steps { Adds result (arrived_steps (context_on state_set.now) state_set.now.code.now
        state_set.now.plan.now transition.from transition.target (world_of memory.old.store))
        steps.old steps.new }
    ensures keeps { Keeps S.failures result memory.old memory.new sink.old sink.new }
{
    let ms = memory.store.time;
    match tell(state_set.plan, transition, ms, sink) {
        Ok(()) => {
            hear(transition, state_set.context.set, ms, sink);
            match transition.target {
                Destination::State(state) => {
                    cross(transition.from, state, state_set, memory, sink, steps)
                }
                Destination::Exit => Ok(Turned::Exited),
            }
        }
        Err(_) => Err(Stop::Sink),
    }
}

/// The state that a block left for; where it left for none, what the clause says.
fn target_by(left: Option<usize>, target: Destination) -> Destination
    ensures { result ≡ spec.target_by left target }
{
    match left {
        Some(state) => Destination::State(state),
        None => target,
    }
}

/// A clause's block. For one that is empty no code is run.
#[inline(always)]
fn do_action<S: Sink, L: Ledger>(
    clause: ClausePlan,
    state_set: &SetContext,
    memory: &mut Memory,
    sink: &mut S,
    steps: &mut Steps<L>,
) -> Result<Option<usize>, Stop>
    requires ready { CanGoOn S.failures (wanted_by state_set.now.context) memory.old sink.old }
    requires clause { CanRun (context_on state_set.now) state_set.now.code.now clause }
    ensures does { DoesOn S.told (λ state. state) result memory.old memory.new sink.old sink.new
        (left_at (context_on state_set.now) state_set.now.code.now clause.block) }
    ensures steps { Adds result (steps_of (context_on state_set.now) state_set.now.code.now
        clause.block (world_of memory.old.store)) steps.old steps.new }
    ensures keeps { Keeps S.failures result memory.old memory.new sink.old sink.new }
{
    if clause.is_empty {
        let context = &state_set.context;
        pass_by(state_set.code, clause.block, context, &memory.store, steps);
        return Ok(None);
    }
    let context = state_set.context;
    perform(state_set.code, clause.block, &context, memory, sink, steps)
}

/// A clause's block, and then the state that the block leaves for, or else where the clause leads.
fn act<S: Sink, L: Ledger>(
    clause: ClausePlan,
    from: usize,
    state_set: &SetContext,
    memory: &mut Memory,
    sink: &mut S,
    steps: &mut Steps<L>,
) -> Result<Turned, Stop>
    requires ready { CanGoOn S.failures (wanted_by state_set.now.context) memory.old sink.old }
    requires clause { CanRun (context_on state_set.now) state_set.now.code.now clause }
    requires runs { CanTurn state_set.now }
    ensures does { DoesOn S.told (λ t. t) result memory.old memory.new sink.old sink.new
        (spec.acted (set_on state_set.now) from (clause_on state_set.now clause)) }
    ensures steps { Adds result (acted_steps (context_on state_set.now) state_set.now.code.now
        state_set.now.plan.now from clause (world_of memory.old.store)) steps.old steps.new }
    ensures keeps { Keeps S.failures result memory.old memory.new sink.old sink.new }
{
    match do_action(clause, state_set, memory, sink, steps) {
        Ok(left) => {
            let transition = Transition {
                from,
                clause: clause.number,
                target: target_by(left, clause.target),
            };
            arrive(transition, state_set, memory, sink, steps)
        }
        Err(stop) => Err(stop),
    }
}

/// A transition: a tick, the block, the line, and what the states do.
pub fn transit<S: Sink, L: Ledger>(
    clause: ClausePlan,
    from: usize,
    state_set: &SetContext,
    memory: &mut Memory,
    sink: &mut S,
    steps: &mut Steps<L>,
) -> Result<Turned, Stop>
    requires ready { CanGoOn S.failures (wanted_by state_set.now.context) memory.old sink.old }
    requires clause { CanRun (context_on state_set.now) state_set.now.code.now clause }
    requires runs { CanTurn state_set.now }
    ensures does { DoesOn S.told (λ t. t) result memory.old memory.new sink.old sink.new
        (spec.transition (set_on state_set.now) from (clause_on state_set.now clause)) }
    ensures steps { Adds result (transition_steps_on state_set.now from clause
        (world_of memory.old.store)) steps.old steps.new }
    ensures keeps { Keeps S.failures result memory.old memory.new sink.old sink.new }
{
    match spend(&mut memory.store, clause.line) {
        Ok(()) => act(clause, from, state_set, memory, sink, steps),
        Err(charge) => Err(Stop::Fault(charge.fault, charge.line)),
    }
}
