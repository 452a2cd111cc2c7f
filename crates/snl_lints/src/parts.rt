//! What definitions, clauses, states and a whole program do, with variables and by constants.

ghost use Rattle.std.specs.Prelude.{◌≡◌, ◌++◌, map, OnOk, IfOk};
ghost use Rattle.std.specs.List.{flat_map, list_any};
ghost use Rattle.snl_syntax.specs.view.Definitions.{channels_view, flag_view, definition_view};
ghost use Rattle.snl_syntax.specs.view.Functions.{parameter_view, function_view};
ghost use Rattle.snl_syntax.specs.view.Shown.{shown};
ghost use Rattle.snl_syntax.specs.view.Programs.{target_view, clause_view, state_view, state_set_view, program_view};
ghost use Rattle.snl_names.specs.UseTables.{declared_at};
ghost use Rattle.snl_lints.specs.declared.touches.Touch.{Touch};
ghost use Rattle.snl_lints.specs.Touches as spec;

use crate::expressions::push_maybe_condition;
use crate::statements::{push_block, push_declaration, push_maybe_block};
use crate::touches::{Touch, ValueDomain, add};
use snl_names::{Size, UseTable, sign_in_force};
use snl_resolve::range_of;
use snl_syntax::{
    ChannelNames, Channels, Clause, Def, Flag, Function, Parameter, Program, State, StateSet,
    Target,
};
use snl_text::Token;
use std::alloc::{AllocError, Global};

/// Adds that a `syncQ` names a variable, where it names an event flag too.
fn push_queue<'a>(
    flag: &Option<Flag<'a>>,
    name: Token<'a>,
    found: &mut Vec<Touch<'a>>,
) -> Result<(), AllocError>
    ensures { OnOk result (found.new.items ≡ found.old.items
        ++ spec.at_queue name.entry (shown flag_view flag.now)) }
{
    if let Some(_) = flag {
        add(found, Touch::Flags(name))
    } else {
        Ok(())
    }
}

/// Whether a name of a channel has something between its quotes.
fn is_channel(name: &Token) -> bool
    ensures { result ≡ spec.is_channel name.now }
{
    2 < name.text.len()
}

/// Whether some of these names is that of a channel.
fn has_name(names: &[Token]) -> bool
    ensures { result ≡ list_any spec.is_channel names.now }
{
    for name in names {
        if is_channel(name) {
            return true;
        }
    }
    false
}

/// Whether an `assign` names some channel.
fn has_channel(channels: &Option<Channels>) -> bool
    ensures { result ≡ spec.has_channel (shown channels_view channels.now) }
{
    match channels {
        None => false,
        Some(channels) => match &channels.names {
            ChannelNames::One(name) => is_channel(name),
            ChannelNames::List(names) => has_name(names.as_slice()),
        },
    }
}

/// Adds that an `assign` names a variable, where it names some channel too.
fn push_assign<'a>(
    channels: &Option<Channels<'a>>,
    name: Token<'a>,
    found: &mut Vec<Touch<'a>>,
) -> Result<(), AllocError>
    ensures { OnOk result (found.new.items ≡ found.old.items
        ++ spec.at_assign (spec.has_channel (shown channels_view channels.now)) name.entry) }
{
    if has_channel(channels) {
        add(found, Touch::Assigns(name))
    } else {
        Ok(())
    }
}

/// Adds the names of channels.
fn push_names<'a>(names: &[Token<'a>], found: &mut Vec<Touch<'a>>) -> Result<(), AllocError>
    ensures { OnOk result (found.new.items ≡ found.old.items ++ map Touch.Names names.now) }
{
    for name in names {
        add(found, Touch::Names(*name))?;
    }
    Ok(())
}

/// Adds the names of channels in an `assign`, where it has some.
fn push_channels<'a>(
    channels: &Option<Channels<'a>>,
    found: &mut Vec<Touch<'a>>,
) -> Result<(), AllocError>
    ensures { OnOk result (found.new.items ≡ found.old.items
        ++ spec.at_channels (shown channels_view channels.now)) }
{
    match channels {
        None => Ok(()),
        Some(channels) => match &channels.names {
            ChannelNames::One(name) => add(found, Touch::Names(*name)),
            ChannelNames::List(names) => push_names(names.as_slice(), found),
        },
    }
}

/// Adds what an `assign` does.
fn push_assigned<'a>(
    channels: &Option<Channels<'a>>,
    name: Token<'a>,
    found: &mut Vec<Touch<'a>>,
) -> Result<(), AllocError>
    ensures { OnOk result (found.new.items ≡ found.old.items
        ++ (spec.at_assign (spec.has_channel (shown channels_view channels.now)) name.entry
        ++ spec.at_channels (shown channels_view channels.now))) }
{
    push_assign(channels, name, found)?;
    push_channels(channels, found)
}

/// What the variable of a parameter can hold.
fn held_for(parameter: &Parameter) -> ValueDomain
    ensures { result ≡ spec.held_for (parameter_view parameter.now) }
{
    ValueDomain {
        range: range_of(parameter.type_name),
        size: Size::Scalar,
    }
}

/// Adds what parameters can hold.
fn push_parameters<'a>(
    parameters: &[Parameter<'a>],
    found: &mut Vec<Touch<'a>>,
) -> Result<(), AllocError>
    ensures { OnOk result (found.new.items ≡ found.old.items
        ++ map spec.at_parameter (map parameter_view parameters.now)) }
{
    for parameter in parameters {
        add(found, Touch::Holds(parameter.name, held_for(parameter)))?;
    }
    Ok(())
}

/// Adds what a function does.
fn push_function<'a>(
    function: &Function<'a>,
    uses: &UseTable,
    found: &mut Vec<Touch<'a>>,
) -> Result<(), AllocError>
    ensures { OnOk result (found.new.items ≡ found.old.items
        ++ spec.in_function (declared_at uses.now) (function_view function.now)) }
{
    push_parameters(function.parameters.each.as_slice(), found)?;
    push_block(&function.body, uses, found)
}

/// Adds what a definition does, or a function.
fn push_definition<'a>(
    definition: &Def<'a>,
    uses: &UseTable,
    found: &mut Vec<Touch<'a>>,
) -> Result<(), AllocError>
    ensures { OnOk result (found.new.items ≡ found.old.items
        ++ spec.in_definition (declared_at uses.now) (definition_view definition.now)) }
{
    match definition {
        Def::Declaration(declaration) => push_declaration(declaration, uses, found),
        Def::Assign(assign) => push_assigned(&assign.channels, assign.place.name, found),
        Def::Monitor(place) => add(found, Touch::Monitors(place.name)),
        Def::Sync(sync) => add(found, Touch::Flags(sync.place.name)),
        Def::SyncQueue(queue) => push_queue(&queue.flag, queue.place.name, found),
        Def::Function(function) => push_function(function, uses, found),
        Def::EventFlags(_) | Def::Setting(_) => Ok(()),
    }
}

/// Adds what definitions do.
fn push_definitions<'a>(
    definitions: &[Def<'a>],
    uses: &UseTable,
    found: &mut Vec<Touch<'a>>,
) -> Result<(), AllocError>
    ensures { OnOk result (found.new.items ≡ found.old.items
        ++ flat_map (spec.in_definition (declared_at uses.now))
        (map definition_view definitions.now)) }
{
    for definition in definitions {
        push_definition(definition, uses, found)?;
    }
    Ok(())
}

/// Whether a state has an `entry` or `exit` block that a way back to itself does not do.
fn leaves_out(state: &State) -> bool
    ensures { result ≡ spec.leaves_out (state_view state.now) }
{
    let definitions = state.definitions.as_slice();
    (state.entry.is_some() && sign_in_force(b'e', definitions))
        || (state.exit.is_some() && sign_in_force(b'x', definitions))
}

/// Adds that a clause leads back to its own state, where it does and leaves a block out.
fn push_target<'a>(
    found: &mut Vec<Touch<'a>>,
    target: Target<'a>,
    leaving: bool,
    own: Token<'a>,
) -> Result<(), AllocError>
    ensures { OnOk result (found.new.items ≡ found.old.items
        ++ spec.at_target leaving own.entry (target_view target.entry)) }
{
    if let Target::State(name) = target {
        if leaving && own.text == name.text {
            return add(found, Touch::Returns(name));
        }
    }
    Ok(())
}

/// Adds what a clause does of a state with this name.
fn push_clause<'a>(
    clause: &Clause<'a>,
    leaving: bool,
    own: Token<'a>,
    uses: &UseTable,
    found: &mut Vec<Touch<'a>>,
) -> Result<(), AllocError>
    ensures { OnOk result (found.new.items ≡ found.old.items
        ++ spec.in_clause (declared_at uses.now) leaving own.entry (clause_view clause.now)) }
{
    push_maybe_condition(&clause.condition, uses, found)?;
    push_block(&clause.block, uses, found)?;
    push_target(found, clause.target, leaving, own)
}

/// Adds what clauses do.
fn push_clauses<'a>(
    clauses: &[Clause<'a>],
    leaving: bool,
    own: Token<'a>,
    uses: &UseTable,
    found: &mut Vec<Touch<'a>>,
) -> Result<(), AllocError>
    ensures { OnOk result (found.new.items ≡ found.old.items
        ++ flat_map (spec.in_clause (declared_at uses.now) leaving own.entry)
        (map clause_view clauses.now)) }
{
    for clause in clauses {
        push_clause(clause, leaving, own, uses, found)?;
    }
    Ok(())
}

/// Adds what a state does.
fn push_state<'a>(
    state: &State<'a>,
    uses: &UseTable,
    found: &mut Vec<Touch<'a>>,
) -> Result<(), AllocError>
    ensures { OnOk result (found.new.items ≡ found.old.items
        ++ spec.in_state (declared_at uses.now) (state_view state.now)) }
{
    push_definitions(state.definitions.as_slice(), uses, found)?;
    push_maybe_block(&state.entry, uses, found)?;
    let leaving = leaves_out(state);
    push_clauses(state.clauses.as_slice(), leaving, state.name, uses, found)?;
    push_maybe_block(&state.exit, uses, found)
}

/// Adds what states do.
fn push_states<'a>(
    states: &[State<'a>],
    uses: &UseTable,
    found: &mut Vec<Touch<'a>>,
) -> Result<(), AllocError>
    ensures { OnOk result (found.new.items ≡ found.old.items
        ++ flat_map (spec.in_state (declared_at uses.now)) (map state_view states.now)) }
{
    for state in states {
        push_state(state, uses, found)?;
    }
    Ok(())
}

/// Adds what a state set does. Fails only where memory ends.
pub fn push_state_set<'a>(
    set: &StateSet<'a>,
    uses: &UseTable,
    found: &mut Vec<Touch<'a>>,
) -> Result<(), AllocError>
    ensures { OnOk result (found.new.items ≡ found.old.items
        ++ spec.in_state_set (declared_at uses.now) (state_set_view set.now)) }
{
    push_definitions(set.definitions.as_slice(), uses, found)?;
    push_states(set.states.as_slice(), uses, found)
}

/// Adds what state sets do.
fn push_state_sets<'a>(
    sets: &[StateSet<'a>],
    uses: &UseTable,
    found: &mut Vec<Touch<'a>>,
) -> Result<(), AllocError>
    ensures { OnOk result (found.new.items ≡ found.old.items
        ++ flat_map (spec.in_state_set (declared_at uses.now)) (map state_set_view sets.now)) }
{
    for set in sets {
        push_state_set(set, uses, found)?;
    }
    Ok(())
}

/// What a program does with its variables, in the order of the source. The only error is that memory ends.
pub fn touches_of<'a>(
    alloc: Global,
    program: &Program<'a>,
    uses: &UseTable,
) -> Result<Vec<Touch<'a>>, AllocError>
    ensures { IfOk result (λ found. found.items
        ≡ spec.touches (declared_at uses.now) (program_view program.now)) }
{
    let mut found = Vec::new(alloc);
    push_definitions(program.definitions.as_slice(), uses, &mut found)?;
    push_maybe_block(&program.entry, uses, &mut found)?;
    push_state_sets(program.state_sets.as_slice(), uses, &mut found)?;
    push_maybe_block(&program.exit, uses, &mut found)?;
    Ok(found)
}
