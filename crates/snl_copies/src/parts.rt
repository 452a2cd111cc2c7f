//! What functions, clauses and state sets do by the names in them.

ghost use Rattle.std.specs.Prelude.{◌≡◌, [], ◌∷◌, ◌++◌, map, slice_get, OnOk, IfOk};
ghost use Rattle.std.specs.List.{flat_map};
ghost use Rattle.snl_syntax.specs.view.Functions.{parameter_view, function_view};
ghost use Rattle.snl_syntax.specs.view.Shown.{shown, held};
ghost use Rattle.snl_syntax.specs.view.Statements.{block_view};
ghost use Rattle.snl_syntax.specs.view.Programs.{target_view, clause_view, state_view, state_set_view, program_view};
ghost use Rattle.snl_copies.specs.declared.touches.Touch.{Touch};
ghost use Rattle.snl_copies.specs.Code as spec;
ghost use Rattle.snl_copies.specs.Copies.{for_first, code_of};

use crate::expressions::push_if_there;
use crate::statements::{push_block, push_maybe_block};
use crate::touches::Touch;
use snl_syntax::{Block, Clause, Function, Parameter, Program, State, StateSet, Target};
use std::alloc::{AllocError, Global};

/// Adds that parameters begin.
fn push_parameters<'a>(
    parameters: &[Parameter<'a>],
    code: &mut Vec<Touch<'a>>,
) -> Result<(), AllocError>
    ensures { OnOk result (code.new.items ≡ code.old.items
        ++ map (λ p. Touch.Begins p.name) (map parameter_view parameters.now)) }
{
    for parameter in parameters {
        code.push(Touch::Begins(parameter.name))?;
    }
    Ok(())
}

/// Adds what a function does. Fails only where memory ends.
pub fn push_function<'a>(
    function: &Function<'a>,
    code: &mut Vec<Touch<'a>>,
) -> Result<(), AllocError>
    ensures { OnOk result (code.new.items ≡ code.old.items
        ++ spec.in_function (function_view function.now)) }
{
    push_parameters(function.parameters.each.as_slice(), code)?;
    push_block(&function.body, code)
}

/// Adds where a clause leads.
fn push_target<'a>(code: &mut Vec<Touch<'a>>, target: Target<'a>) -> Result<(), AllocError>
    ensures { OnOk result (code.new.items ≡ code.old.items
        ++ spec.at_target (target_view target.entry)) }
{
    if let Target::State(name) = target {
        code.push(Touch::Leads(name))?;
    }
    Ok(())
}

/// Adds what a clause does. Fails only where memory ends.
pub fn push_clause<'a>(clause: &Clause<'a>, code: &mut Vec<Touch<'a>>) -> Result<(), AllocError>
    ensures { OnOk result (code.new.items ≡ code.old.items
        ++ spec.in_clause (clause_view clause.now)) }
{
    push_if_there(&clause.condition, code)?;
    push_block(&clause.block, code)?;
    push_target(code, clause.target)
}

/// Adds what clauses do.
fn push_clauses<'a>(clauses: &[Clause<'a>], code: &mut Vec<Touch<'a>>) -> Result<(), AllocError>
    ensures { OnOk result (code.new.items ≡ code.old.items
        ++ flat_map spec.in_clause (map clause_view clauses.now)) }
{
    for clause in clauses {
        push_clause(clause, code)?;
    }
    Ok(())
}

/// Adds what a state does.
fn push_state<'a>(state: &State<'a>, code: &mut Vec<Touch<'a>>) -> Result<(), AllocError>
    ensures { OnOk result (code.new.items ≡ code.old.items
        ++ spec.in_state (state_view state.now)) }
{
    push_maybe_block(&state.entry, code)?;
    push_clauses(state.clauses.as_slice(), code)?;
    push_maybe_block(&state.exit, code)
}

/// Adds what a state set does.
fn push_state_set<'a>(set: &StateSet<'a>, code: &mut Vec<Touch<'a>>) -> Result<(), AllocError>
    ensures { OnOk result (code.new.items ≡ code.old.items
        ++ spec.in_state_set (state_set_view set.now)) }
{
    for state in &set.states {
        push_state(state, code)?;
    }
    Ok(())
}

/// Adds what the state set of a number does, if there is one.
fn push_numbered<'a>(
    sets: &[StateSet<'a>],
    set: usize,
    code: &mut Vec<Touch<'a>>,
) -> Result<(), AllocError>
    ensures { OnOk result (code.new.items ≡ code.old.items
        ++ spec.if_there spec.in_state_set (slice_get (map state_set_view sets.now) set)) }
{
    if sets.len() <= set {
        return Ok(());
    }
    push_state_set(&sets[set], code)
}

/// Adds what a block of the program does, for the first state set alone.
fn push_for_first<'a>(
    block: &Option<Box<Block<'a>>>,
    set: usize,
    code: &mut Vec<Touch<'a>>,
) -> Result<(), AllocError>
    ensures { OnOk result (code.new.items ≡ code.old.items
        ++ for_first set (shown (held block_view) block.now)) }
{
    if set == 0 {
        push_maybe_block(block, code)
    } else {
        Ok(())
    }
}

/// What the code does that runs on the copy of a state set, without that of functions: the first has the program's own blocks too.
/// The only error is that memory ends.
pub fn code_of<'a>(
    alloc: Global,
    program: &Program<'a>,
    set: usize,
) -> Result<Vec<Touch<'a>>, AllocError>
    ensures { IfOk result (λ code. code.items ≡ code_of (program_view program.now) set) }
{
    let mut code = Vec::new(alloc);
    push_for_first(&program.entry, set, &mut code)?;
    push_numbered(program.state_sets.as_slice(), set, &mut code)?;
    push_for_first(&program.exit, set, &mut code)?;
    Ok(code)
}
