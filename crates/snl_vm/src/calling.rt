//! Calls of functions, and the way back from them.

ghost use Rattle.std.specs.Prelude.{◌≡◌, ◌+◌, ◌<◌, ◌^◌, ℕ, Ok, length};
ghost use Rattle.snl_meaning.specs.declared.instrs.Instr.TheVariants as instr;
ghost use Rattle.snl_meaning.specs.Words as spec;
ghost use Rattle.snl_vm.specs.Running.{done_in};
ghost use Rattle.snl_vm.specs.Stack.{places_of, slots_of};
ghost use Rattle.snl_vm.specs.Steps.{CanStep, crossed};
ghost use Rattle.snl_vm.specs.Views.{gave, world_of};

use crate::calls::Calls;
use crate::contexts::PieceContext;
use crate::stacks::Stack;
use crate::stores::Store;
use crate::words::{Charge, put_number, spend};
use snl_meaning::Variable;

/// A call, as its instruction says it.
#[derive(Clone, Copy)]
pub struct CallSite {
    /// The number of the function.
    pub function: usize,
    /// How many values it is called with.
    pub count: usize,
    /// The line of the call, from 1.
    pub line: usize,
}

/// Each value in order into its parameter. Those for which there is none are dropped.
#[inline(always)]
fn bind(
    parameters: &[Variable],
    line: usize,
    values: &[i64],
    set: usize,
    store: &mut Store,
) -> Result<(), Charge>
    ensures { spec.bound set parameters.now line values.now (world_of store.old)
        ≡ gave result (world_of store.new) }
{
    for number in 0..parameters.len() {
        if number >= values.len() {
            return Ok(());
        }
        put_number(store, set, parameters[number], line, 0, values[number])?;
    }
    Ok(())
}

/// How a call begins: a tick, and then the parameters.
#[inline(always)]
fn enter(
    parameters: &[Variable],
    line: usize,
    values: &[i64],
    set: usize,
    store: &mut Store,
) -> Result<(), Charge>
    ensures { spec.called_with set parameters.now line values.now (world_of store.old)
        ≡ gave result (world_of store.new) }
{
    spend(store, line)?;
    bind(parameters, line, values, set, store)
}

/// Calls a function from an address with the topmost operands: takes them away, keeps the address after this one, and answers where
/// the code of the function begins.
#[inline(always)]
pub fn call(
    site: CallSite,
    pc: usize,
    context: &PieceContext,
    store: &mut Store,
    calls: &mut Calls,
    operands: &mut Stack,
) -> Result<usize, Charge>
    requires after { pc + 1 < 2 ^ 64 }
    requires places { places_of calls.old ≡ length context.now.program.now.functions.now }
    requires possible { CanStep (done_in context.now calls.old operands.old store.old
        (instr.Call site.function site.count site.line) pc) }
    ensures does { done_in context.now calls.old operands.old store.old
        (instr.Call site.function site.count site.line) pc
        ≡ crossed result calls.new operands.new (world_of store.new) }
    ensures room { slots_of operands.new ≡ slots_of operands.old }
    ensures places { places_of calls.new ≡ places_of calls.old }
{
    let entry = &context.program.functions[site.function];
    let parameters = entry.parameters.as_slice();
    let values = operands.topmost(site.count);
    enter(parameters, site.line, values, context.set, store)?;
    operands.take_away(site.count);
    calls.keep(pc + 1);
    Ok(entry.start)
}

/// The end of the innermost call: answers where it goes on.
#[inline(always)]
pub fn go_back(context: &PieceContext, store: &Store, calls: &mut Calls, operands: &Stack) -> usize
    ghost pc: { ℕ }
    requires { CanStep (done_in context.now calls.old operands.now store.now instr.Return pc) }
    ensures does { done_in context.now calls.old operands.now store.now instr.Return pc
        ≡ crossed (Ok result) calls.new operands.now (world_of store.now) }
    ensures places { places_of calls.new ≡ places_of calls.old }
{
    calls.back()
}
