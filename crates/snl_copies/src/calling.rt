//! Code with the functions that it calls.

ghost use Rattle.std.specs.Prelude.{◌≡◌, map, OnOk};
ghost use Rattle.std.specs.List.{list_any};
ghost use Rattle.snl_syntax.specs.view.Definitions.{definition_view};
ghost use Rattle.snl_syntax.specs.view.Functions.{function_view};
ghost use Rattle.snl_copies.specs.Tests as spec;

use crate::parts::push_function;
use crate::touches::Touch;
use snl_syntax::{Def, Function};
use std::alloc::AllocError;

/// Whether this is a call of a function.
fn calls<'a>(function: &Function<'a>, touch: &Touch<'a>) -> bool
    ensures { result ≡ spec.calls (function_view function.now) touch.now }
{
    match touch {
        Touch::Calls(name) => function.name.text == name.text,
        _ => false,
    }
}

/// Whether code calls a function.
fn has_call<'a>(function: &Function<'a>, code: &[Touch<'a>]) -> bool
    ensures { result ≡ list_any (spec.calls (function_view function.now)) code.now }
{
    for touch in code {
        if calls(function, touch) {
            return true;
        }
    }
    false
}

/// Adds what a function does, where the code calls it.
fn push_if_called<'a>(function: &Function<'a>, code: &mut Vec<Touch<'a>>) -> Result<(), AllocError>
    ensures { OnOk result (code.new.items
        ≡ spec.with_function (function_view function.now) code.old.items) }
{
    if has_call(function, code.as_slice()) {
        push_function(function, code)?;
    }
    Ok(())
}

/// The same of a definition, if it is a function.
fn push_definition<'a>(definition: &Def<'a>, code: &mut Vec<Touch<'a>>) -> Result<(), AllocError>
    ensures { OnOk result (code.new.items
        ≡ spec.with_called (definition_view definition.now) code.old.items) }
{
    match definition {
        Def::Function(function) => push_if_called(function, code),
        _ => Ok(()),
    }
}

/// Adds what the functions do that code calls, and those that they call. A function calls those above it alone, so
/// the last one is looked at first. Fails only where memory ends.
pub fn push_all_called<'a>(
    definitions: &[Def<'a>],
    code: &mut Vec<Touch<'a>>,
) -> Result<(), AllocError>
    ensures { OnOk result (code.new.items
        ≡ spec.all_code (map definition_view definitions.now) code.old.items) }
{
    for number in (0..definitions.len()).rev() {
        push_definition(&definitions[number], code)?;
    }
    Ok(())
}
