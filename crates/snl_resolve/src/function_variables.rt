//! The variables of functions, which all state sets share.

ghost use Rattle.std.specs.Prelude.{◌≡◌, ◌++◌, map, OnOk, IfOk};
ghost use Rattle.std.specs.List.{flat_map};
ghost use Rattle.snl_syntax.specs.view.Definitions.{definition_view};
ghost use Rattle.snl_syntax.specs.view.Functions.{function_view, parameter_view};
ghost use Rattle.snl_names.specs.Chains.{scopes_of};
ghost use Rattle.snl_names.specs.Sights.{parameters_of};
ghost use Rattle.snl_names.specs.Variables as spec;
ghost use Rattle.snl_names.specs.CopyVariables.{variable_view};

use crate::block_variables::push_block;
use crate::functions::parameter_names;
use crate::initialisers::range_of;
use snl_names::{CopyVariable, Scope, Scopes, Size, pushed};
use snl_syntax::{Def, Function, Parameter};
use std::alloc::{AllocError, Global};

/// The variable of a parameter.
fn held_parameter<'p, 'a>(parameter: Parameter<'a>) -> CopyVariable<'p, 'a>
    ensures { variable_view result ≡ spec.held_parameter (parameter_view parameter.entry) }
{
    CopyVariable {
        name: parameter.name,
        range: range_of(parameter.type_name).unwrap_or((i64::MIN, i64::MAX)),
        size: Size::Scalar,
        initial: None,
    }
}

/// Adds the variables of parameters.
fn push_parameters<'p, 'a>(
    parameters: &[Parameter<'a>],
    kept: &mut Vec<CopyVariable<'p, 'a>>,
) -> Result<(), AllocError>
    ensures { OnOk result (map variable_view kept.new.items ≡ map variable_view kept.old.items
        ++ map spec.held_parameter (map parameter_view parameters.now)) }
{
    for parameter in parameters {
        pushed(kept, held_parameter(*parameter))?;
    }
    Ok(())
}

/// The scope that parameters make.
fn parameter_scope<'a>(alloc: Global, parameters: &[Parameter<'a>]) -> Result<Scope<'a>, AllocError>
    ensures { IfOk result (λ scope. scope ≡ parameters_of (map parameter_view parameters.now)) }
{
    let names = parameter_names(alloc, parameters)?;
    Scope::of(alloc, names)
}

/// Adds the variables of a function: its parameters, and those of its body.
fn push_function<'p, 'a>(
    alloc: Global,
    function: &'p Function<'a>,
    outer: &Scopes<'_, 'a>,
    kept: &mut Vec<CopyVariable<'p, 'a>>,
) -> Result<(), AllocError>
    ensures { OnOk result (map variable_view kept.new.items ≡ map variable_view kept.old.items
        ++ spec.by_function (scopes_of outer.now) (function_view function.now)) }
{
    let parameters = function.parameters.each.as_slice();
    push_parameters(parameters, kept)?;
    let scope = parameter_scope(alloc, parameters)?;
    push_block(
        alloc,
        &function.body,
        &Scopes::Within(&scope, &*outer),
        kept,
    )
}

/// Adds the variables of a definition, if it is a function.
fn push_if_function<'p, 'a>(
    alloc: Global,
    definition: &'p Def<'a>,
    scopes: &Scopes<'_, 'a>,
    kept: &mut Vec<CopyVariable<'p, 'a>>,
) -> Result<(), AllocError>
    ensures { OnOk result (map variable_view kept.new.items ≡ map variable_view kept.old.items
        ++ flat_map (spec.by_function (scopes_of scopes.now)) (spec.function_by
        (definition_view definition.now))) }
{
    match definition {
        Def::Function(function) => push_function(alloc, function, scopes, kept),
        _ => Ok(()),
    }
}

/// Adds the variables of the functions among definitions, in the order of the source: of each function its
/// parameters, and those of its body. `scopes` is the program's scope. The only error is that memory ends.
pub fn push_functions<'p, 'a>(
    alloc: Global,
    definitions: &'p [Def<'a>],
    scopes: &Scopes<'_, 'a>,
    kept: &mut Vec<CopyVariable<'p, 'a>>,
) -> Result<(), AllocError>
    ensures { OnOk result (map variable_view kept.new.items ≡ map variable_view kept.old.items
        ++ flat_map (spec.by_function (scopes_of scopes.now)) (flat_map spec.function_by
        (map definition_view definitions.now))) }
{
    for definition in definitions {
        push_if_function(alloc, definition, scopes, kept)?;
    }
    Ok(())
}
