//! The sites in declarations.

ghost use Rattle.std.specs.Prelude.{◌≡◌, [], ◌∷◌, ◌++◌, map, OnOk};
ghost use Rattle.std.specs.List.{flat_map};
ghost use Rattle.snl_syntax.specs.view.Expressions.{boxed, view};
ghost use Rattle.snl_syntax.specs.view.Declarations.{type_view, declarator_view, declaration_view, initialiser_view};
ghost use Rattle.snl_syntax.specs.view.Shown.{shown};
ghost use Rattle.snl_resolve.specs.Seen.{sight_of};
ghost use Rattle.snl_names.specs.Sites as spec;

use crate::expressions::note_expression;
use crate::initialisers::{is_good_initialiser, range_of};
use crate::sights::Sight;
use snl_names::{Purpose, Site, pushed, size_of};
use snl_syntax::{Declaration, Declarator, Expr, Initialiser, TypeName};
use std::alloc::AllocError;

/// Notes the sites in an expression that stands for its value, outside of a condition. Fails only where memory ends.
pub fn note_value<'a>(
    value: &Expr<'a>,
    sight: &Sight<'_, 'a>,
    sites: &mut Vec<Site<'a>>,
) -> Result<(), AllocError>
    ensures { OnOk result (sites.new.items ≡ sites.old.items
        ++ spec.in_value (sight_of sight.now) (view value.now)) }
{
    note_expression(value, false, sight, Purpose::Read, sites)
}

/// Notes the sites in an expression that may be missing. Fails only where memory ends.
pub fn note_if_there<'a>(
    value: &Option<Box<Expr<'a>>>,
    sight: &Sight<'_, 'a>,
    sites: &mut Vec<Site<'a>>,
) -> Result<(), AllocError>
    ensures { OnOk result (sites.new.items ≡ sites.old.items
        ++ spec.maybe (spec.in_value (sight_of sight.now)) (shown boxed value.now)) }
{
    if let Some(value) = value {
        note_value(value, sight, sites)?;
    }
    Ok(())
}

/// Notes the sites in several of them.
fn note_values<'a>(
    values: &[Box<Expr<'a>>],
    sight: &Sight<'_, 'a>,
    sites: &mut Vec<Site<'a>>,
) -> Result<(), AllocError>
    ensures { OnOk result (sites.new.items ≡ sites.old.items
        ++ flat_map (spec.in_value (sight_of sight.now)) (map boxed values.now)) }
{
    for value in values {
        note_value(value, sight, sites)?;
    }
    Ok(())
}

/// Notes the sites in an initialiser.
#[tactic(auto, using(snl_names::proofs::ListLaws::sites_of_list))]
fn note_initialiser<'a>(
    initial: &Option<Initialiser<'a>>,
    sight: &Sight<'_, 'a>,
    sites: &mut Vec<Site<'a>>,
) -> Result<(), AllocError>
    ensures { OnOk result (sites.new.items ≡ sites.old.items
        ++ spec.maybe (spec.in_initialiser (sight_of sight.now))
        (shown initialiser_view initial.now)) }
{
    match initial {
        None => Ok(()),
        Some(Initialiser::Single(value)) => note_value(value, sight, sites),
        Some(Initialiser::List(values)) => note_values(values.each.as_slice(), sight, sites),
    }
}

/// The site of a declared name of this type, in a block or not.
fn declarator_site<'a>(
    declarator: &Declarator<'a>,
    sight: &Sight<'_, 'a>,
    in_block: bool,
    type_name: TypeName<'a>,
) -> Site<'a>
    ensures { result ≡ spec.at_declarator (sight_of sight.now) in_block
        (type_view type_name.entry) (declarator_view declarator.now) }
{
    let size = size_of(declarator.sizes.as_slice(), &sight.scopes);
    let initial = &declarator.initial;
    Site::Declarator {
        name: declarator.name,
        size,
        has_good_initialiser: is_good_initialiser(
            initial,
            &sight.scopes,
            in_block,
            type_name,
            size,
        ),
    }
}

/// Notes the sites in a declared name with its sizes and its initialiser.
fn note_declarator<'a>(
    declarator: &Declarator<'a>,
    sight: &Sight<'_, 'a>,
    in_block: bool,
    type_name: TypeName<'a>,
    sites: &mut Vec<Site<'a>>,
) -> Result<(), AllocError>
    ensures { OnOk result (sites.new.items ≡ sites.old.items
        ++ spec.in_declarator (sight_of sight.now) in_block (type_view type_name.entry)
        (declarator_view declarator.now)) }
{
    pushed(
        sites,
        declarator_site(declarator, sight, in_block, type_name),
    )?;
    note_values(declarator.sizes.as_slice(), sight, sites)?;
    note_initialiser(&declarator.initial, sight, sites)
}

/// Notes a type, of a declaration, a function or a parameter. Fails only where memory ends.
pub fn note_type<'a>(type_name: TypeName<'a>, sites: &mut Vec<Site<'a>>) -> Result<(), AllocError>
    ensures { OnOk result (sites.new.items ≡ sites.old.items
        ++ spec.at_type (type_view type_name.entry) ∷ []) }
{
    let site = Site::Typed {
        word: type_name.word,
        second: type_name.second,
        is_supported: range_of(type_name).is_some(),
    };
    pushed(sites, site)
}

/// Notes the sites in declared names of this type.
fn note_declarators<'a>(
    declarators: &[Declarator<'a>],
    sight: &Sight<'_, 'a>,
    in_block: bool,
    type_name: TypeName<'a>,
    sites: &mut Vec<Site<'a>>,
) -> Result<(), AllocError>
    ensures { OnOk result (sites.new.items ≡ sites.old.items
        ++ flat_map (spec.in_declarator (sight_of sight.now) in_block
        (type_view type_name.entry)) (map declarator_view declarators.now)) }
{
    for declarator in declarators {
        note_declarator(declarator, sight, in_block, type_name, sites)?;
    }
    Ok(())
}

/// Notes the sites in a declaration; its names are noted with their scope. Fails only where memory ends.
pub fn note_declaration<'a>(
    declared: &Declaration<'a>,
    sight: &Sight<'_, 'a>,
    in_block: bool,
    sites: &mut Vec<Site<'a>>,
) -> Result<(), AllocError>
    ensures { OnOk result (sites.new.items ≡ sites.old.items
        ++ spec.in_declaration (sight_of sight.now) in_block (declaration_view declared.now)) }
{
    let names = declared.names.as_slice();
    note_type(declared.type_name, sites)?;
    note_declarators(names, sight, in_block, declared.type_name, sites)
}
