//! Types, and whether an initialiser is good for its variable.

ghost use Rattle.std.specs.Prelude.{◌≡◌, map, is_some};
ghost use Rattle.snl_syntax.specs.view.Expressions.{boxed, view};
ghost use Rattle.snl_syntax.specs.view.Declarations.{type_view, initialiser_view};
ghost use Rattle.snl_syntax.specs.view.Shown.{shown};
ghost use Rattle.snl_names.specs.Chains.{scopes_of};
ghost use Rattle.std.specs.List.{list_all};
ghost use Rattle.snl_names.specs.Constants.{constant_of};
ghost use Rattle.snl_names.specs.Scopes.{is_hidden};
ghost use Rattle.snl_names.specs.Types as spec;

use snl_names::{Constant, Scopes, Size, constant_of};
use snl_syntax::{Expr, Initialiser, TypeName};
use snl_text::Kind;

/// The least and the greatest number of a type (SNL Reference, "Declarations"); none where it is
/// not supported.
pub fn range_of(type_name: TypeName) -> Option<(i64, i64)>
    ensures { result ≡ spec.range_of (type_view type_name.entry) }
{
    match (type_name.word.kind, type_name.second) {
        (Kind::Char | Kind::Int8, _) => Some((-128, 127)),
        (Kind::Short | Kind::Int16, _) => Some((-32_768, 32_767)),
        (Kind::Int | Kind::Int32, _) => Some((-2_147_483_648, 2_147_483_647)),
        (Kind::Long, _) => Some((i64::MIN, i64::MAX)),
        (Kind::Uint8, _) => Some((0, 255)),
        (Kind::Uint16, _) => Some((0, 65_535)),
        (Kind::Uint32, _) => Some((0, 4_294_967_295)),
        (Kind::Unsigned, None) => Some((0, 4_294_967_295)),
        (Kind::Unsigned, Some(second)) => match second.kind {
            Kind::Char => Some((0, 255)),
            Kind::Short => Some((0, 65_535)),
            Kind::Int => Some((0, 4_294_967_295)),
            _ => None,
        },
        _ => None,
    }
}

/// Whether a type has a number; one that is not supported counts as `long`.
fn is_in(range: Option<(i64, i64)>, number: i64) -> bool
    ensures { result ≡ spec.is_in range number }
{
    match range {
        Some((least, greatest)) => least <= number && number <= greatest,
        None => true,
    }
}

/// Whether a constant does not fault and the type has it.
fn is_constant_in(range: Option<(i64, i64)>, constant: Constant) -> bool
    ensures { result ≡ spec.is_constant_in range constant }
{
    match constant {
        Constant::Worth(number) => is_in(range, number),
        _ => false,
    }
}

/// Whether all values are constants of a type.
fn are_constants<'a>(
    values: &[Box<Expr<'a>>],
    scopes: &Scopes<'_, 'a>,
    range: Option<(i64, i64)>,
) -> bool
    ensures { result ≡ list_all (λ e. spec.is_constant_in range (constant_of (is_hidden
        (scopes_of scopes.now)) e)) (map boxed values.now) }
{
    for value in values {
        if !is_constant_in(range, constant_of(value, scopes)) {
            return false;
        }
    }
    true
}

/// Whether a list is good for a variable of this size.
fn is_good_list<'a>(
    values: &[Box<Expr<'a>>],
    scopes: &Scopes<'_, 'a>,
    in_block: bool,
    range: Option<(i64, i64)>,
    size: Size,
) -> bool
    ensures { result ≡ spec.is_good_list (is_hidden (scopes_of scopes.now)) in_block range size
        (map boxed values.now) }
{
    if !size.is_array() || size.elements() < values.len() {
        return false;
    }
    in_block || are_constants(values, scopes, range)
}

/// Whether a single value is good for a variable of this size.
fn is_good_value<'a>(
    value: &Expr<'a>,
    scopes: &Scopes<'_, 'a>,
    in_block: bool,
    range: Option<(i64, i64)>,
    size: Size,
) -> bool
    ensures { result ≡ spec.is_good_value (is_hidden (scopes_of scopes.now)) in_block range size
        (view value.now) }
{
    if size.is_array() {
        return false;
    }
    in_block || is_constant_in(range, constant_of(value, scopes))
}

/// Whether an initialiser is good for a variable of this type and size, in a block or not.
#[tactic(auto, using(snl_names::proofs::ListLaws::listed_of))]
pub fn is_good_initialiser<'a>(
    initial: &Option<Initialiser<'a>>,
    scopes: &Scopes<'_, 'a>,
    in_block: bool,
    type_name: TypeName<'a>,
    size: Size,
) -> bool
    ensures { result ≡ spec.is_good_initialiser (is_hidden (scopes_of scopes.now)) in_block
        (type_view type_name.entry) size (shown initialiser_view initial.now) }
{
    match initial {
        None => true,
        Some(Initialiser::Single(value)) => {
            is_good_value(value, scopes, in_block, range_of(type_name), size)
        }
        Some(Initialiser::List(values)) => is_good_list(
            values.each.as_slice(),
            scopes,
            in_block,
            range_of(type_name),
            size,
        ),
    }
}
