//! The elements of a variable that an `assign`, `monitor`, `sync` or `syncQ` names.

ghost use Rattle.std.specs.Prelude.{◌≡◌, ◌<◌, ◌^◌};
ghost use Rattle.snl_syntax.specs.view.Shown.{shown};
ghost use Rattle.snl_syntax.specs.view.Expressions.{boxed, view};
ghost use Rattle.snl_syntax.specs.view.Definitions.{channels_view};
ghost use Rattle.snl_names.specs.Chains.{scopes_of};
ghost use Rattle.snl_names.specs.Scopes.{is_hidden};
ghost use Rattle.snl_names.specs.Parts as spec;

use snl_names::{Constant, Extent, Meaning, Part, Scopes, Size, constant_of};
use snl_syntax::{ChannelNames, Channels, Expr};
use snl_text::Pos;

/// How many channels a list in braces has; none for one channel, or for no channel.
pub fn listed_names(channels: &Option<Channels>) -> Option<usize>
    ensures { result ≡ spec.listed_names (shown channels_view channels.now) }
{
    match channels {
        Some(
            Channels {
                names: ChannelNames::List(names),
                ..
            },
        ) => Some(names.len()),
        _ => None,
    }
}

/// The element of an array of so many that a constant names.
fn element_by(size: usize, constant: Constant) -> Option<u32>
    requires { size < 2 ^ 32 }
    ensures { result ≡ spec.element_by size constant }
{
    match constant {
        Constant::Worth(number) => match u32::try_from(number) {
            Ok(element) => {
                if (element as usize) < size {
                    Some(element)
                } else {
                    None
                }
            }
            Err(_) => None,
        },
        _ => None,
    }
}

/// The element that a subscript names, if it is constant, does not fault and is in range.
fn element_at<'a>(subscript: &Expr<'a>, scopes: &Scopes<'_, 'a>, size: Size) -> Option<u32>
    ensures { result ≡ spec.element_at (is_hidden (scopes_of scopes.now)) size
        (view subscript.now) }
{
    element_by(size.elements(), constant_of(subscript, scopes))
}

/// A part of one element, if there is one.
fn one_element(variable: Pos, element: Option<u32>) -> Option<Part>
    ensures { result ≡ spec.one_element variable element }
{
    match element {
        Some(element) => Some(Part {
            variable,
            extent: Extent::Element(element),
        }),
        None => None,
    }
}

/// The whole of a variable, or as many of its elements as a list has channels.
fn all_elements(variable: Pos, size: Size, list: Option<usize>) -> Part
    ensures { result ≡ spec.all_elements variable size list }
{
    let extent = match list {
        None => Extent::Whole(size.elements() as u32),
        Some(count) => Extent::Front(count.min(size.elements()) as u32),
    };
    Part { variable, extent }
}

/// What a definition names, by the meaning of its name, its subscript and the length of its list
/// (SNL Reference, "Assign"). Those elements count that there are, also where the definition is
/// wrong.
pub fn part_of<'a>(
    subscript: &Option<Box<Expr<'a>>>,
    scopes: &Scopes<'_, 'a>,
    meaning: Meaning,
    list: Option<usize>,
) -> Option<Part>
    ensures { result
        ≡ spec.part_of (is_hidden (scopes_of scopes.now)) meaning (shown boxed subscript.now) list }
{
    match (meaning, subscript) {
        (Meaning::Variable(variable, size), None) => Some(all_elements(variable, size, list)),
        (Meaning::Variable(variable, size), Some(subscript)) => {
            one_element(variable, element_at(subscript, scopes, size))
        }
        _ => None,
    }
}

/// Whether a subscript is one of a scalar, or names no element.
fn is_wrong_subscript<'a>(
    subscript: &Option<Box<Expr<'a>>>,
    scopes: &Scopes<'_, 'a>,
    size: Size,
) -> bool
    ensures { result
        ≡ spec.is_wrong_subscript (is_hidden (scopes_of scopes.now)) size
        (shown boxed subscript.now) }
{
    match subscript {
        Some(subscript) => !size.is_array() || element_at(subscript, scopes, size).is_none(),
        None => false,
    }
}

/// Whether a list is one for a scalar, stands beside a subscript, or is longer than the array.
fn is_wrong_list(size: Size, subscript: &Option<Box<Expr>>, list: Option<usize>) -> bool
    ensures { result ≡ spec.is_wrong_list size (shown boxed subscript.now) list }
{
    match list {
        Some(count) => !size.is_array() || subscript.is_some() || size.elements() < count,
        None => false,
    }
}

/// Whether the subscript or the list of a definition is wrong, where its name means a variable.
pub fn is_wrong_part<'a>(
    subscript: &Option<Box<Expr<'a>>>,
    scopes: &Scopes<'_, 'a>,
    meaning: Meaning,
    list: Option<usize>,
) -> bool
    ensures { result
        ≡ spec.is_wrong_part (is_hidden (scopes_of scopes.now)) meaning
        (shown boxed subscript.now) list }
{
    match meaning {
        Meaning::Variable(_, size) => {
            is_wrong_subscript(subscript, scopes, size) || is_wrong_list(size, subscript, list)
        }
        _ => false,
    }
}
