//! Declarations in their boxes.

ghost use Rattle.snl_tree.specs.reading.Moves.{Builds};
ghost use Rattle.snl_syntax.specs.view.Shown.{shown, held};
ghost use Rattle.snl_syntax.specs.view.Declarations.{type_view, views, initialiser_view, declarator_view, declarator_views, declaration_view};

use crate::readers::cursor::Halt;
use crate::readers::room::in_box;
use snl_syntax::{Declaration, Declarator, Expr, Initialiser, TypeName};
use snl_text::Token;
use std::alloc::Global;

/// A declared name with its sizes and what it begins with.
#[tactic(auto, using(crate::proofs::code::Building::in_a_box))]
pub fn boxed_declarator<'a>(
    alloc: &Global,
    name: Token<'a>,
    sizes: Vec<Box<Expr<'a>>>,
    initial: Option<Initialiser<'a>>,
) -> Result<Box<Declarator<'a>>, Halt>
    ensures { Builds (held declarator_view) result record {
      name = name.entry;
      sizes = views sizes.entry;
      initial = shown initialiser_view initial.entry;
    } }
{
    let declarator = Declarator {
        name,
        sizes,
        initial,
    };
    in_box(alloc, declarator)
}

/// Declared names of a type.
#[tactic(auto, using(crate::proofs::code::Building::in_a_box))]
pub fn boxed_declaration<'a>(
    alloc: &Global,
    type_name: TypeName<'a>,
    names: Vec<Declarator<'a>>,
) -> Result<Box<Declaration<'a>>, Halt>
    ensures { Builds (held declaration_view) result
        record { type_name = type_view type_name.entry; names = declarator_views names.entry } }
{
    in_box(alloc, Declaration { type_name, names })
}
