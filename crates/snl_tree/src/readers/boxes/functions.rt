//! Functions in rows of definitions.

ghost use Rattle.snl_syntax.specs.Definitions as kinds;
ghost use Rattle.snl_tree.specs.reading.Moves.{Appends};
ghost use Rattle.snl_syntax.specs.view.Shown.{shown, held};
ghost use Rattle.snl_syntax.specs.view.Declarations.{type_view};
ghost use Rattle.snl_syntax.specs.view.Statements.{block_view};
ghost use Rattle.snl_syntax.specs.view.Functions.{parameters_view};
ghost use Rattle.snl_syntax.specs.view.Definitions.{definition_view};

use crate::readers::cursor::Halt;
use crate::readers::room::{in_box, pushed};
use snl_syntax::{Block, Def, Function, Parameters, TypeName};
use snl_text::Token;
use std::alloc::Global;

/// Puts a function, with the type of its value if it has one, at the end of a row.
pub fn push_function<'a>(
    alloc: Global,
    row: &mut Vec<Def<'a>>,
    type_name: Option<TypeName<'a>>,
    name: Token<'a>,
    parameters: Parameters<'a>,
    body: Box<Block<'a>>,
) -> Result<(), Halt>
    ensures { Appends definition_view row.old.items result row.new.items (kinds.function record {
      type_name = shown type_view type_name.entry;
      name = name.entry;
      parameters = parameters_view parameters.entry;
      body = held block_view body.entry;
    }) }
{
    let function = Function {
        type_name,
        name,
        parameters,
        body,
    };
    let found = in_box(&alloc, function)?;
    pushed(row, Def::Function(found))
}
