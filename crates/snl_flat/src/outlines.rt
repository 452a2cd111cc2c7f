//! What code knows of the functions of a program.

ghost use Rattle.std.specs.Prelude.{[], map, IfOk};
ghost use Rattle.std.specs.List.{flat_map};
ghost use Rattle.snl_syntax.specs.view.Definitions.{definition_view};
ghost use Rattle.snl_names.specs.Variables.{function_by};
ghost use Rattle.snl_emit.specs.Depths.{outlines_after};
ghost use Rattle.snl_meaning.specs.Known.{outlines};
ghost use Rattle.snl_flat.specs.Heres.{routine_by};
ghost use Rattle.snl_flat.specs.Outlines.{AreAlike};

use crate::block_depths::block_depth;
use snl_meaning::Outline;
use snl_syntax::Def;
use std::alloc::{AllocError, Global};

/// What code knows of the functions among definitions, each below those before it: their names, and how many operands their
/// bodies hold at once, at most 2^64 - 1. The only error is that memory ends.
pub fn outlines_among<'a>(
    alloc: Global,
    definitions: &[Def<'a>],
) -> Result<Vec<Outline<'a>>, AllocError>
    ensures { IfOk result (λ kept. AreAlike (outlines kept.items)
        (outlines_after [] (map (routine_by [] [])
        (flat_map function_by (map definition_view definitions.now))))) }
{
    let mut kept = Vec::new(alloc);
    for definition in definitions {
        if let Def::Function(function) = definition {
            let depth = block_depth(&function.body, kept.as_slice());
            kept.push(Outline {
                name: function.name.text,
                depth,
            })?;
        }
    }
    Ok(kept)
}
