//! The text of the tree of a program.

ghost use Rattle.std.specs.Prelude.{◌≡◌, Some, string_bytes, IfOk};
ghost use Rattle.serde_json.specs.Read.{read};
ghost use Rattle.serde_json.specs.View.{view};
ghost use Rattle.snl_syntax.specs.view.Programs.{program_view};
ghost use Rattle.snl_json.specs.Programs as spec;

use crate::programs::put_program;
use serde_json::Value;
use snl_syntax::Program;
use std::alloc::{AllocError, Global};

/// The rows of a program. Fails only where memory ends.
#[tactic(auto, unfolding(crate::specs::Programs::program_data))]
fn tree_value(alloc: Global, program: &Program<'_>) -> Result<Value, AllocError>
    ensures { IfOk result (λ v. view v ≡ spec.program_data (program_view program.now)) }
{
    let mut rows = Vec::new(alloc);
    put_program(alloc, program, &mut rows)?;
    Ok(Value::Array(rows))
}

/// The tree of a program as JSON: its rows, of which the last one is the program's. Read as JSON, the text is these rows. Fails only
/// where memory ends.
pub fn tree_text(alloc: Global, program: &Program<'_>) -> Result<String, AllocError>
    ensures text { IfOk result (λ s. string_bytes s
        ≡ spec.program_text (program_view program.now)) }
    ensures reads_back { IfOk result (λ s. read (string_bytes s)
        ≡ Some (spec.program_data (program_view program.now))) }
{
    tree_value(alloc, program)?.to_string(alloc)
}
