//! Programs in their boxes, and clauses, states and state sets in rows.

ghost use Rattle.std.specs.Prelude.{◌≡◌, IfOk, IfErr, drop};
ghost use Rattle.snl_text.specs.declared.tokens.Lexed.{Lexed};
ghost use Rattle.snl_tree.specs.declared.readers.cursor.Halt.TheVariants.{Memory};
ghost use Rattle.snl_tree.specs.reading.Sources.{Holds};
ghost use Rattle.snl_tree.specs.reading.Moves.{Appends, Builds};
ghost use Rattle.snl_syntax.specs.view.Shown.{shown, held};
ghost use Rattle.snl_syntax.specs.view.Expressions.{boxed};
ghost use Rattle.snl_syntax.specs.view.Definitions.{definition_views};
ghost use Rattle.snl_syntax.specs.view.Statements.{block_view};
ghost use Rattle.snl_syntax.specs.view.Programs.{Carries, first_place, target_view, clause_view, clause_views, state_view, state_views, state_set_view, state_set_views, program_view};

use crate::parsing::TOKEN_LIMIT;
use crate::readers::cursor::Halt;
use crate::readers::room::{in_box, pushed};
use snl_syntax::{Block, Clause, Def, Expr, Program, State, StateSet, Target};
use snl_text::{Lexed, Pos, Token};
use std::alloc::Global;

/// Puts a clause at the end of a row.
#[tactic(auto, using(crate::proofs::code::Building::in_a_row))]
pub fn push_clause<'a>(
    row: &mut Vec<Clause<'a>>,
    word: Token<'a>,
    condition: Option<Box<Expr<'a>>>,
    block: Box<Block<'a>>,
    target: Target<'a>,
) -> Result<(), Halt>
    ensures { Appends clause_view row.old.items result row.new.items record {
      word = word.entry;
      condition = shown boxed condition.entry;
      block = held block_view block.entry;
      target = target_view target.entry;
    } }
{
    let clause = Clause {
        word,
        condition,
        block,
        target,
    };
    pushed(row, clause)
}

/// Puts a state at the end of a row.
#[tactic(auto, using(crate::proofs::code::Building::in_a_row))]
pub fn push_state<'a>(
    row: &mut Vec<State<'a>>,
    word: Token<'a>,
    name: Token<'a>,
    definitions: Vec<Def<'a>>,
    entry: Option<Box<Block<'a>>>,
    clauses: Vec<Clause<'a>>,
    exit: Option<Box<Block<'a>>>,
) -> Result<(), Halt>
    ensures { Appends state_view row.old.items result row.new.items record {
      word = word.entry;
      name = name.entry;
      definitions = definition_views definitions.entry;
      entry = shown (held block_view) entry.entry;
      clauses = clause_views clauses.entry;
      exit = shown (held block_view) exit.entry;
    } }
{
    let state = State {
        word,
        name,
        definitions,
        entry,
        clauses,
        exit,
    };
    pushed(row, state)
}

/// Puts a state set at the end of a row.
#[tactic(auto, using(crate::proofs::code::Building::in_a_row))]
pub fn push_state_set<'a>(
    row: &mut Vec<StateSet<'a>>,
    word: Token<'a>,
    name: Token<'a>,
    definitions: Vec<Def<'a>>,
    states: Vec<State<'a>>,
) -> Result<(), Halt>
    ensures { Appends state_set_view row.old.items result row.new.items record {
      word = word.entry;
      name = name.entry;
      definitions = definition_views definitions.entry;
      states = state_views states.entry;
    } }
{
    let state_set = StateSet {
        word,
        name,
        definitions,
        states,
    };
    pushed(row, state_set)
}

/// The place of the first token after the first [`TOKEN_LIMIT`].
fn beyond(tokens: &[Token]) -> Option<Pos>
    ensures { result ≡ first_place (drop 65536 tokens.now) }
{
    if tokens.len() <= TOKEN_LIMIT {
        return None;
    }
    Some(tokens[TOKEN_LIMIT].pos)
}

/// What a program takes along of its source.
#[derive(Drop)]
pub struct SourceParts<'a> {
    embedded: Vec<Pos>,
    files: Vec<&'a [u8]>,
    token_count: usize,
    beyond: Option<Pos>,
}

/// What the source held between and after its tokens.
pub fn source_parts<'a>(alloc: Global, lexed: &Lexed<'a>) -> Result<SourceParts<'a>, Halt>
    ensures held { IfOk result (λ parts. Holds parts lexed.now) }
    ensures memory { IfErr result (λ halt. halt ≡ Memory) }
{
    let embedded = Vec::from_slice(alloc, lexed.embedded.as_slice())?;
    let files = Vec::from_slice(alloc, lexed.files.as_slice())?;
    Ok(SourceParts {
        embedded,
        files,
        token_count: lexed.tokens.len(),
        beyond: beyond(lexed.tokens.as_slice()),
    })
}

/// A program in its box, with these parts of its source.
#[tactic(auto, using(crate::proofs::code::Building::in_a_box))]
pub fn boxed_program<'a>(
    alloc: &Global,
    word: Token<'a>,
    name: Token<'a>,
    macros: Option<Token<'a>>,
    definitions: Vec<Def<'a>>,
    entry: Option<Box<Block<'a>>>,
    state_sets: Vec<StateSet<'a>>,
    exit: Option<Box<Block<'a>>>,
    source: SourceParts<'a>,
) -> Result<Box<Program<'a>>, Halt>
    ensures tree { Builds (held program_view) result record {
      word = word.entry;
      name = name.entry;
      macros = macros.entry;
      definitions = definition_views definitions.entry;
      entry = shown (held block_view) entry.entry;
      state_sets = state_set_views state_sets.entry;
      exit = shown (held block_view) exit.entry;
    } }
    ensures carried { (lexed : Lexed) → Holds source.entry lexed
        → IfOk result (λ b. Carries b.value lexed) }
{
    let program = Program {
        word,
        name,
        macros,
        definitions,
        entry,
        state_sets,
        exit,
        embedded: source.embedded,
        files: source.files,
        token_count: source.token_count,
        beyond: source.beyond,
    };
    in_box(alloc, program)
}
