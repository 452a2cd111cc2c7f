//! The code of a whole program.

ghost use Rattle.std.specs.Prelude.{◌≡◌, ◌≤◌, ◌++◌, length, map, slice_get, take, IfOk, OnOk};
ghost use Rattle.std.specs.List.{flat_map};
ghost use Rattle.snl_syntax.specs.view.Shown.{shown, held};
ghost use Rattle.snl_syntax.specs.view.Statements.{block_view};
ghost use Rattle.snl_syntax.specs.view.Programs.{state_view, state_set_view, program_view};
ghost use Rattle.snl_names.specs.Programs as programs;
ghost use Rattle.snl_emit.specs.BlockCode.{block_piece};
ghost use Rattle.snl_meaning.specs.Names as names;
ghost use Rattle.snl_flat.specs.Depths.{capped};
ghost use Rattle.snl_flat.specs.Depths as depths;
ghost use Rattle.snl_flat.specs.Heres as heres;
ghost use Rattle.snl_flat.specs.Inside.{IsInside};
ghost use Rattle.snl_flat.specs.Layout as spec;
ghost use Rattle.snl_flat.specs.Pieces.{IsCodeOf};
ghost use Rattle.snl_flat.specs.Reached.{AreMarked, marks_in, rows, table_by};
ghost use Rattle.snl_flat.specs.Size.{program_size};
ghost use Rattle.snl_flat.specs.Starts.{state_tables, table_of, holds_in};

use crate::code::Code;
use crate::functions::{Common, lay_functions, names_among};
use crate::laying::{lay_block, lay_states};
use crate::outlines::outlines_among;
use crate::program_depths::program_depth;
use crate::starts::StateStarts;
use snl_meaning::{Instr, Known, Places, Sites, Within};
use snl_reach::reached_states;
use snl_resolve::{Numbered, Site, variables_of};
use snl_syntax::{Block, Program, State, StateSet};
use snl_text::Token;
use std::alloc::{AllocError, Global};

/// The strings that are formats, in the order of the source.
fn texts_of(alloc: Global, sites: &[Site]) -> Result<Vec<Vec<u8>>, AllocError>
    ensures { IfOk result (λ texts. map (λ t. t.items) texts.items
        ≡ flat_map names.format_at sites.now) }
{
    let mut texts = Vec::new(alloc);
    for site in sites {
        if let Site::Format { text, .. } = site {
            let kept = Vec::from_slice(alloc, text.text)?;
            texts.push(kept)?;
        }
    }
    Ok(texts)
}

/// The names of states.
fn names_of<'a>(alloc: Global, states: &[State<'a>]) -> Result<Vec<Token<'a>>, AllocError>
    ensures { IfOk result (λ kept. kept.items ≡ map (λ s. s.name) (map state_view states.now)) }
{
    let mut names = Vec::new(alloc);
    for state in states {
        names.push(state.name)?;
    }
    Ok(names)
}

/// The variables of the first copy, with their places in it.
fn first_places<'a>(alloc: Global, program: &Program<'a>) -> Result<Places, AllocError>
    ensures { IfOk result (λ places. places ≡ heres.placed_in (program_view program.now) 0) }
{
    let variables = variables_of(alloc, program, 0)?;
    Places::of(alloc, variables.as_slice())
}

/// The names of the states of a state set, in their order. The only error is that memory ends.
pub fn names_in<'a>(alloc: Global, set: &StateSet<'a>) -> Result<Numbered<'a>, AllocError>
    ensures { IfOk result (λ kept. kept ≡ map (λ s. s.name) (state_set_view set.now).states) }
{
    let names = names_of(alloc, set.states.as_slice())?;
    Numbered::of(alloc, names)
}

/// The names of the states of the state set of a number; none where there is no such state set.
fn state_names<'a>(
    alloc: Global,
    sets: &[StateSet<'a>],
    set: usize,
) -> Result<Numbered<'a>, AllocError>
    ensures { IfOk result (λ kept. kept
        ≡ heres.states_by (slice_get (map state_set_view sets.now) set)) }
{
    if sets.len() <= set {
        return Ok(Numbered::empty(alloc));
    }
    names_in(alloc, &sets[set])
}

/// For each state set whether each of its states is reached.
fn reached_sets(alloc: Global, sets: &[StateSet]) -> Result<Vec<Vec<bool>>, AllocError>
    ensures { IfOk result (λ marks. AreMarked (map state_set_view sets.now) marks.items) }
{
    let mut marks = Vec::new(alloc);
    for set in sets {
        let of_set = reached_states(alloc, set.states.as_slice())?;
        marks.push(of_set)?;
    }
    Ok(marks)
}

/// The marks of the states of a state set; none where there is no such state set.
fn marks_of(marks: &[Vec<bool>], set: usize) -> &[bool]
    ensures { result.now ≡ marks_in (rows marks.now) set }
{
    match marks.get(set) {
        Some(marks) => marks.as_slice(),
        None => &[],
    }
}

/// Adds the code of a state set with the variables of its copy; gives where its pieces begin.
fn lay_set<'a>(
    alloc: Global,
    program: &Program<'a>,
    common: &Common<'_, 'a>,
    places: &Places,
    marks: &[Vec<bool>],
    number: usize,
    set: &StateSet<'a>,
    code: &mut Vec<Instr>,
) -> Result<Vec<StateStarts>, AllocError>
    requires sites { common.now.sites.now ≡ programs.sites (program_view program.now) }
    requires functions { take common.now.count common.now.names.now
        ≡ heres.function_names (program_view program.now) }
    requires places { places.now ≡ heres.placed_in (program_view program.now) number }
    ensures starts { IfOk result (λ starts. state_tables starts
        ≡ spec.set_starts (table_by marks.now) (program_view program.now) number code.old.items
        (state_set_view set.now)) }
    ensures code { OnOk result (code.new.items ≡ code.old.items
        ++ spec.set_code (table_by marks.now) (program_view program.now) number
        (state_set_view set.now)) }
{
    let states = state_names(alloc, program.state_sets.as_slice(), number)?;
    let known = Known {
        states: &states,
        sites: common.sites,
        variables: places,
        within: Within::Piece,
        functions: common.names,
        above: common.count,
    };
    let marks = marks_of(marks, number);
    lay_states(alloc, set.states.as_slice(), marks, &known, code)
}

/// Adds the code of all state sets; gives where their pieces begin.
fn lay_sets<'a>(
    alloc: Global,
    program: &Program<'a>,
    common: &Common<'_, 'a>,
    copies: &[Places],
    marks: &[Vec<bool>],
    sets: &[StateSet<'a>],
    code: &mut Vec<Instr>,
) -> Result<Vec<Vec<StateStarts>>, AllocError>
    requires sites { common.now.sites.now ≡ programs.sites (program_view program.now) }
    requires functions { take common.now.count common.now.names.now
        ≡ heres.function_names (program_view program.now) }
    requires copies { copies.now
        ≡ heres.placed_sets (program_view program.now) 0 (program_view program.now).state_sets }
    requires sets { sets.now ≡ program.now.state_sets.items }
    ensures starts { IfOk result (λ starts. map state_tables starts.items
        ≡ spec.row_starts (spec.set_code (table_by marks.now) (program_view program.now))
        (spec.set_starts (table_by marks.now) (program_view program.now)) 0 code.old.items
        (map state_set_view sets.now)) }
    ensures code { OnOk result (code.new.items ≡ code.old.items
        ++ spec.row_code (spec.set_code (table_by marks.now) (program_view program.now)) 0
        (map state_set_view sets.now)) }
{
    let mut starts = Vec::new(alloc);
    for (number, set) in sets.iter().enumerate() {
        let one = lay_set(
            alloc,
            program,
            common,
            &copies[number],
            marks,
            number,
            set,
            code,
        )?;
        starts.push(one)?;
    }
    Ok(starts)
}

/// Adds the code of a block of the program, if it is there; gives where it begins.
fn lay_own<'a>(
    alloc: Global,
    program: &Program<'a>,
    common: &Common<'_, 'a>,
    block: &Option<Box<Block<'a>>>,
    code: &mut Vec<Instr>,
) -> Result<Option<usize>, AllocError>
    requires sites { common.now.sites.now ≡ programs.sites (program_view program.now) }
    requires functions { take common.now.count common.now.names.now
        ≡ heres.function_names (program_view program.now) }
    ensures start { IfOk result (λ start. start
        ≡ spec.start_after code.old.items (shown (held block_view) block.now)) }
    ensures code { OnOk result (code.new.items ≡ code.old.items
        ++ spec.maybe_code (block_piece (heres.here_in (program_view program.now) 0))
        (shown (held block_view) block.now)) }
{
    if block.is_none() {
        return Ok(None);
    }
    let states = state_names(alloc, program.state_sets.as_slice(), 0)?;
    let places = first_places(alloc, program)?;
    let known = Known {
        states: &states,
        sites: common.sites,
        variables: &places,
        within: Within::Piece,
        functions: common.names,
        above: common.count,
    };
    lay_block(alloc, block, &known, code)
}

/// How many operands a program holds at once, at most 2^64 - 1.
fn depth_of(alloc: Global, program: &Program) -> Result<usize, AllocError>
    ensures { IfOk result (λ depth. depth
        ≡ capped (depths.program_depth (program_view program.now))) }
{
    let outlines = outlines_among(alloc, program.definitions.as_slice())?;
    Ok(program_depth(program, outlines.as_slice()))
}

/// The code of a program, by what its pieces and functions know, the variables of its copies, and which of its states are reached.
fn code_of<'a>(
    alloc: Global,
    program: &Program<'a>,
    common: &Common<'_, 'a>,
    copies: &[Places],
    marks: &[Vec<bool>],
) -> Result<Code, AllocError>
    requires sites { common.now.sites.now ≡ programs.sites (program_view program.now) }
    requires names { common.now.names.now ≡ heres.function_names (program_view program.now) }
    requires count { common.now.count ≡ length common.now.names.now }
    requires bodies { common.now.bodies.now ≡ heres.function_places (program_view program.now) }
    requires copies { copies.now
        ≡ heres.placed_sets (program_view program.now) 0 (program_view program.now).state_sets }
    requires marks { AreMarked (program_view program.now).state_sets marks.now }
    ensures is { IfOk result (IsCodeOf (program_view program.now)) }
    ensures inside { IfOk result (IsInside (program_view program.now)) }
    ensures short { IfOk result (λ code. length code.instrs.items
        ≤ program_size (holds_in (table_of code)) (program_view program.now)) }
{
    let definitions = program.definitions.as_slice();
    let sets = program.state_sets.as_slice();
    let mut instrs = Vec::with_capacity(alloc, program.token_count / 2)?;
    let functions = lay_functions(alloc, definitions, common, &mut instrs)?;
    let entry = lay_own(alloc, program, common, &program.entry, &mut instrs)?;
    let sets = lay_sets(alloc, program, common, copies, marks, sets, &mut instrs)?;
    let exit = lay_own(alloc, program, common, &program.exit, &mut instrs)?;
    let texts = texts_of(alloc, common.sites.as_slice())?;
    let depth = depth_of(alloc, program)?;
    Ok(Code {
        instrs,
        texts,
        functions,
        depth,
        entry,
        exit,
        sets,
    })
}

/// The code of a program, by its sites, which of its states are reached, the variables of its copies, and what its functions may
/// name. It owns the names of the functions alone: what else is owned stands in who calls it, since each end drops it.
fn marked_code<'a>(
    alloc: Global,
    program: &Program<'a>,
    sites: &Sites<'_, 'a>,
    marks: &[Vec<bool>],
    copies: &[Places],
    bodies: &Places,
) -> Result<Code, AllocError>
    requires sites { sites.now ≡ programs.sites (program_view program.now) }
    requires marks { AreMarked (program_view program.now).state_sets marks.now }
    requires copies { copies.now
        ≡ heres.placed_sets (program_view program.now) 0 (program_view program.now).state_sets }
    requires bodies { bodies.now ≡ heres.function_places (program_view program.now) }
    ensures is { IfOk result (IsCodeOf (program_view program.now)) }
    ensures inside { IfOk result (IsInside (program_view program.now)) }
    ensures short { IfOk result (λ code. length code.instrs.items
        ≤ program_size (holds_in (table_of code)) (program_view program.now)) }
{
    let names = names_among(alloc, program.definitions.as_slice())?;
    let count = names.len();
    let names = Numbered::of(alloc, names)?;
    let common = Common {
        sites,
        names: &names,
        count,
        bodies,
    };
    code_of(alloc, program, &common, copies, marks)
}

/// The code of a program, by its sites, the variables of its copies, and what its functions may name. States that cannot be reached
/// have no code. It has at most as many instructions as the size of the program says, in which such a state counts 0. It owns the
/// marks alone. The only error is that memory ends.
pub fn compile_by<'a>(
    alloc: Global,
    program: &Program<'a>,
    sites: &Sites<'_, 'a>,
    copies: &[Places],
    bodies: &Places,
) -> Result<Code, AllocError>
    requires sites { sites.now ≡ programs.sites (program_view program.now) }
    requires copies { copies.now
        ≡ heres.placed_sets (program_view program.now) 0 (program_view program.now).state_sets }
    requires bodies { bodies.now ≡ heres.function_places (program_view program.now) }
    ensures is { IfOk result (IsCodeOf (program_view program.now)) }
    ensures inside { IfOk result (IsInside (program_view program.now)) }
    ensures short { IfOk result (λ code. length code.instrs.items
        ≤ program_size (holds_in (table_of code)) (program_view program.now)) }
{
    let marks = reached_sets(alloc, program.state_sets.as_slice())?;
    marked_code(alloc, program, sites, marks.as_slice(), copies, bodies)
}
