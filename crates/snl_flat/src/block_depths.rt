//! How many operands a block holds at once.

ghost use Rattle.std.specs.Prelude.{◌≡◌, ◌∷◌, [], map, max};
ghost use Rattle.snl_syntax.specs.view.Expressions.{boxed};
ghost use Rattle.snl_syntax.specs.view.Declarations.{declarator_view, declaration_view, initialiser_view};
ghost use Rattle.snl_syntax.specs.view.Lists.{statement_list};
ghost use Rattle.snl_syntax.specs.view.Shown.{shown};
ghost use Rattle.snl_syntax.specs.view.Statements.{statement_view, statement_views, declaration_views, block_view};
ghost use Rattle.snl_emit.specs.Depths as spec;
ghost use Rattle.snl_meaning.specs.Effect.{names_of, values_of};
ghost use Rattle.snl_meaning.specs.Known.{outlines};
ghost use Rattle.snl_flat.specs.Depths.{capped};

use crate::depths::{expression_depth, larger, maybe_depth};
use snl_meaning::Outline;
use snl_syntax::{Block, Declaration, Declarator, Expr, Header, Initialiser, Stmt};

/// Of some values.
fn values_depth(values: &[Box<Expr>], functions: &[Outline]) -> usize
    ensures { result ≡ capped (spec.values_depth (outlines functions.now) (map boxed values.now)) }
{
    let mut depth = 0;
    for value in values {
        depth = larger(depth, expression_depth(value, functions));
    }
    depth
}

/// Of what a variable begins with.
#[tactic(auto, using(crate::proofs::DepthLaws::values_listed))]
fn initial_depth(initial: &Option<Initialiser>, functions: &[Outline]) -> usize
    ensures { result
        ≡ capped (spec.values_depth (outlines functions.now)
        (values_of (shown initialiser_view initial.now))) }
{
    match initial {
        None => 0,
        Some(Initialiser::Single(value)) => expression_depth(value, functions),
        Some(Initialiser::List(values)) => values_depth(values.each.as_slice(), functions),
    }
}

/// Of a declared name.
fn declarator_depth(declarator: &Declarator, functions: &[Outline]) -> usize
    ensures { result
        ≡ capped (spec.entered_depth (outlines functions.now)
        (declarator_view declarator.now ∷ [])) }
{
    let sizes = values_depth(declarator.sizes.as_slice(), functions);
    larger(sizes, initial_depth(&declarator.initial, functions))
}

/// How many operands the sizes and the first values of some declared names hold at once.
pub fn names_depth(names: &[Declarator], functions: &[Outline]) -> usize
    ensures { result
        ≡ capped (spec.entered_depth (outlines functions.now) (map declarator_view names.now)) }
{
    let mut depth = 0;
    for declarator in names {
        depth = larger(depth, declarator_depth(declarator, functions));
    }
    depth
}

/// Of some declarations.
fn declarations_depth(declarations: &[Declaration], functions: &[Outline]) -> usize
    ensures { result
        ≡ capped (spec.entered_depth (outlines functions.now)
        (names_of (map declaration_view declarations.now))) }
{
    let mut depth = 0;
    for declaration in declarations {
        depth = larger(depth, names_depth(declaration.names.as_slice(), functions));
    }
    depth
}

/// Of a statement.
#[cycle(depths)]
fn statement_depth(statement: &Stmt, functions: &[Outline]) -> usize
    ensures { result
        ≡ capped (spec.statement_depth (outlines functions.now) (statement_view statement.now)) }
{
    match statement {
        Stmt::Block(block) => block_depth(block, functions),
        Stmt::Expression(value) => expression_depth(value, functions),
        Stmt::Return { value, .. } => maybe_depth(value, functions),
        Stmt::If { condition, first } => {
            larger(
                expression_depth(condition, functions),
                statement_depth(first, functions),
            )
        }
        Stmt::IfElse {
            condition,
            first,
            second,
        } => larger(
            expression_depth(condition, functions),
            larger(
                statement_depth(first, functions),
                statement_depth(second, functions),
            ),
        ),
        Stmt::While {
            condition,
            body,
            ..
        } => larger(
            expression_depth(condition, functions),
            statement_depth(body, functions),
        ),
        Stmt::For { header, body, .. } => for_depth(header, body, functions),
        Stmt::Empty | Stmt::Break(_) | Stmt::Continue(_) | Stmt::State { .. } => 0,
    }
}

/// Of a `for` loop.
#[cycle(depths)]
fn for_depth<'a>(header: &Header<'a>, body: &Stmt<'a>, functions: &[Outline]) -> usize
    ensures { result ≡ capped (max
        (max (spec.maybe_depth (outlines functions.now) (shown boxed header.now.start))
        (spec.maybe_depth (outlines functions.now) (shown boxed header.now.condition)))
        (max (spec.maybe_depth (outlines functions.now) (shown boxed header.now.step))
        (spec.statement_depth (outlines functions.now) (statement_view body.now)))) }
{
    let begins = larger(
        maybe_depth(&header.start, functions),
        maybe_depth(&header.condition, functions),
    );
    let turns = larger(
        maybe_depth(&header.step, functions),
        statement_depth(body, functions),
    );
    larger(begins, turns)
}

/// Of statements.
#[cycle(depths)]
fn statements_depth(statements: &[Stmt], functions: &[Outline]) -> usize
    ensures { result
        ≡ capped (spec.statements_depth (outlines functions.now)
        (statement_list (map statement_view statements.now))) }
{
    let mut depth = 0;
    for statement in statements {
        depth = larger(depth, statement_depth(statement, functions));
    }
    depth
}

/// Of the statements of a block.
#[cycle(depths)]
fn inner_depth(block: &Block, functions: &[Outline]) -> usize
    ensures { result ≡ capped (spec.statements_depth (outlines functions.now)
        (statement_list (statement_views block.now.statements))) }
{
    statements_depth(block.statements.as_slice(), functions)
}

/// Of the variables of a block.
fn variables_depth(block: &Block, functions: &[Outline]) -> usize
    ensures { result
        ≡ capped (spec.entered_depth (outlines functions.now)
        (names_of (declaration_views block.now.declarations))) }
{
    declarations_depth(block.declarations.as_slice(), functions)
}

/// How many operands a block holds at once, with what its variables are declared with.
#[cycle(depths)]
pub fn block_depth(block: &Block, functions: &[Outline]) -> usize
    ensures { result ≡ capped (spec.block_depth (outlines functions.now) (block_view block.now)) }
{
    larger(
        variables_depth(block, functions),
        inner_depth(block, functions),
    )
}
