//! What expressions are worth in every run: the numbers of constant expressions.

ghost use Rattle.std.specs.Prelude.{◌≡◌, ◌≤◌, ◌++◌, drop, length, map, List};
ghost use Rattle.snl_syntax.specs.view.Expressions.{view, pair_of};
ghost use Rattle.snl_syntax.specs.view.Lists.{term_list};
ghost use Rattle.snl_emit.specs.Emission.{front_code};
ghost use Rattle.snl_emit.specs.ExpressionCode.{lead_code, terms_code};
ghost use Rattle.snl_emit.specs.Worth as spec;
ghost use Rattle.snl_meaning.specs.Known.{here_of};
ghost use Rattle.snl_meaning.specs.declared.instrs.Instr.{Instr};

use snl_meaning::{Known, Sites};
use snl_names::constants::{chosen, joined, of_token, prefixed, worth};
use snl_names::{Constant, predefined};
use snl_syntax::{Expr, Term};
use snl_text::Token;

/// A name: it is constant where it is predefined and has no declaration.
fn of_use<'a>(name: &Token<'a>, sites: &Sites<'_, 'a>) -> Constant
    ensures { result ≡ spec.of_use sites.now name.now }
{
    match sites.declared(name.pos.offset as usize) {
        Some(_) => Constant::Varies,
        None => worth(predefined(name.text)),
    }
}

/// What an expression is worth in every run.
#[cycle(worth)]
pub fn worth_of<'a>(expression: &Expr<'a>, sites: &Sites<'_, 'a>) -> Constant
    ensures { result ≡ spec.worth_of sites.now (view expression.now) }
{
    match expression {
        Expr::Constant(token) => of_token(*token),
        Expr::Parenthesized(inner) => worth_of(inner, sites),
        Expr::Named(name) => of_use(name, sites),
        Expr::Prefix(operator, operand) => prefixed(operator.kind, worth_of(operand, sites)),
        Expr::Chain(first, terms) => worth_chain(terms.as_slice(), sites, worth_of(first, sites)),
        Expr::Conditional { condition, yes, no } => chosen(
            worth_of(condition, sites),
            worth_of(yes, sites),
            worth_of(no, sites),
        ),
        Expr::Element { .. } | Expr::Call(..) | Expr::Postfix(..) | Expr::Assignment { .. } => {
            Constant::Varies
        }
    }
}

/// What operators and their operands make of what stands left of them.
#[cycle(worth)]
fn worth_chain<'a>(terms: &[Term<'a>], sites: &Sites<'_, 'a>, first: Constant) -> Constant
    ensures { result ≡ spec.worth_chain sites.now (term_list (map pair_of terms.now))
        first }
{
    let mut left = first;
    for term in terms {
        // What varies goes on to vary: the operands behind it need no look.
        if let Constant::Varies = left {
            return Constant::Varies;
        }
        left = joined(term.operator.kind, left, worth_of(&term.operand, sites));
    }
    left
}

/// The number that an expression is in every run.
pub fn constant_number<'a>(expression: &Expr<'a>, sites: &Sites<'_, 'a>) -> Option<i64>
    ensures { result ≡ spec.constant_number sites.now (view expression.now) }
{
    match worth_of(expression, sites) {
        Constant::Worth(number) => Some(number),
        _ => None,
    }
}

/// The constant front of a chain.
#[derive(Clone, Copy)]
pub struct Front {
    /// How many operators stand in it.
    pub terms: usize,
    /// What they make of what stands left of them; none where there are none.
    pub number: Option<i64>,
}

/// The constant front of a chain whose first operand is worth so much.
pub fn front_of<'a>(terms: &[Term<'a>], known: &Known<'_, 'a>, first: Constant) -> Front
    ensures terms { result.terms ≤ length terms.now }
    ensures code { (code : List Instr) → lead_code (here_of known.now)
        (term_list (map pair_of terms.now)) first code ≡ front_code result.number code
        ++ terms_code (here_of known.now) (term_list (map pair_of (drop result.terms terms.now))) }
{
    let mut left = first;
    let mut number = None;
    for (count, term) in terms.iter().enumerate() {
        left = joined(
            term.operator.kind,
            left,
            worth_of(&term.operand, known.sites),
        );
        let Constant::Worth(made) = left else {
            return Front {
                terms: count,
                number,
            };
        };
        number = Some(made);
    }
    Front {
        terms: terms.len(),
        number,
    }
}
