//! The trees of expressions.

use snl_text::Token;

/// An expression. Each name, operator and constant keeps its token.
#[derive(Drop)]
#[cycle(expr)]
pub enum Expr<'a> {
    /// A number or a character constant.
    Constant(Token<'a>),
    /// `( expression )`
    Parenthesized(Box<Expr<'a>>),
    /// A name alone.
    Named(Token<'a>),
    /// `name [ index ]`
    Element {
        name: Token<'a>,
        /// The `[`, whose line a fault of the subscript names.
        bracket: Token<'a>,
        index: Box<Expr<'a>>,
    },
    /// `name ( argument , .. )`, with any number of arguments.
    Call(Token<'a>, Vec<Argument<'a>>),
    /// `x ++` or `x --`, with the operator.
    Postfix(Box<Expr<'a>>, Token<'a>),
    /// One of `+ - ! ~ ++ --` and its operand.
    Prefix(Token<'a>, Box<Expr<'a>>),
    /// Operands with the operators of one level between them, grouping to the left: those of one of the
    /// ten levels of binary operators, or commas. At least one operator. So the depth of a tree is bounded
    /// by the limit on nesting, and not by the length of a sum.
    Chain(Box<Expr<'a>>, Vec<Term<'a>>),
    /// `condition ? yes : no`
    Conditional {
        condition: Box<Expr<'a>>,
        yes: Box<Expr<'a>>,
        no: Box<Expr<'a>>,
    },
    /// `target = value`, or with a compound operator. Any unary may stand as the target here.
    Assignment {
        target: Box<Expr<'a>>,
        operator: Token<'a>,
        value: Box<Expr<'a>>,
    },
}

/// An operator of a [`Chain`](Expr::Chain) and the operand after it.
#[derive(Drop)]
#[cycle(expr)]
pub struct Term<'a> {
    pub operator: Token<'a>,
    pub operand: Box<Expr<'a>>,
}

/// An argument of a call.
#[derive(Drop)]
#[cycle(expr)]
pub enum Argument<'a> {
    /// An expression without a comma outside of parentheses.
    Value(Box<Expr<'a>>),
    /// A string.
    Text(Token<'a>),
}
