//! The trees of declarations.

use crate::Expr;
use snl_text::Token;

/// `type dname ( ',' dname )* ';'`
#[derive(Drop)]
pub struct Declaration<'a> {
    pub type_name: TypeName<'a>,
    /// At least one.
    pub names: Vec<Declarator<'a>>,
}

/// The words of a type: `char`, `short`, `int`, `long`, a sized name, `float`, `double`, `string`, or
/// `unsigned` alone or before one of the first four.
#[derive(Clone, Copy)]
pub struct TypeName<'a> {
    pub word: Token<'a>,
    /// After `unsigned` alone.
    pub second: Option<Token<'a>>,
}

/// `dname : NAME ( '[' expr ']' )* [ '=' init ]`
#[derive(Drop)]
pub struct Declarator<'a> {
    pub name: Token<'a>,
    /// One for each dimension.
    pub sizes: Vec<Box<Expr<'a>>>,
    pub initial: Option<Initialiser<'a>>,
}

/// `init : asg | '{' [ asg ( ',' asg )* [','] ] '}'`
#[derive(Drop)]
pub enum Initialiser<'a> {
    Single(Box<Expr<'a>>),
    List(Values<'a>),
}

/// The values of a list in braces.
#[derive(Drop)]
pub struct Values<'a> {
    pub each: Vec<Box<Expr<'a>>>,
    /// Whether a comma stands after the last one; `false` where there is no value.
    pub comma: bool,
}
