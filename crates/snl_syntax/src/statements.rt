//! The trees of statements and blocks.

use crate::{Declaration, Expr};
use snl_text::Token;

/// A statement. It keeps the tokens whose places messages and faults name.
#[derive(Drop)]
#[cycle(stmt)]
pub enum Stmt<'a> {
    /// `{ .. }`
    Block(Block<'a>),
    /// `;`
    Empty,
    /// `expression ;`
    Expression(Box<Expr<'a>>),
    /// `break ;`, with the word.
    Break(Token<'a>),
    /// `continue ;`, with the word.
    Continue(Token<'a>),
    /// `state NAME ;`
    State {
        word: Token<'a>,
        name: Token<'a>,
    },
    /// `return [ expression ] ;`
    Return {
        word: Token<'a>,
        value: Option<Box<Expr<'a>>>,
    },
    /// `if ( condition ) first` without `else`.
    If {
        condition: Box<Expr<'a>>,
        first: Box<Stmt<'a>>,
    },
    /// `if ( condition ) first else second`
    IfElse {
        condition: Box<Expr<'a>>,
        first: Box<Stmt<'a>>,
        second: Box<Stmt<'a>>,
    },
    /// `while ( condition ) body`
    While {
        word: Token<'a>,
        condition: Box<Expr<'a>>,
        body: Box<Stmt<'a>>,
    },
    /// `for ( .. ) body`
    For {
        word: Token<'a>,
        header: Box<Header<'a>>,
        body: Box<Stmt<'a>>,
    },
}

/// Declarations and statements in braces.
#[derive(Drop)]
#[cycle(stmt)]
pub struct Block<'a> {
    pub declarations: Vec<Declaration<'a>>,
    pub statements: Vec<Stmt<'a>>,
}

/// What stands between the parentheses of a `for`. Each part may be missing.
#[derive(Drop)]
pub struct Header<'a> {
    pub start: Option<Box<Expr<'a>>>,
    pub condition: Option<Box<Expr<'a>>>,
    pub step: Option<Box<Expr<'a>>>,
}
