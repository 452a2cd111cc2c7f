//! The trees of functions (SNL Reference, "Function Definitions").

use crate::{Block, TypeName};
use snl_text::Token;

/// `fdef : ( type | 'void' ) NAME '(' params ')' block`
#[derive(Drop)]
pub struct Function<'a> {
    /// The type of its value; missing where `void` is written.
    pub type_name: Option<TypeName<'a>>,
    /// What calls name it by.
    pub name: Token<'a>,
    /// What a call hands in.
    pub parameters: Parameters<'a>,
    /// What a call does.
    pub body: Box<Block<'a>>,
}

/// `params : [ 'void' | type NAME ( ',' type NAME )* ]`
#[derive(Drop)]
pub struct Parameters<'a> {
    /// Whether `void` is written where there are none.
    pub void: bool,
    /// The parameters, in the order of the source.
    pub each: Vec<Parameter<'a>>,
}

/// `type NAME`
#[derive(Clone, Copy)]
pub struct Parameter<'a> {
    /// The type of the value that is handed in.
    pub type_name: TypeName<'a>,
    /// What the body names it by.
    pub name: Token<'a>,
}
