//! The trees of definitions and options.

use crate::{Declaration, Expr, Function};
use snl_text::Token;

/// `decl | assign | monitor | sync | syncq | evflag`, in a program and in a state `option`, and in a
/// program `fdef`.
pub enum Def<'a> {
    Declaration(Declaration<'a>),
    Assign(Assign<'a>),
    /// `monitor : 'monitor' place ';'`
    Monitor(Place<'a>),
    Sync(Sync<'a>),
    SyncQueue(SyncQueue<'a>),
    /// `evflag : 'evflag' NAME ( ',' NAME )* ';'`, with at least one name.
    EventFlags(Vec<Token<'a>>),
    Setting(Setting<'a>),
    /// `fdef`, only in a program.
    Function(Box<Function<'a>>),
}

// Written out: a derived drop is proved anew wherever such a value ends.
impl<'a> Drop for Def<'a> {
    fn drop(self) {
        match self {
            Def::Declaration(declaration) => drop(declaration),
            Def::Assign(assign) => drop(assign),
            Def::Monitor(place) => drop(place),
            Def::Sync(sync) => drop(sync),
            Def::SyncQueue(queue) => drop(queue),
            Def::EventFlags(names) => drop(names),
            Def::Setting(_) => {}
            Def::Function(function) => drop(function),
        }
    }
}

/// `place : NAME [ '[' expr ']' ]`
#[derive(Drop)]
pub struct Place<'a> {
    pub name: Token<'a>,
    pub subscript: Option<Box<Expr<'a>>>,
}

/// `assign : 'assign' place [ ['to'] ( STRING | '{' STRING ( ',' STRING )* '}' ) ] ';'`
#[derive(Drop)]
pub struct Assign<'a> {
    /// `assign`
    pub word: Token<'a>,
    pub place: Place<'a>,
    pub channels: Option<Channels<'a>>,
}

/// What stands after the place of an [`Assign`].
#[derive(Drop)]
pub struct Channels<'a> {
    /// Whether `to` is written.
    pub to: bool,
    pub names: ChannelNames<'a>,
}

/// The names of an [`Assign`].
#[derive(Drop)]
pub enum ChannelNames<'a> {
    One(Token<'a>),
    /// In braces; at least one.
    List(Vec<Token<'a>>),
}

/// `['to'] NAME`, the event flag of a [`Sync`] or a [`SyncQueue`].
#[derive(Clone, Copy)]
pub struct Flag<'a> {
    /// Whether `to` is written.
    pub to: bool,
    pub name: Token<'a>,
}

/// `sync : 'sync' place ['to'] NAME ';'`
#[derive(Drop)]
pub struct Sync<'a> {
    pub place: Place<'a>,
    pub flag: Flag<'a>,
}

/// `syncq : ( 'syncq' | 'syncQ' ) place [ ['to'] NAME ] [ WHOLE ] ';'`
#[derive(Drop)]
pub struct SyncQueue<'a> {
    /// `syncq` or `syncQ`
    pub word: Token<'a>,
    pub place: Place<'a>,
    pub flag: Option<Flag<'a>>,
    pub size: Option<Token<'a>>,
}

/// `option : 'option' ( '+' | '-' ) NAME ';'`
#[derive(Clone, Copy)]
pub struct Setting<'a> {
    /// `+` or `-`
    pub sign: Token<'a>,
    /// The letters.
    pub name: Token<'a>,
}
