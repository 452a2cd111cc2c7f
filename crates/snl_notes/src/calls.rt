//! What helps at calls: of functions that are not known, and with arguments that do not fit.

use crate::arguments::{count_of, is_place};
use crate::helps::Help;
use crate::near::{Sort, nearest_name, nearest_word};
use crate::tokens::{is_at, is_function};
use snl_helps::call_help_at;
use snl_names::{Builtin, Form, builtin_of, form_of};
use snl_text::{Kind, Token};
use std::alloc::{AllocError, Global};

/// The names of the built-in functions.
const BUILTINS: [&[u8]; 14] = [
    b"delay",
    b"printf",
    b"pvPut",
    b"pvGet",
    b"pvGetQ",
    b"pvFlushQ",
    b"pvPutComplete",
    b"pvConnected",
    b"pvChannelCount",
    b"pvConnectCount",
    b"efSet",
    b"efClear",
    b"efTest",
    b"efTestAndClear",
];

/// The number of the token that names a function where the program defines it.
fn definition_of(tokens: &[Token], name: &[u8]) -> Option<usize> {
    for at in 0..tokens.len() {
        if tokens[at].text == name && is_function(tokens, at) {
            return Some(at);
        }
    }
    None
}

/// A question whether a name was meant.
pub fn meant(name: Option<&[u8]>) -> Option<Help<'_>> {
    match name {
        Some(name) => Some(Help::Named(b"did you mean '", name, b"'?")),
        None => None,
    }
}

/// The nearest function, built in or of the program.
fn nearest_function<'a>(
    alloc: Global,
    tokens: &[Token<'a>],
    name: &[u8],
) -> Result<Option<Help<'a>>, AllocError> {
    if let Some(word) = nearest_word(alloc, name, &BUILTINS)? {
        return Ok(meant(Some(word)));
    }
    let near = nearest_name(alloc, tokens, name, Sort::Function)?;
    Ok(meant(near))
}

/// What helps where the program defines a function, which a call above does not see.
fn below_help<'a>(tokens: &[Token], name: &[u8]) -> Option<Help<'a>> {
    let below = definition_of(tokens, name)?;
    let token = tokens.get(below)?;
    Some(Help::Counted(
        b"it is defined below, in line ",
        token.pos.line as usize,
        b": move it up, since a function stands in front of its calls",
    ))
}

/// What helps at a call of a function that is not known, by the number of its token. Fails only where memory ends.
pub fn unknown_help<'a>(
    alloc: Global,
    tokens: &[Token<'a>],
    at: usize,
) -> Result<Option<Help<'a>>, AllocError> {
    let Some(token) = tokens.get(at) else {
        return Ok(None);
    };
    if let Some(words) = call_help_at(token.text) {
        return Ok(Some(Help::Words(words)));
    }
    match below_help(tokens, token.text) {
        Some(help) => Ok(Some(help)),
        None => nearest_function(alloc, tokens, token.text),
    }
}

/// Words round how many arguments a function takes and a call has. Where these are as many, one of them is a text.
fn counted_help<'a>(takes: usize, has: usize) -> Help<'a> {
    if takes == has {
        Help::Words(b"a text is no argument here")
    } else if takes == 1 {
        Help::Compared(b"it takes ", 1, b" argument, and the call has ", has, b"")
    } else {
        Help::Compared(
            b"it takes ",
            takes,
            b" arguments, and the call has ",
            has,
            b"",
        )
    }
}

/// What helps where the first argument has to be a variable.
fn place_help<'a>(tokens: &[Token<'a>], at: usize, has: usize) -> Help<'a> {
    let is_variable = is_place(tokens, at.saturating_add(2));
    if has == 0 || is_variable {
        return counted_help(1, has);
    }
    Help::Words(
        b"argument 1 is no variable: set one to the value first, and name that, as in x = 1; pvPut(x);",
    )
}

/// What helps at a put.
fn put_help<'a>(tokens: &[Token<'a>], at: usize, has: usize) -> Help<'a> {
    let is_variable = is_place(tokens, at.saturating_add(2));
    if has != 2 || !is_variable {
        return place_help(tokens, at, has);
    }
    Help::Words(
        b"behind the variable stands nothing, or ASYNC: pvPut(x, ASYNC), and when (pvPutComplete(x)) in a state behind it waits",
    )
}

/// What helps at a `delay`.
fn delay_help<'a>(has: usize) -> Help<'a> {
    if has == 2 {
        Help::Words(b"decimals stand behind a point, as in delay(0.5)")
    } else {
        counted_help(1, has)
    }
}

/// What helps where the one argument has to be a name: words about it, where there is one argument.
fn named_help<'a>(has: usize, words: &'static [u8]) -> Help<'a> {
    if has == 1 {
        Help::Words(words)
    } else {
        counted_help(1, has)
    }
}

/// What helps at a call of a built-in function, by what it takes.
fn builtin_help<'a>(tokens: &[Token<'a>], at: usize, form: Form) -> Help<'a> {
    let has = count_of(tokens, at.saturating_add(1));
    if form == Form::PutPlace {
        return put_help(tokens, at, has);
    }
    if form == Form::ChannelPlace {
        return place_help(tokens, at, has);
    }
    plain_help(form, has)
}

/// What helps at a call of one that takes no variable with a channel, by how many arguments it has.
fn plain_help<'a>(form: Form, has: usize) -> Help<'a> {
    match form {
        Form::PutPlace | Form::ChannelPlace => counted_help(1, has),
        Form::QueueName => named_help(has, b"argument 1 is no variable with a queue"),
        Form::FlagName => named_help(has, b"argument 1 is no event flag"),
        Form::Seconds => delay_help(has),
        Form::Nothing => counted_help(0, has),
        Form::Format => Help::Words(b"argument 1 is no text: printf(\"%d\", x)"),
    }
}

/// How many parameters stand behind the name of a function that the program defines.
fn parameters_of(tokens: &[Token], at: usize) -> usize {
    if is_at(tokens, at.saturating_add(2), Kind::Void) {
        0
    } else {
        count_of(tokens, at.saturating_add(1))
    }
}

/// What helps at a call of a function of the program.
fn defined_help<'a>(tokens: &[Token<'a>], at: usize, name: &[u8]) -> Option<Help<'a>> {
    match definition_of(tokens, name) {
        Some(definition) => Some(counted_help(
            parameters_of(tokens, definition),
            count_of(tokens, at.saturating_add(1)),
        )),
        None => None,
    }
}

/// What helps at a call with arguments that do not fit, by the number of its token.
pub fn arguments_help<'a>(tokens: &[Token<'a>], at: usize) -> Option<Help<'a>> {
    let token = tokens.get(at)?;
    match builtin_of(token.text) {
        Some(Builtin::Delay) => Some(delay_help(count_of(tokens, at.saturating_add(1)))),
        Some(builtin) => Some(builtin_help(tokens, at, form_of(builtin))),
        None => defined_help(tokens, at, token.text),
    }
}
