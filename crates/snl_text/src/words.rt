//! Names and reserved words.

ghost use Rattle.snl_text.specs.Words.{word_kind};
ghost use Rattle.snl_text.specs.WordsByLength.{word_of_two, word_of_three, word_of_four, word_of_five, word_of_six, word_of_seven, word_of_eight};
ghost use Rattle.std.specs.Prelude.{◌≡◌};

use crate::kinds::Kind;

#[tactic(auto, unfolding(crate::specs::WordsByLength::word_of_two))]
fn word_of_two(word: &[u8]) -> Kind
    ensures { result ≡ word_of_two word.now }
{
    if word == b"if".as_slice() {
        Kind::If
    } else if word == b"ss".as_slice() {
        Kind::StateSet
    } else if word == b"to".as_slice() {
        Kind::To
    } else {
        Kind::Name
    }
}

#[tactic(auto, unfolding(crate::specs::WordsByLength::word_of_three))]
fn word_of_three(word: &[u8]) -> Kind
    ensures { result ≡ word_of_three word.now }
{
    if word == b"for".as_slice() {
        Kind::For
    } else if word == b"int".as_slice() {
        Kind::Int
    } else {
        Kind::Name
    }
}

#[tactic(auto, unfolding(crate::specs::WordsByLength::word_of_four))]
fn word_of_four(word: &[u8]) -> Kind
    ensures { result ≡ word_of_four word.now }
{
    if word == b"char".as_slice() {
        Kind::Char
    } else if word == b"else".as_slice() {
        Kind::Else
    } else if word == b"enum".as_slice() {
        Kind::Enum
    } else if word == b"exit".as_slice() {
        Kind::Exit
    } else if word == b"long".as_slice() {
        Kind::Long
    } else if word == b"sync".as_slice() {
        Kind::Sync
    } else if word == b"void".as_slice() {
        Kind::Void
    } else if word == b"when".as_slice() {
        Kind::When
    } else {
        Kind::Name
    }
}

#[tactic(auto, unfolding(crate::specs::WordsByLength::word_of_five))]
fn word_of_five(word: &[u8]) -> Kind
    ensures { result ≡ word_of_five word.now }
{
    if word == b"break".as_slice() {
        Kind::Break
    } else if word == b"entry".as_slice() {
        Kind::Entry
    } else if word == b"float".as_slice() {
        Kind::Float
    } else if word == b"short".as_slice() {
        Kind::Short
    } else if word == b"state".as_slice() {
        Kind::State
    } else if word == b"syncq".as_slice() {
        Kind::SyncQueue
    } else if word == b"syncQ".as_slice() {
        Kind::SyncQueue
    } else if word == b"union".as_slice() {
        Kind::Union
    } else if word == b"while".as_slice() {
        Kind::While
    } else {
        Kind::Name
    }
}

#[tactic(auto, unfolding(crate::specs::WordsByLength::word_of_six))]
fn word_of_six(word: &[u8]) -> Kind
    ensures { result ≡ word_of_six word.now }
{
    if word == b"assign".as_slice() {
        Kind::Assign
    } else if word == b"double".as_slice() {
        Kind::Double
    } else if word == b"evflag".as_slice() {
        Kind::EventFlag
    } else if word == b"int8_t".as_slice() {
        Kind::Int8
    } else if word == b"option".as_slice() {
        Kind::OptionWord
    } else if word == b"return".as_slice() {
        Kind::Return
    } else if word == b"sizeof".as_slice() {
        Kind::Sizeof
    } else if word == b"string".as_slice() {
        Kind::StringType
    } else if word == b"struct".as_slice() {
        Kind::Struct
    } else {
        Kind::Name
    }
}

#[tactic(auto, unfolding(crate::specs::WordsByLength::word_of_seven))]
fn word_of_seven(word: &[u8]) -> Kind
    ensures { result ≡ word_of_seven word.now }
{
    if word == b"foreign".as_slice() {
        Kind::Foreign
    } else if word == b"int16_t".as_slice() {
        Kind::Int16
    } else if word == b"int32_t".as_slice() {
        Kind::Int32
    } else if word == b"int64_t".as_slice() {
        Kind::Int64
    } else if word == b"monitor".as_slice() {
        Kind::Monitor
    } else if word == b"program".as_slice() {
        Kind::Program
    } else if word == b"uint8_t".as_slice() {
        Kind::Uint8
    } else {
        Kind::Name
    }
}

#[tactic(auto, unfolding(crate::specs::WordsByLength::word_of_eight))]
fn word_of_eight(word: &[u8]) -> Kind
    ensures { result ≡ word_of_eight word.now }
{
    if word == b"continue".as_slice() {
        Kind::Continue
    } else if word == b"typename".as_slice() {
        Kind::Typename
    } else if word == b"uint16_t".as_slice() {
        Kind::Uint16
    } else if word == b"uint32_t".as_slice() {
        Kind::Uint32
    } else if word == b"uint64_t".as_slice() {
        Kind::Uint64
    } else if word == b"unsigned".as_slice() {
        Kind::Unsigned
    } else {
        Kind::Name
    }
}

/// The kind of a word: a reserved word, or else a name.
pub fn word_kind(word: &[u8]) -> Kind
    ensures { result ≡ word_kind word.now }
{
    match word.len() {
        2 => word_of_two(word),
        3 => word_of_three(word),
        4 => word_of_four(word),
        5 => word_of_five(word),
        6 => word_of_six(word),
        7 => word_of_seven(word),
        8 => word_of_eight(word),
        _ => Kind::Name,
    }
}
