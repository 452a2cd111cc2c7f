//! The built-in functions, each by its name.

ghost use Rattle.std.specs.Prelude.{◌≡◌};
ghost use Rattle.snl_names.specs.Builtins as spec;

use crate::calls::Form;

/// A built-in function that asks or tells something of flags, channels or queues, and writes no line.
#[derive(Clone, Copy)]
pub enum Query {
    /// `efClear`
    EfClear,
    /// `efSet`
    EfSet,
    /// `efTest`
    EfTest,
    /// `efTestAndClear`
    EfTestAndClear,
    /// `pvChannelCount`
    PvChannelCount,
    /// `pvConnectCount`
    PvConnectCount,
    /// `pvConnected`
    PvConnected,
    /// `pvFlushQ`
    PvFlushQ,
    /// `pvGet`
    PvGet,
    /// `pvGetQ`
    PvGetQ,
    /// `pvPutComplete`
    PvPutComplete,
}

/// The built-in functions (SNL Reference, "Built-in Functions").
#[derive(Clone, Copy)]
pub enum Builtin {
    /// `delay`
    Delay,
    /// `printf`
    Printf,
    /// `pvPut`
    PvPut,
    /// Any other.
    Ask(Query),
}

/// The built-in function of a name; none where it is unknown.
pub fn builtin_of(name: &[u8]) -> Option<Builtin>
    ensures { result ≡ spec.builtin_of name.now }
{
    if name == b"delay".as_slice() {
        Some(Builtin::Delay)
    } else if name == b"printf".as_slice() {
        Some(Builtin::Printf)
    } else if name == b"pvPut".as_slice() {
        Some(Builtin::PvPut)
    } else {
        query_of(name)
    }
}

/// That of a name which is none of these three: those of flags come first.
fn query_of(name: &[u8]) -> Option<Builtin>
    ensures { result ≡ spec.query_of name.now }
{
    if name == b"efClear".as_slice() {
        Some(Builtin::Ask(Query::EfClear))
    } else if name == b"efSet".as_slice() {
        Some(Builtin::Ask(Query::EfSet))
    } else if name == b"efTest".as_slice() {
        Some(Builtin::Ask(Query::EfTest))
    } else if name == b"efTestAndClear".as_slice() {
        Some(Builtin::Ask(Query::EfTestAndClear))
    } else {
        channel_query_of(name)
    }
}

/// That of a name which handles no flag.
fn channel_query_of(name: &[u8]) -> Option<Builtin>
    ensures { result ≡ spec.channel_query_of name.now }
{
    if name == b"pvChannelCount".as_slice() {
        Some(Builtin::Ask(Query::PvChannelCount))
    } else if name == b"pvConnectCount".as_slice() {
        Some(Builtin::Ask(Query::PvConnectCount))
    } else if name == b"pvConnected".as_slice() {
        Some(Builtin::Ask(Query::PvConnected))
    } else if name == b"pvFlushQ".as_slice() {
        Some(Builtin::Ask(Query::PvFlushQ))
    } else if name == b"pvGet".as_slice() {
        Some(Builtin::Ask(Query::PvGet))
    } else if name == b"pvGetQ".as_slice() {
        Some(Builtin::Ask(Query::PvGetQ))
    } else if name == b"pvPutComplete".as_slice() {
        Some(Builtin::Ask(Query::PvPutComplete))
    } else {
        None
    }
}

/// What the call of a function takes.
pub fn form_of(builtin: Builtin) -> Form
    ensures { result ≡ spec.form_of builtin }
{
    match builtin {
        Builtin::Delay => Form::Seconds,
        Builtin::Printf => Form::Format,
        Builtin::PvPut => Form::PutPlace,
        Builtin::Ask(query) => match query {
            Query::EfClear | Query::EfSet | Query::EfTest | Query::EfTestAndClear => Form::FlagName,
            Query::PvChannelCount | Query::PvConnectCount => Form::Nothing,
            Query::PvConnected | Query::PvGet | Query::PvPutComplete => Form::ChannelPlace,
            Query::PvFlushQ | Query::PvGetQ => Form::QueueName,
        },
    }
}
