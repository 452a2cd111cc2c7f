//! The words of a trace, and what a line with each of them tells.

ghost use Rattle.std.specs.Prelude.{◌≡◌, ◌∷◌, [], ◌++◌, ℤ, List, take};
ghost use Rattle.snl_trace.specs.Fields.{fields};
ghost use Rattle.snl_trace.specs.Grammar as grammar;
ghost use Rattle.snl_trace.specs.Grammar.{told_by, kept, values_of, kept_values, up_with, down_with, val_with, tick_with, done_with, ended, word_of};
ghost use Rattle.snl_trace.specs.Seen.{seen, told};

use crate::fields::{first_field, trimmed};
use crate::numbers::value;
use crate::trace_faults::TraceFault;
use arrayvec::ArrayVec;
use snl_machine::VALUES_KEPT;

/// The values of one line, as many as are kept.
pub type LineValues = ArrayVec<i64, VALUES_KEPT>;

/// The words of a trace.
#[derive(Clone, Copy, Debug, PartialEq, Eq)]
pub enum LineWord {
    /// A channel is connected.
    Up,
    /// A channel is not connected any more.
    Down,
    /// A channel has values.
    Val,
    /// Time passes.
    Tick,
    /// The puts to a channel were answered.
    Done,
}

/// What a line tells, with a channel by its name. The values of a `val` stand apart.
#[derive(Clone, Copy, Debug)]
pub enum Telling<'a> {
    /// The channel of this name is connected.
    Up(&'a [u8]),
    /// The channel of this name is not connected any more.
    Down(&'a [u8]),
    /// The channel of this name has values.
    Val(&'a [u8]),
    /// Time passes.
    Tick,
    /// The puts to the channel of this name were answered.
    Done(&'a [u8]),
}

/// The word that a field spells.
#[tactic(auto, unfolding(crate::specs::Grammar::word_of))]
fn word_in(field: &[u8]) -> Option<LineWord>
    ensures { result ≡ word_of field.now }
{
    if field == b"up".as_slice() {
        Some(LineWord::Up)
    } else if field == b"down".as_slice() {
        Some(LineWord::Down)
    } else if field == b"val".as_slice() {
        Some(LineWord::Val)
    } else if field == b"tick".as_slice() {
        Some(LineWord::Tick)
    } else if field == b"done".as_slice() {
        Some(LineWord::Done)
    } else {
        None
    }
}

/// What the fields of a text tell: a word, and what follows it. The values of a `val` take the place
/// of those that stood in `values`.
#[tactic(auto, unfolding(crate::specs::Grammar::told_by))]
pub fn heard<'a>(text: &'a [u8], values: &mut LineValues) -> Result<Telling<'a>, TraceFault>
    ensures { seen (told values.new.items) result ≡ told_by (fields text.now) }
{
    let (field, rest) = first_field(text).ok_or(TraceFault::FieldCount)?;
    match word_in(field) {
        None => Err(TraceFault::UnknownWord),
        Some(LineWord::Up) => up(rest),
        Some(LineWord::Down) => down(rest),
        Some(LineWord::Val) => val(rest, values),
        Some(LineWord::Tick) => tick(rest),
        Some(LineWord::Done) => done(rest),
    }
}

/// What `up` tells: the name that follows it.
#[tactic(auto, unfolding(crate::specs::Grammar::up_with))]
fn up(rest: &[u8]) -> Result<Telling, TraceFault>
    ensures { (values : List ℤ) → seen (told values) result ≡ up_with (fields rest.now) }
{
    Ok(Telling::Up(name_alone(rest)?))
}

/// What `down` tells: the name that follows it.
#[tactic(auto, unfolding(crate::specs::Grammar::down_with))]
fn down(rest: &[u8]) -> Result<Telling, TraceFault>
    ensures { (values : List ℤ) → seen (told values) result ≡ down_with (fields rest.now) }
{
    Ok(Telling::Down(name_alone(rest)?))
}

/// What `done` tells: the name that follows it.
#[tactic(auto, unfolding(crate::specs::Grammar::done_with))]
fn done(rest: &[u8]) -> Result<Telling, TraceFault>
    ensures { (values : List ℤ) → seen (told values) result ≡ done_with (fields rest.now) }
{
    Ok(Telling::Done(name_alone(rest)?))
}

/// The name that stands alone in a text.
#[tactic(auto, unfolding(crate::specs::Grammar::name_alone))]
fn name_alone(rest: &[u8]) -> Result<&[u8], TraceFault>
    ensures { seen (λ name. name.now) result ≡ grammar.name_alone (fields rest.now) }
{
    let (name, rest) = first_field(rest).ok_or(TraceFault::FieldCount)?;
    end(rest)?;
    Ok(name)
}

/// What `tick` tells: nothing follows it.
#[tactic(auto, unfolding(crate::specs::Grammar::tick_with))]
fn tick<'a>(rest: &'a [u8]) -> Result<Telling<'a>, TraceFault>
    ensures { (values : List ℤ) → seen (told values) result ≡ tick_with (fields rest.now) }
{
    end(rest)?;
    Ok(Telling::Tick)
}

/// What `val` tells: the name that follows it, and the values behind that.
#[tactic(auto, unfolding(crate::specs::Grammar::val_with))]
fn val<'a>(rest: &'a [u8], values: &mut LineValues) -> Result<Telling<'a>, TraceFault>
    ensures { seen (told values.new.items) result ≡ val_with (fields rest.now) }
{
    let (name, rest) = first_field(rest).ok_or(TraceFault::FieldCount)?;
    keep_values(rest, values)?;
    Ok(Telling::Val(name))
}

/// Nothing more may follow.
fn end(rest: &[u8]) -> Result<(), TraceFault>
    ensures { seen (λ _. tt) result ≡ ended (fields rest.now) }
{
    match first_field(rest) {
        None => Ok(()),
        Some(_) => Err(TraceFault::FieldCount),
    }
}

/// Puts the values of the fields, of which there has to be one, in place of those that stood there.
#[tactic(auto, using(crate::proofs::ValueLaws::kept_values_bad, crate::proofs::ValueLaws::kept_values_none, crate::proofs::ValueLaws::kept_values_some))]
fn keep_values(rest: &[u8], values: &mut LineValues) -> Result<(), TraceFault>
    ensures { seen (λ _. values.new.items) result ≡ kept_values (fields rest.now) }
{
    all_values(rest, values)?;
    if values.is_empty() {
        return Err(TraceFault::FieldCount);
    }
    Ok(())
}

/// Puts the values of the fields in place of those that stood there.
#[tactic(auto, using(crate::proofs::ValueLaws::kept_after_start))]
fn all_values(rest: &[u8], values: &mut LineValues) -> Result<(), TraceFault>
    ensures { seen (λ _. values.new.items) result ≡ kept (values_of (fields rest.now)) }
{
    values.clear();
    let mut left = trimmed(rest);
    while !left.is_empty() {
        match value(left) {
            None => return Err(TraceFault::BadValue),
            Some((value, behind)) => {
                keep(values, value);
                left = trimmed(behind);
            }
        }
    }
    Ok(())
}

/// Adds a value, where there is room for it.
#[tactic(auto, using(crate::proofs::ValueLaws::take_room, crate::proofs::ValueLaws::take_full))]
#[inline(always)]
pub fn keep(values: &mut LineValues, value: i64)
    ensures { values.new.items ≡ take 1024 (values.old.items ++ value ∷ []) }
{
    if values.is_full() {
        return;
    }
    values.push(value);
}
