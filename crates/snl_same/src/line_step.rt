//! One line of a trace, done by both programs.

ghost use Rattle.std.specs.Prelude.{◌≡◌, ◌+◌, ◌-◌, ◌^◌, ◌<◌, ℕ, List, None, true, false, IfOk, IfSome, option_map};
ghost use Rattle.snl_machine.specs.MachineOf.{world_held};
ghost use Rattle.snl_same.specs.Answers.{source_failed};
ghost use Rattle.snl_same.specs.Hearing.{Tells};
ghost use Rattle.snl_same.specs.Lines.{AreApart, Did};
ghost use Rattle.snl_same.specs.Sides.{IsNoted, MeansAs, StepsTo, close_by, stand_of};
ghost use Rattle.snl_trace.specs.Run.{Rules, line_done};

use crate::differences::{Apart, Close};
use crate::divergence::apart_at;
use crate::logs::Log;
use crate::plain_lines::Known;
use crate::report::tell;
use crate::sides::{Side, do_known, do_line};
use snl_trace::Events;
use std::alloc::AllocError;

/// Does a line on both sides, of which it is known what it tells. The only error is that memory ends.
#[inline(always)]
fn do_known_on_both(
    known: Known,
    events: &mut Events,
    old: &mut Side,
    new: &mut Side,
) -> Result<(), AllocError>
    ensures old { IfOk result (λ _. (r : Rules) (number : ℕ) (line : List ℕ) → Tells
        events.old.values known.ms (option_map (λ numbers. numbers.old) known.channel)
        old.old.machine line → MeansAs r old.old.machine → Did
        (line_done r number line (world_held old.old.machine)) old.new.end
        (world_held old.new.machine) old.new.page.text.items) }
    ensures new { IfOk result (λ _. (r : Rules) (number : ℕ) (line : List ℕ) → Tells
        events.old.values known.ms (option_map (λ numbers. numbers.new) known.channel)
        new.old.machine line → MeansAs r new.old.machine → Did
        (line_done r number line (world_held new.old.machine)) new.new.end
        (world_held new.new.machine) new.new.page.text.items) }
    ensures old_means { IfOk result (λ _. (r : Rules) → MeansAs r old.old.machine →
        MeansAs r old.new.machine) }
    ensures new_means { IfOk result (λ _. (r : Rules) → MeansAs r new.old.machine →
        MeansAs r new.new.machine) }
{
    do_known(old, known.ms, known.old_number(), events)?;
    do_known(new, known.ms, known.new_number(), events)
}

/// The same of any line.
fn do_line_on_both(
    line: &[u8],
    number: u128,
    events: &mut Events,
    old: &mut Side,
    new: &mut Side,
) -> Result<(), AllocError>
    ensures old { IfOk result (λ _. (r : Rules) → MeansAs r old.old.machine → Did
        (line_done r number line.now (world_held old.old.machine)) old.new.end
        (world_held old.new.machine) old.new.page.text.items) }
    ensures new { IfOk result (λ _. (r : Rules) → MeansAs r new.old.machine → Did
        (line_done r number line.now (world_held new.old.machine)) new.new.end
        (world_held new.new.machine) new.new.page.text.items) }
    ensures old_means { IfOk result (λ _. (r : Rules) → MeansAs r old.old.machine →
        MeansAs r old.new.machine) }
    ensures new_means { IfOk result (λ _. (r : Rules) → MeansAs r new.old.machine →
        MeansAs r new.new.machine) }
{
    do_line(old, number, line, events)?;
    do_line(new, number, line, events)
}

/// Does a line on both sides, which has a number; it may be known what it tells. The only error is that memory ends.
#[inline(always)]
fn do_on_both(
    line: &[u8],
    known: Option<Known>,
    number: u128,
    events: &mut Events,
    old: &mut Side,
    new: &mut Side,
) -> Result<(), AllocError>
    requires old { IfSome known (λ known. Tells events.old.values known.ms
        (option_map (λ numbers. numbers.old) known.channel) old.old.machine line.now) }
    requires new { IfSome known (λ known. Tells events.old.values known.ms
        (option_map (λ numbers. numbers.new) known.channel) new.old.machine line.now) }
    ensures old { IfOk result (λ _. (r : Rules) → MeansAs r old.old.machine → Did
        (line_done r number line.now (world_held old.old.machine)) old.new.end
        (world_held old.new.machine) old.new.page.text.items) }
    ensures new { IfOk result (λ _. (r : Rules) → MeansAs r new.old.machine → Did
        (line_done r number line.now (world_held new.old.machine)) new.new.end
        (world_held new.new.machine) new.new.page.text.items) }
    ensures old_means { IfOk result (λ _. (r : Rules) → MeansAs r old.old.machine →
        MeansAs r old.new.machine) }
    ensures new_means { IfOk result (λ _. (r : Rules) → MeansAs r new.old.machine →
        MeansAs r new.new.machine) }
{
    match known {
        None => do_line_on_both(line, number, events, old, new),
        Some(known) => do_known_on_both(known, events, old, new),
    }
}

/// How both sides are apart at the line that they did. The only error is that memory ends.
fn apart_here(old: &Side, new: &Side, log: &Log) -> Result<Option<Apart>, AllocError>
    ensures { IfOk result (AreApart log.now.filter old.now.page.text.items
        new.now.page.text.items old.now.end new.now.end) }
{
    apart_at(
        log.alloc,
        log.filter,
        old.page.text(),
        new.page.text(),
        old.end,
        new.end,
    )
}

/// How a comparison ends at the line that both did, by how the runs do; None where both go on.
fn close_here(old: &Side, new: &Side) -> Option<Close>
    ensures is { result ≡ close_by old.now.end new.now.end }
    ensures source { IfSome result (λ c. source_failed c ≡ false) }
{
    match old.end {
        None => match new.end {
            None => None,
            Some(end) => Some(Close::RunEnded(None, Some(end))),
        },
        Some(end) => Some(Close::RunEnded(Some(end), new.end)),
    }
}

/// Whether both sides wrote the very same at the line that they did, and both go on.
#[inline(always)]
fn go_on_alike(old: &Side, new: &Side) -> bool
    ensures text { result ≡ true → old.now.page.text.items ≡ new.now.page.text.items }
    ensures old_goes_on { result ≡ true → old.now.end ≡ None }
    ensures new_goes_on { result ≡ true → new.now.end ≡ None }
{
    old.end.is_none() && new.end.is_none() && old.page.text() == new.page.text()
}

/// Notes and tells how both sides are apart at the line that they did, if they are. Answers how the comparison ends there, if it does.
/// The only error is that memory ends.
#[inline(never)]
fn note_apart(old: &Side, new: &Side, log: &mut Log) -> Result<Option<Close>, AllocError>
    requires number { log.old.number < 2 ^ 128 - 1 }
    ensures notes { IfOk result (IsNoted old.now new.now log.old log.new) }
    ensures source { IfOk result (λ close. IfSome close (λ c. source_failed c ≡ false)) }
{
    let apart = apart_here(old, new, log)?;
    let told = tell(log, old, new, &apart);
    log.note(apart);
    log.number += 1;
    told?;
    Ok(close_here(old, new))
}

/// The same; most lines are alike.
#[inline(always)]
fn note_line(old: &Side, new: &Side, log: &mut Log) -> Result<Option<Close>, AllocError>
    requires number { log.old.number < 2 ^ 128 - 1 }
    ensures notes { IfOk result (IsNoted old.now new.now log.old log.new) }
    ensures source { IfOk result (λ close. IfSome close (λ c. source_failed c ≡ false)) }
{
    if go_on_alike(old, new) {
        log.number += 1;
        return Ok(None);
    }
    note_apart(old, new, log)
}

/// Does a line of the trace on both sides, and notes how they are apart there; it may be known what it tells. Answers how the
/// comparison ends there, if it does. The only error is that memory ends.
#[inline(always)]
pub(crate) fn step(
    line: &[u8],
    known: Option<Known>,
    events: &mut Events,
    old: &mut Side,
    new: &mut Side,
    log: &mut Log,
) -> Result<Option<Close>, AllocError>
    requires number { log.old.number < 2 ^ 128 - 1 }
    requires old { IfSome known (λ known. Tells events.old.values known.ms
        (option_map (λ numbers. numbers.old) known.channel) old.old.machine line.now) }
    requires new { IfSome known (λ known. Tells events.old.values known.ms
        (option_map (λ numbers. numbers.new) known.channel) new.old.machine line.now) }
    ensures steps { IfOk result (StepsTo line.now (stand_of log.old old.old new.old)
        (stand_of log.new old.new new.new)) }
    ensures number { IfOk result (λ _. log.new.number ≡ log.old.number + 1) }
    ensures source { IfOk result (λ close. IfSome close (λ c. source_failed c ≡ false)) }
{
    do_on_both(line, known, log.number, events, old, new)?;
    note_line(old, new, log)
}
