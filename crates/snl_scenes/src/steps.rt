//! What a part of a condition is worth at a moment: steps on a stack of numbers, of which some may not be known.

use snl_meaning::Tied;
use snl_resolve::{computed, computed_prefix};
use snl_text::Kind;
use snl_vm::Store;
use std::alloc::{AllocError, Global};

/// A step.
#[derive(Clone, Copy)]
pub(crate) enum Step {
    /// A number.
    Number(i64),
    /// A word of the copy.
    Word(usize),
    /// An element of a variable, by where it begins and how many it has; its subscript is on top.
    Element(usize, usize),
    /// Whether an event flag is set.
    Flag(usize),
    /// Whether the channel of a link is connected.
    Connected(usize),
    /// Whether a link waits for no answer to a put.
    Answered(usize),
    /// Whether the queue of a link holds something.
    Queued(usize),
    /// How many links have a channel, and with true one that is connected.
    Count(bool),
    /// Whether so many milliseconds have passed since the state was entered, or so many seconds.
    Delay(bool),
    /// A sign in front of an operand.
    Sign(Kind),
    /// An operator between two operands.
    Operator(Kind),
    /// Of three operands the second, if the first is not 0, and else the third.
    Choice,
    /// What is not known: it would change something, or calls a function of the program.
    Unknown,
}

/// What steps look at.
#[derive(Clone, Copy)]
pub(crate) struct Sight<'s> {
    /// All that a run changes.
    pub store: &'s Store,
    /// What the links are tied to.
    pub ties: &'s [Tied],
    /// The number of the state set.
    pub set: usize,
    /// When it is, in milliseconds.
    pub ms: u64,
}

/// Whether something is so, as a number.
fn truth(is_so: bool) -> Option<i64> {
    Some(i64::from(is_so))
}

impl Sight<'_> {
    /// The number of the state that the state set is in.
    pub(crate) fn state(self) -> usize {
        match self.store.copies.get(self.set) {
            Some(copy) => copy.state,
            None => usize::MAX,
        }
    }

    /// When it was entered.
    fn entered(self) -> u64 {
        match self.store.copies.get(self.set) {
            Some(copy) => copy.entered,
            None => 0,
        }
    }

    /// A word of the copy.
    fn word(self, place: usize) -> Option<i64> {
        let copy = self.store.copies.get(self.set)?;
        copy.words.get(place).copied()
    }

    /// An element of a variable.
    fn element(self, place: usize, size: usize, subscript: i64) -> Option<i64> {
        let number = usize::try_from(subscript).ok()?;
        if number < size {
            self.word(place.saturating_add(number))
        } else {
            None
        }
    }

    /// Whether the channel of a link is connected; a link without one is.
    fn is_up(self, link: usize) -> Option<bool> {
        match self.ties.get(link)?.channel {
            Some(channel) => self.store.ups.get(channel).copied(),
            None => Some(true),
        }
    }

    /// How many links have a channel, or one that is connected.
    fn count(self, is_up: bool) -> Option<i64> {
        let mut count = 0i64;
        for tie in self.ties {
            if let Some(channel) = tie.channel {
                if !is_up || self.store.ups.get(channel).copied().unwrap_or(false) {
                    count = count.saturating_add(1);
                }
            }
        }
        Some(count)
    }

    /// When a delay is over that is so long, in milliseconds.
    pub(crate) fn due(self, length: i64, in_seconds: bool) -> Option<u64> {
        let ms = if in_seconds {
            length.checked_mul(1000)?
        } else {
            length
        };
        match u64::try_from(ms) {
            Ok(ms) => self.entered().checked_add(ms),
            Err(_) => Some(0),
        }
    }

    /// Whether it is over.
    fn is_over(self, length: i64, in_seconds: bool) -> Option<i64> {
        truth(self.due(length, in_seconds)? <= self.ms)
    }

    /// Whether an event flag is set.
    fn flag(self, flag: usize) -> Option<i64> {
        truth(*self.store.flags.get(flag)?)
    }

    /// Whether the channel of a link is connected, as a number.
    fn connected(self, link: usize) -> Option<i64> {
        truth(self.is_up(link)?)
    }

    /// Whether a link waits for no answer to a put.
    fn answered(self, link: usize) -> Option<i64> {
        truth(!*self.store.waiting.get(link)?)
    }

    /// Whether the queue of a link holds something.
    fn queued(self, link: usize) -> Option<i64> {
        truth(!self.store.queues.get(link)?.is_empty())
    }

    /// What a step gives that takes nothing from the stack.
    fn seen(self, step: Step) -> Option<i64> {
        match step {
            Step::Number(number) => Some(number),
            Step::Word(place) => self.word(place),
            Step::Flag(flag) => self.flag(flag),
            Step::Connected(link) => self.connected(link),
            Step::Answered(link) => self.answered(link),
            Step::Queued(link) => self.queued(link),
            Step::Count(is_up) => self.count(is_up),
            _ => None,
        }
    }
}

/// What an operator makes of two operands. What is not known is of no matter where the other one decides.
fn joined(operator: Kind, left: Option<i64>, right: Option<i64>) -> Option<i64> {
    match (operator, left, right) {
        (Kind::AmpersandAmpersand, Some(0), _) | (Kind::AmpersandAmpersand, _, Some(0)) => Some(0),
        (Kind::AmpersandAmpersand, Some(_), Some(_)) => Some(1),
        (Kind::BarBar, Some(0), Some(0)) => Some(0),
        (Kind::BarBar, Some(0), other) | (Kind::BarBar, other, Some(0)) => truth(other? != 0),
        (Kind::BarBar, Some(_), _) | (Kind::BarBar, _, Some(_)) => Some(1),
        (Kind::AmpersandAmpersand | Kind::BarBar, _, _) => None,
        (_, Some(left), Some(right)) => computed(operator, left, right).ok(),
        _ => None,
    }
}

/// Takes the topmost number; one that is not there is not known.
fn popped(stack: &mut Vec<Option<i64>>) -> Option<i64> {
    stack.pop().unwrap_or(None)
}

/// What a step makes of the topmost number.
fn made_of(sight: Sight, step: Step, top: Option<i64>) -> Option<i64> {
    let top = top?;
    match step {
        Step::Element(place, size) => sight.element(place, size, top),
        Step::Delay(in_seconds) => sight.is_over(top, in_seconds),
        Step::Sign(sign) => computed_prefix(sign, top).ok(),
        _ => None,
    }
}

/// What an operator makes of the two topmost numbers.
fn operated(operator: Kind, stack: &mut Vec<Option<i64>>) -> Option<i64> {
    let right = popped(stack);
    let left = popped(stack);
    joined(operator, left, right)
}

/// What a choice makes of the three topmost numbers.
fn chosen(stack: &mut Vec<Option<i64>>) -> Option<i64> {
    let no = popped(stack);
    let yes = popped(stack);
    match popped(stack) {
        Some(0) => no,
        Some(_) => yes,
        None => None,
    }
}

/// What a step gives, which takes its operands.
fn given(sight: Sight, step: Step, stack: &mut Vec<Option<i64>>) -> Option<i64> {
    match step {
        Step::Element(_, _) | Step::Delay(_) | Step::Sign(_) => {
            made_of(sight, step, popped(stack))
        }
        Step::Operator(operator) => operated(operator, stack),
        Step::Choice => chosen(stack),
        _ => sight.seen(step),
    }
}

/// Does a step. The only error is that memory ends.
fn take(sight: Sight, step: Step, stack: &mut Vec<Option<i64>>) -> Result<(), AllocError> {
    let number = given(sight, step, stack);
    stack.push(number)?;
    Ok(())
}

/// What steps give; None where that is not known. The only error is that memory ends.
pub(crate) fn worth(
    alloc: Global,
    sight: Sight,
    steps: &[Step],
) -> Result<Option<i64>, AllocError> {
    let mut stack = Vec::new(alloc);
    for step in steps {
        take(sight, *step, &mut stack)?;
    }
    Ok(popped(&mut stack))
}
