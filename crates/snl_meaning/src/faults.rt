//! What a program can do wrong while it runs.

use thiserror::Error;

/// A fault of a program. It is charged to a line of the source.
#[derive(Clone, Copy, Debug, PartialEq, Eq, Error)]
pub enum Fault {
    /// The result of an operator leaves -2^63 .. 2^63-1.
    #[error("overflow")]
    Overflow,
    /// `/` or `%` by 0.
    #[error("division by zero")]
    DivisionByZero,
    /// A subscript that is not 0 .. size-1.
    #[error("subscript out of range")]
    OutOfRange,
    /// A number that is stored is none of the variable's type.
    #[error("value does not fit")]
    DoesNotFit,
    /// A shift count that is not 0 .. 63.
    #[error("bad shift count")]
    BadShift,
    /// A turn of a loop, or a transition, after all ticks of the budget.
    #[error("step budget spent")]
    BudgetSpent,
}
