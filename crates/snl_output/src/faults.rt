//! What stops a run: faults of the program, and a sink that fails.

ghost use Rattle.std.specs.Prelude.{◌≡◌};
ghost use Rattle.snl_output.specs.Lines as spec;

use snl_meaning::Fault;
use thiserror::Error;

/// Why a machine stopped in the midst of an event.
#[derive(Clone, Copy, Debug, PartialEq, Eq, Error)]
pub enum Stop {
    /// The program's fault, with the line of the source that it is charged to, from 1.
    #[error("{0} in line {1}")]
    Fault(Fault, usize),
    /// The sink did not take a line.
    #[error("the output can't be written")]
    Sink,
}

/// What a fault's line says of it.
pub fn fault_text(fault: Fault) -> &'static [u8]
    ensures { result.now ≡ spec.fault_text fault }
{
    match fault {
        Fault::Overflow => b"overflow",
        Fault::DivisionByZero => b"division by zero",
        Fault::OutOfRange => b"subscript out of range",
        Fault::DoesNotFit => b"value does not fit",
        Fault::BadShift => b"bad shift count",
        Fault::BudgetSpent => b"step budget spent",
    }
}
