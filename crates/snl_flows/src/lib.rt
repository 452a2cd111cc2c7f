//! Laws of variables that decide nothing: they are written before they are read, or come into no condition, subscript, divisor, delay,
//! argument or text. Whatever they are, a program does the same but for values of puts, and for overflows of such variables.
#![tactic(auto)]

pub mod laws;
