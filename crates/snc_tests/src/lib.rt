//! The tests of all crates: what only calls can show.
//!
//! They stand in a crate of their own, since the tests of a crate are proved together with the crate once more; and in one, since the
//! program of each such crate is linked anew.
#![tactic(auto)]

#[cfg(test)]
mod tests;

/// The program that most tests run: twice a value that passes 3 is put to another channel.
pub const PROGRAM: &[u8] = b"program p
option +s;
int x;
assign x to \"a\";
monitor x;
int y;
assign y to \"b\";
ss s {
  state lo {
    when (x > 3) { y = x * 2; pvPut(y); } state hi
  }
  state hi {
  }
}
";
