//! Laws of what was seen of a program. A function is its contract.

ghost use Rattle.snl_coverage.specs.Coverage.{CountsAddUp, SumsInAnyGrouping, SumsInAnyOrder};

/// Counts that are right for the lines of two runs are right together for the lines of both.
pub fn counts_add_up()
    ensures { CountsAddUp }
{}

/// Counts of as many things add up to the same in any order.
pub fn sums_in_any_order()
    ensures { SumsInAnyOrder }
{}

/// They do however they are grouped.
pub fn sums_in_any_grouping()
    ensures { SumsInAnyGrouping }
{}
