//! Examples of the grammar. Each function is its contract.

ghost use Rattle.snl_syntax.specs.GroupExamples.{GroupExamples};

/// How a chain of two operators of one level is grouped.
pub fn examples_of_grouping()
    ensures { GroupExamples }
{}
