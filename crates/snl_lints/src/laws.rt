//! Laws of the lints `shared` and `constant`, and examples of programs that lints remark on and of some that they do not. Each function is its contract.

ghost use Rattle.snl_lints.specs.Apart.{DoersAreApart};
ghost use Rattle.snl_lints.specs.Refused.{RefusedSidesFault, OthersDoNot};
ghost use Rattle.snl_lints.specs.ConstantExamples.{MacroExamples, SpokenExamples, OperatorExamples, HeldExamples};
ghost use Rattle.snl_lints.specs.Examples.{VariableExamples, ConditionExamples, ItselfExamples, SharedExamples, ColumnExamples};

/// What the tables tell of two doings is that some state set does the one, and another one the other.
pub fn doers_are_apart()
    ensures { DoersAreApart }
{}

/// `stale`, `unread`, `unput` and `answered`: what is done with a variable of a channel, and what is missing.
pub fn examples_of_variables()
    ensures { VariableExamples }
{}

/// `equals` and `comma`: conditions that are an assignment or have a comma, and others.
pub fn examples_of_conditions()
    ensures { ConditionExamples }
{}

/// `itself`: ways back with blocks that are not done, and that are.
pub fn examples_of_ways_back()
    ensures { ItselfExamples }
{}

/// `shared`: variables of two state sets, and of one.
pub fn examples_of_copies()
    ensures { SharedExamples }
{}

/// Columns, and a whole line.
pub fn examples_of_columns()
    ensures { ColumnExamples }
{}

/// What a division or a shift refuses to its right faults with each number to its left, and another one not with 0.
pub fn refused_sides_fault()
    ensures refused { RefusedSidesFault }
    ensures others { OthersDoNot }
{}

/// `macro`: names with macros that are defined and that are not, and with braces.
pub fn examples_of_macros()
    ensures { MacroExamples }
{}

/// `unspoken`: names that a line of a trace can tell, and others.
pub fn examples_of_names()
    ensures { SpokenExamples }
{}

/// `constant`: operators that fault by their constants, and others.
pub fn examples_of_operators()
    ensures { OperatorExamples }
{}

/// `constant`: numbers that variables can hold, and elements that they have, and others.
pub fn examples_of_numbers()
    ensures { HeldExamples }
{}
