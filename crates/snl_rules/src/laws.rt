//! A law of the rules, and examples. Each function is its contract.

ghost use Rattle.snl_rules.specs.Laws.{ToldIsBroken};
ghost use Rattle.snl_rules.specs.Examples.{AssignExamples, LimitExamples, OrderExamples, SyncExamples, UseExamples};
ghost use Rattle.snl_rules.specs.FunctionExamples.{FunctionExamples, FunctionWords};

/// What the tests tell is what is broken by the rules.
pub fn told_is_broken()
    ensures { ToldIsBroken }
{}

/// Elements that are assigned twice, and some that are not.
pub fn examples_of_assigns()
    ensures { AssignExamples }
{}

/// What is not assigned, whatever stands first.
pub fn examples_of_order()
    ensures { OrderExamples }
{}

/// What is synced twice or not monitored.
pub fn examples_of_syncs()
    ensures { SyncExamples }
{}

/// Names in expressions.
pub fn examples_of_uses()
    ensures { UseExamples }
{}

/// Each limit, reached and passed.
pub fn examples_of_limits()
    ensures { LimitExamples }
{}

/// Functions and their calls, and their limit.
pub fn examples_of_functions()
    ensures { FunctionExamples }
{}

/// The words that functions take.
pub fn examples_of_function_words()
    ensures { FunctionWords }
{}
