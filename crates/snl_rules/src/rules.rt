//! The rules, and what breaks one.

use snl_resolve::Site;

/// A rule that a site of a program can break. docs/MESSAGES.md tells each by its number.
#[derive(Clone, Copy)]
pub enum Rule {
    /// E04: more than 64 state sets.
    TooManySets,
    /// E04: more than 1,024 states in all state sets.
    TooManyStates,
    /// E04: more than 256 functions.
    TooManyFunctions,
    /// E04: more than 1,024 channels.
    TooManyChannels,
    /// E04: an array of more than 1,024 elements.
    TooManyElements,
    /// E11: a type that is not supported.
    WrongType,
    /// E12: a decimal constant where none may stand, or with more than three decimals.
    WrongDecimal,
    /// E13: a name that no scope declares.
    Undeclared,
    /// E14: a name that its scope declares before, or a function whose name is taken.
    DeclaredTwice,
    /// E15: an event flag or a predefined name where a variable has to stand.
    NoVariable,
    /// E16: a call of an unknown function.
    UnknownFunction,
    /// E17: a call with arguments that do not fit.
    WrongArguments,
    /// E18: a `delay` outside of conditions.
    DelayElsewhere,
    /// E19: an element that an `assign` before names.
    AssignedTwice,
    /// E20: a variable or an element that no `assign` names.
    Unassigned,
    /// E21: a name that is no event flag where one has to stand.
    NoFlag,
    /// E22: an element that a `sync` or `syncQ` before names.
    SyncedTwice,
    /// E23: the queue of a variable that has none.
    NoQueue,
    /// E24: a state with the name of one before.
    StateTwice,
    /// E24: a state set with the name of one before.
    StateSetTwice,
    /// E25: a target that is no state of its state set.
    NoState,
    /// E26: a state statement outside of a clause's block.
    StateElsewhere,
    /// E27: `break` or `continue` outside of a loop.
    OutsideLoop,
    /// E28: an initialiser that does not fit its variable.
    BadInitialiser,
    /// E29: an array or an element that is used in a wrong way.
    WrongArray,
    /// E30: a target that is no variable.
    NotAssignable,
    /// E31: an option with a letter that is not supported.
    UnknownOption,
    /// E32: a format that `printf` does not know.
    BadFormat,
    /// E33: a queue of a size that is not 1 to 4,096.
    QueueSize,
    /// E34: a call that has no value where one is used.
    NoValue,
    /// E35: a `return` outside of functions, or with a value where its function has none, or without.
    ReturnElsewhere,
    /// W3: a clause after one that is always taken.
    NeverReached,
    /// W4: an element that is synced and that no `monitor` names.
    NotMonitored,
    /// W5: a variable that no name means.
    UnusedVariable,
    /// W6: an event flag that no name means.
    UnusedFlag,
    /// W7: a state without clauses.
    NoClauses,
    /// W8: a function that nothing calls.
    UnusedFunction,
}

/// A rule, and a site that breaks it.
#[derive(Clone, Copy)]
pub struct Broken<'a> {
    /// Which rule it is.
    pub rule: Rule,
    /// What breaks it.
    pub site: Site<'a>,
}
