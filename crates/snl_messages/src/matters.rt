//! What messages are about, and how they are worded.

ghost use Rattle.std.specs.Prelude.{◌≡◌, IfOk};
ghost use Rattle.snl_messages.specs.Wordings.{wording, wording_of, wording_text, is_warning};

use snl_rules::Rule;
use std::alloc::{AllocError, Global};

/// What a message is about.
#[derive(Clone, Copy)]
pub enum Matter {
    /// A rule that a site breaks.
    AtSite(Rule),
    /// E04: more than 65,536 tokens.
    TooManyTokens,
    /// E04: a state set that takes more than 65,536 words.
    TooManyWordsOfSet,
    /// E04: more than 1,048,576 words over all.
    TooManyWords,
    /// E10: a piece of embedded C.
    EmbeddedC,
    /// W1: safe mode is not asked for.
    NotSafe,
    /// W2: a state to which no way leads.
    Unreached,
}

/// The number of a rule's message.
fn rule_number(rule: Rule) -> u8
    ensures { result ≡ (wording_of rule).number }
{
    match rule {
        Rule::TooManySets
        | Rule::TooManyStates
        | Rule::TooManyFunctions
        | Rule::TooManyChannels
        | Rule::TooManyElements => 4,
        Rule::WrongType => 11,
        Rule::WrongDecimal => 12,
        Rule::Undeclared => 13,
        Rule::DeclaredTwice => 14,
        Rule::NoVariable => 15,
        Rule::UnknownFunction => 16,
        Rule::WrongArguments => 17,
        Rule::DelayElsewhere => 18,
        Rule::AssignedTwice => 19,
        Rule::Unassigned => 20,
        Rule::NoFlag => 21,
        Rule::SyncedTwice => 22,
        Rule::NoQueue => 23,
        Rule::StateTwice | Rule::StateSetTwice => 24,
        Rule::NoState => 25,
        Rule::StateElsewhere => 26,
        Rule::OutsideLoop => 27,
        Rule::BadInitialiser => 28,
        Rule::WrongArray => 29,
        Rule::NotAssignable => 30,
        Rule::UnknownOption => 31,
        Rule::BadFormat => 32,
        Rule::QueueSize => 33,
        Rule::NoValue => 34,
        Rule::ReturnElsewhere => 35,
        Rule::NeverReached => 3,
        Rule::NotMonitored => 4,
        Rule::UnusedVariable => 5,
        Rule::UnusedFlag => 6,
        Rule::NoClauses => 7,
        Rule::UnusedFunction => 8,
    }
}

/// The text of a rule's message before what it quotes, or the whole of it.
fn before_of(rule: Rule) -> &'static [u8]
    ensures { result.now ≡ (wording_of rule).before }
{
    match rule {
        Rule::TooManySets => b"limit passed: 64 state sets",
        Rule::TooManyStates => b"limit passed: 1024 states",
        Rule::TooManyFunctions => b"limit passed: 256 functions",
        Rule::TooManyChannels => b"limit passed: 1024 channels",
        Rule::TooManyElements => b"limit passed: 1024 elements",
        Rule::WrongType => b"type '",
        Rule::WrongDecimal => b"decimal constant not allowed here",
        Rule::UnknownFunction => b"unknown function '",
        Rule::WrongArguments => b"wrong arguments for '",
        Rule::DelayElsewhere => b"delay is only allowed in a when condition",
        Rule::StateTwice | Rule::NoClauses => b"state '",
        Rule::StateSetTwice => b"state set '",
        Rule::NoState => b"no state '",
        Rule::StateElsewhere => b"state statement not allowed here",
        Rule::BadInitialiser => b"bad initialiser for '",
        Rule::WrongArray => b"wrong array use of '",
        Rule::NotAssignable => b"not assignable",
        Rule::UnknownOption => b"option '",
        Rule::BadFormat => b"bad printf format",
        Rule::QueueSize => b"queue size must be 1 to 4096",
        Rule::ReturnElsewhere => b"return not allowed here",
        Rule::NeverReached => b"clause is never reached",
        Rule::UnusedVariable => b"variable '",
        Rule::UnusedFlag => b"event flag '",
        Rule::UnusedFunction => b"function '",
        _ => b"'",
    }
}

/// The text of a rule's message after what it quotes.
fn after_of(rule: Rule) -> &'static [u8]
    ensures { result.now ≡ (wording_of rule).after }
{
    match rule {
        Rule::WrongType | Rule::UnknownOption => b"' is not supported",
        Rule::Undeclared => b"' is not declared",
        Rule::DeclaredTwice => b"' is declared twice",
        Rule::NoVariable => b"' is not a variable",
        Rule::UnknownFunction | Rule::WrongArguments | Rule::BadInitialiser | Rule::WrongArray =>
            b"'",
        Rule::AssignedTwice => b"' is assigned twice",
        Rule::Unassigned => b"' is not assigned",
        Rule::NoFlag => b"' is not an event flag",
        Rule::SyncedTwice => b"' is synced twice",
        Rule::NoQueue => b"' has no queue",
        Rule::StateTwice | Rule::StateSetTwice => b"' is defined twice",
        Rule::NoState => b"' in this state set",
        Rule::OutsideLoop => b"' outside a loop",
        Rule::NotMonitored => b"' is synced but not monitored",
        Rule::UnusedVariable | Rule::UnusedFlag | Rule::UnusedFunction => b"' is not used",
        Rule::NoValue => b"' has no value",
        Rule::NoClauses => b"' has no clauses",
        _ => b"",
    }
}

/// Whether a rule's message quotes something.
fn is_quoting(rule: Rule) -> bool
    ensures { result ≡ (wording_of rule).is_quoting }
{
    match rule {
        Rule::TooManySets
        | Rule::TooManyStates
        | Rule::TooManyFunctions
        | Rule::TooManyChannels
        | Rule::TooManyElements
        | Rule::WrongDecimal
        | Rule::DelayElsewhere
        | Rule::StateElsewhere
        | Rule::NotAssignable
        | Rule::BadFormat
        | Rule::QueueSize
        | Rule::ReturnElsewhere
        | Rule::NeverReached => false,
        _ => true,
    }
}

/// Whether a rule's message is a warning.
fn warns(rule: Rule) -> bool
    ensures { result ≡ is_warning (wording_of rule).severity }
{
    match rule {
        Rule::NeverReached
        | Rule::NotMonitored
        | Rule::UnusedVariable
        | Rule::UnusedFlag
        | Rule::NoClauses
        | Rule::UnusedFunction => true,
        _ => false,
    }
}

/// The rank of a rule among the limits.
fn rank_of(rule: Rule) -> u8
    ensures { result ≡ (wording_of rule).rank }
{
    match rule {
        Rule::TooManySets => 1,
        Rule::TooManyStates => 2,
        Rule::TooManyChannels => 3,
        Rule::TooManyElements => 4,
        Rule::TooManyFunctions => 7,
        _ => 0,
    }
}

impl Matter {
    /// What stands after E or W.
    pub fn number(self) -> u8
        ensures { result ≡ (wording self).number }
    {
        match self {
            Matter::AtSite(rule) => rule_number(rule),
            Matter::TooManyTokens | Matter::TooManyWordsOfSet | Matter::TooManyWords => 4,
            Matter::EmbeddedC => 10,
            Matter::NotSafe => 1,
            Matter::Unreached => 2,
        }
    }

    /// Whether it is a warning.
    pub fn is_warning(self) -> bool
        ensures { result ≡ is_warning (wording self).severity }
    {
        match self {
            Matter::AtSite(rule) => warns(rule),
            Matter::NotSafe | Matter::Unreached => true,
            _ => false,
        }
    }

    /// The rank among the limits.
    pub fn rank(self) -> u8
        ensures { result ≡ (wording self).rank }
    {
        match self {
            Matter::AtSite(rule) => rank_of(rule),
            Matter::TooManyWordsOfSet => 5,
            Matter::TooManyWords => 6,
            _ => 0,
        }
    }

    /// The text before what is quoted, or the whole of it.
    fn before(self) -> &'static [u8]
        ensures { result.now ≡ (wording self).before }
    {
        match self {
            Matter::AtSite(rule) => before_of(rule),
            Matter::TooManyTokens => b"limit passed: 65536 tokens",
            Matter::TooManyWordsOfSet => b"limit passed: 65536 words in a state set",
            Matter::TooManyWords => b"limit passed: 1048576 words",
            Matter::EmbeddedC => b"embedded C is not supported",
            Matter::NotSafe => b"not in safe mode, safe mode is used",
            Matter::Unreached => b"state '",
        }
    }

    /// The text after what is quoted.
    fn after(self) -> &'static [u8]
        ensures { result.now ≡ (wording self).after }
    {
        match self {
            Matter::AtSite(rule) => after_of(rule),
            Matter::Unreached => b"' cannot be reached",
            _ => b"",
        }
    }

    /// Whether something is quoted.
    fn is_quoting(self) -> bool
        ensures { result ≡ (wording self).is_quoting }
    {
        match self {
            Matter::AtSite(rule) => is_quoting(rule),
            Matter::Unreached => true,
            _ => false,
        }
    }

    /// The text of its message, which may quote these bytes. Fails only where memory ends.
    pub fn text(self, alloc: Global, quote: &[u8]) -> Result<Vec<u8>, AllocError>
        ensures { IfOk result (λ text. text.items ≡ wording_text (wording self) quote.now) }
    {
        let mut text = Vec::from_slice(alloc, self.before())?;
        if self.is_quoting() {
            text.extend_from_slice(quote)?;
            text.extend_from_slice(self.after())?;
        }
        Ok(text)
    }
}
