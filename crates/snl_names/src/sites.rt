//! The places of a program that a rule may speak of, with what is known there.

ghost use Rattle.std.specs.Prelude.{◌≡◌};
ghost use Rattle.snl_names.specs.Sites as spec;

use snl_text::{Pos, Token};

/// What a declaration says of the size of its variable.
#[derive(Clone, Copy)]
pub enum Size {
    /// It has none.
    Scalar,
    /// 1 to 1,024 elements.
    Array(u32),
    /// A constant above 1,024.
    TooLong,
    /// More than one dimension, or a size that is no constant, faults or is below 1.
    Wrong,
}

/// What a name means where it stands.
#[derive(Clone, Copy)]
pub enum Meaning {
    /// With the place of its declaration.
    Variable(Pos, Size),
    /// An event flag, with the place of its declaration.
    Flag(Pos),
    /// A predefined name, which stands for a number.
    Number,
    /// It is not declared.
    Nothing,
}

/// What a name or another part of an expression is for.
#[derive(Clone, Copy)]
pub enum Purpose {
    /// Its value is used.
    Read,
    /// It is the target of an assignment, or of `++` or `--`.
    Changed,
    /// Its channel is used.
    Channel,
    /// Its queue is used.
    Queued,
    /// It is an event flag.
    Flagged,
    /// It is the whole argument of a `delay`.
    Delayed,
    /// Its value is dropped: it is a whole statement.
    Dropped,
    /// It stands in an unknown or wrong call: names still count as used, and nothing else is asked.
    Ignored,
}

/// Which elements of a variable a definition names.
#[derive(Clone, Copy)]
pub enum Extent {
    /// All of so many, by one name.
    Whole(u32),
    /// The first ones, so many, by a channel each.
    Front(u32),
    /// One, by its number from 0 on.
    Element(u32),
}

/// The elements of a variable that a definition names.
#[derive(Clone, Copy)]
pub struct Part {
    /// The place of the variable's declaration.
    pub variable: Pos,
    /// Which of its elements.
    pub extent: Extent,
}

/// Which definition it is.
#[derive(Clone, Copy)]
pub enum Sort {
    /// An `assign`.
    Assign,
    /// A `monitor`.
    Monitor,
    /// A `sync`.
    Sync,
    /// A `syncQ`, with the size of its queue: 100 where none is written, and 0 where the number is
    /// too large to have a value.
    Queue(u64),
}

/// A place of a program that a rule may speak of. Its fields are what the rules ask there, looked
/// up in what stands round it; a field `is_good`, `is_known` and the like is `true` wherever
/// nothing is asked.
#[derive(Clone, Copy)]
pub enum Site<'a> {
    /// A declared name: whether it is an event flag, whether its scope declares it before, its
    /// elements.
    Declaration {
        name: Token<'a>,
        is_flag: bool,
        is_later: bool,
        words: usize,
    },
    /// The type of a declaration, of a function or of a parameter.
    Typed {
        word: Token<'a>,
        second: Option<Token<'a>>,
        is_supported: bool,
    },
    /// The sizes and the initialiser of a declared name.
    Declarator {
        name: Token<'a>,
        size: Size,
        has_good_initialiser: bool,
    },
    /// An `assign`, `monitor`, `sync` or `syncQ`. `is_wrong` tells whether its subscript or its
    /// list of channels is wrong by itself, `part` which elements it names. The word of a `monitor`
    /// or a `sync` is its name; of a word the place is enough, and it keeps a row of sites short.
    Defined {
        sort: Sort,
        word: Pos,
        name: Token<'a>,
        meaning: Meaning,
        has_subscript: bool,
        is_wrong: bool,
        part: Option<Part>,
    },
    /// The size of a queue, where one is written.
    QueueSize {
        number: Token<'a>,
        is_good: bool,
    },
    /// An option, with the first letter that is refused.
    Setting {
        sign: Token<'a>,
        name: Token<'a>,
        refused: Option<u8>,
    },
    /// A name in an expression, or of an event flag.
    Use {
        purpose: Purpose,
        name: Token<'a>,
        meaning: Meaning,
        has_subscript: bool,
    },
    /// A decimal constant.
    Decimal {
        number: Token<'a>,
        is_good: bool,
    },
    /// A call of a function, and the place of the function where the program has it.
    Call {
        name: Token<'a>,
        is_known: bool,
        is_fitting: bool,
        may_stand: bool,
        has_value: bool,
        function: Option<Pos>,
    },
    /// A function, and whether its name is taken.
    Function {
        name: Token<'a>,
        is_taken: bool,
    },
    /// A `return`.
    Return {
        word: Token<'a>,
        may_stand: bool,
    },
    /// A string as an argument.
    Format {
        text: Token<'a>,
        is_good: bool,
    },
    /// An operator that changes its target.
    Change {
        operator: Token<'a>,
        is_good: bool,
    },
    /// `break` or `continue`.
    LoopExit {
        word: Token<'a>,
        is_in_loop: bool,
    },
    /// The word of a state statement.
    StateChange {
        word: Token<'a>,
        is_in_clause: bool,
    },
    /// The target of a clause, or of a state statement where one may stand or not; with the number
    /// of the state.
    Target {
        name: Token<'a>,
        state: Option<usize>,
        may_stand: bool,
    },
    /// A clause, and whether one before it in its state is always taken.
    Clause {
        word: Token<'a>,
        is_blocked: bool,
    },
    /// A state, and whether one before it in its state set has its name.
    State {
        word: Token<'a>,
        name: Token<'a>,
        is_later: bool,
        has_clauses: bool,
    },
    /// A state set, and whether one before it has its name.
    StateSet {
        word: Token<'a>,
        name: Token<'a>,
        is_later: bool,
    },
}

/// Where a statement stands.
#[derive(Clone, Copy)]
pub enum Room {
    /// In a clause's block.
    Clause,
    /// In another block of a state or of the program.
    Elsewhere,
    /// In a function, that has a value or not.
    Function(bool),
}

impl Room {
    /// Whether a state may be changed: in a clause's block alone.
    pub fn is_clause(self) -> bool
        ensures { result ≡ spec.is_clause self }
    {
        matches!(self, Room::Clause)
    }
}
