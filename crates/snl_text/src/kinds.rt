//! The sorts of tokens.

/// What sort of token it is: one variant for each reserved word and each sign.
#[derive(Clone, Copy, Debug, PartialEq, Eq)]
pub enum Kind {
    /// A letter or underscore, then letters, digits and underscores; no reserved word.
    Name,
    /// A whole number.
    Whole,
    /// A number with a point.
    Decimal,
    /// A character constant, quotes included.
    Character,
    /// A string, quotes included.
    Text,
    Assign,
    Break,
    Char,
    Continue,
    Double,
    Else,
    Entry,
    Enum,
    /// `evflag`
    EventFlag,
    Exit,
    Float,
    For,
    Foreign,
    If,
    Int,
    /// `int8_t`
    Int8,
    /// `int16_t`
    Int16,
    /// `int32_t`
    Int32,
    /// `int64_t`
    Int64,
    Long,
    Monitor,
    /// `option`
    OptionWord,
    Program,
    Return,
    Short,
    Sizeof,
    /// `ss`
    StateSet,
    State,
    /// `string`
    StringType,
    Struct,
    Sync,
    /// `syncq` or `syncQ`.
    SyncQueue,
    To,
    Typename,
    /// `uint8_t`
    Uint8,
    /// `uint16_t`
    Uint16,
    /// `uint32_t`
    Uint32,
    /// `uint64_t`
    Uint64,
    Union,
    Unsigned,
    Void,
    When,
    While,
    /// `{`
    OpenBrace,
    /// `}`
    CloseBrace,
    /// `(`
    OpenParenthesis,
    /// `)`
    CloseParenthesis,
    /// `[`
    OpenBracket,
    /// `]`
    CloseBracket,
    /// `;`
    Semicolon,
    /// `,`
    Comma,
    /// `:`
    Colon,
    /// `?`
    Question,
    /// `=`
    Equal,
    /// `+=`
    PlusEqual,
    /// `-=`
    MinusEqual,
    /// `*=`
    StarEqual,
    /// `/=`
    SlashEqual,
    /// `%=`
    PercentEqual,
    /// `&=`
    AmpersandEqual,
    /// `|=`
    BarEqual,
    /// `^=`
    CaretEqual,
    /// `<<=`
    LessLessEqual,
    /// `>>=`
    GreaterGreaterEqual,
    /// `||`
    BarBar,
    /// `&&`
    AmpersandAmpersand,
    /// `|`
    Bar,
    /// `^`
    Caret,
    /// `&`
    Ampersand,
    /// `==`
    EqualEqual,
    /// `!=`
    BangEqual,
    /// `<`
    Less,
    /// `<=`
    LessEqual,
    /// `>`
    Greater,
    /// `>=`
    GreaterEqual,
    /// `<<`
    LessLess,
    /// `>>`
    GreaterGreater,
    /// `+`
    Plus,
    /// `-`
    Minus,
    /// `*`
    Star,
    /// `/`
    Slash,
    /// `%`
    Percent,
    /// `!`
    Bang,
    /// `~`
    Tilde,
    /// `++`
    PlusPlus,
    /// `--`
    MinusMinus,
}
