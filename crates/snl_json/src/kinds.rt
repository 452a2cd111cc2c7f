//! The names of the kinds of tokens.

ghost use Rattle.std.specs.Prelude.{◌≡◌};
ghost use Rattle.snl_json.specs.Kinds as spec;

use snl_text::Kind;

/// The name of each variant that a kind may be.
macro_rules! named {
    ($kind:expr; $($variant:ident $name:literal),*) => {
        match $kind {
            $(Kind::$variant => $name,)*
        }
    };
}

/// The name of a kind: that of its variant.
pub fn kind_name(kind: Kind) -> &'static str
    ensures { result.now ≡ spec.kind_name kind }
{
    named!(kind;
        Name "Name", Whole "Whole", Decimal "Decimal", Character "Character", Text "Text",
        Assign "Assign", Break "Break", Char "Char", Continue "Continue", Double "Double",
        Else "Else", Entry "Entry", Enum "Enum", EventFlag "EventFlag", Exit "Exit",
        Float "Float", For "For", Foreign "Foreign", If "If", Int "Int", Int8 "Int8",
        Int16 "Int16", Int32 "Int32", Int64 "Int64", Long "Long", Monitor "Monitor",
        OptionWord "OptionWord", Program "Program", Return "Return", Short "Short",
        Sizeof "Sizeof", StateSet "StateSet", State "State", StringType "StringType",
        Struct "Struct", Sync "Sync", SyncQueue "SyncQueue", To "To", Typename "Typename",
        Uint8 "Uint8", Uint16 "Uint16", Uint32 "Uint32", Uint64 "Uint64", Union "Union",
        Unsigned "Unsigned", Void "Void", When "When", While "While", OpenBrace "OpenBrace",
        CloseBrace "CloseBrace", OpenParenthesis "OpenParenthesis",
        CloseParenthesis "CloseParenthesis", OpenBracket "OpenBracket",
        CloseBracket "CloseBracket", Semicolon "Semicolon", Comma "Comma", Colon "Colon",
        Question "Question", Equal "Equal", PlusEqual "PlusEqual", MinusEqual "MinusEqual",
        StarEqual "StarEqual", SlashEqual "SlashEqual", PercentEqual "PercentEqual",
        AmpersandEqual "AmpersandEqual", BarEqual "BarEqual", CaretEqual "CaretEqual",
        LessLessEqual "LessLessEqual", GreaterGreaterEqual "GreaterGreaterEqual",
        BarBar "BarBar", AmpersandAmpersand "AmpersandAmpersand", Bar "Bar", Caret "Caret",
        Ampersand "Ampersand", EqualEqual "EqualEqual", BangEqual "BangEqual", Less "Less",
        LessEqual "LessEqual", Greater "Greater", GreaterEqual "GreaterEqual",
        LessLess "LessLess", GreaterGreater "GreaterGreater", Plus "Plus", Minus "Minus",
        Star "Star", Slash "Slash", Percent "Percent", Bang "Bang", Tilde "Tilde",
        PlusPlus "PlusPlus", MinusMinus "MinusMinus"
    )
}
