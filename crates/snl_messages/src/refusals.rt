//! What is said of a source that has no tree: each is the one error of its source.

ghost use Rattle.std.specs.Prelude.{◌≡◌};
ghost use Rattle.snl_messages.specs.Refusals as spec;

/// Why a source is refused as a whole.
#[derive(Clone, Copy)]
pub enum Refusal {
    /// E01: no program goes on with a token.
    Unexpected,
    /// E01: the tokens end before a program is whole.
    EndOfFile,
    /// E02: only programs that are nested deeper than 64 go on with a token.
    TooDeep,
    /// E03: the source is no row of tokens; what is wrong is told by the fault.
    NoTokens,
}

impl Refusal {
    /// What stands after E.
    pub fn number(self) -> u8
        ensures { result ≡ spec.refusal_number self }
    {
        match self {
            Refusal::Unexpected | Refusal::EndOfFile => 1,
            Refusal::TooDeep => 2,
            Refusal::NoTokens => 3,
        }
    }

    /// The text, or what stands of it before a token that it quotes.
    pub fn words(self) -> &'static [u8]
        ensures { result.now ≡ spec.words_of self }
    {
        match self {
            Refusal::Unexpected => b"syntax error at '",
            Refusal::EndOfFile => b"syntax error at end of file",
            Refusal::TooDeep => b"nesting deeper than 64 at '",
            Refusal::NoTokens => b"",
        }
    }
}
