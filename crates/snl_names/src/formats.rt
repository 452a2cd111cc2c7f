//! The formats of `printf`.

ghost use Rattle.std.specs.Prelude.{◌≡◌};
ghost use Rattle.snl_names.specs.Formats as spec;

/// What the bytes of a format tell of the byte behind them.
#[derive(Clone, Copy)]
pub enum FormatState {
    /// After a whole conversion or escape, or a byte that stands for itself.
    Plain,
    /// Behind a backslash.
    Escaped,
    /// Behind a `%`.
    Percent,
    /// Behind `%l`.
    Long,
}

/// What a byte leads to, if it may stand there.
pub fn next(state: FormatState, byte: u8) -> Option<FormatState>
    ensures { result ≡ spec.next state byte }
{
    match state {
        FormatState::Plain => {
            if byte == b'\\' {
                Some(FormatState::Escaped)
            } else if byte == b'%' {
                Some(FormatState::Percent)
            } else {
                Some(FormatState::Plain)
            }
        }
        FormatState::Escaped => {
            if byte == b'n' || byte == b't' || byte == b'\\' || byte == b'"' {
                Some(FormatState::Plain)
            } else {
                None
            }
        }
        FormatState::Percent => {
            if byte == b'%' || byte == b'd' {
                Some(FormatState::Plain)
            } else if byte == b'l' {
                Some(FormatState::Long)
            } else {
                None
            }
        }
        FormatState::Long => {
            if byte == b'd' {
                Some(FormatState::Plain)
            } else {
                None
            }
        }
    }
}

/// Whether a byte ends a conversion there.
pub fn converts(state: FormatState, byte: u8) -> bool
    ensures { result ≡ spec.converts state byte }
{
    match state {
        FormatState::Percent | FormatState::Long => byte == b'd',
        FormatState::Plain | FormatState::Escaped => false,
    }
}

/// A string without its quotes; nothing of a text that is too short to have two.
pub fn unquoted(text: &[u8]) -> &[u8]
    ensures { result.now ≡ spec.unquoted text.now }
{
    if text.len() < 2 {
        return &[];
    }
    &text[1..text.len() - 1]
}

/// How many conversions a format has; none where it has another conversion or escape.
pub fn conversions(format: &[u8]) -> Option<usize>
    ensures { result ≡ spec.conversions FormatState.Plain 0 format.now }
{
    let mut state = FormatState::Plain;
    let mut count = 0usize;
    for byte in format {
        if converts(state, *byte) {
            count += 1;
        }
        state = next(state, *byte)?;
    }
    match state {
        FormatState::Plain => Some(count),
        _ => None,
    }
}
