//! Laws of the definitions that the contract of `lex` speaks of. Each function is its contract.

ghost use Rattle.snl_text.specs.Laws.{AtMostOneCut, AtMostOneFault, CutOrFault, FrontHasTheCut, NoCutPasses, NotBoth, ReadBeforeFault, TokensAscend};
ghost use Rattle.snl_text.specs.MarkerLines.{LinesAreMarkers, MarkersAreLines};
ghost use Rattle.snl_text.specs.Standing.{StandingCanStand, TextsStand};
ghost use Rattle.snl_text.specs.Texts.{NoLongerPiece, StandingIsText, TextExamples};

/// Each source has a cut that reaches its end, or a fault.
pub fn cut_or_fault()
    ensures { CutOrFault }
{}

/// No source has both a cut that reaches its end and a fault.
pub fn not_both()
    ensures { NotBoth }
{}

/// There is at most one cut of a source.
pub fn at_most_one_cut()
    ensures { AtMostOneCut }
{}

/// Where no lexeme can stand, every cut ends there or before.
pub fn no_cut_passes()
    ensures { NoCutPasses }
{}

/// A source has at most one fault.
pub fn at_most_one_fault()
    ensures { AtMostOneFault }
{}

/// Of the tokens of a cut each begins after the one before it.
pub fn tokens_ascend()
    ensures { TokensAscend }
{}

/// The bytes that a cut takes have that cut on their own.
pub fn front_has_the_cut()
    ensures { FrontHasTheCut }
{}

/// What is read up to a fault is what the bytes before the fault give: the same files, tokens and places.
pub fn read_before_fault()
    ensures { ReadBeforeFault }
{}

/// What stands at a place is one lexeme.
pub fn standing_is_text()
    ensures { StandingIsText }
{}

/// Where a lexeme stands, its text can stand, by the rules of texts alone.
pub fn standing_can_stand()
    ensures { StandingCanStand }
{}

/// Where a text can stand by the rules of texts, a lexeme of its length stands.
pub fn texts_stand()
    ensures { TextsStand }
{}

/// Where a lexeme stands, no longer text is one lexeme.
pub fn no_longer_lexeme()
    ensures { NoLongerPiece }
{}

/// What is read as a marker is a marker line, told by its parts.
pub fn markers_are_lines()
    ensures { MarkersAreLines }
{}

/// A marker line is read as a marker, with its number and its name.
pub fn lines_are_markers()
    ensures { LinesAreMarkers }
{}

/// Texts that are one lexeme, and some that are not.
pub fn examples_of_texts()
    ensures { TextExamples }
{}
