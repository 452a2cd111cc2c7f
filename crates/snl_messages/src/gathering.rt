//! What is found in a program, one kind of messages after the other.

ghost use Rattle.std.specs.Prelude.{◌≡◌, [], ◌∷◌, ◌++◌, map, OnOk};
ghost use Rattle.snl_messages.specs.Entries.{finding_in};
ghost use Rattle.snl_messages.specs.Findings.{of_broken, of_unreached, of_embedded, of_overfull};
ghost use Rattle.snl_messages.specs.Lists as spec;

use crate::entries::{Entry, note};
use crate::matters::Matter;
use crate::places::{marked_place, quote_of};
use snl_rules::Broken;
use snl_text::{Pos, Token};
use std::alloc::{AllocError, Global};

/// Notes a rule that a site breaks.
fn note_broken(alloc: Global, broken: Broken, entries: &mut Vec<Entry>) -> Result<(), AllocError>
    ensures { OnOk result (map finding_in entries.new.items
        ≡ map finding_in entries.old.items ++ of_broken broken.entry ∷ []) }
{
    let quote = quote_of(alloc, broken.site)?;
    let place = marked_place(broken.rule, broken.site);
    note(
        alloc,
        Matter::AtSite(broken.rule),
        place,
        quote.as_slice(),
        entries,
    )
}

/// Notes each rule that a site breaks. Fails only where memory ends.
pub fn note_rules(
    alloc: Global,
    broken: &[Broken],
    entries: &mut Vec<Entry>,
) -> Result<(), AllocError>
    ensures { OnOk result (map finding_in entries.new.items
        ≡ map finding_in entries.old.items ++ map of_broken broken.now) }
{
    for next in broken {
        note_broken(alloc, *next, entries)?;
    }
    Ok(())
}

/// Notes each state that cannot be reached, by its name. Fails only where memory ends.
pub fn note_unreached(
    alloc: Global,
    names: &[Token],
    entries: &mut Vec<Entry>,
) -> Result<(), AllocError>
    ensures { OnOk result (map finding_in entries.new.items
        ≡ map finding_in entries.old.items ++ map of_unreached names.now) }
{
    for name in names {
        note(alloc, Matter::Unreached, name.pos, name.text, entries)?;
    }
    Ok(())
}

/// Notes each piece of embedded C, by its place. Fails only where memory ends.
pub fn note_embedded(
    alloc: Global,
    embedded: &[Pos],
    entries: &mut Vec<Entry>,
) -> Result<(), AllocError>
    ensures { OnOk result (map finding_in entries.new.items
        ≡ map finding_in entries.old.items ++ map of_embedded embedded.now) }
{
    for pos in embedded {
        note(alloc, Matter::EmbeddedC, *pos, b"", entries)?;
    }
    Ok(())
}

/// Notes each state set that takes too many words, by its word `ss`. Fails only where memory ends.
pub fn note_overfull(
    alloc: Global,
    words: &[Token],
    entries: &mut Vec<Entry>,
) -> Result<(), AllocError>
    ensures { OnOk result (map finding_in entries.new.items
        ≡ map finding_in entries.old.items ++ map of_overfull words.now) }
{
    for word in words {
        note(alloc, Matter::TooManyWordsOfSet, word.pos, b"", entries)?;
    }
    Ok(())
}

/// Notes the first token past the limit, if there is one. Fails only where memory ends.
pub fn note_beyond(
    alloc: Global,
    beyond: Option<Pos>,
    entries: &mut Vec<Entry>,
) -> Result<(), AllocError>
    ensures { OnOk result (map finding_in entries.new.items
        ≡ map finding_in entries.old.items ++ spec.of_beyond beyond) }
{
    match beyond {
        Some(pos) => note(alloc, Matter::TooManyTokens, pos, b"", entries),
        None => Ok(()),
    }
}

/// Notes at the word `program` that safe mode is not asked for, where it is not. Fails only where memory ends.
pub fn note_mode(
    alloc: Global,
    is_safe: bool,
    word: Token,
    entries: &mut Vec<Entry>,
) -> Result<(), AllocError>
    ensures { OnOk result (map finding_in entries.new.items
        ≡ map finding_in entries.old.items ++ spec.of_mode is_safe word.entry) }
{
    if is_safe {
        Ok(())
    } else {
        note(alloc, Matter::NotSafe, word.pos, b"", entries)
    }
}

/// Notes at the word `program` that all words pass their limit, where they do. Fails only where memory ends.
pub fn note_words(
    alloc: Global,
    is_overfull: bool,
    word: Token,
    entries: &mut Vec<Entry>,
) -> Result<(), AllocError>
    ensures { OnOk result (map finding_in entries.new.items
        ≡ map finding_in entries.old.items ++ spec.of_words is_overfull word.entry) }
{
    if is_overfull {
        note(alloc, Matter::TooManyWords, word.pos, b"", entries)
    } else {
        Ok(())
    }
}
