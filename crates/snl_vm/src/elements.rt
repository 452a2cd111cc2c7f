//! The elements of variables and links, which stand one after another in rows of words.

ghost use Rattle.std.specs.Prelude.{◌≡◌, ◌+◌, pos, slice_index_or, slice_set};
ghost use Rattle.snl_meaning.specs.World.{zeroed};

/// A word that stands so many words after a place; 0 where there is none.
pub fn word_after(words: &[i64], place: usize, after: usize) -> i64
    ensures { slice_index_or words.now (place + after) (pos 0) ≡ result }
{
    match place.checked_add(after) {
        Some(at) => words.get(at).copied().unwrap_or(0),
        None => 0,
    }
}

/// Puts a number into the word that stands so many words after a place, if there is one.
pub fn put_after(words: &mut Vec<i64>, place: usize, after: usize, number: i64)
    ensures { words.new.items ≡ slice_set words.old.items (place + after) number }
{
    if let Some(at) = place.checked_add(after) {
        if let Some(word) = words.get_mut(at) {
            *word = number;
        }
    }
}

/// Makes so many words 0 from a place on.
pub fn zero_from(words: &mut Vec<i64>, place: usize, count: usize)
    ensures { words.new.items ≡ zeroed words.old.items place count }
{
    for number in 0..count {
        put_after(words, place, number, 0);
    }
}
