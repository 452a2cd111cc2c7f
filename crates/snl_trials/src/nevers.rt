//! A search of a program, as a test: nothing may be found.

ghost use Rattle.std.specs.Prelude.{◌≡◌, [], map, string_bytes, IfOk, IfSome, IsSomeAnd, IsTrue, None};
ghost use Rattle.snl_search.specs.Shown.{IsShown};
ghost use Rattle.snl_trials.specs.Certain.{Reaches};

use snl_alphabet::{Verdict, Watches, WishFault, Wishes};
use snl_lexicon::Scouted;
use snl_search::{SearchAnswer, Searched, search};
use std::alloc::Global;

/// What came of a search.
#[derive(Drop)]
pub struct SearchTrial {
    /// The answer, as lines of text.
    pub text: Vec<u8>,
    /// The traces of which it is certain that none does what must not happen, where nothing was found.
    pub none: Option<Searched>,
    /// Whether nothing is to be found, by as many lines as were asked for.
    pub is_right: bool,
}

/// Whether traces were searched as they have to be: any number of lines, where that is asked for, and nothing was left out.
fn is_enough(none: &Searched, is_ever: bool) -> bool
    ensures ever { IsTrue result → IsTrue is_ever → none.now.bound ≡ None }
    ensures whole { IsTrue result → none.now.omissions.items ≡ [] }
{
    if !none.omissions.is_empty() {
        return false;
    }
    !is_ever || none.bound.is_none()
}

/// Whether an answer says that nothing is to be found, and leaves nothing out; by any number of lines, where that is asked for.
fn is_certain(answer: &SearchAnswer, is_ever: bool) -> bool
    ensures nothing { IsTrue result → answer.now.verdict ≡ Verdict.Nothing }
    ensures ever { IsTrue result → IsTrue is_ever →
        IsSomeAnd answer.now.none (λ some. some.bound ≡ None) }
    ensures whole { IsTrue result →
        IsSomeAnd answer.now.none (λ some. some.omissions.items ≡ []) }
{
    match (answer.verdict, &answer.none) {
        (Verdict::Nothing, Some(none)) => is_enough(none, is_ever),
        _ => false,
    }
}

/// Searches traces over a small alphabet, the shortest first, for what a program must not do, which was scouted by `scouted_in` of
/// `snl_lexicon`. Answers whether it is certain that none of them does it: of those with as many lines as are wished, or of all, and with
/// no overflow left out.
///
/// What is wrong with the wishes is an error; so is that memory ran out.
pub fn sought<W: Watches + Drop>(
    alloc: Global,
    scouted: Scouted,
    wishes: &Wishes,
    watch: W,
    is_ever: bool,
) -> Result<SearchTrial, WishFault>
    ensures shown { IfOk result (λ t. IsTrue t.is_right → IsSomeAnd t.none (λ some.
        IsShown scouted wishes.now.part wishes.now.day (map string_bytes wishes.now.never.items)
        (map string_bytes wishes.now.ends.items) t.text.items some)) }
    ensures reaches { IfOk result (λ t. IsTrue t.is_right → IsSomeAnd t.none (λ some.
        Reaches is_ever wishes.now.bounds.lines some.bound)) }
    ensures whole { IfOk result (λ t. IsTrue t.is_right → IsSomeAnd t.none (λ some.
        some.omissions.items ≡ [])) }
{
    let answer = search(alloc, scouted, wishes, watch)?;
    let is_right = is_certain(&answer, is_ever);
    let SearchAnswer { text, none, .. } = answer;
    Ok(SearchTrial {
        text,
        none,
        is_right,
    })
}
