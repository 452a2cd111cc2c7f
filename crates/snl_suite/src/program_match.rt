//! Which program a trace is of, by their names.

ghost use Rattle.std.specs.Prelude.{◌↔◌, ◌++◌, ◌∷◌, [], ℕ, List, IsTrue, map, option_map};
ghost use Rattle.snl_suite.specs.Fitting.{Fits, IsDay, IsProgramOf};

/// Whether what stands behind the name of a program is nothing, or a hyphen and a day.
fn is_day(rest: &[u8]) -> bool
    ensures { IsTrue result ↔ IsDay rest.now }
{
    match rest {
        [] => true,
        [first, ..] => *first == b'-',
    }
}

/// Whether a stem is that of a program, or of one of its days: `light` and `light-monday` of `light`.
fn fits(name: &[u8], stem: &[u8]) -> bool
    ensures { IsTrue result ↔ Fits name.now stem.now }
{
    match stem.strip_prefix(name) {
        Some(rest) => is_day(rest),
        None => false,
    }
}

/// The longer one of the name that was found before, if one was, and another one, where that fits.
fn better<'n>(name: &'n [u8], stem: &[u8], best: Option<&'n [u8]>) -> Option<&'n [u8]>
    ensures { (names : List (List ℕ)) →
        IsProgramOf names stem.now (option_map (λ name. name.now) best.entry) →
        IsProgramOf (names ++ name.entry.now ∷ []) stem.now (option_map (λ name. name.now) result) }
{
    if !fits(name, stem) {
        return best;
    }
    match best {
        None => Some(name),
        Some(before) => {
            if name.len() <= before.len() {
                best
            } else {
                Some(name)
            }
        }
    }
}

/// Of the names of programs the longest that fits a stem: `interlock-watched` for `interlock-watched-down`, where there are that and
/// `interlock`. None where no name fits.
pub fn program_of<'n>(names: &[&'n [u8]], stem: &[u8]) -> Option<&'n [u8]>
    ensures { IsProgramOf (map (λ name. name.now) names.now) stem.now
        (option_map (λ name. name.now) result) }
{
    let mut best: Option<&'n [u8]> = None;
    for name in names {
        best = better(name, stem, best);
    }
    best
}
