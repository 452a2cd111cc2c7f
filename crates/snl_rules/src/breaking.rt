//! All rules that the sites of a program break.

ghost use Rattle.std.specs.Prelude.{◌≡◌, [], ◌++◌, ◌↔◌, map, OnOk, IfOk};
ghost use Rattle.std.specs.List.{Contains};
ghost use Rattle.snl_rules.specs.Rules.{IsBroken};
ghost use Rattle.snl_rules.specs.Tests as tests;
ghost use Rattle.snl_rules.specs.ElementTables as spec;

use crate::alone::tell_alone;
use crate::facts::{EarlierFacts, ProgramFacts};
use crate::rules::{Broken, Rule};
use crate::together::tell_together;
use snl_resolve::Site;
use std::alloc::{AllocError, Global};

/// The rules that a site breaks.
fn rules_at(
    alloc: Global,
    seen: &EarlierFacts,
    known: &ProgramFacts,
    site: &Site,
) -> Result<Vec<Rule>, AllocError>
    ensures { IfOk result (λ rules. rules.items
        ≡ tests.rules_at (spec.seen_in seen.now) (spec.known_in known.now) site.now) }
{
    let mut rules = Vec::new(alloc);
    tell_alone(site, &mut rules)?;
    tell_together(seen, known, site, &mut rules)?;
    Ok(rules)
}

/// Adds the rules that a site breaks, each beside the site.
fn push_broken<'a>(
    site: &Site<'a>,
    rules: &[Rule],
    found: &mut Vec<Broken<'a>>,
) -> Result<(), AllocError>
    ensures { OnOk result (found.new.items
        ≡ found.old.items ++ map (tests.broken_at site.now) rules.now) }
{
    for rule in rules {
        found.push(Broken {
            rule: *rule,
            site: *site,
        })?;
    }
    Ok(())
}

/// Adds what is broken at a site, and notes the site.
fn note_site<'a>(
    alloc: Global,
    known: &ProgramFacts,
    site: &Site<'a>,
    seen: &mut EarlierFacts,
    found: &mut Vec<Broken<'a>>,
) -> Result<(), AllocError>
    ensures found { OnOk result (found.new.items ≡ found.old.items
        ++ map (tests.broken_at site.now)
        (tests.rules_at (spec.seen_in seen.old) (spec.known_in known.now) site.now)) }
    ensures seen { OnOk result (spec.seen_in seen.new
        ≡ tests.seen_after (spec.seen_in seen.old) site.now) }
{
    let rules = rules_at(alloc, seen, known, site)?;
    push_broken(site, &rules, found)?;
    seen.note(site)?;
    Ok(())
}

/// Adds what is broken at some sites, all of which are known.
fn tell_sites<'a>(
    alloc: Global,
    sites: &[Site<'a>],
    known: &ProgramFacts,
    seen: &mut EarlierFacts,
    found: &mut Vec<Broken<'a>>,
) -> Result<(), AllocError>
    requires known { spec.known_in known.now ≡ tests.all_facts sites.now }
    requires seen { spec.seen_in seen.old ≡ tests.seen_facts [] }
    requires found { found.old.items ≡ [] }
    ensures { OnOk result (found.new.items ≡ tests.all_broken sites.now) }
{
    for site in sites {
        note_site(alloc, known, site, seen, found)?;
    }
    Ok(())
}

/// Fills the tables, and adds what is broken.
fn tell_all<'a>(
    alloc: Global,
    sites: &[Site<'a>],
    known: &mut ProgramFacts,
    seen: &mut EarlierFacts,
    found: &mut Vec<Broken<'a>>,
) -> Result<(), AllocError>
    requires known { spec.IsBlank known.old }
    requires seen { spec.seen_in seen.old ≡ tests.seen_facts [] }
    requires found { found.old.items ≡ [] }
    ensures { OnOk result (found.new.items ≡ tests.all_broken sites.now) }
{
    known.note_all(sites)?;
    tell_sites(alloc, sites, known, seen, found)
}

/// Adds what is broken at some sites, by tables of its own.
fn tell_by_tables<'a>(
    alloc: Global,
    sites: &[Site<'a>],
    found: &mut Vec<Broken<'a>>,
) -> Result<(), AllocError>
    requires { found.old.items ≡ [] }
    ensures { OnOk result (found.new.items ≡ tests.all_broken sites.now) }
{
    let mut known = ProgramFacts::new(alloc);
    let mut seen = EarlierFacts::new(alloc);
    let told = tell_all(alloc, sites, &mut known, &mut seen, found);
    drop(known);
    drop(seen);
    told
}

/// Each rule that a site of a program breaks, with the site (SNL Reference; docs/MESSAGES.md has the
/// rules). The sites are those of a whole program, in their order. Names that are not used are told
/// too, whatever the options. An error only where memory is refused.
pub fn broken_rules<'a>(alloc: Global, sites: &[Site<'a>]) -> Result<Vec<Broken<'a>>, AllocError>
    ensures { IfOk result (λ found. (b : Broken) → Contains found.items b ↔ IsBroken sites.now b) }
{
    let mut found = Vec::new(alloc);
    tell_by_tables(alloc, sites, &mut found)?;
    Ok(found)
}
