//! Messages in order, one for each place and number.

ghost use Rattle.std.specs.Prelude.{◌≡◌, ◌↔◌, [], map, Contains, Any, OnOk, IfOk};
ghost use Rattle.std.specs.List.{dedup};
ghost use Rattle.std.specs.List.Retain.{DiffersFromLast, IsFiltered};
ghost use Rattle.std.specs.List.Sorted.{IsStrictlySortedBy};
ghost use Rattle.std.specs.declared.cmp.Ordering.TheVariants.{Equal};
ghost use Rattle.snl_messages.specs.Messages.{Said, IsInOrder, said};
ghost use Rattle.snl_messages.specs.Entries.{said_in, finding_in, message_in, is_alike};
ghost use Rattle.snl_messages.specs.Given.{IsGiven};

use crate::entries::Entry;
use crate::messages::Message;
use std::alloc::{AllocError, Global};

/// Keeps one of the equal items that stand side by side.
fn drop_repeated<K: Ord + Drop>(items: &mut Vec<K>)
    ensures { IsFiltered (DiffersFromLast K.eq) [] items.old.items items.new.items }
{
    items.dedup();
}

/// Sorts items, and keeps one of those that compare equal.
fn sort_and_dedup<K: Ord + Drop>(items: &mut Vec<K>) -> Result<(), AllocError>
    ensures kept { OnOk result ((x : K) → Contains items.old.items x
        → Any (λ y. K.cmp x y ≡ Equal) items.new.items) }
    ensures from { OnOk result ((x : K) → Contains items.new.items x → Contains items.old.items x) }
    ensures sorted { OnOk result (IsStrictlySortedBy K.cmp items.new.items) }
{
    items.sort()?;
    drop_repeated(items);
    Ok(())
}

/// Keeps the first of those that stand side by side with one place and number.
fn keep_firsts(entries: &mut Vec<Entry>)
    ensures { entries.new.items ≡ dedup is_alike entries.old.items }
{
    entries.dedup_by(|later, first| later.key == first.key);
}

/// Puts what is found in order, and keeps the first for each place and number.
fn put_in_order(entries: &mut Vec<Entry>) -> Result<(), AllocError>
    ensures given { OnOk result ((m : Said) → Contains (map said_in entries.new.items) m
        ↔ IsGiven (Contains (map finding_in entries.old.items)) m) }
    ensures ordered { OnOk result (IsInOrder (map said_in entries.new.items)) }
{
    sort_and_dedup(entries)?;
    keep_firsts(entries);
    Ok(())
}

fn messages_in(alloc: Global, entries: Vec<Entry>) -> Result<Vec<Message>, AllocError>
    ensures { IfOk result (λ v. v.items ≡ map message_in entries.items) }
{
    entries
        .into_iter()
        .map(|entry| entry.into_message())
        .collect(alloc)
}

/// The messages of what is found, in order, one for each place and number. Fails only where memory ends.
pub fn in_order(alloc: Global, mut entries: Vec<Entry>) -> Result<Vec<Message>, AllocError>
    ensures given { IfOk result (λ v. (m : Said) → Contains (map said v.items) m
        ↔ IsGiven (Contains (map finding_in entries.items)) m) }
    ensures ordered { IfOk result (λ v. IsInOrder (map said v.items)) }
{
    put_in_order(&mut entries)?;
    let messages = messages_in(alloc, entries)?;
    Ok(messages)
}
