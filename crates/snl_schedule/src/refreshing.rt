//! The refresh: values that came to links are copied into the variables of a state set.

ghost use Rattle.std.specs.Prelude.{◌≡◌, [], false, slice_index_or};
ghost use Rattle.snl_meaning.specs.Links.{home_of};
ghost use Rattle.snl_vm.specs.Views.{world_of};
ghost use Rattle.snl_vm.specs.Marks.{IsFirst};
ghost use Rattle.snl_schedule.specs.Refresh as spec;

use snl_meaning::Tied;
use snl_vm::{Store, fetch};

/// Copies the buffer of a link into a copy, from a word on, if the copy has the link's variable.
fn copy_link(home: Option<usize>, tie: Tied, set: usize, store: &mut Store)
    ensures { world_of store.new ≡ spec.copied_to set home tie (world_of store.old) }
{
    if let Some(home) = home {
        fetch(set, home, tie, store);
    }
}

/// The first marked link of a state set from a number on.
fn next_marked(store: &Store, set: usize, from: usize) -> Option<usize>
    ensures { IsFirst (slice_index_or (world_of store.now).marks set []) from result }
{
    match store.marks.get(set) {
        Some(marks) => marks.first_from(from),
        None => None,
    }
}

/// Takes the mark of a link away for a state set.
fn unmark(store: &mut Store, set: usize, link: usize)
    ensures { world_of store.new ≡ spec.with_mark set link false (world_of store.old) }
{
    if let Some(marks) = store.marks.get_mut(set) {
        marks.unmark(link);
    }
}

/// The refresh of a link that is marked.
#[inline(always)]
fn take_in(link: usize, tie: Tied, set: usize, store: &mut Store)
    ensures { world_of store.new ≡ spec.with_mark set link false
        (spec.copied_to set (home_of set link (world_of store.old)) tie (world_of store.old)) }
{
    let home = store.home(set, link);
    copy_link(home, tie, set, store);
    unmark(store, set, link);
}

/// The refresh of a state set: the buffer of each link that is marked for it is copied, and the mark is taken away. It
/// looks at marked links alone.
#[inline(always)]
pub fn refresh(set: usize, store: &mut Store)
    ensures { world_of store.new ≡ spec.refreshed set (world_of store.old) }
{
    let mut from = 0;
    while let Some(link) = next_marked(store, set, from) {
        match store.tie(link) {
            Some(tie) => take_in(link, tie, set, store),
            None => return,
        }
        from = link + 1;
    }
}
