//! What is kept of a run that is watched: where the lines go, and how the requirement stands.

ghost use Rattle.std.specs.Prelude.{◌≡◌, IfNone, IfSome, IsSome, Some, [], None, true};
ghost use Rattle.snl_observer.specs.Watching.{stopped};

use crate::closes::Ending;
use crate::current_states::Standing;
use crate::trail::Trail;
use snl_heard::Page;
use snl_output::Sink;
use std::alloc::Global;

/// What is kept of a run that is watched.
#[derive(Drop)]
pub(crate) struct Log<K: Sink> {
    pub(crate) alloc: Global,
    /// Where the lines of both go.
    pub(crate) page: Page<K>,
    /// How the requirement has ended; None where it goes on.
    pub(crate) how: Option<Ending>,
    /// Where the state sets of the requirement stand.
    pub(crate) standing: Standing,
    /// What is told of the last lines.
    pub(crate) trail: Trail,
}

impl<K: Sink> Log<K> {
    /// Nothing was written yet.
    pub(crate) fn new(alloc: Global, page: Page<K>, standing: Standing) -> Self
        ensures page { result.page ≡ page }
        ensures how { result.how ≡ None }
    {
        Log {
            alloc,
            page,
            how: None,
            standing,
            trail: Trail::new(alloc),
        }
    }

    /// Whether the run that is watched is to end: by a mistake of the requirement, or since a state came to be that must not.
    pub(crate) fn stops(&self) -> bool
        ensures { result ≡ true → IsSome self.now.how }
    {
        match self.how {
            None | Some(Ending::Exited) => false,
            Some(_) => true,
        }
    }

    /// Ends the requirement, unless it has ended.
    pub(crate) fn stop(&mut self)
        ensures how { self.new.how ≡ stopped self.old.how }
        ensures run { self.new.page.run.bytes ≡ self.old.page.run.bytes }
        ensures watch { self.new.page.watch.bytes ≡ self.old.page.watch.bytes }
    {
        if self.how.is_none() {
            self.how = Some(Ending::Stopped);
        }
    }
}
