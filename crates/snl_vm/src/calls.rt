//! The calls of functions that are under way.

ghost use Rattle.std.specs.Prelude.{◌≡◌, ◌≢◌, ◌∷◌, ◌<◌, ◌≤◌, [], length, IfOk};

use std::alloc::{AllocError, Global};

/// Where the calls that are under way go on, in places that were made before. They stand apart from the operands: a run keeps the
/// top of those in a register of the processor, and these in memory.
#[derive(Drop)]
pub struct Calls {
    places: Vec<usize>,
    count: usize,
    ghost inside: { count ≤ length places.items },
}

impl Calls {
    ghost use Rattle.snl_vm.specs.Stack.{places_of, returns_of};

    /// So many places, and no call under way. The only error is that memory ends.
    pub fn new(alloc: Global, places: usize) -> Result<Self, AllocError>
        ensures places { IfOk result (λ calls. places_of calls ≡ places) }
        ensures none { IfOk result (λ calls. returns_of calls ≡ []) }
    {
        Ok(Calls {
            places: vec![in alloc; 0usize; places]?,
            count: 0,
        })
    }

    /// A call is under way, which goes on at an address. There is a place for it.
    pub fn keep(&mut self, back: usize)
        requires { length (returns_of self.old) < places_of self.old }
        ensures returns { returns_of self.new ≡ back ∷ returns_of self.old }
        ensures places { places_of self.new ≡ places_of self.old }
    {
        self.places[self.count] = back;
        self.count += 1;
    }

    /// Where the innermost call goes on, which is over then.
    pub fn back(&mut self) -> usize
        requires { returns_of self.old ≢ [] }
        ensures returns { returns_of self.old ≡ result ∷ returns_of self.new }
        ensures places { places_of self.new ≡ places_of self.old }
    {
        self.count -= 1;
        self.places[self.count]
    }

    /// No call is under way any more.
    pub fn end(&mut self)
        ensures returns { returns_of self.new ≡ [] }
        ensures places { places_of self.new ≡ places_of self.old }
    {
        self.count = 0;
    }
}
