//! What a machine lends of itself to who looks at its program: its code, its plan and its store.

ghost use Rattle.std.specs.Prelude.{◌≡◌};

use crate::machine::Machine;
use snl_flat::Code;
use snl_schedule::Plan;
use snl_vm::Store;

impl Machine {
    /// The code that it runs.
    pub fn code(&self) -> &Code
        ensures { result.now ≡ self.now.code }
    {
        self.code.code()
    }

    /// What its state sets and its links are.
    pub fn plan(&self) -> &Plan
        ensures { result.now ≡ self.now.plan }
    {
        &self.plan
    }

    /// All that a run changes of it, and the names, ties and places of its links.
    pub fn store(&self) -> &Store
        ensures { result.now ≡ self.now.memory.store }
    {
        &self.memory.store
    }
}
