//! What code runs with: its state set, the texts that its lines say, the functions that it calls, and the room for its operands.

ghost use Rattle.std.specs.Prelude.{◌≡◌, [], IfNone, IfSome};
ghost use Rattle.snl_output.specs.Texts.{print_rest, text_in};
ghost use Rattle.std.proofs.Props.{props};

use snl_meaning::FunctionEntry;
use snl_output::{Format, Text};

/// What all code of a program runs with. It is made once for an event, and the pieces that run then refer to it.
#[derive(Clone, Copy)]
pub struct CodeContext<'t> {
    /// The formats of the program, by the numbers that instructions give them.
    pub formats: &'t [Format],
    /// The functions of the program, by the numbers that instructions give them.
    pub functions: &'t [FunctionEntry],
    /// How many operands there is room for. It stands in what is promised of a run, and no code reads it.
    pub room: usize,
}

/// What a piece of code runs with.
#[derive(Clone, Copy)]
pub struct PieceContext<'t> {
    /// The number of the state set on whose copy it runs.
    pub set: usize,
    /// The name of that state set.
    pub name: &'t [u8],
    /// What the lines of its `printf` have between the time and the text, where that was put together before.
    pub print: Option<&'t Text>,
    /// What all code of its program runs with.
    pub program: &'t CodeContext<'t>,
    ghost named: { IfSome print (λ text. text_in text.now ≡ print_rest name.now) } by { Prim.hlevel props },
}

impl<'t> PieceContext<'t> {
    ghost use Rattle.snl_meaning.specs.Names.{format_text};
    ghost use Rattle.snl_output.specs.Spelled.{spelled_in};
    ghost use Rattle.snl_vm.specs.Running.{formats_of};

    /// The format of a number, if there is one.
    pub fn format(self, number: usize) -> Option<&'t Format>
        ensures some { IfSome result (λ format. spelled_in format.now
            ≡ format_text (formats_of self.entry.program.now) number) }
        ensures none { IfNone result
            (format_text (formats_of self.entry.program.now) number ≡ []) }
    {
        self.program.formats.get(number)
    }
}
