//! Macros in the names of channels (SNL Reference, "Assign"; Compiling SNL Programs, "Program Name and Parameters").

ghost use Rattle.std.specs.Prelude.{◌≡◌, ℕ, ◌<◌, [], List, ◌++◌, length, map, option_map, bytes_eq, is_some, None, Some, IfOk, OnOk, IfSome};
ghost use Rattle.std.specs.List.{list_all};
ghost use Rattle.std.specs.Option.{option_or};
ghost use Rattle.snl_text.specs.Bytes.{is_name_byte};
ghost use Rattle.snl_channels.specs.Macros as spec;
ghost use Rattle.snl_channels.specs.MacroTables.{found, found_in, value_in};
ghost use Rattle.snl_channels.specs.MacroViews.{macro_view, macros_view, left_of};

use crate::texts::{cut_at, trimmed};
use indexmap::IndexMap;
use std::alloc::{AllocError, Global};

/// The macros of a program and of a run: the value of the last definition of each name.
#[derive(Drop)]
pub struct MacroTable<'a> {
    values: IndexMap<&'a [u8], &'a [u8]>,
}

/// One definition of a macro.
#[derive(Clone, Copy)]
struct Macro<'a> {
    name: &'a [u8],
    value: &'a [u8],
}

/// A letter, a digit or the underscore.
fn is_name_byte(byte: u8) -> bool
    ensures { result ≡ is_name_byte byte }
{
    matches!(byte, b'a'..=b'z' | b'A'..=b'Z' | b'_' | b'0'..=b'9')
}

fn is_all_name(name: &[u8]) -> bool
    ensures { result ≡ list_all is_name_byte name.now }
{
    name.iter().all(|byte| is_name_byte(*byte))
}

/// Letters, digits and underscores, one or more.
fn is_macro_name(name: &[u8]) -> bool
    ensures { result ≡ spec.is_macro_name name.now }
{
    !name.is_empty() && is_all_name(name)
}

/// What a piece of a text defines, if it defines a macro.
fn defined_by(piece: &[u8]) -> Option<Macro<'_>>
    ensures { macros_view result ≡ spec.defined_by piece.now }
{
    let halves = cut_at(piece, b'=');
    let value = trimmed(halves.after?);
    let name = trimmed(halves.before);
    is_macro_name(name).then_some(Macro { name, value })
}

impl<'a> MacroTable<'a> {
    /// Notes what a piece of a text defines.
    fn note(&mut self, piece: &'a [u8]) -> Result<(), AllocError>
        ensures { OnOk result ((q : List ℕ) → found_in self.new q
            ≡ option_or (spec.last_value q (spec.defined_by piece.now)) (found_in self.old q)) }
    {
        if let Some(defined) = defined_by(piece) {
            self.values.insert(defined.name, defined.value)?;
        }
        Ok(())
    }

    /// Notes what a text defines.
    fn note_all(&mut self, text: &'a [u8]) -> Result<(), AllocError>
        ensures { OnOk result ((q : List ℕ) → found_in self.new q
            ≡ option_or (spec.last_value q (spec.definitions text.now)) (found_in self.old q)) }
    {
        let mut left = Some(text);
        while let Some(text) = left {
            let part = cut_at(text, b',');
            self.note(part.before)?;
            left = part.after;
        }
        Ok(())
    }

    /// The macros that the text of a program and then that of a run define: names and values with `=` between them, in
    /// pieces with commas between them. Blanks round them do not count, and a piece that is no such definition counts for
    /// nothing. The only error is that memory ends.
    pub fn of(
        alloc: Global,
        of_program: &'a [u8],
        of_run: &'a [u8],
    ) -> Result<MacroTable<'a>, AllocError>
        ensures defined { IfOk result (λ table. (q : List ℕ) → found_in table q
            ≡ spec.last_value q (spec.macros_of of_program.now of_run.now)) }
        ensures values { IfOk result (λ table. (q : List ℕ) → value_in table q
            ≡ spec.macro_value (spec.macros_of of_program.now of_run.now) q) }
    {
        let mut table = MacroTable {
            values: IndexMap::new(alloc),
        };
        table.note_all(of_program)?;
        table.note_all(of_run)?;
        Ok(table)
    }

    /// Whether some definition gives a name a value.
    pub fn is_defined(&self, name: &[u8]) -> bool
        ensures { result ≡ is_some (found_in self.now name.now) }
    {
        self.values.get(&name).is_some()
    }

    /// The value that stands for a name; nothing where it is not defined.
    fn value(&self, name: &[u8]) -> &'a [u8]
        ensures { result.now ≡ value_in self.now name.now }
    {
        self.values.get(&name).copied().unwrap_or(b"")
    }

    /// Appends what stands for a text that begins after a `{`, up to its first `}`, and gives what stands after that. All of
    /// the text and the `{` stay where it has no `}`.
    fn push_opened<'n>(
        &self,
        opened: &'n [u8],
        text: &mut Vec<u8>,
    ) -> Result<Option<&'n [u8]>, AllocError>
        ensures replaced { IfOk result (λ left. text.new.items
            ++ left_of (spec.replaced (value_in self.now) None) left
            ≡ text.old.items ++ spec.replaced (value_in self.now) (Some []) opened.now) }
        ensures shorter { IfOk result (λ left.
            IfSome left (λ t. length t.now < length opened.now)) }
    {
        let inner = cut_at(opened, b'}');
        match inner.after {
            Some(left) => {
                text.extend_from_slice(self.value(inner.before))?;
                Ok(Some(left))
            }
            None => {
                text.push(b'{')?;
                text.extend_from_slice(opened)?;
                Ok(None)
            }
        }
    }

    /// Appends a name up to the first `}` after its first `{`, with a value in its place, and gives what stands after that.
    fn push_first<'n>(
        &self,
        name: &'n [u8],
        text: &mut Vec<u8>,
    ) -> Result<Option<&'n [u8]>, AllocError>
        ensures replaced { IfOk result (λ left. text.new.items
            ++ left_of (spec.replaced (value_in self.now) None) left
            ≡ text.old.items ++ spec.replaced (value_in self.now) None name.now) }
        ensures shorter { IfOk result (λ left. IfSome left (λ t. length t.now < length name.now)) }
    {
        let outer = cut_at(name, b'{');
        text.extend_from_slice(outer.before)?;
        match outer.after {
            Some(opened) => self.push_opened(opened, text),
            None => Ok(None),
        }
    }

    /// Appends a name after macros.
    fn push_replaced(&self, name: &[u8], text: &mut Vec<u8>) -> Result<(), AllocError>
        ensures { OnOk result (text.new.items ≡ text.old.items
            ++ spec.replaced (value_in self.now) None name.now) }
    {
        let mut left = Some(name);
        while let Some(name) = left {
            left = self.push_first(name, text)?;
        }
        Ok(())
    }

    /// A channel's name after macros: from each `{` to the next `}` the value of the macro whose name stands between them,
    /// which is not searched again. The only error is that memory ends.
    pub fn replaced(&self, alloc: Global, name: &[u8]) -> Result<Vec<u8>, AllocError>
        ensures { IfOk result (λ text. text.items
            ≡ spec.replaced (value_in self.now) None name.now) }
    {
        let mut text = Vec::new(alloc);
        self.push_replaced(name, &mut text)?;
        Ok(text)
    }
}
