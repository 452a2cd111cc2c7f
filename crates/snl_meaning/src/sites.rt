//! The sites of a program, with tables of what the code of a piece asks of them.

ghost use Rattle.std.specs.Prelude.{◌≡◌, ◌++◌, map, IfOk, OnOk};
ghost use Rattle.std.specs.List.{flat_map};
ghost use Rattle.snl_names.specs.Uses.{declared_in};
ghost use Rattle.snl_names.specs.UseTables.{IsUseTable};
ghost use Rattle.snl_meaning.specs.Names as spec;

use crate::offsets::Offsets;
use crate::strings::Strings;
use snl_names::{Site, UseTable};
use snl_text::{Pos, Token};
use std::alloc::{AllocError, Global};
use std::marker::Model;

/// The sites of a program. It finds what a name means, and the number of an event flag or of a string,
/// as fast in a long program as in a short one.
#[derive(Drop)]
pub struct Sites<'s, 'a> {
    all: &'s [Site<'a>],
    /// What their names mean.
    uses: &'s UseTable,
    flags: Offsets,
    /// The strings that are formats.
    texts: Strings<'a>,
}

impl<'s, 'a> Model for Sites<'s, 'a> {
    ghost use Rattle.std.specs.Prelude.{List};
    ghost use Rattle.snl_names.specs.declared.sites.Site.{Site};

    ghost Value = { List Site };

    ghost view = { λ s. s.all.now };

    ghost use Rattle.std.specs.Prelude.{◌≡◌};
    ghost use Rattle.std.specs.List.{flat_map};
    ghost use Rattle.snl_names.specs.UseTables.{IsUseTable};
    ghost use Rattle.snl_meaning.specs.Names.{flags_of, format_at};

    ghost invariant = { λ s. IsUseTable s.uses.now s.all.now × (s.flags ≡ flags_of s.all.now)
        × (s.texts ≡ flat_map format_at s.all.now) };
}

/// Adds where a site declares an event flag, if it does.
fn push_flag(site: &Site, flags: &mut Vec<usize>) -> Result<(), AllocError>
    ensures { OnOk result (flags.new.items ≡ flags.old.items ++ spec.flag_at site.now) }
{
    if let Site::Declaration {
        name,
        is_flag: true,
        ..
    } = site
    {
        flags.push(name.pos.offset as usize)?;
    }
    Ok(())
}

/// Where the event flags of a program are declared.
fn flag_offsets(alloc: Global, sites: &[Site]) -> Result<Vec<usize>, AllocError>
    ensures { IfOk result (λ flags. flags.items ≡ spec.flags_of sites.now) }
{
    let mut flags = Vec::new(alloc);
    for site in sites {
        push_flag(site, &mut flags)?;
    }
    Ok(flags)
}

/// The event flags of a program, each by the offset of its declaration, in bytes, in the order of the
/// source. The only error is that memory ends.
pub fn flags_of(alloc: Global, sites: &[Site]) -> Result<Offsets, AllocError>
    ensures { IfOk result (λ flags. flags ≡ spec.flags_of sites.now) }
{
    let flags = flag_offsets(alloc, sites)?;
    Offsets::of(alloc, flags)
}

/// Adds the string of a site that is a format, as spelled.
fn push_format<'a>(site: &Site<'a>, texts: &mut Vec<&'a [u8]>) -> Result<(), AllocError>
    ensures { OnOk result (map (λ t. t.now) texts.new.items ≡ map (λ t. t.now) texts.old.items
        ++ spec.format_at site.now) }
{
    if let Site::Format { text, .. } = site {
        texts.push(text.text)?;
    }
    Ok(())
}

/// The strings that are formats, as spelled.
fn format_texts<'a>(alloc: Global, sites: &[Site<'a>]) -> Result<Vec<&'a [u8]>, AllocError>
    ensures { IfOk result (λ texts. map (λ t. t.now) texts.items
        ≡ flat_map spec.format_at sites.now) }
{
    let mut texts = Vec::new(alloc);
    for site in sites {
        push_format(site, &mut texts)?;
    }
    Ok(texts)
}

/// The same, each found by its number.
fn texts_of<'a>(alloc: Global, sites: &[Site<'a>]) -> Result<Strings<'a>, AllocError>
    ensures { IfOk result (λ texts. texts ≡ flat_map spec.format_at sites.now) }
{
    let texts = format_texts(alloc, sites)?;
    Strings::of(alloc, texts)
}

impl<'s, 'a> Sites<'s, 'a> {
    /// These sites, whose names mean what the table says. The only error is that memory ends.
    pub fn of(
        alloc: Global,
        all: &'s [Site<'a>],
        uses: &'s UseTable,
    ) -> Result<Sites<'s, 'a>, AllocError>
        requires uses { IsUseTable uses.now all.now }
        ensures { IfOk result (λ sites. sites ≡ all.now) }
    {
        let flags = flags_of(alloc, all)?;
        let texts = texts_of(alloc, all)?;
        Ok(Sites {
            all,
            uses,
            flags,
            texts,
        })
    }

    /// All of them, in the order of the source.
    pub fn as_slice(&self) -> &'s [Site<'a>]
        ensures { result.now ≡ self.now }
    {
        self.all
    }

    /// Where the event flags are declared, in bytes, in the order of the source.
    pub fn flags(&self) -> &Offsets
        ensures { result.now ≡ spec.flags_of self.now }
    {
        &self.flags
    }

    /// Where the name at an offset is declared, in bytes, if it is.
    pub fn declared(&self, offset: usize) -> Option<Pos>
        ensures { result ≡ declared_in offset self.now }
    {
        self.uses.declared(offset)
    }

    /// The number of the event flag that a name means; that after the last where there is none.
    pub fn flag(&self, name: Token<'a>) -> usize
        ensures { result ≡ spec.number_by (spec.flags_of self.now)
            (declared_in name.entry.pos.offset self.now) }
    {
        match self.declared(name.pos.offset as usize) {
            Some(declared) => self.flags.number(declared.offset as usize),
            None => self.flags.len(),
        }
    }

    /// The number of a string among those that are formats; that after the last where it is none.
    pub fn format(&self, text: &[u8]) -> usize
        ensures { result ≡ spec.text_number (flat_map spec.format_at self.now) text.now }
    {
        self.texts.number(text)
    }
}
