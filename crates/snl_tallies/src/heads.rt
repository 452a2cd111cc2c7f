//! The first line of a file of counts.

ghost use Rattle.std.specs.Prelude.{◌≡◌, ◌++◌, IfOk, OnOk, decimal};
ghost use Rattle.sha2.specs.Sha256.{sha256};
ghost use Rattle.snl_tallies.specs.Heads as spec;

use crate::faults::ReadFault;
use hex::encode;
use itoa::Buffer;
use sha2::{Digest, Sha256};
use std::alloc::{AllocError, Global};

/// What the first line of each file of counts begins with.
const WORDS: &[u8] = b"snl counts ";

/// A program as it is run.
#[derive(Clone, Copy)]
pub struct Subject<'s> {
    /// What its run depends on beside its macros: options of the language, and the budget.
    pub words: &'s [u8],
    /// Its macros.
    pub macros: &'s [u8],
    /// Its source.
    pub source: &'s [u8],
}

/// The first line of the files that tell counts of a program.
#[derive(Drop)]
pub struct Head {
    /// What stands in front of the digest.
    front: Vec<u8>,
    /// The whole line, with its newline.
    line: Vec<u8>,
}

/// Adds a size and a byte.
fn push_size(out: &mut Vec<u8>, size: usize, behind: &[u8]) -> Result<(), AllocError>
    ensures { OnOk result (out.new.items ≡ out.old.items ++ (decimal size ++ behind.now)) }
{
    let mut digits = Buffer::new();
    out.extend_from_slice(digits.format(size).as_bytes())?;
    out.extend_from_slice(behind)
}

/// What the digest of a program is that of, but for its source.
fn opening_of(alloc: Global, subject: &Subject) -> Result<Vec<u8>, AllocError>
    ensures { IfOk result (λ out. out.items ++ subject.now.source.now
        ≡ spec.message subject.now.words.now subject.now.macros.now subject.now.source.now) }
{
    let mut out = Vec::new(alloc);
    push_size(&mut out, subject.words.len(), b" ")?;
    push_size(&mut out, subject.macros.len(), b"\n")?;
    out.extend_from_slice(subject.words)?;
    out.extend_from_slice(subject.macros)?;
    Ok(out)
}

/// The digest of a program: SHA-256 (FIPS 180-4).
fn digest_of(alloc: Global, subject: &Subject) -> Result<[u8; 32], AllocError>
    ensures { IfOk result (λ digest. digest ≡ sha256 (spec.message subject.now.words.now
        subject.now.macros.now subject.now.source.now)) }
{
    let opening = opening_of(alloc, subject)?;
    let mut hasher = Sha256::new();
    hasher.update(opening.as_slice());
    hasher.update(subject.source);
    Ok(hasher.finalize())
}

/// What stands in front of the digest, of the programs of a version.
fn front_of(alloc: Global, version: &[u8]) -> Result<Vec<u8>, AllocError>
    ensures { IfOk result (λ front. front.items ≡ spec.front version.now) }
{
    let mut front = Vec::from_slice(alloc, WORDS)?;
    front.extend_from_slice(version)?;
    front.extend_from_slice(b" ")?;
    Ok(front)
}

impl Head {
    /// The first line of the files that a version of the programs writes for a program. The only error is that memory ends.
    pub fn new(alloc: Global, version: &[u8], subject: &Subject) -> Result<Head, AllocError>
        ensures { IfOk result (λ h. h.line.items ≡ spec.head version.now subject.now.words.now
            subject.now.macros.now subject.now.source.now) }
    {
        let front = front_of(alloc, version)?;
        let digest = digest_of(alloc, subject)?;
        let digits = encode(alloc, digest.as_slice())?;
        let mut line = Vec::from_slice(alloc, front.as_slice())?;
        line.extend_from_slice(digits.as_bytes())?;
        line.extend_from_slice(b"\n")?;
        Ok(Head { front, line })
    }

    /// The line, with its newline.
    pub fn line(&self) -> &[u8]
        ensures { result.now ≡ self.now.line.items }
    {
        self.line.as_slice()
    }

    /// The digits of the digest.
    pub fn digits(&self) -> &[u8] {
        let digits = match self.line.as_slice().strip_prefix(self.front.as_slice()) {
            Some(digits) => digits,
            None => b"",
        };
        match digits {
            [digits @ .., _newline] => digits,
            [] => digits,
        }
    }

    /// What is wrong with a text that does not begin with the line.
    pub(crate) fn fault_of(&self, text: &[u8]) -> ReadFault {
        if !is_counts(text) {
            ReadFault::Foreign
        } else if text.starts_with(self.front.as_slice()) {
            ReadFault::Program
        } else {
            ReadFault::Version
        }
    }
}

/// Whether a text begins as the file of counts of any program of any version.
pub fn is_counts(text: &[u8]) -> bool {
    text.starts_with(WORDS)
}
