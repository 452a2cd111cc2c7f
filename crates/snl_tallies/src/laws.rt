//! Laws of the definitions that the contracts here speak of. Each function is its contract.

ghost use Rattle.snl_tallies.specs.Counts.{FileTellsItsCounts};
ghost use Rattle.snl_tallies.specs.Examples.{DigestExamples, FileExamples};

/// A file tells its counts: no other ones have the same file. So what is read of a file that was written is what was written.
pub fn file_tells_its_counts()
    ensures { FileTellsItsCounts }
{}

/// Files of some counts.
pub fn examples_of_files()
    ensures { FileExamples }
{}

/// The message of some programs, and the digest of one.
pub fn examples_of_heads()
    ensures { DigestExamples }
{}
