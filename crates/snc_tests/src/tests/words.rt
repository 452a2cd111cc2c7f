//! Calls of `read_words`: what words come to.

use snc::{Tool, WordsFault, read_words};
use std::alloc::Global;
use std::process::Abort;
use std::test::Fail;

/// Words with a blank between each two, and the kind of what is wrong with them.
const FAULTS: [(Tool, &str, &str); 3] = [
    (Tool::Snlrun, "--budget 0 a.st", "usage"),
    (Tool::Snlrun, "--help", "help"),
    (Tool::Snc, "a.st +sé -o", "option"),
];

fn words_of(alloc: Global, line: &str) -> Result<Vec<String>, Fail> {
    let mut words = Vec::new(alloc);
    for word in line.split(' ') {
        words.push(String::from_str(alloc, word)?)?;
    }
    Ok(words)
}

/// The kind of what is wrong with words.
fn fault_of(alloc: Global, tool: Tool, line: &str) -> Result<&'static str, Fail> {
    let words = words_of(alloc, line)?;
    Ok(match read_words(alloc, tool, words.as_slice()) {
        Ok(_) => "none",
        Err(WordsFault::Usage(_)) => "usage",
        Err(WordsFault::Help(_)) => "help",
        Err(WordsFault::BadOption('+', 'é')) => "option",
        Err(_) => "another",
    })
}

/// A job with all that words can ask for.
fn is_asked_for(rt: &impl Abort, alloc: Global) -> Result<(), Fail> {
    let words = words_of(alloc, "--budget=+5 a.st A=1 +sc -c")?;
    let job = read_words(alloc, Tool::Snlrun, words.as_slice())
        .ok()
        .ok_or("no call")?;
    assert_eq!(rt; job.file.as_str(), "a.st");
    assert_eq!(rt; job.macros.as_deref(), Some("A=1"));
    assert!(rt; job.budget == 5 && !job.tables);
    let (s, c, u) = (job.options.s, job.options.c, job.options.u);
    assert!(rt; s == Some(true) && c == Some(false) && u.is_none());
    Ok(())
}

#[test]
fn words_of_calls(rt: HostRuntime) -> Result<(), Fail> {
    for (tool, line, wanted) in FAULTS {
        assert_eq!(rt; fault_of(rt.alloc(), tool, line)?, wanted);
    }
    is_asked_for(&rt, rt.alloc())
}
