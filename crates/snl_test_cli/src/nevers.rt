//! What no search may find: the test of `NAME.never`.

use crate::trial::push_lines;
use snc::{Answered, Job, Status};
use snl_alphabet::WishFault;
use snl_args::{Call, CallFault, SearchWords, Word, read_call};
use snl_cli::{
    Folder, Halt, Verdict, job_of, program_source, small_text, stuck, wrong, wrong_bytes,
};
use snl_lexicon::{Scouted, Scouting, scouted_in};
use snl_suite::{Never, Program, never_in};
use snl_trials::{SearchTrial, sought};
use snl_wishes::{Clock, wishes_over};
use std::alloc::{AllocError, Global};
use std::time::Instant;

/// How many lines the traces of a search have where any number is asked for: it ends where no line leads to a new world.
const MANY: u32 = 1_000_000_000;

/// What a file asks of a search.
#[derive(Drop)]
struct Aim {
    /// The call of `snl search` that it stands for.
    call: Call,
    /// Whether the traces may have any number of lines.
    is_ever: bool,
}

/// A test is wrong by what its file says.
fn wrong_never(rt: &HostRuntime, name: &str, text: &str) -> Halt {
    wrong(format!(in rt.alloc(); ": {name}.never: {text}\n"))
}

/// A test is wrong by the words in its file.
fn wrong_words(rt: &HostRuntime, name: &str, fault: &CallFault) -> Halt {
    match fault {
        CallFault::Memory => Halt::End(Status::Memory),
        CallFault::Usage(text) | CallFault::Told(text) => {
            let line = text.as_str().lines().next().unwrap_or("");
            wrong_never(rt, name, line.strip_prefix("error: ").unwrap_or(line))
        }
        CallFault::BadOption(_, _) => wrong_never(
            rt,
            name,
            "options of the language stand in NAME.args",
        ),
    }
}

/// The words of a call of `snl search`.
fn words_of(alloc: Global, never: &Never) -> Result<Vec<String>, AllocError> {
    let count = never.lines.unwrap_or(MANY);
    let mut words = Vec::new(alloc);
    words.push(String::from_str(alloc, "search")?)?;
    words.push(String::from_str(alloc, "--lines")?)?;
    words.push(format!(in alloc; "{count}")?)?;
    for word in &never.words {
        words.push(String::from_str(alloc, word.as_str())?)?;
    }
    words.push(String::from_str(alloc, "p.st")?)?;
    Ok(words)
}

/// What a call of `snl search` may say that a test does not take, where it says it.
fn refused(words: &SearchWords, call_has_units: bool) -> Option<&'static str> {
    if words.watch.is_some() {
        Some("--watch is not taken here: a requirement is NAME.watch.st")
    } else if words.wanted.out.is_some() {
        Some("--out is not taken here: a test writes no file")
    } else if words.wanted.cover.is_some() {
        Some("--cover is not taken here: a test writes no file")
    } else if words.alphabet.after.is_some() {
        Some("--after is not taken here: a test starts with first values")
    } else if call_has_units {
        Some("--units is not taken here: values are whole numbers")
    } else {
        None
    }
}

/// The recorded trace that a file names is one of its folder.
fn placed(alloc: Global, folder: &Folder, words: &mut SearchWords) -> Result<(), AllocError> {
    if let Some(like) = &words.wanted.like {
        let (front, name) = (folder.front.as_str(), like.as_str());
        let path = format!(in alloc; "{front}{name}")?;
        words.wanted.like = Some(path);
    }
    Ok(())
}

/// The words of a search that a call has.
fn search_in(call: &mut Call) -> Option<&mut SearchWords> {
    match &mut *call.word {
        Word::Search(words) => Some(words),
        _ => None,
    }
}

/// What a call asks of a search that was read of a file.
fn aim_by(
    rt: &HostRuntime,
    folder: &Folder,
    name: &str,
    mut call: Call,
    is_ever: bool,
) -> Result<Aim, Halt> {
    let has_units = call.units.is_some();
    let Some(words) = search_in(&mut call) else {
        return Err(wrong_never(rt, name, "it asks for no search"));
    };
    if let Some(text) = refused(words, has_units) {
        return Err(wrong_never(rt, name, text));
    }
    placed(rt.alloc(), folder, words)?;
    Ok(Aim { call, is_ever })
}

/// What the file of a program asks of a search.
fn aim_of(rt: &HostRuntime, folder: &Folder, name: &str) -> Result<Aim, Halt> {
    let text = small_text(rt, folder, name, ".never")?;
    let Some(never) = never_in(rt.alloc(), text.as_str())? else {
        return Err(wrong_never(rt, name, "the first line is 'lines K', or 'ever'"));
    };
    let words = words_of(rt.alloc(), &never)?;
    match read_call(rt.alloc(), words.as_slice(), "") {
        Ok(call) => aim_by(rt, folder, name, call, never.lines.is_none()),
        Err(fault) => Err(wrong_words(rt, name, &fault)),
    }
}

/// A test can't be run since a recorded trace can't be read.
fn unread_like(rt: &HostRuntime, name: &str) -> Halt {
    stuck(format!(in rt.alloc(); ": {name}.never: the trace of --like can't be read\n"))
}

/// A test is wrong by what it wishes of its program.
fn wrong_wish(rt: &HostRuntime, name: &str, fault: &WishFault) -> Halt {
    match fault {
        WishFault::Memory => Halt::End(Status::Memory),
        WishFault::Unread => unread_like(rt, name),
        _ => wrong(format!(in rt.alloc(); ": {name}.never: {fault}\n")),
    }
}

/// What comes of a search.
fn verdict_by(alloc: Global, sought: &SearchTrial) -> Result<Verdict, AllocError> {
    if sought.is_right {
        return Ok(Verdict::Right);
    }
    let mut text = Vec::new(alloc);
    text.push(b'\n')?;
    push_lines(&mut text, sought.text.as_slice())?;
    Ok(Verdict::Wrong(text))
}

/// Searches a program that was scouted for what the words of a file say.
fn searched(
    rt: &HostRuntime,
    scouted: Scouted,
    words: &SearchWords,
    name: &str,
    is_ever: bool,
) -> Result<Verdict, Halt> {
    let wishes = match wishes_over(rt, words, &[], None, None) {
        Ok(wishes) => wishes,
        Err(Status::Memory) => return Err(Halt::End(Status::Memory)),
        Err(_) => return Err(unread_like(rt, name)),
    };
    let clock = Clock::new(rt, Instant::now(rt).ok(), words.limits.seconds);
    match sought(rt.alloc(), scouted, &wishes, clock, is_ever) {
        Ok(sought) => Ok(verdict_by(rt.alloc(), &sought)?),
        Err(fault) => Err(wrong_wish(rt, name, &fault)),
    }
}

/// A test can't be run since its program has an error.
pub fn wrong_source(alloc: Global, what: &str, messages: &[u8]) -> Result<Halt, AllocError> {
    let mut text = Vec::new(alloc);
    text.extend_from_slice(b": ")?;
    text.extend_from_slice(what.as_bytes())?;
    text.extend_from_slice(b" has errors\n")?;
    push_lines(&mut text, messages)?;
    Ok(wrong_bytes(text))
}

/// What comes of a search of a source. Where it has errors, its messages tell them.
fn tested_source(
    rt: &HostRuntime,
    source: &[u8],
    job: &Job,
    name: &str,
    aim: &Aim,
) -> Result<Verdict, Halt> {
    let Word::Search(words) = &*aim.call.word else {
        return Err(wrong_never(rt, name, "it asks for no search"));
    };
    let scouting = Scouting {
        budget: words.limits.budget,
        never: words.wanted.never.as_slice(),
    };
    let Answered { messages, made } = scouted_in(rt.alloc(), job, source, &scouting)?;
    match made {
        Some(scouted) => searched(rt, Box::into_inner(scouted), words, name, aim.is_ever),
        None => Err(wrong_source(rt.alloc(), "the program", messages.as_slice())?),
    }
}

/// What comes of a search for what may not be found. The options of the call count.
pub fn tested_never(
    rt: &HostRuntime,
    call: &Call,
    folder: &Folder,
    program: &Program,
) -> Result<Verdict, Halt> {
    let name = program.name.as_str();
    let aim = aim_of(rt, folder, name)?;
    let job = job_of(rt, folder, program, call.job.options)?;
    let source = program_source(rt, job.file.as_str(), name, ".st")?;
    tested_source(rt, source.as_slice(), &job, name, &aim)
}
