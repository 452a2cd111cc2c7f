//! `snl search --join`: the answers of the jobs that share a search, joined.

use snc::Status;
use snc_cli::write;
use snl_alphabet::Verdict;
use snl_args::JoinWords;
use snl_cli::whole_of;
use snl_joins::{Answer, Certain, End, answer_of, certain_of, first_missing, is_of_same};
use std::alloc::AllocError;

/// The texts of answers. Where one cannot be read, or is no text, the user is told.
fn texts_in(rt: &HostRuntime, names: &[String]) -> Result<Vec<Vec<u8>>, Status> {
    let mut texts = Vec::new(rt.alloc());
    for name in names {
        let text = whole_of(rt, name.as_str())?;
        texts.push(text)?;
    }
    Ok(texts)
}

/// Tells that a file is not the answer of a part.
fn told_foreign(rt: &HostRuntime, name: &str) -> Status {
    let _ = eprintln!(rt; "snl: {name}: no whole answer of 'snl search --part'");
    Status::InputOutput
}

/// The answers in texts, each with the name of its file. Where a text is none, the user is told.
fn answers_in<'t>(
    rt: &HostRuntime,
    names: &[String],
    texts: &'t [Vec<u8>],
) -> Result<Vec<Answer<'t>>, Status> {
    let mut answers = Vec::new(rt.alloc());
    for (place, text) in texts.iter().enumerate() {
        let name = match names.get(place) {
            Some(name) => name.as_str(),
            None => "",
        };
        let Ok(text) = str::from_utf8(text.as_slice()) else {
            return Err(told_foreign(rt, name));
        };
        let Some(answer) = answer_of(text) else {
            return Err(told_foreign(rt, name));
        };
        answers.push(answer)?;
    }
    Ok(answers)
}

/// Sees that all answers are of one search. Where one is not, the user is told.
fn check_same(rt: &HostRuntime, names: &[String], answers: &[Answer]) -> Result<(), Status> {
    let Some(first) = answers.first() else {
        return Ok(());
    };
    for (answer, name) in answers.iter().zip(names.iter()) {
        if !is_of_same(&first.ground, &answer.ground) {
            let _ = eprintln!(rt;
                "snl: {name}: another search than that of the first answer: its program, words, values or version differ"
            );
            return Err(Status::InputOutput);
        }
    }
    Ok(())
}

/// Whether the search of an answer ended so.
fn has_ended(answers: &[Answer], end: End) -> bool {
    answers.iter().any(|answer| answer.end == end)
}

/// How long the traces are of which all answers are certain, as the answer of a search says it.
fn certain_text(rt: &HostRuntime, certain: Certain) -> Result<String, AllocError> {
    match certain {
        Certain::Nothing => String::from_str(rt.alloc(), "nothing is certain"),
        Certain::UpTo(1) => String::from_str(rt.alloc(), "none up to 1 line"),
        Certain::UpTo(lines) => format!(in rt.alloc(); "none up to {lines} lines"),
        Certain::Ever => String::from_str(rt.alloc(), "never"),
    }
}

/// What is missing or was found, in front of what is certain.
fn front_of(
    rt: &HostRuntime,
    answers: &[Answer],
    missing: Option<u64>,
) -> Result<String, AllocError> {
    match missing {
        Some(number) => format!(in rt.alloc(); "not all was seen: no answer is of part {number}, "),
        None if has_ended(answers, End::Stopped) => {
            String::from_str(rt.alloc(), "not all was seen: ")
        }
        None => Ok(String::new(rt.alloc())),
    }
}

/// The last line.
fn last_line(
    rt: &HostRuntime,
    answers: &[Answer],
    missing: Option<u64>,
) -> Result<String, AllocError> {
    let jobs = answers.len();
    let s = if jobs == 1 { "" } else { "s" };
    if has_ended(answers, End::Found) {
        return format!(in rt.alloc(); "found, by the answers of {jobs} job{s}\n");
    }
    let front = front_of(rt, answers, missing)?;
    let certain = certain_text(rt, certain_of(answers))?;
    format!(in rt.alloc(); "{front}{certain}, by the answers of {jobs} job{s}\n")
}

/// The answer: of which search, what is certain, and that it is no proof.
fn text_of(
    rt: &HostRuntime,
    answers: &[Answer],
    missing: Option<u64>,
) -> Result<String, AllocError> {
    let Some(first) = answers.first() else {
        return Ok(String::new(rt.alloc()));
    };
    let ground = first.ground;
    let last = last_line(rt, answers, missing)?;
    format!(in rt.alloc();
        "{}parts: {} of {}\nstarts: {}{}\n{}\nnote: the answers are taken as they stand: this is their sum, and no proof\n{last}",
        ground.wanted, ground.of, ground.subject, ground.starts, ground.firsts, ground.channels
    )
}

/// The status of the answer.
fn code_of(answers: &[Answer], missing: Option<u64>) -> u8 {
    if has_ended(answers, End::Found) {
        Verdict::Found.code()
    } else if missing.is_some() || has_ended(answers, End::Stopped) {
        Verdict::Stopped.code()
    } else {
        Verdict::Nothing.code()
    }
}

/// `snl search --join`. Answers the status.
pub fn answered_join(rt: &HostRuntime, words: &JoinWords) -> Result<u8, Status> {
    let names = words.answers.as_slice();
    let texts = texts_in(rt, names)?;
    let answers = answers_in(rt, names, texts.as_slice())?;
    let answers = answers.as_slice();
    check_same(rt, names, answers)?;
    let missing = match answers.first() {
        Some(first) => first_missing(answers, first.ground.of),
        None => None,
    };
    let text = text_of(rt, answers, missing)?;
    write(rt, text.as_bytes())?;
    Ok(code_of(answers, missing))
}
