//! What is told of a wish that cannot be met.

use snc::Status;
use snc_cli::told_unread;
use snl_alphabet::{Verdict, WishFault};
use snl_args::SearchWords;

/// Says that a line of a recorded trace is bad.
fn told_bad_line(rt: &HostRuntime, name: &str, fault: &WishFault) -> u8 {
    let _ = eprintln!(rt; "{name}:{fault}");
    Status::TraceFault.code()
}

/// Says what is wrong with a wish of a call. Answers the status.
pub fn told_fault(rt: &HostRuntime, words: &SearchWords, fault: &WishFault) -> u8 {
    match (fault, &words.wanted.like, &words.alphabet.after) {
        (WishFault::Memory, _, _) => Status::Memory.code(),
        (WishFault::Unread, Some(name), _) => told_unread(rt, "snl", name.as_str()).code(),
        (WishFault::BadLine(_, _), Some(name), _) => told_bad_line(rt, name.as_str(), fault),
        (WishFault::BadDay(_, _), _, Some(after)) => {
            told_bad_line(rt, after.trace.as_str(), fault)
        }
        (WishFault::Late | WishFault::Large | WishFault::Long, _, _) => {
            let _ = eprintln!(rt; "snl: {fault}");
            Verdict::Stopped.code()
        }
        _ => {
            let _ = eprintln!(rt; "snl: {fault}");
            Status::Usage.code()
        }
    }
}
