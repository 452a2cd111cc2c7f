//! Laws of events. Each function is its contract, and does nothing.

ghost use Rattle.snl_schedule.specs.Answers.{AnswersChangeNoMore, AnswersReachTheChannel};
ghost use Rattle.snl_schedule.specs.Examples.{ChoiceExample, EntryExamples, EventExamples, RoundExamples, WakeExamples};
ghost use Rattle.snl_schedule.specs.Laws.{AnswersThePhase, EndedAnswersEnded, EndedStays, FlagsStay, RefreshWithoutMarks};

/// An event in a world that has ended gives that world, the answer that it has ended, and no text.
#[tactic(auto, using(crate::proofs::Ending::ended_stays))]
pub fn ended_stays()
    ensures { EndedStays }
{}

/// After `Ended`, and after a stop, `take` answers `Ended` and writes nothing: whatever meets its clause `does` on a
/// world that has ended gives that answer, leaves the world, and tells the sink nothing.
#[tactic(auto, using(crate::proofs::Ending::ended_answers_ended))]
pub fn ended_answers_ended()
    ensures { EndedAnswersEnded }
{}

/// Whatever meets that clause and answers how far the program has come leaves a world that has come so far. So after
/// `Ended` the world has ended; after a stop the clause `ended` says so.
#[tactic(auto, using(crate::proofs::Ending::answers_the_phase))]
pub fn answers_the_phase()
    ensures { AnswersThePhase }
{}

/// A refresh without a mark changes nothing.
#[tactic(auto, using(crate::proofs::Staying::refresh_without_marks))]
pub fn refresh_without_marks()
    ensures { RefreshWithoutMarks }
{}

/// A refresh, a new state and a connection, come or lost, change no event flag, nor do values at a link that is not
/// synced, or not monitored.
#[tactic(auto, using(crate::proofs::Staying::flags_stay))]
pub fn flags_stay()
    ensures { FlagsStay }
{}

/// An answer to puts changes which links wait, and no more.
#[tactic(auto, using(crate::proofs::Answering::answers_change_no_more))]
pub fn answers_change_no_more()
    ensures { AnswersChangeNoMore }
{}

/// After it no link of the channel waits, and each other one as before.
#[tactic(auto, using(crate::proofs::Answering::answers_reach_the_channel))]
pub fn answers_reach_the_channel()
    ensures { AnswersReachTheChannel }
{}

/// Of some clauses the first one that holds is chosen, and no condition after it is evaluated.
pub fn examples_of_clauses()
    ensures { ChoiceExample }
{}

/// What some states do where they are entered, also from themselves.
pub fn examples_of_entries()
    ensures { EntryExamples }
{}

/// What some rounds and instants do: a way out ends them, and ticks are anew.
pub fn examples_of_rounds()
    ensures { RoundExamples }
{}

/// When some wakes come, and what a line does that comes after one.
pub fn examples_of_wakes()
    ensures { WakeExamples }
{}

/// What some events change of a link that waits for an answer.
pub fn examples_of_events()
    ensures { EventExamples }
{}
