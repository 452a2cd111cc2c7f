//! Laws of the meaning, and of steps of code. Each is a function without code, whose contract is the law.

ghost use Rattle.snl_meaning.specs.Counts.{StepsAreBounded, StretchesAreBounded};
ghost use Rattle.snl_meaning.specs.Endings.{OnlyTicksLeadBack};
ghost use Rattle.snl_meaning.specs.Examples.{ExpressionExamples, PlaceExamples, StatementExamples};
ghost use Rattle.snl_meaning.specs.LinkExamples.{LinkExamples};
ghost use Rattle.snl_meaning.specs.FunctionExamples.{FunctionExamples};
ghost use Rattle.snl_meaning.specs.Histories.{QueuesKeepOrder};
ghost use Rattle.snl_meaning.specs.Frames.{PiecesKeepTheFrame, StepsKeepTheFrame};
ghost use Rattle.snl_meaning.specs.Puts.{PlainPutsKnowNoMarks, WaitingPutsNothing};
ghost use Rattle.snl_meaning.specs.Keeping.{PiecesGiveNoTicks, PiecesKeepThePhase, PiecesKeepTime};
ghost use Rattle.snl_meaning.specs.Laws.{BlocksForget, CallsForgetParameters, CallsForgetVariables, SharedAreApart, SharedLieWithin};
ghost use Rattle.snl_meaning.specs.Laws.{TextsAreFound, TurnsAreEnough, VariablesAreApart, VariablesLieWithin};

/// Only an instruction that spends a tick leads back.
pub fn only_ticks_lead_back()
    ensures { OnlyTicksLeadBack }
{}

/// A run that is over did no more instructions than its code has, and as many more for each tick that it spent.
#[tactic(auto, using(crate::proofs::Counts::steps_are_bounded))]
pub fn steps_are_bounded()
    ensures { StepsAreBounded }
{}

/// A run that is over within the first instructions did no more of them than lie from its start on, and as many more as the
/// code has for each tick that it spent.
#[tactic(auto, using(crate::proofs::Counts::stretches_are_bounded))]
pub fn stretches_are_bounded()
    ensures { StretchesAreBounded }
{}

/// What some expressions are worth: order, faults and their lines, `delay`, `printf`.
pub fn examples_of_expressions()
    ensures { ExpressionExamples }
{}

/// What some calls that ask and tell of links do: queues, buffers, connections.
pub fn examples_of_links()
    ensures { LinkExamples }
{}

/// What some calls of functions do: variables that begin at 0, arguments in order, faults and their lines, ticks, `return`.
pub fn examples_of_functions()
    ensures { FunctionExamples }
{}

/// What some statements do: loops, ticks, `break`, `continue`, the variables of a block, `state`.
pub fn examples_of_statements()
    ensures { StatementExamples }
{}

/// A loop has turns enough: with any number of them above the ticks that are left it does the same.
pub fn turns_are_enough()
    ensures { TurnsAreEnough }
{}

/// A text among some is found by its number.
pub fn texts_are_found()
    ensures { TextsAreFound }
{}

/// No variable has a word outside the copy of its state set.
#[tactic(auto, using(crate::proofs::Apart::variables_lie_within))]
pub fn variables_lie_within()
    ensures { VariablesLieWithin }
{}

/// No two variables of a copy share a word.
#[tactic(auto, using(crate::proofs::Apart::variables_are_apart))]
pub fn variables_are_apart()
    ensures { VariablesAreApart }
{}

/// A variable of a function stands among the words that all state sets share, and has none outside of them.
#[tactic(auto, using(crate::proofs::Apart::shared_lie_within))]
pub fn shared_lie_within()
    ensures { SharedLieWithin }
{}

/// No two variables of functions share a word.
#[tactic(auto, using(crate::proofs::Apart::shared_are_apart))]
pub fn shared_are_apart()
    ensures { SharedAreApart }
{}

/// Time stands still while a condition or a block is at work, also where it comes to a fault.
#[tactic(auto, using(crate::proofs::Keeping::pieces_keep_time))]
pub fn pieces_keep_time()
    ensures { PiecesKeepTime }
{}

/// No condition and no block changes how far the program has come.
#[tactic(auto, using(crate::proofs::Keeping::pieces_keep_the_phase))]
pub fn pieces_keep_the_phase()
    ensures { PiecesKeepThePhase }
{}

/// No condition and no block gives ticks back.
#[tactic(auto, using(crate::proofs::Keeping::pieces_give_no_ticks))]
pub fn pieces_give_no_ticks()
    ensures { PiecesGiveNoTicks }
{}

/// No condition and no block changes how large the parts of the world are, or what stands for what: the words of copies
/// and buffers, the names of channels, what links are tied to, the sizes of queues.
#[tactic(auto, using(crate::proofs::Frames::pieces_keep_the_frame))]
pub fn pieces_keep_the_frame()
    ensures { PiecesKeepTheFrame }
{}

/// Nor does an instruction.
#[tactic(auto, using(crate::proofs::Frames::steps_keep_the_frame))]
pub fn steps_keep_the_frame()
    ensures { StepsKeepTheFrame }
{}

/// A plain put neither asks which links wait for an answer nor changes that.
#[tactic(auto, using(crate::proofs::Puts::plain_puts_know_no_marks))]
pub fn plain_puts_know_no_marks()
    ensures { PlainPutsKnowNoMarks }
{}

/// While its link waits, a put with `ASYNC` to a channel writes nothing and changes nothing: it answers -1 where the channel is up, and -2
/// where it is down.
#[tactic(auto, using(crate::proofs::Puts::waiting_puts_nothing))]
pub fn waiting_puts_nothing()
    ensures { WaitingPutsNothing }
{}

/// A block forgets what its variables were before it is entered: with another number in an element of one of them, it
/// does the same.
#[tactic(auto, using(crate::proofs::Forgetting::blocks_forget))]
pub fn blocks_forget()
    ensures { BlocksForget }
{}

/// A call for which a tick is left and whose values fit forgets what its parameters were: with another number in one of them,
/// it does the same.
pub fn calls_forget_parameters()
    ensures { CallsForgetParameters }
{}

/// It forgets what the variables of the body's block were, too.
pub fn calls_forget_variables()
    ensures { CallsForgetVariables }
{}

/// What is taken out of a queue are items that came to it, in their order; as many are missing as came while it was full.
#[tactic(auto, using(crate::proofs::Histories::queues_keep_order))]
pub fn queues_keep_order()
    ensures { QueuesKeepOrder }
{}

/// Where the words of variables stand.
pub fn examples_of_places()
    ensures { PlaceExamples }
{}
