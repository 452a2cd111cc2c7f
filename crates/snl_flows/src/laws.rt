//! Laws of variables that decide nothing. Each is a function without code, whose contract is the law.

ghost use Rattle.snl_flows.specs.QuietChecks.{ChecksAreRight};
ghost use Rattle.snl_flows.specs.Chosen.{LinesFlowByChoice};
ghost use Rattle.snl_flows.specs.ChosenExamples.{ChosenExamples};
ghost use Rattle.snl_flows.specs.ChosenLinks.{ChoicesAreOfValues, LinksCanBeChosen, SettledHaveSame};
ghost use Rattle.snl_flows.specs.Examples.{FlowsExamples};
ghost use Rattle.snl_flows.specs.Flows.{EventsFlow, LinesFlow, NothingIsLeftOut, NothingIsStale, PiecesFlow};
ghost use Rattle.snl_flows.specs.Outside.{BuffersAreSame, SameEitherWay};
ghost use Rattle.snl_flows.specs.Settled.{LinesSettle};
ghost use Rattle.snl_flows.specs.Spared.{LinesSpare, PiecesSpare};
ghost use Rattle.snl_flows.specs.Unwritten.{PiecesSettle};

/// Where tables are right of the code of a program, its pieces come out alike from worlds that are the same outside.
pub fn pieces_flow()
    ensures { PiecesFlow }
{}

/// So do its lines.
pub fn lines_flow()
    ensures { LinesFlow }
{}

/// So do they with other values of a channel of which all may differ.
pub fn events_flow()
    ensures { EventsFlow }
{}

/// Where the values of some channels are chosen, lines of a program come out alike, or the second run strays.
pub fn lines_flow_by_choice()
    ensures { LinesFlowByChoice }
{}

/// Links that can be free are so by their words, and any of them may be chosen.
pub fn links_can_be_chosen()
    ensures { LinksCanBeChosen }
{}

/// Links that are settled have the same in two worlds where their buffers do, and no copy is marked for them.
pub fn settled_have_same()
    ensures { SettledHaveSame }
{}

/// Worlds that are the same but for all free words are alike by a choice of links that have the same in both.
pub fn choices_are_of_values()
    ensures { ChoicesAreOfValues }
{}

/// Two worlds that are the same but for what is hidden in their states are so either way.
pub fn same_either_way()
    ensures { SameEitherWay }
{}

/// Where a table shows that code writes no word of a free link, its pieces keep links settled.
pub fn pieces_settle()
    ensures { PiecesSettle }
{}

/// Where code writes no word of a free link, whatever its operands are, its pieces keep links settled.
pub fn pieces_spare()
    ensures { PiecesSpare }
{}

/// Where the pieces of a program keep links settled, so do its lines.
pub fn lines_settle()
    ensures { LinesSettle }
{}

/// Where the code of a program writes no word of a free link, whatever its operands are, its lines keep free links settled.
pub fn lines_spare()
    ensures { LinesSpare }
{}

/// With no line nothing is left out, and with no name texts are the same.
#[tactic(auto, using(crate::proofs::Nothing::nothing_is_left_out))]
pub fn nothing_is_left_out()
    ensures { NothingIsLeftOut }
{}

/// With no stale place buffers are the same.
pub fn buffers_are_same()
    ensures { BuffersAreSame }
{}

/// Nothing that may differ of buffers comes anywhere then.
#[tactic(auto, using(crate::proofs::Nothing::nothing_is_stale))]
pub fn nothing_is_stale()
    ensures { NothingIsStale }
{}

/// Where the check of a table says so, the table is right.
pub fn checks_are_right()
    ensures { ChecksAreRight }
{}

/// A counter, one that decides something, and a variable that is written before it is read.
#[tactic(auto, using(crate::proofs::Examples::examples_of_flows))]
pub fn examples_of_flows()
    ensures { FlowsExamples }
{}

/// A variable of a free channel that one of two states reads.
#[tactic(auto, using(crate::proofs::ChosenExamples::examples_of_choice))]
pub fn examples_of_choice()
    ensures { ChosenExamples }
{}
