//! Laws of machines. Each function is its contract, and does nothing.

ghost use Rattle.snl_machine.specs.Laws.{RunsItsProgram, TurnsStayApart};
ghost use Rattle.snl_machine.specs.Accepted.{AcceptedDeclaresItsFlags, AcceptedHold, AcceptedIsHeld, AcceptedIsSized, AcceptedIsTied, AcceptedTrees, ParsedAreRead};
ghost use Rattle.snl_machine.specs.Bounds.{InstantsAreBounded};
ghost use Rattle.snl_machine.specs.Footprint.{MachinesHoldTheFootprint};
ghost use Rattle.snl_machine.specs.Frames.{FrameStays};
ghost use Rattle.snl_machine.specs.Layout.{BuffersAreCells, FeedsFillBuffers, FunctionVariablesAreCells, RefreshesFillVariables, StoresWrite, VariablesAreCells, WorldsAreLaidOut};
ghost use Rattle.snl_machine.specs.Ranges.{EventsFit, FirstHolds, PiecesFit, ReachedHold};
ghost use Rattle.snl_machine.specs.Reached.{FirstAreReached, InstantsAreTheSame, ReachedAreClosed, ReachedStay, UnreachedDoNothing};
ghost use Rattle.snl_machine.specs.Rounds.{RoundsEnd, TicksWithinBudget};
ghost use Rattle.snl_machine.specs.Snapshots.{PicturesAreApart, PicturesAreOfThePrograms, PicturesTellMarks, TicksAndDueAreAnew};
ghost use Rattle.snl_machine.specs.Wakes.{TimeIsTheEvents, TimeIsTheEventsAlone, TimeNeverFalls, WakesEnd, WakesLieLater, WakesStayLater};
ghost use Rattle.snl_machine.specs.Worlds.{WorldsAreTheProgram, WorldsStay};

/// A machine of a program runs what the program means on its tree, but for the states that are not reached, which do nothing:
/// at each line it does what the program means.
pub fn runs_its_program()
    ensures { RunsItsProgram }
{}

/// Each machine of a program holds the words that the program needs, before its first event and after any other.
pub fn machines_hold_the_footprint()
    ensures { MachinesHoldTheFootprint }
{}

/// A turn of a state set changes nothing of the copy of another one, also where it comes to a fault.
pub fn turns_stay_apart()
    ensures { TurnsStayApart }
{}

/// The rounds of an instant end because one has no transition, leads out of the program, or faults: never because the
/// number of rounds is used up that an instant allows.
pub fn rounds_end()
    ensures { RoundsEnd }
{}

/// An instant takes no more ticks than its budget: none is ever given back, and where none is left, each transition,
/// each turn of a loop and each call of a function is a fault.
pub fn ticks_within_budget()
    ensures { TicksWithinBudget }
{}

/// An instant takes no more steps than its budget and its source allow: with a budget B and n state sets at most
/// `(B + 1)(n + 4) + n` times the size of the program, a number read off the source in which a state that cannot be reached
/// counts 0.
pub fn instants_are_bounded()
    ensures { InstantsAreBounded }
{}

/// All wakes before a time are run: they end because none comes before that time, the program ends or faults, and never
/// because the number of wakes is used up that a line allows.
pub fn wakes_end()
    ensures { WakesEnd }
{}

/// After a line the wake of a program that runs lies after now, if it did so before.
pub fn wakes_stay_later()
    ensures { WakesStayLater }
{}

/// In every world that a run comes to, the wake of a program that runs lies after now.
pub fn wakes_lie_later()
    ensures { WakesLieLater }
{}

/// After a line the time is that of its event, unless the program has ended: it may have done so at a wake before.
pub fn time_is_the_events()
    ensures { TimeIsTheEvents }
{}

/// Where no wake comes before the event the time is that of the event, also where the event ends the program.
pub fn time_is_the_events_alone()
    ensures { TimeIsTheEventsAlone }
{}

/// Time never falls, and never passes that of the event, as long as no event comes before the time of the last one.
pub fn time_never_falls()
    ensures { TimeNeverFalls }
{}

/// Before the first event each element of each variable, and each word of each buffer, is a number that its type has.
pub fn first_holds()
    ensures { FirstHolds }
{}

/// No condition and no block stores a number that the type of its variable does not have, also where it comes to a fault.
#[tactic(auto, using(crate::proofs::Lines::pieces_fit))]
pub fn pieces_fit()
    ensures { PiecesFit }
{}

/// What copies and buffers hold within their types before an event that fits they hold so after it.
pub fn events_fit()
    ensures { EventsFit }
{}

/// In every world that a run comes to, each element of each variable, and each word of each buffer, is a number that its
/// type has: no store ever holds what its type cannot.
pub fn reached_hold()
    ensures { ReachedHold }
{}

/// No line of a trace changes how large a world is, or what stands for what in it: the words of copies and buffers, the
/// names of channels, what links are tied to, the sizes of queues stay, also where the run comes to a fault.
pub fn frame_stays()
    ensures { FrameStays }
{}

/// After a line the world is still one of the program: it has the frame of the program, each state set is in one of its
/// states as long as the run goes on, and the wake lies after now.
pub fn worlds_stay()
    ensures { WorldsStay }
{}

/// Every world that a run comes to is one of its program.
pub fn worlds_are_the_program()
    ensures { WorldsAreTheProgram }
{}

/// A store to an element, the clearing of a variable, and numbers that come to a copy write their words, and nothing else
/// of the world.
pub fn stores_write()
    ensures { StoresWrite }
{}

/// Each variable of a copy has words of its own. What was stored in an element is read there, and every other element of
/// every variable is as before.
pub fn variables_are_cells()
    ensures { VariablesAreCells }
{}

/// Each variable of a function has words of its own, which all state sets share. What was stored in an element is read there, and
/// every other element of them and every copy is as before.
pub fn function_variables_are_cells()
    ensures { FunctionVariablesAreCells }
{}

/// Each link has words of its own among those of all buffers. Numbers that came to the buffer of one are read there, and
/// the buffers of all others are as before.
pub fn buffers_are_cells()
    ensures { BuffersAreCells }
{}

/// Values of a channel come to the buffers of its links, and change nothing of another link.
pub fn feeds_fill_buffers()
    ensures { FeedsFillBuffers }
{}

/// A refresh writes the elements of marked links, and no other element of the copy.
pub fn refreshes_fill_variables()
    ensures { RefreshesFillVariables }
{}

/// Each world of a program has a copy for each state set, with the words of its variables, and buffers with a word for each
/// element of each link.
pub fn worlds_are_laid_out()
    ensures { WorldsAreLaidOut }
{}

/// The table of all states that are reached is closed: it has the first state of each state set, and with each state those
/// that it names as targets.
pub fn reached_are_closed()
    ensures { ReachedAreClosed }
{}

/// Before the first event the state of each state set is in each closed table.
pub fn first_are_reached()
    ensures { FirstAreReached }
{}

/// A line leads to no state that is not in a closed table, also where the run comes to a fault.
pub fn reached_stay()
    ensures { ReachedStay }
{}

/// A line does the same without the pieces of all states that are not in a closed table: the same lines, ending and world.
pub fn unreached_do_nothing()
    ensures { UnreachedDoNothing }
{}

/// Nor does it have its instants at other times without them.
pub fn instants_are_the_same()
    ensures { InstantsAreTheSame }
{}

/// Whatever the tokens of a source spell is well formed, and each of its tokens begins after the one before it.
pub fn parsed_are_read()
    ensures { ParsedAreRead }
{}

/// A program is accepted exactly where no error is said of its tree.
pub fn accepted_trees()
    ensures { AcceptedTrees }
{}

/// Of each accepted program variables, also of functions, have elements, their types have 0, and copies and functions have few
/// words.
pub fn accepted_is_sized()
    ensures { AcceptedIsSized }
{}

/// Of each accepted program links tie elements that their variables have, and buffers have few words.
pub fn accepted_is_tied()
    ensures { AcceptedIsTied }
{}

/// Of each accepted program the variable of each link stands in a copy.
pub fn accepted_is_held()
    ensures { AcceptedIsHeld }
{}

/// In every world that a run of an accepted program comes to, each element of each variable, each word of each buffer and each
/// item of each queue is a number that its type has.
pub fn accepted_hold()
    ensures { AcceptedHold }
{}

/// Of each accepted program calls are of known functions with the arguments that they take, and names that are used as event
/// flags are declared.
pub fn accepted_declares_its_flags()
    ensures { AcceptedDeclaresItsFlags }
{}

/// Equal snapshots of worlds in which the same stands for the same are of equal worlds.
pub fn pictures_are_apart()
    ensures { PicturesAreApart }
{}

/// Worlds that differ in one mark have other snapshots.
pub fn pictures_tell_marks()
    ensures { PicturesTellMarks }
{}

/// A machine of a program can be in the world that its snapshot pictures.
pub fn pictures_are_of_the_programs()
    ensures { PicturesAreOfThePrograms }
{}

/// A line reads neither the ticks nor the due time of the world that it begins in, and as long as a program waits for its channels
/// no due time is noted.
pub fn ticks_and_due_are_anew()
    ensures { TicksAndDueAreAnew }
{}
