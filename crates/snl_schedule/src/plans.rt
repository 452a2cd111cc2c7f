//! What a machine keeps of the state sets of a program, beside their code.

ghost use Rattle.std.specs.Prelude.{◌≡◌, map, IfOk, IfSome};
ghost use Rattle.snl_output.specs.Lines.{go_rest};
ghost use Rattle.snl_output.specs.Texts.{print_rest, text_in};
ghost use Rattle.snl_vm.specs.Rows.{numbers_of};
ghost use Rattle.snl_schedule.specs.Goes.{kept_of, kept_views, name_at, target_name};
ghost use Rattle.snl_schedule.specs.Linked.{HasRows};
ghost use Rattle.std.proofs.Props.{props};

use crate::goes::Goes;
use snl_meaning::Tied;
use snl_output::{Text, print_text};
use snl_vm::{CodeContext, FusedCode, PieceContext, Rows, Test};
use std::alloc::{AllocError, Global};

/// Where a clause leads (SNL Reference, "State Transitions").
#[derive(Clone, Copy)]
pub enum Destination {
    /// To the state of this number.
    State(usize),
    /// Out of the program, which ends then.
    Exit,
}

/// A clause.
#[derive(Clone, Copy)]
pub struct ClausePlan {
    /// Where the code of its condition begins; None where it has none.
    pub condition: Option<usize>,
    /// What that code tests.
    pub test: Test,
    /// Where the code of its block begins.
    pub block: usize,
    /// Whether the block is empty.
    pub is_empty: bool,
    /// Where it leads.
    pub target: Destination,
    /// The line of the word `when`, from 1.
    pub line: usize,
    /// Its place among the clauses of its state. It says only where to look for the line of its transition, and what a sink
    /// hears when it fires.
    pub number: usize,
}

/// What a state does also where a transition leads from it to itself (SNL Reference, "State Option").
#[derive(Clone, Copy)]
pub struct Again {
    /// It sets the time of its entry: `+t`.
    pub time: bool,
    /// It does its entry block: `-e`.
    pub entry: bool,
    /// It does its exit block: `-x`.
    pub exit: bool,
}

/// The entry block and the exit block of a state or of a program.
#[derive(Clone, Copy)]
pub struct Blocks {
    /// Where the code of the entry block begins; None where there is none.
    pub entry: Option<usize>,
    /// Where the code of the exit block begins; None where there is none.
    pub exit: Option<usize>,
}

/// A state.
#[derive(Drop)]
pub struct StatePlan {
    /// As spelled in the source.
    pub name: Vec<u8>,
    /// Its own blocks.
    pub blocks: Blocks,
    /// In the order of the source.
    pub clauses: Vec<ClausePlan>,
    /// By its options.
    pub again: Again,
}

/// A state set.
#[derive(Drop)]
pub struct SetPlan {
    /// As spelled in the source.
    pub name: Vec<u8>,
    /// In the order of the source; the first is the initial one.
    pub states: Vec<StatePlan>,
    /// The lines of its transitions.
    goes: Goes,
    /// What the lines of its `printf` have between the time and the text.
    print: Text,
    ghost named: { text_in print ≡ print_rest name.items } by { Prim.hlevel props },
    ghost kept: { kept_views goes ≡ kept_of name.items states.items } by { Prim.hlevel props },
}

impl SetPlan {
    /// The plan of a state set of this name and these states. The only error is that memory ends.
    pub fn new(alloc: Global, name: Vec<u8>, states: Vec<StatePlan>) -> Result<SetPlan, AllocError>
        ensures { IfOk result (λ plan. (plan.name ≡ name) × (plan.states ≡ states)) }
    {
        let goes = Goes::new(alloc, name.as_slice(), states.as_slice())?;
        let print = print_text(alloc, name.as_slice())?;
        Ok(SetPlan {
            name,
            states,
            goes,
            print,
        })
    }

    /// What the lines of its `printf` have between the time and the text.
    pub fn print(&self) -> &Text
        ensures { text_in result.now ≡ print_rest self.now.name.items }
    {
        &self.print
    }

    /// What follows the time in the line of a transition from a state, by the clause of a number: None where that clause does
    /// not lead there, or a name in the line is long.
    pub fn go(&self, from: usize, clause: usize, target: Destination) -> Option<&Text>
        ensures { IfSome result (λ text. text_in text.now ≡ go_rest self.now.name.items
            (name_at self.now.states.items from) (target_name self.now.states.items target)) }
    {
        self.goes.text(from, clause, target)
    }
}

/// What a turn of a state set runs on.
#[derive(Clone, Copy)]
pub struct SetContext<'t> {
    /// The state set.
    pub plan: &'t SetPlan,
    /// The code of the program.
    pub code: &'t FusedCode<'t>,
    /// The number and the name of the state set, and what all code of the program runs with.
    pub context: PieceContext<'t>,
    ghost named: { context.name.now ≡ plan.now.name.items } by { Prim.hlevel props },
}

/// A program.
pub struct Plan {
    /// As spelled in the source.
    pub name: Vec<u8>,
    /// In the order of the `assign` definitions.
    pub links: Vec<Tied>,
    /// Whether it waits for its channels before it starts: not so under `-c` (Compiling SNL Programs, "Options").
    pub waits: bool,
    /// Its own blocks, which run on the copy of the first state set.
    pub blocks: Blocks,
    /// In the order of the source.
    pub sets: Vec<SetPlan>,
    /// By channel: the numbers of its links.
    rows: Rows,
    ghost known: { HasRows rows links.items } by { Prim.hlevel props },
}

// Written out: a derived drop is proved anew wherever such a value ends.
impl Drop for Plan {
    fn drop(self) {
        let Plan {
            name: _,
            links: _,
            waits: _,
            blocks: _,
            sets: _,
            rows: _,
        } = self;
    }
}

/// The channels of links.
fn channels_of(alloc: Global, links: &[Tied]) -> Result<Vec<Option<usize>>, AllocError>
    ensures { IfOk result (λ channels. channels.items ≡ map (λ l. l.channel) links.now) }
{
    let mut channels = Vec::new(alloc);
    for link in links {
        channels.push(link.channel)?;
    }
    Ok(channels)
}

impl Plan {
    /// The plan of a program of this name. The only error is that memory ends.
    pub fn new(
        alloc: Global,
        name: Vec<u8>,
        links: Vec<Tied>,
        waits: bool,
        blocks: Blocks,
        sets: Vec<SetPlan>,
    ) -> Result<Plan, AllocError>
        ensures { IfOk result (λ plan. (plan.name ≡ name) × (plan.links ≡ links)
            × (plan.waits ≡ waits) × (plan.blocks ≡ blocks) × (plan.sets ≡ sets)) }
    {
        let channels = channels_of(alloc, links.as_slice())?;
        let rows = Rows::new(alloc, channels.as_slice())?;
        Ok(Plan {
            name,
            links,
            waits,
            blocks,
            sets,
            rows,
        })
    }

    /// The numbers of the links of a channel, in their order. It takes no walk over the others.
    pub fn links_of(&self, channel: usize) -> &[usize]
        ensures { result.now ≡ numbers_of channel 0 (map (λ l. l.channel) self.now.links.items) }
    {
        self.rows.row(channel)
    }
}

/// What an instant of a program runs on.
#[derive(Drop)]
pub struct ProgramContext<'t> {
    /// The code of the program.
    pub code: FusedCode<'t>,
    /// Of the program.
    pub plan: &'t Plan,
    /// What all its code runs with.
    pub context: CodeContext<'t>,
    /// How many ticks an instant may take.
    pub budget: u32,
}
