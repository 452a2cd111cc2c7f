//! What notes about a run say of a program: the names of its state sets, states and channels, and its clauses.

use indexmap::IndexSet;
use snl_output::Fired;
use snl_units::ChannelUnits;

/// A variable, or an element of one, whose value a condition sees.
#[derive(Drop)]
pub struct SeenValue {
    /// What stands in front of the value in a note: ` limit=`, ` pos[0]=`.
    pub front: Vec<u8>,
    /// The number of its word in the copy of its state set, from 0 on.
    pub word: usize,
    /// The number of the link that gives it values, among those of the program.
    pub link: Option<usize>,
}

/// A clause of a state.
#[derive(Drop)]
pub struct ClauseLegend {
    /// What its note begins with: `# clause 2 of moving, line 61:`, without the colon where its condition names nothing.
    pub front: Vec<u8>,
    /// What its condition names, in its order.
    pub seen: Vec<SeenValue>,
}

/// A state of a state set.
#[derive(Drop)]
pub struct StateLegend {
    /// As spelled in the source.
    pub name: Vec<u8>,
    /// In the order of the source.
    pub clauses: Vec<ClauseLegend>,
}

/// A state set.
#[derive(Drop)]
pub struct SetLegend {
    /// As spelled in the source.
    pub name: Vec<u8>,
    /// The first is the initial one.
    pub states: Vec<StateLegend>,
}

/// What notes about a run name.
#[derive(Drop)]
pub struct Legend<'u> {
    /// In the order of the source.
    pub sets: Vec<SetLegend>,
    /// The names of the channels, by their numbers.
    pub channels: IndexSet<Vec<u8>>,
    /// What the numbers of links stand for, by their numbers, where that is known.
    pub units: Vec<Option<&'u ChannelUnits>>,
}

impl Legend<'_> {
    /// What the number of a value stands for, where that is known.
    pub(crate) fn units_of(&self, seen: &SeenValue) -> Option<&ChannelUnits> {
        *self.units.get(seen.link?)?
    }

    /// A state of a state set, by their numbers.
    pub fn state(&self, set: usize, state: usize) -> Option<&StateLegend> {
        self.sets.get(set)?.states.get(state)
    }

    /// A clause that fired.
    pub(crate) fn clause(&self, fired: Fired) -> Option<&ClauseLegend> {
        self.state(fired.set, fired.state)?
            .clauses
            .get(fired.clause)
    }
}
