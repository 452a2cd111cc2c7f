//! From the chart of a program, and what was seen of it in a run, to its picture.

ghost use Rattle.std.specs.Prelude.{◌≡◌, map, IfOk};
ghost use Rattle.snl_coverage.specs.Pictures.{pictured, pictured_arrows, pictured_set, pictured_state};
ghost use Rattle.snl_outline.specs.Shapes.{outlined_set, outlined_state, targets_in};
ghost use Rattle.snl_coverage.specs.Shapes.{charted};

use crate::charts::Chart;
use crate::coverage::Coverage;
use crate::pictures::{Arrow, Cluster, Picture, StateNode};
use snl_legends::Conditions;
use snl_names::pushed;
use snl_outline::{ClauseOutline, SetOutline, StateOutline};
use snl_output::push_told;
use std::alloc::{AllocError, Global};

/// A place in a program: the numbers of a state set and of a state of it, and the number of the state's first clause among all
/// clauses of the program.
#[derive(Clone, Copy)]
struct StateNumbers {
    set: usize,
    state: usize,
    first: usize,
}

/// What stands beside an arrow: its condition, and what was seen in runs.
#[derive(Clone, Copy)]
struct Beside<'b> {
    conditions: &'b Conditions,
    coverage: Option<&'b Coverage>,
}

/// How often a clause was taken, as its label tells it.
fn push_taken(label: &mut Vec<u8>, taken: u64, left: u64) -> Result<(), AllocError> {
    push_told(label, b"\n", taken, b"x")?;
    if left == 0 {
        return Ok(());
    }
    push_told(label, b", ", left, b"x elsewhere")
}

/// The number of a clause, from 1 on, and its condition.
fn label_of(alloc: Global, clause: usize, condition: &[u8]) -> Result<Vec<u8>, AllocError> {
    let mut label = Vec::new(alloc);
    push_told(&mut label, b"", (clause as u64).saturating_add(1), b": ")?;
    let condition: &[u8] = if condition.is_empty() {
        b"()"
    } else {
        condition
    };
    label.extend_from_slice(condition)?;
    Ok(label)
}

/// The arrow of a clause of a number.
fn arrow_of(
    alloc: Global,
    chart: &ClauseOutline,
    beside: Beside,
    place: StateNumbers,
    clause: usize,
) -> Result<Arrow, AllocError>
    ensures { IfOk result (λ arrow. arrow.target.items ≡ chart.now.target.items) }
{
    let target = Vec::from_slice(alloc, chart.target.as_slice())?;
    let mut label = label_of(alloc, clause, beside.conditions.text(chart.offset))?;
    let mut is_missed = false;
    if let Some(coverage) = beside.coverage {
        let taken = coverage.taken(place.set, place.state, clause);
        let left = coverage.left(place.set, place.state, clause);
        push_taken(&mut label, taken, left)?;
        is_missed = coverage.is_missed(place.first.saturating_add(clause), taken);
    }
    Ok(Arrow {
        target,
        label,
        is_missed,
    })
}

/// The arrows of clauses.
fn arrows_of(
    alloc: Global,
    charts: &[ClauseOutline],
    beside: Beside,
    place: StateNumbers,
) -> Result<Vec<Arrow>, AllocError>
    ensures { IfOk result (λ arrows. pictured_arrows arrows.items ≡ targets_in charts.now) }
{
    let mut arrows = Vec::new(alloc);
    for (clause, chart) in charts.iter().enumerate() {
        let arrow = arrow_of(alloc, chart, beside, place, clause)?;
        pushed(&mut arrows, arrow)?;
    }
    Ok(arrows)
}

/// The node of a state.
fn node_of(
    alloc: Global,
    chart: &StateOutline,
    beside: Beside,
    place: StateNumbers,
) -> Result<StateNode, AllocError>
    ensures { IfOk result (λ node. pictured_state node ≡ outlined_state chart.now) }
{
    let name = Vec::from_slice(alloc, chart.name.as_slice())?;
    let arrows = arrows_of(alloc, chart.clauses.as_slice(), beside, place)?;
    Ok(StateNode { name, arrows })
}

/// The nodes of states. `next` is the number of their first clause among all, and then that behind their last.
fn nodes_of(
    alloc: Global,
    charts: &[StateOutline],
    beside: Beside,
    set: usize,
    next: &mut usize,
) -> Result<Vec<StateNode>, AllocError>
    ensures { IfOk result (λ nodes. map pictured_state nodes.items
        ≡ map outlined_state charts.now) }
{
    let mut nodes = Vec::new(alloc);
    for (state, chart) in charts.iter().enumerate() {
        let place = StateNumbers {
            set,
            state,
            first: *next,
        };
        let node = node_of(alloc, chart, beside, place)?;
        pushed(&mut nodes, node)?;
        *next = next.saturating_add(chart.clauses.len());
    }
    Ok(nodes)
}

/// The cluster of a state set.
fn cluster_of(
    alloc: Global,
    chart: &SetOutline,
    beside: Beside,
    set: usize,
    next: &mut usize,
) -> Result<Cluster, AllocError>
    ensures { IfOk result (λ cluster. pictured_set cluster ≡ outlined_set chart.now) }
{
    let name = Vec::from_slice(alloc, chart.name.as_slice())?;
    let nodes = nodes_of(alloc, chart.states.as_slice(), beside, set, next)?;
    Ok(Cluster { name, nodes })
}

/// The clusters of state sets.
fn clusters_of(
    alloc: Global,
    charts: &[SetOutline],
    beside: Beside,
) -> Result<Vec<Cluster>, AllocError>
    ensures { IfOk result (λ clusters. map pictured_set clusters.items
        ≡ map outlined_set charts.now) }
{
    let mut clusters = Vec::new(alloc);
    let mut next = 0usize;
    for (set, chart) in charts.iter().enumerate() {
        let cluster = cluster_of(alloc, chart, beside, set, &mut next)?;
        pushed(&mut clusters, cluster)?;
    }
    Ok(clusters)
}

/// The picture of a program: an arrow for each clause, with counts where the program was seen in runs. The only error is that
/// memory ends.
pub(crate) fn picture_of(
    alloc: Global,
    chart: &Chart,
    coverage: Option<&Coverage>,
) -> Result<Picture, AllocError>
    ensures { IfOk result (λ picture. pictured picture ≡ charted chart.now) }
{
    let beside = Beside {
        conditions: &chart.conditions,
        coverage,
    };
    let name = Vec::from_slice(alloc, chart.outline.name.as_slice())?;
    let clusters = clusters_of(alloc, chart.outline.sets.as_slice(), beside)?;
    Ok(Picture { name, clusters })
}
