//! `graph`: a picture of a program, with what its runs showed.

ghost use Rattle.std.specs.Prelude.{IfOk};
ghost use Rattle.snl_coverage.specs.Graphs.{Draws};
ghost use Rattle.snl_coverage.specs.Shapes.{charted};

use crate::chart_picture::picture_of;
use crate::coverage::Coverage;
use crate::graphviz::drawn;
use crate::pictures::Picture;
use std::alloc::{AllocError, Global};

/// A picture of a program.
#[derive(Drop)]
pub struct Drawing {
    /// What it shows.
    pub picture: Picture,
    /// Its text, for `dot` of Graphviz.
    pub text: Vec<u8>,
}

/// Draws a program: a node for each state, and an arrow for each clause, in order, from its state to where it leads. Where it is
/// asked for, each arrow tells how often runs took it. Fails only where memory ran out.
pub fn graph(alloc: Global, coverage: &Coverage, tells: bool) -> Result<Drawing, AllocError>
    ensures { IfOk result (Draws (charted coverage.now.chart)) }
{
    let seen = if tells { Some(coverage) } else { None };
    let picture = picture_of(alloc, &coverage.chart, seen)?;
    let text = drawn(alloc, &picture)?;
    Ok(Drawing { picture, text })
}
