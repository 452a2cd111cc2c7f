//! Pictures in the language of Graphviz.

ghost use Rattle.std.specs.Prelude.{◌≡◌, ◌==◌, ◌++◌, map, codes, OnOk, IfOk};
ghost use Rattle.std.specs.List.{flat_map};
ghost use Rattle.snl_coverage.specs.Pictures as spec;

use crate::pictures::{Arrow, Cluster, Picture, StateNode};
use snl_output::push_all;
use std::alloc::{AllocError, Global};

/// Adds a byte of a text between quotes.
fn push_escaped(out: &mut Vec<u8>, byte: u8) -> Result<(), AllocError>
    ensures { OnOk result (out.new.items ≡ out.old.items ++ spec.escaped_byte byte) }
{
    if byte == b'"' {
        out.extend_from_slice(b"\\\"")
    } else if byte == b'\\' {
        out.extend_from_slice(b"\\\\")
    } else if byte == b'\n' {
        out.extend_from_slice(b"\\n")
    } else {
        out.push(byte)?;
        Ok(())
    }
}

/// Adds a text between quotes.
fn push_label(out: &mut Vec<u8>, text: &[u8]) -> Result<(), AllocError>
    ensures { OnOk result (out.new.items ≡ out.old.items ++ flat_map spec.escaped_byte text.now) }
{
    for byte in text {
        push_escaped(out, *byte)?;
    }
    Ok(())
}

/// Adds the point that stands for the way out of the program, where an arrow leads there.
fn push_way_out(out: &mut Vec<u8>, set: &[u8], target: &[u8]) -> Result<(), AllocError>
    ensures { OnOk result (out.new.items ≡ out.old.items ++ spec.way_out set.now target.now) }
{
    if target == b"exit".as_slice() {
        push_all(out, &[b"    \"", set, b".exit\" [shape=point];\n"])
    } else {
        Ok(())
    }
}

/// Adds between what an arrow leads.
fn push_ends(out: &mut Vec<u8>, set: &[u8], from: &[u8], target: &[u8]) -> Result<(), AllocError>
    ensures { OnOk result (out.new.items
        ≡ out.old.items ++ spec.arrow_ends set.now from.now target.now) }
{
    push_all(
        out,
        &[
            b"    \"",
            set,
            b".",
            from,
            b"\" -> \"",
            set,
            b".",
            target,
            b"\" [label=\"",
        ],
    )
}

/// How the line of an arrow ends.
fn arrow_end(is_missed: bool) -> &'static [u8]
    ensures { result.now ≡ spec.arrow_end is_missed }
{
    if is_missed {
        b"\",color=red,fontcolor=red,style=dashed];\n"
    } else {
        b"\"];\n"
    }
}

/// Adds an arrow from a state of a state set.
fn push_arrow(out: &mut Vec<u8>, set: &[u8], from: &[u8], arrow: &Arrow) -> Result<(), AllocError>
    ensures { OnOk result (out.new.items
        ≡ out.old.items ++ spec.arrow_lines set.now from.now arrow.now) }
{
    let target = arrow.target.as_slice();
    push_way_out(out, set, target)?;
    push_ends(out, set, from, target)?;
    push_label(out, arrow.label.as_slice())?;
    out.extend_from_slice(arrow_end(arrow.is_missed))
}

/// Adds the arrows from a state of a state set.
fn push_arrows(
    out: &mut Vec<u8>,
    set: &[u8],
    from: &[u8],
    arrows: &[Arrow],
) -> Result<(), AllocError>
    ensures { OnOk result (out.new.items
        ≡ out.old.items ++ flat_map (spec.arrow_lines set.now from.now) arrows.now) }
{
    for arrow in arrows {
        push_arrow(out, set, from, arrow)?;
    }
    Ok(())
}

/// How the line of a state ends.
fn node_end(is_first: bool) -> &'static [u8]
    ensures { result.now ≡ spec.node_end is_first }
{
    if is_first {
        b"\",penwidth=2];\n"
    } else {
        b"\"];\n"
    }
}

/// Adds a state of a state set.
fn push_node<'t>(
    out: &mut Vec<u8>,
    set: &'t [u8],
    name: &'t [u8],
    is_first: bool,
) -> Result<(), AllocError>
    ensures { OnOk result (out.new.items
        ≡ out.old.items ++ spec.node_line set.now name.now is_first) }
{
    push_all(out, &[b"    \"", set, b".", name, b"\" [label=\"", name])?;
    out.extend_from_slice(node_end(is_first))
}

/// Adds the states of a state set.
fn push_nodes(out: &mut Vec<u8>, set: &[u8], nodes: &[StateNode]) -> Result<(), AllocError>
    ensures { OnOk result (out.new.items ≡ out.old.items ++ spec.node_lines set.now 0 nodes.now) }
{
    for (index, node) in nodes.iter().enumerate() {
        push_node(out, set, node.name.as_slice(), index == 0)?;
    }
    Ok(())
}

/// Adds the arrows from the states of a state set.
fn push_all_arrows(out: &mut Vec<u8>, set: &[u8], nodes: &[StateNode]) -> Result<(), AllocError>
    ensures { OnOk result (out.new.items
        ≡ out.old.items ++ flat_map (spec.arrows_from set.now) nodes.now) }
{
    for node in nodes {
        push_arrows(out, set, node.name.as_slice(), node.arrows.as_slice())?;
    }
    Ok(())
}

/// Begins a state set.
fn push_cluster_head(out: &mut Vec<u8>, set: &[u8]) -> Result<(), AllocError>
    ensures { OnOk result (out.new.items ≡ out.old.items ++ spec.cluster_head set.now) }
{
    push_all(
        out,
        &[
            b"  subgraph \"cluster_",
            set,
            b"\" { label=\"",
            set,
            b"\";\n",
        ],
    )
}

/// Adds a state set.
fn push_cluster(out: &mut Vec<u8>, cluster: &Cluster) -> Result<(), AllocError>
    ensures { OnOk result (out.new.items ≡ out.old.items ++ spec.cluster_lines cluster.now) }
{
    let set = cluster.name.as_slice();
    let nodes = cluster.nodes.as_slice();
    push_cluster_head(out, set)?;
    push_nodes(out, set, nodes)?;
    push_all_arrows(out, set, nodes)?;
    out.extend_from_slice(b"  }\n")?;
    Ok(())
}

/// Adds the state sets of a program.
fn push_clusters(out: &mut Vec<u8>, clusters: &[Cluster]) -> Result<(), AllocError>
    ensures { OnOk result (out.new.items
        ≡ out.old.items ++ flat_map spec.cluster_lines clusters.now) }
{
    for cluster in clusters {
        push_cluster(out, cluster)?;
    }
    Ok(())
}

/// Adds the head of a picture.
fn push_head(out: &mut Vec<u8>, name: &[u8]) -> Result<(), AllocError>
    ensures { OnOk result (out.new.items ≡ out.old.items ++ spec.head name.now) }
{
    push_all(
        out,
        &[
            b"digraph \"",
            name,
            b"\" {\n  rankdir=TB; node [shape=box,style=rounded,fontname=Helvetica];",
            b" edge [fontname=Helvetica,fontsize=10];\n",
        ],
    )
}

/// The text of a picture, for `dot` of Graphviz. The only error is that memory ends.
pub(crate) fn drawn(alloc: Global, picture: &Picture) -> Result<Vec<u8>, AllocError>
    ensures { IfOk result (λ text. text.items ≡ spec.drawn picture.now) }
{
    let mut out = Vec::new(alloc);
    push_head(&mut out, picture.name.as_slice())?;
    push_clusters(&mut out, picture.clusters.as_slice())?;
    out.extend_from_slice(b"}\n")?;
    Ok(out)
}
