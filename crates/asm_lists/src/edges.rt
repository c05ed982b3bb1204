//! Edges in the order of an image.

ghost use Rattle.std.specs.Prelude.{◌≡◌, ◌≤◌, IfOk, IsTrue, length};
ghost use Rattle.asm_lists.specs.Edges.{AreEdgeRows, AreEdgesOf, edge_of};
ghost use Rattle.image_format.specs.Conditions.{is_edge};

use image_format::Edge;
use std::alloc::{AllocError, Global};

/// The edges of an image, from pairs of a source and a target in any order: each once, by source and then by target.
///
/// Only running out of memory is an error.
#[tactic(auto, using(crate::proofs::EdgeLemmas::one_more))]
pub fn sorted_edges(alloc: Global, mut pairs: Vec<(u32, u32)>) -> Result<Vec<Edge>, AllocError>
    ensures rows { IfOk result (λ edges. AreEdgeRows edges.items) }
    ensures members { IfOk result (λ edges. AreEdgesOf pairs.items edges.items) }
    ensures count { IfOk result (λ edges. length edges.items ≤ length pairs.items) }
{
    pairs.sort_unstable();
    pairs.dedup();
    let mut edges = Vec::with_capacity(alloc, pairs.len())?;
    for &(source, target) in &pairs {
        edges.push(edge_between(source, target))?;
    }
    Ok(edges)
}

/// The edge between two ids, which four bytes can hold.
fn edge_between(source: u32, target: u32) -> Edge
    ensures edge { result ≡ edge_of (source, target) }
    ensures fits { IsTrue (is_edge result) }
{
    Edge { source, target }
}
