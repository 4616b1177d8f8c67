//! Turns the edges of a graph round. Nothing is proved about the turned edges, because they decide
//! only how long a search takes.

ghost use Rattle.std.specs.Prelude.{◌<◌};

use crate::place_set::PlaceSet;
use std::alloc::{AllocError, Global};

// For each of these vertices, the vertices that have an edge to it. Edges are turned in squares of
// 64 rows and 64 places. Bit by bit, a graph with all edges would take seconds.
pub(crate) fn turned(
    alloc: Global,
    graph: &[PlaceSet],
    vertices: &PlaceSet,
) -> Result<Vec<PlaceSet>, AllocError> {
    let mut turned = Vec::with_capacity(alloc, graph.len())?;
    for _row in graph {
        turned.push(PlaceSet::new(alloc))?;
    }
    for band in 0..graph.len() / 512 + 1 {
        turn_band(graph, vertices, band, turned.as_mut_slice())?;
    }
    Ok(turned)
}

// Turns a band of 512 rows. They fill eight words of each turned row, which a processor fetches
// together.
fn turn_band(
    graph: &[PlaceSet],
    vertices: &PlaceSet,
    band: usize,
    turned: &mut [PlaceSet],
) -> Result<(), AllocError> {
    for to in 0..turned.len() / 64 + 1 {
        if vertices.has_word(to) {
            turn_squares(graph, vertices, band, to, turned)?;
        }
    }
    Ok(())
}

// Turns the edges of a band that lead to the vertices of one word.
fn turn_squares(
    graph: &[PlaceSet],
    vertices: &PlaceSet,
    band: usize,
    to: usize,
    turned: &mut [PlaceSet],
) -> Result<(), AllocError> {
    let first = band.saturating_mul(8);
    for from in first..first.saturating_add(8) {
        if vertices.has_word(from) {
            let mut square = square_of(graph, vertices, from, to);
            turn_square(&mut square);
            put_square(&square, from, to, turned)?;
        }
    }
    Ok(())
}

// The edges of 64 rows to those of these vertices that are in one word.
fn square_of(graph: &[PlaceSet], vertices: &PlaceSet, from: usize, to: usize) -> [u64; 64] {
    let first = from.saturating_mul(64);
    let mut square = [0; 64];
    for at in 0..64 {
        if let Some(row) = graph.get(first.saturating_add(at)) {
            square[at] = row.word(to) & vertices.word(to);
        }
    }
    square
}

// Adds one word to each of 64 turned rows.
fn put_square(
    square: &[u64; 64],
    from: usize,
    to: usize,
    turned: &mut [PlaceSet],
) -> Result<(), AllocError> {
    let first = to.saturating_mul(64);
    for at in 0..64 {
        if square[at] != 0 {
            if let Some(row) = turned.get_mut(first.saturating_add(at)) {
                row.put(from.saturating_mul(64), square[at])?;
            }
        }
    }
    Ok(())
}

// Exchanges rows and columns: first the upper right and the lower left quarter of the square, then
// those of each quarter, and so on down to single bits.
fn turn_square(square: &mut [u64; 64]) {
    if square.iter().all(|word| *word == 0) {
        return;
    }
    exchange(square, 32, 0x0000_0000_FFFF_FFFF);
    exchange(square, 16, 0x0000_FFFF_0000_FFFF);
    exchange(square, 8, 0x00FF_00FF_00FF_00FF);
    exchange(square, 4, 0x0F0F_0F0F_0F0F_0F0F);
    exchange(square, 2, 0x3333_3333_3333_3333);
    exchange(square, 1, 0x5555_5555_5555_5555);
}

// Exchanges blocks of this width; `mask` has the bits of the left block of each pair.
fn exchange(square: &mut [u64; 64], width: usize, mask: u64)
    requires { width < 64 }
{
    for upper in 0..64 - width {
        if upper & width == 0 {
            let lower = upper + width;
            let moved = ((square[upper] >> width) ^ square[lower]) & mask;
            square[upper] ^= moved << width;
            square[lower] ^= moved;
        }
    }
}
