//! Blocks of a line's grants, each with the least of its seats. The next row is found by the blocks
//! alone, and then only the seats in blocks that have the row are visited.

ghost use Rattle.std.specs.Prelude.{◌≡◌, ◌<◌, ◌≤◌, ◌⊎◌, ◌↔◌, ℕ, IsTrue, MatchOption};
ghost use Rattle.std.specs.Prelude.{length, set};
ghost use Rattle.rbac_matrix.specs.Shown.{line_of};
ghost use Rattle.rbac_matrix.specs.Blocks.{AreBlocks, IsBlock, IsLeastBlock, block_at, joined};
ghost use Rattle.rbac_matrix.specs.Cursors.{AreRuns, IsCursorAt, IsWithin};
ghost use Rattle.rbac_matrix.specs.Seats.{empty_seat, past_all, seat_at};

use crate::bound_runs::Runs;
use crate::line::Line;
use crate::seat::Seat;
use crate::walk::{Walk, next_below, whole_walk};
use arrayvec::ArrayVec;
use rbac_index::Index;

// The most blocks of a line.
const MOST_BLOCKS: usize = 64;

/// Some of a line's grants, those with numbers from `walk.next` up to `end`, and the least of their
/// seats.
#[derive(Clone, Copy, Default)]
pub(crate) struct Block {
    // A walk that begins at the first of these grants, and the number after the last of them.
    pub(crate) walk: Walk,
    pub(crate) end: u32,
    // The least place that one of their seats is at, and the first grant whose seat is there. If no
    // seat is at an entry, the place is the greatest number.
    place: u32,
    number: u32,
}

impl Block {
    // The block with one more grant `no`, whose seat is at `place`. The block then ends at `end`.
    fn with(self, no: u32, end: u32, place: u32) -> Self
        ensures { result ≡ joined self no end place }
    {
        let comes_first = place < self.place;
        Block {
            walk: self.walk,
            end,
            place: if comes_first { place } else { self.place },
            number: if comes_first { no } else { self.number },
        }
    }

    // Whether the block's least seat is at the place, and belongs to a grant below `end`.
    pub(crate) fn stands_below(self, place: u32, end: u32) -> bool
        ensures { IsTrue result ↔ ((self.place ≡ place) × (self.number < end)) }
    {
        self.place == place && self.number < end
    }

    // Whether the block's least seat is before the place.
    pub(crate) fn stands_before(self, place: u32) -> bool
        ensures { IsTrue result ↔ (self.place < place) }
    {
        self.place < place
    }

    // The same block after its seats have moved: its least seat is searched for again.
    pub(crate) fn renewed(
        self,
        index: &Index<'_>,
        line: Line<'_>,
        runs: &Runs,
        seats: &[Seat],
    ) -> Self
        requires within { IsWithin index.now (line_of line) runs.now self.walk }
        requires count { length seats.now ≡ length index.now.grants }
        requires others { (k : ℕ) → k < length seats.now
            → IsCursorAt index.now (line_of line) k ⊎ (seat_at seats.now k ≡ empty_seat) }
        requires order { self.walk.next ≤ self.end }
        requires end { self.end ≤ length seats.now }
        ensures block { IsBlock seats.now result }
        ensures same { (result.walk ≡ self.walk) × (result.end ≡ self.end) }
    {
        let mut place = u32::MAX;
        let mut number = 0;
        let mut walk = self.walk;
        while let Some(no) = next_below(index, line, runs, self.end, &mut walk) {
            let here = seats[no as usize].place();
            if here < place {
                place = here;
                number = no;
            }
        }
        Block {
            walk: self.walk,
            end: self.end,
            place,
            number,
        }
    }
}

/// The blocks of a line. Each of the line's seats that is at an entry is in a block.
#[derive(Drop)]
pub(crate) struct Blocks {
    kept: ArrayVec<Block, MOST_BLOCKS>,
}

impl Blocks {
    // No blocks, for when there is no line.
    pub(crate) fn new() -> Self {
        Blocks {
            kept: ArrayVec::new(),
        }
    }

    // How many blocks there are.
    pub(crate) fn len(&self) -> usize
        ensures { result ≡ length self.now.kept.items }
    {
        self.kept.as_slice().len()
    }

    // The block at this place.
    pub(crate) fn get(&self, at: usize) -> Block
        requires { at < length self.now.kept.items }
        ensures { result ≡ block_at self.now.kept.items at }
    {
        self.kept.as_slice()[at]
    }

    // Puts a block at this place.
    pub(crate) fn put(&mut self, at: usize, block: Block)
        requires { at < length self.old.kept.items }
        ensures { self.new.kept.items ≡ set self.old.kept.items at block }
    {
        self.kept.as_mut_slice()[at] = block;
    }

    // Whether the next grant begins a new block, given how many more grants the last block takes.
    fn begins_block(&self, room: usize) -> bool
        ensures begins { IsTrue result → length self.now.kept.items < 64 }
        ensures joins { ¬ IsTrue result → (0 < room) ⊎ (length self.now.kept.items ≡ 64) }
    {
        room == 0 && !self.kept.is_full()
    }

    // Replaces the blocks with those of this line. About `filled` of its seats are at an entry:
    // this decides only how many grants a block takes.
    pub(crate) fn fill(
        &mut self,
        index: &Index<'_>,
        line: Line<'_>,
        runs: &Runs,
        filled: usize,
        seats: &[Seat],
    )
        requires runs { AreRuns index.now (line_of line) runs.now }
        requires count { length seats.now ≡ length index.now.grants }
        requires others { (k : ℕ) → k < length seats.now
            → IsCursorAt index.now (line_of line) k ⊎ (seat_at seats.now k ≡ empty_seat) }
        ensures { AreBlocks index.now (line_of line.entry) runs.now seats.now self.new.kept.items }
    {
        let end = index.len();
        let mut walk = whole_walk();
        // How many more grants the last block takes.
        let mut room: usize = 0;
        self.kept.clear();
        while let Some(no) = next_below(index, line, runs, end, &mut walk) {
            let place = seats[no as usize].place();
            if place == u32::MAX {
                continue;
            }
            if self.begins_block(room) {
                self.kept.push(Block {
                    walk: walk.back_at(no),
                    end: walk.next,
                    place,
                    number: no,
                });
                room = filled / MOST_BLOCKS;
                continue;
            }
            let last = self.len() - 1;
            let block = self.get(last).with(no, walk.next, place);
            self.put(last, block);
            room = room.saturating_sub(1);
        }
    }

    // No seat of a grant from this number on is at a place before the result. The result is the
    // least place of these seats, unless a block has grants on both sides of the number. It is the
    // greatest number if no seat is at an entry.
    pub(crate) fn least_from(&self, first: u32) -> u32
        ensures { (i : ℕ) → i < length self.now.kept.items
            → first < (block_at self.now.kept.items i).end
            → result ≤ (block_at self.now.kept.items i).place }
    {
        let mut place = u32::MAX;
        for block in self.kept.as_slice() {
            if first < block.end && block.place < place {
                place = block.place;
            }
        }
        place
    }

    // The least place that a seat of the blocks is at, with the first grant whose seat is there;
    // `None` if no seat is at an entry.
    pub(crate) fn least(&self) -> Option<(u32, u32)>
        ensures { MatchOption result
            ((i : ℕ) → i < length self.now.kept.items
            → past_all ≤ (block_at self.now.kept.items i).place)
            (λ found. IsLeastBlock self.now.kept.items found.0 found.1) }
    {
        let mut place = u32::MAX;
        let mut number = 0;
        for block in self.kept.as_slice() {
            if block.place < place {
                place = block.place;
                number = block.number;
            }
        }
        if place == u32::MAX {
            None
        } else {
            Some((place, number))
        }
    }
}
