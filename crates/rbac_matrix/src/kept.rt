//! What an enumeration keeps of its line.

use crate::blocks::Blocks;
use crate::bound_runs::Runs;

/// The first runs of a line's grants, and the blocks of its seats.
#[derive(Drop)]
pub(crate) struct Kept {
    pub(crate) runs: Runs,
    pub(crate) blocks: Blocks,
}

impl Kept {
    // Keeps nothing, for when there is no line.
    pub(crate) fn new() -> Self {
        Kept {
            runs: Runs::new(),
            blocks: Blocks::new(),
        }
    }
}
