//! The blocks of a simulated disk, and the parts of a buffer.
//!
//! A `BlockStore` is a map from block numbers to blocks of 512 bytes, in which a block that was never written is zeros: it
//! takes memory for the blocks that were written, however large it is. `parts` cuts a buffer into the pieces of a
//! scatter-gather list, and `for_each_part` says what the buffer holds once each was written. `specs/Blocks.antt` says what
//! a store holds, `specs/Parts.antt` what the parts are.
#![tactic(auto)]

mod part_iter;
mod scatter;
mod store;
#[cfg(test)]
mod tests;

pub use part_iter::PartIter;
pub use scatter::{for_each_part, parts};
pub use store::{BLOCK_SIZE, BlockStore};
