ghost use Rattle.std.specs.Prelude.{◌≡◌, ◌+◌, ◌*◌, ◌/◌, ◌%◌, ◌≤◌, ◌==◌, ℕ, length, replicate, OnOk, OnErr, if◌then◌else◌};
ghost use Rattle.std.specs.Ordering.{nat_cmp};
ghost use Rattle.std.specs.BTreeMap.{ContainsKey};
ghost use Rattle.block_store.specs.Blocks.{block_in, size, contents, zero_block, bytes_from, with_bytes};

use mid_base::NoMemory;
use std::alloc::Global;
use std::collections::BTreeMap;

/// How many bytes a block has.
pub const BLOCK_SIZE: usize = 512;

/// The blocks of a disk, 512 bytes each, numbered from 0. A block that was never written is zeros, and takes no memory.
///
/// Contracts name the number of blocks by `size`, and what they hold, a function of the block's number, by `contents`.
#[derive(Drop)]
pub struct BlockStore {
    blocks: u32,
    written: BTreeMap<u32, [u8; BLOCK_SIZE]>,
}

impl BlockStore {
    /// A store of this many blocks, all of them zeros. Nothing is allocated; the allocator is kept for what will be
    /// written.
    #[tactic(auto, unfolding(crate::specs::Blocks::contents, crate::specs::Blocks::size))]
    pub fn new(alloc: Global, blocks: u32) -> BlockStore
        ensures size { size result ≡ blocks }
        ensures zeros { contents result ≡ (λ k. zero_block) }
    {
        BlockStore {
            blocks,
            written: BTreeMap::new(alloc),
        }
    }

    /// How many blocks there are.
    #[tactic(auto, unfolding(crate::specs::Blocks::size))]
    pub fn blocks(&self) -> u32
        ensures { result ≡ size self.now }
    {
        self.blocks
    }

    /// Fills the buffer with the bytes of the blocks from number `lba` on, as many as it has room for.
    ///
    /// Its length is a multiple of 512, and the blocks are within the store.
    #[tactic(auto, unfolding(crate::specs::Blocks::contents, crate::specs::Blocks::size))]
    pub fn read_into(&self, lba: u32, out: &mut [u8])
        requires whole { length out.old % 512 ≡ 0 }
        requires inside { lba + length out.old / 512 ≤ size self.now }
        ensures { out.new ≡ bytes_from (contents self.now) lba (length out.old / 512) }
    {
        for i in 0..out.len() / BLOCK_SIZE {
            let from = i * BLOCK_SIZE;
            self.read_block(lba + i as u32, &mut out[from..from + BLOCK_SIZE]);
        }
    }

    /// Writes these bytes over the blocks from number `lba` on; all other blocks stay.
    ///
    /// Their number is a multiple of 512, and the blocks are within the store. `NoMemory` comes before anything is written,
    /// and then every block is as it was.
    #[tactic(auto, unfolding(crate::specs::Blocks::contents, crate::specs::Blocks::size))]
    pub fn write_from(&mut self, lba: u32, from: &[u8]) -> Result<(), NoMemory>
        requires whole { length from.now % 512 ≡ 0 }
        requires inside { lba + length from.now / 512 ≤ size self.old }
        ensures size { size self.new ≡ size self.old }
        ensures written { OnOk result (contents self.new ≡ with_bytes (contents self.old) lba from.now) }
        ensures no_memory { OnErr result (contents self.new ≡ contents self.old) }
    {
        let count = from.len() / BLOCK_SIZE;
        // Memory is taken for all blocks first, so that the writing can't fail half way.
        for i in 0..count {
            self.make_room(lba + i as u32)?;
        }
        for j in 0..count {
            let place = j * BLOCK_SIZE;
            self.write_block(lba + j as u32, &from[place..place + BLOCK_SIZE]);
        }
        Ok(())
    }

    fn read_block(&self, k: u32, out: &mut [u8])
        requires { length out.old ≡ 512 }
        ensures bytes { out.new ≡ block_in self.now.written k }
        ensures length { length out.new ≡ 512 }
    {
        match self.written.get(&k) {
            Some(block) => out.copy_from_slice(block),
            None => out.fill(0),
        }
    }

    // An entry for this block. A block of zeros where none was written is no change.
    fn make_room(&mut self, k: u32) -> Result<(), NoMemory>
        ensures blocks { self.new.blocks ≡ self.old.blocks }
        ensures same { (q : ℕ) → block_in self.new.written q ≡ block_in self.old.written q }
        ensures kept { (q : ℕ) → ContainsKey nat_cmp self.old.written q → ContainsKey nat_cmp self.new.written q }
        ensures room { OnOk result (ContainsKey nat_cmp self.new.written k) }
    {
        if self.written.contains_key(&k) {
            return Ok(());
        }
        match self.written.insert(k, [0; BLOCK_SIZE]) {
            Ok(_) => Ok(()),
            Err(_) => Err(NoMemory),
        }
    }

    fn write_block(&mut self, k: u32, block: &[u8])
        requires length { length block.now ≡ 512 }
        requires room { ContainsKey nat_cmp self.old.written k }
        ensures blocks { self.new.blocks ≡ self.old.blocks }
        ensures kept { (q : ℕ) → ContainsKey nat_cmp self.old.written q → ContainsKey nat_cmp self.new.written q }
        ensures written { (q : ℕ) → block_in self.new.written q ≡ (if q == k then block.now else block_in self.old.written q) }
    {
        if let Some(slot) = self.written.get_mut(&k) {
            slot.copy_from_slice(block);
        }
    }
}
