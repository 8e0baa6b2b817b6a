//! The memory of a save: its size, and its RAM behind what the story has below it.
//!
//! What a chunk claims is looked at before memory is taken for it.
ghost use Rattle.std.specs.Prelude.{◌≡◌, ◌≢◌, ◌≤◌, length, take, drop, IfOk, IfErr, IsOk, IsTrue, OnOk};
ghost use Rattle.gx_words.specs.Results.{Gives};
ghost use Rattle.gx_words.specs.Constants.{ceiling};
ghost use Rattle.quetzal.specs.Constants.{size_len};
ghost use Rattle.quetzal.specs.Memory.{is_memory_size, memory_of, size_in};
ghost use Rattle.quetzal.specs.Views.{memory_body};

use crate::SaveFault;
use crate::chunks::{MemoryChunk, SIZE_LEN};
use gx_story::Story;
use gx_words::{Bytes, CEILING, word_at};
use std::alloc::Global;
use zero_runs::{check, unpack_onto};

impl MemoryChunk<'_> {
    /// The size of memory.
    pub fn size(&self) -> u32
        requires { size_len ≤ length self.now.body.now }
        ensures { result ≡ size_in (memory_body self.now) }
    {
        word_at(self.body, 0)
    }

    /// The bytes behind it.
    fn bytes(&self) -> &[u8]
        requires { size_len ≤ length self.now.body.now }
        ensures { result.now ≡ drop size_len self.now.body.now }
    {
        &self.body[SIZE_LEN..]
    }

    /// Whether the bytes stand for the RAM of a story. Takes no memory.
    #[tactic(auto, unfolding(crate::specs::Memory::memory_of), using(crate::proofs::SaveReading::sizes))]
    pub fn check(&self, story: &Story) -> Result<(), SaveFault>
        requires there { size_len ≤ length self.now.body.now }
        requires size { IsTrue (is_memory_size ceiling story.now (size_in (memory_body self.now))) }
        ensures ok { OnOk result (IsOk (memory_of story.now (memory_body self.now))) }
        ensures fault { IfErr result (λ fault. memory_of story.now (memory_body self.now) ≡ Err fault) }
        ensures memory { IfErr result (λ fault. fault ≢ SaveFault.NoMemory) }
    {
        let count = (self.size() - story.ramstart()) as usize;
        if self.is_packed {
            check(self.bytes(), count)?;
            Ok(())
        } else if self.bytes().len() == count {
            Ok(())
        } else {
            Err(SaveFault::Runs)
        }
    }

    /// Memory whole: the story's below RAMSTART, and then the RAM that the bytes stand for. It is one list, and memory
    /// is asked for once.
    pub fn memory(&self, alloc: Global, story: &Story) -> Result<Bytes, SaveFault>
        requires there { size_len ≤ length self.now.body.now }
        requires size { IsTrue (is_memory_size ceiling story.now (size_in (memory_body self.now))) }
        requires fine { IsOk (memory_of story.now (memory_body self.now)) }
        ensures value { Gives SaveFault.NoMemory (λ memory. memory) result
            (memory_of story.now (memory_body self.now)) }
        ensures len { IfOk result (λ memory. length memory ≡ size_in (memory_body self.now)) }
        ensures rom { IfOk result (λ memory. take story.now.header.ramstart memory
            ≡ take story.now.header.ramstart story.now.bytes) }
    {
        let mut memory = Bytes::with_capacity(alloc, self.size() as usize)?;
        memory.extend_from_slice(&story.bytes()[..story.ramstart() as usize])?;
        self.push_ram(story, &mut memory)?;
        Ok(memory)
    }

    /// Adds the RAM that the bytes stand for behind a story's bytes below RAMSTART.
    #[tactic(auto, unfolding(crate::specs::Memory::memory_of), using(crate::proofs::SaveReading::sizes))]
    fn push_ram(&self, story: &Story, memory: &mut Bytes) -> Result<(), SaveFault>
        requires there { size_len ≤ length self.now.body.now }
        requires size { IsTrue (is_memory_size ceiling story.now (size_in (memory_body self.now))) }
        requires rom { memory.old ≡ take story.now.header.ramstart story.now.bytes }
        ensures value { Gives SaveFault.NoMemory (λ _. memory.new) result (memory_of story.now (memory_body self.now)) }
        ensures len { OnOk result (length memory.new ≡ size_in (memory_body self.now)) }
    {
        let count = (self.size() - story.ramstart()) as usize;
        if self.is_packed {
            unpack_onto(memory, self.bytes(), story.bytes(), count)?;
            Ok(())
        } else if self.bytes().len() == count {
            memory.extend_from_slice(self.bytes())?;
            Ok(())
        } else {
            Err(SaveFault::Runs)
        }
    }
}

/// Whether a story's memory may have a size.
pub(crate) fn is_memory_size(story: &Story, size: u32) -> bool
    ensures { result ≡ is_memory_size ceiling story.now size }
{
    size % 256 == 0 && story.endmem() <= size && size <= CEILING
}
