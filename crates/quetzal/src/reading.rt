//! Reading a save.
//!
//! Each fault is looked for before memory is taken, but for blocks that meet, which have to be sorted first.
ghost use Rattle.std.specs.Prelude.{IfOk};
ghost use Rattle.gx_words.specs.Constants.{ceiling};
ghost use Rattle.gx_state.specs.Copies.{IsCopyFor};
ghost use Rattle.quetzal.specs.Relations.{MaySort};
ghost use Rattle.quetzal.specs.ReadingSaves.{copy_in_save};
ghost use Rattle.quetzal.specs.Laws.{MayMeet};

use crate::SaveFault;
use crate::blocks::heap_of;
use crate::chunks::Parts;
use crate::faults::allowed;
use crate::memory::is_memory_size;
use crate::stacks::is_stack;
use gx_state::FlatCopy;
use gx_story::Story;
use gx_words::Bytes;
use std::alloc::Global;

/// The copy that a save of a story holds.
///
/// Chunks come in any order, and the first of each kind counts; others are passed over. A packed chunk of memory is
/// taken before a plain one, and a chunk of the heap that is empty, or whose start and count are 0, as none. Blocks are
/// sorted to see whether two of them meet; where memory for that is refused, it isn't seen.
#[tactic(auto, using(crate::proofs::SaveReading::parts_refused))]
pub fn read_save(alloc: Global, bytes: &[u8], story: &Story) -> Result<FlatCopy, SaveFault>
    ensures value { MaySort (MayMeet bytes.now story.now) (λ copy. copy) result
        (copy_in_save ceiling bytes.now story.now) }
    ensures sound { IfOk result (λ copy. IsCopyFor story.now copy) }
{
    let parts = Parts::find(bytes, story)?;
    let size = parts.memory.size();
    allowed(is_memory_size(story, size), SaveFault::Size)?;
    parts.memory.check(story)?;
    allowed(is_stack(story, size, parts.stack), SaveFault::Stack)?;
    let (heap, blocks) = heap_of(alloc, story, size, parts.heap)?;
    let memory = parts.memory.memory(alloc, story)?;
    let stack = Bytes::from_slice(alloc, parts.stack)?;
    Ok(FlatCopy {
        memory,
        stack,
        heap,
        blocks,
    })
}
