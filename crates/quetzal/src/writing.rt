//! Writing a save: the chunks `IFhd`, `CMem`, `Stks` and, where a heap is active, `MAll`.
ghost use Rattle.std.specs.Prelude.{◌≡◌, ◌+◌, ◌%◌, ◌^◌, ◌<◌, ◌≤◌, ◌++◌, length, take, replicate, Ok, IfOk, OnOk, OnErr};
ghost use Rattle.std.specs.List.{flat_map};
ghost use Rattle.gx_words.specs.Constants.{ceiling};
ghost use Rattle.iff_chunks.specs.Writing.{bytes_of_chunk};
ghost use Rattle.gx_state.specs.Copies.{IsCopyFor};
ghost use Rattle.quetzal.specs.Memory.{memory_bytes};
ghost use Rattle.quetzal.specs.Blocks.{heap_bytes};
ghost use Rattle.gx_words.specs.Numbers.{bytes_of_word};
ghost use Rattle.heap_blocks.specs.Heap.{Block};
ghost use Rattle.quetzal.specs.ReadingSaves.{copy_in_save};
ghost use Rattle.quetzal.specs.Writing.{heap_chunks, save_bytes};
ghost use Rattle.quetzal.specs.Laws.{chunk_len, form_len};

use crate::blocks::{BLOCK_LEN, HEAP_HEADER_LEN};
use crate::chunks::STORY_START;
use gx_state::FlatCopy;
use gx_story::Story;
use gx_words::{Bytes, word_bytes};
use std::alloc::{AllocError, Global};
use zero_runs::pack;

/// The length of the letters FORM and of the length behind them.
const FORM_HEADER_LEN: usize = 8;

/// Adds a chunk: its letters, the length of its body, the body, and a zero byte after an odd length.
pub fn push_chunk(out: &mut Bytes, id: [u8; 4], body: &[u8]) -> Result<(), AllocError>
    requires { length body.now < 2 ^ 32 }
    ensures ok { OnOk result (out.new ≡ out.old ++ bytes_of_chunk (record { id = id; body = body.now })) }
    ensures err { OnErr result (out.new ≡ out.old) }
{
    let before = out.len();
    match push_parts(out, id, body) {
        Ok(()) => Ok(()),
        Err(refused) => {
            out.truncate(before);
            Err(refused)
        }
    }
}

/// Does what `push_chunk` does, but after a refusal a part of it may be there.
#[tactic(auto, unfolding(iff_chunks::specs::Writing::bytes_of_chunk), using(crate::proofs::SaveWriting::chunk_parts))]
fn push_parts(out: &mut Bytes, id: [u8; 4], body: &[u8]) -> Result<(), AllocError>
    requires { length body.now < 2 ^ 32 }
    ensures ok { OnOk result (out.new ≡ out.old ++ bytes_of_chunk (record { id = id; body = body.now })) }
    ensures grows { take (length out.old) out.new ≡ out.old }
{
    out.extend_from_slice(&id)?;
    out.extend_from_slice(&word_bytes(body.len() as u32))?;
    out.extend_from_slice(body)?;
    fill_up(out, body.len())
}

/// Adds a zero byte after an odd length, and asks for no memory after an even one.
fn fill_up(out: &mut Bytes, len: usize) -> Result<(), AllocError>
    ensures ok { OnOk result (out.new ≡ out.old ++ replicate (len % 2) 0) }
    ensures err { OnErr result (out.new ≡ out.old) }
    ensures memory { OnErr result (len % 2 ≡ 1) }
{
    if len % 2 == 1 { out.push(0) } else { Ok(()) }
}

/// The save of a copy. It is read back as the same copy. The list of its bytes is asked for once.
pub fn write_save(alloc: Global, copy: &FlatCopy, story: &Story) -> Result<Bytes, AllocError>
    requires { IsCopyFor story.now copy.now }
    ensures value { IfOk result (λ save. save ≡ save_bytes story.now copy.now) }
    ensures read_back { IfOk result (λ save. copy_in_save ceiling save story.now ≡ Ok copy.now) }
{
    let stored = story.bytes();
    let memory = memory_body(alloc, copy.memory.as_slice(), story)?;
    let blocks = copy.blocks.as_slice();
    let len = form_len(memory.len(), copy.stack.len(), blocks.len());
    let mut save = Bytes::with_capacity(alloc, FORM_HEADER_LEN + len)?;
    save.extend_from_slice(b"FORM")?;
    save.extend_from_slice(&word_bytes(len as u32))?;
    save.extend_from_slice(b"IFZS")?;
    push_chunk(&mut save, *b"IFhd", &stored[..STORY_START])?;
    push_chunk(&mut save, *b"CMem", memory.as_slice())?;
    push_chunk(&mut save, *b"Stks", copy.stack.as_slice())?;
    push_heap(alloc, &mut save, copy.heap, blocks)?;
    Ok(save)
}

/// The length of a form from its kind on, given the lengths of its memory and its stack and the count of its blocks.
fn form_len(memory: usize, stack: usize, blocks: usize) -> usize
    requires memory { memory < 2 ^ 32 }
    requires stack { stack < 2 ^ 32 }
    requires blocks { blocks < 2 ^ 32 }
    ensures { result ≡ form_len memory stack blocks }
{
    let heap = if blocks == 0 {
        0
    } else {
        chunk_len(HEAP_HEADER_LEN + BLOCK_LEN * blocks)
    };
    4 + chunk_len(STORY_START) + chunk_len(memory) + chunk_len(stack) + heap
}

/// The length of a chunk, given that of its body.
fn chunk_len(body: usize) -> usize
    requires { body < 2 ^ 40 }
    ensures { result ≡ chunk_len body }
{
    8 + body + body % 2
}

/// The body of the chunk `CMem`: the size of memory, and what differs from the story's first bytes.
#[tactic(auto, unfolding(crate::specs::Memory::memory_bytes))]
fn memory_body(alloc: Global, memory: &[u8], story: &Story) -> Result<Bytes, AllocError>
    requires size { length memory.now ≤ ceiling }
    requires low { story.now.header.ramstart ≤ length memory.now }
    ensures { IfOk result (λ body. body ≡ memory_bytes story.now memory.now) }
{
    let mut body = Bytes::new(alloc);
    body.extend_from_slice(&word_bytes(memory.len() as u32))?;
    let at = story.ramstart() as usize;
    let stored = story.bytes();
    pack(&memory[at..], &stored[at..], &mut body)?;
    Ok(body)
}

/// Adds the chunk `MAll`, where a heap is active; else no memory is asked for.
#[tactic(auto, using(crate::proofs::SaveWriting::heap_facts))]
fn push_heap(
    alloc: Global,
    out: &mut Bytes,
    start: u32,
    blocks: &[(u32, u32)],
) -> Result<(), AllocError>
    requires { length blocks.now ≤ ceiling }
    ensures ok { OnOk result (out.new ≡ out.old
        ++ flat_map bytes_of_chunk (heap_chunks (record { start = start; blocks = blocks.now }))) }
    ensures memory { OnErr result (0 < length blocks.now) }
{
    if blocks.is_empty() {
        return Ok(());
    }
    let body = heap_body(alloc, start, blocks)?;
    push_chunk(out, *b"MAll", body.as_slice())
}

/// The body of the chunk `MAll`: the heap's start, the count of its blocks, and each block.
fn heap_body(alloc: Global, start: u32, blocks: &[(u32, u32)]) -> Result<Bytes, AllocError>
    requires { length blocks.now ≤ ceiling }
    ensures { IfOk result (λ body. body ≡ heap_bytes (record { start = start; blocks = blocks.now })) }
{
    let mut body = Bytes::new(alloc);
    body.extend_from_slice(&word_bytes(start))?;
    body.extend_from_slice(&word_bytes(blocks.len() as u32))?;
    push_blocks(&mut body, blocks)?;
    Ok(body)
}

/// Adds the address and the length of each block.
#[tactic(auto, using(crate::proofs::SaveWriting::block_facts))]
fn push_blocks(body: &mut Bytes, blocks: &[(u32, u32)]) -> Result<(), AllocError>
    ensures { OnOk result (body.new
        ≡ body.old ++ flat_map (λ (b : Block). bytes_of_word b.0 ++ bytes_of_word b.1) blocks.now) }
{
    for block in blocks {
        body.extend_from_slice(&word_bytes(block.0))?;
        body.extend_from_slice(&word_bytes(block.1))?;
    }
    Ok(())
}
