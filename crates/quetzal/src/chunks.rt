//! The chunks of a save that are looked at, found without memory.
//!
//! The first chunk of each kind counts, in whatever order they come; others are passed over.
ghost use Rattle.std.specs.Prelude.{◌≡◌, ◌≢◌, ◌≤◌, nat_le, true, length, take, IfOk, IfErr};
ghost use Rattle.std.specs.Str.{bytes_eq};
ghost use Rattle.std.specs.Option.{option_map, option_map_or};
ghost use Rattle.gx_words.specs.Results.{Is};
ghost use Rattle.quetzal.specs.Constants.{size_len, story_start};
ghost use Rattle.quetzal.specs.Chunks.{body_in, either, memory_in, needed, parts_in};
ghost use Rattle.quetzal.specs.Views.{memory_body, parts_of};

use crate::SaveFault;
use crate::faults::allowed;
use gx_story::Story;
use iff_chunks::{Sought, find_part};

/// The length of the part of a story that its saves repeat, which tells it from other stories.
pub(crate) const STORY_START: usize = 128;

/// The length of the size with which a chunk of memory begins.
pub(crate) const SIZE_LEN: usize = 4;

/// The body of a chunk of memory: a size, and then RAM, packed or plain.
#[derive(Clone, Copy)]
pub(crate) struct MemoryChunk<'a> {
    pub is_packed: bool,
    pub body: &'a [u8],
}

/// What is looked at of a save of a story. The heap is empty where it has no chunk.
#[derive(Drop)]
pub(crate) struct Parts<'a> {
    pub stack: &'a [u8],
    pub memory: MemoryChunk<'a>,
    pub heap: &'a [u8],
}

impl<'a> Parts<'a> {
    /// The parts of a save.
    #[tactic(auto, unfolding(crate::specs::Chunks::parts_in))]
    pub fn find(save: &'a [u8], story: &Story) -> Result<Parts<'a>, SaveFault>
        ensures value { Is parts_of result (parts_in save.now story.now) }
        ensures memory { IfErr result (λ fault. fault ≢ SaveFault.NoMemory) }
        ensures size { IfOk result (λ parts. size_len ≤ length parts.memory.body.now) }
    {
        let header = needed(save, *b"IFhd")?;
        let stack = needed(save, *b"Stks")?;
        let memory = memory_in(save)?;
        allowed(begins_with_size(memory), SaveFault::Form)?;
        allowed(is_of_story(story, header), SaveFault::OtherStory)?;
        let memory = memory.ok_or(SaveFault::NoMemoryChunk)?;
        let heap = body_in(save, *b"MAll")?.unwrap_or(&[]);
        Ok(Parts {
            stack,
            memory,
            heap,
        })
    }
}

/// The body of the first chunk with these letters.
#[tactic(auto, unfolding(crate::specs::Chunks::body_in))]
fn body_in(save: &[u8], id: [u8; 4]) -> Result<Option<&[u8]>, SaveFault>
    ensures value { Is (λ body. option_map (λ b. b.now) body) result (body_in save.now id) }
    ensures memory { IfErr result (λ fault. fault ≢ SaveFault.NoMemory) }
{
    let part = find_part(save, *b"IFZS", Sought::Letters(id))?;
    match part {
        Some(part) => Ok(Some(part.body(save))),
        None => Ok(None),
    }
}

/// The body of the first chunk with these letters, which has to be there.
#[tactic(auto, unfolding(crate::specs::Chunks::needed))]
fn needed(save: &[u8], id: [u8; 4]) -> Result<&[u8], SaveFault>
    ensures value { Is (λ body. body.now) result (needed save.now id) }
    ensures memory { IfErr result (λ fault. fault ≢ SaveFault.NoMemory) }
{
    body_in(save, id)?.ok_or(SaveFault::Form)
}

/// The chunk of memory, the packed one where both are there.
#[tactic(auto, unfolding(crate::specs::Chunks::memory_in))]
fn memory_in(save: &[u8]) -> Result<Option<MemoryChunk<'_>>, SaveFault>
    ensures value { Is (λ memory. option_map memory_body memory) result (memory_in save.now) }
    ensures memory { IfErr result (λ fault. fault ≢ SaveFault.NoMemory) }
{
    let packed = body_in(save, *b"CMem")?;
    let plain = body_in(save, *b"UMem")?;
    Ok(either(packed, plain))
}

/// A packed chunk is taken before a plain one.
fn either<'a>(packed: Option<&'a [u8]>, plain: Option<&'a [u8]>) -> Option<MemoryChunk<'a>>
    ensures { option_map memory_body result
        ≡ either (option_map (λ b. b.now) packed.entry) (option_map (λ b. b.now) plain.entry) }
{
    match packed {
        Some(body) => Some(MemoryChunk {
            is_packed: true,
            body,
        }),
        None => match plain {
            Some(body) => Some(MemoryChunk {
                is_packed: false,
                body,
            }),
            None => None,
        },
    }
}

/// Whether a chunk of memory has its size; true where there is no chunk.
fn begins_with_size(memory: Option<MemoryChunk<'_>>) -> bool
    ensures { result
        ≡ option_map_or (λ m. nat_le size_len (length m.body)) (option_map memory_body memory.entry) true }
{
    match memory {
        Some(chunk) => SIZE_LEN <= chunk.body.len(),
        None => true,
    }
}

/// Whether a chunk `IFhd` is that of a story.
fn is_of_story(story: &Story, header: &[u8]) -> bool
    ensures { result ≡ bytes_eq header.now (take story_start story.now.bytes) }
{
    header == &story.bytes()[..STORY_START]
}
