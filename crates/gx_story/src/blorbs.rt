//! The story in a Blorb (Blorb 2.0.4: the resource index and executable resources).
//!
//! A Blorb is a form of kind `IFRS`. Its index, the chunk `RIdx`, names the resources; the first of
//! them that is executable and has number 0 is the story, in a chunk `GLUL`. Pictures and sounds are
//! passed over unread.
//!
//! `story_in` is the definition of that name in specs/Blorbs for every list of bytes.
ghost use Rattle.std.specs.Prelude.{◌≡◌, ◌≢◌, ◌+◌, ◌*◌, ◌≤◌, length, IfErr};
ghost use Rattle.std.specs.List.{find};
ghost use Rattle.gx_words.specs.Numbers.{word};
ghost use Rattle.gx_words.specs.Results.{Is};
ghost use Rattle.iff_chunks.specs.Chunks.{id_at};
ghost use Rattle.gx_story.specs.Constants.{count_len, entry_len};
ghost use Rattle.gx_story.specs.Blorbs.{blorb_part, entries_from, is_story, story_entry, story_in};

use crate::StoryFault;
use gx_words::word_at;
use iff_chunks::{Part, Sought, find_part};

/// The length of the count with which an index begins, and of an entry.
const COUNT_LEN: usize = 4;

const ENTRY_LEN: usize = 12;

/// An entry of the index: what a resource is for, its number, and the place of its chunk's header
/// from the first byte of the file.
#[derive(Clone, Copy)]
pub(crate) struct Entry {
    pub usage: [u8; 4],
    pub number: u32,
    pub start: u32,
}

impl Entry {
    /// The entry at a place of an index.
    fn read(index: &[u8], at: usize) -> Entry
        requires { at + entry_len ≤ length index.now }
        ensures { result ≡ record
            { usage = id_at index.now at; number = word index.now (at + 4); start = word index.now (at + 8) } }
    {
        Entry {
            usage: [index[at], index[at + 1], index[at + 2], index[at + 3]],
            number: word_at(index, at + 4),
            start: word_at(index, at + 8),
        }
    }

    /// Whether it names the story: the executable resource with number 0.
    fn is_story(&self) -> bool
        ensures { result ≡ is_story self.now }
    {
        self.usage == *b"Exec" && self.number == 0
    }
}

/// The bare story in a Blorb.
#[tactic(auto, unfolding(crate::specs::Blorbs::story_in))]
pub(crate) fn story_in(file: &[u8]) -> Result<&[u8], StoryFault>
    ensures value { Is (λ story. story.now) result (story_in file.now) }
    ensures memory { IfErr result (λ fault. fault ≢ StoryFault.NoMemory) }
{
    let index = blorb_part(file, Sought::Letters(*b"RIdx"))?;
    let entry = story_entry(index.body(file)).ok_or(StoryFault::Blorb)?;
    let chunk = blorb_part(file, Sought::Place(entry.start as usize))?;
    if chunk.id != *b"GLUL" {
        return Err(StoryFault::Blorb);
    }
    Ok(chunk.body(file))
}

/// The first chunk of a Blorb that is sought.
#[tactic(auto, using(crate::proofs::Forms::form_faults))]
fn blorb_part(file: &[u8], sought: Sought) -> Result<Part, StoryFault>
    ensures value { Is (λ part. part) result (blorb_part file.now sought) }
    ensures memory { IfErr result (λ fault. fault ≢ StoryFault.NoMemory) }
{
    find_part(file, *b"IFRS", sought)?.ok_or(StoryFault::Blorb)
}

/// The first entry of an index that names the story; None too where the index is shorter than its
/// count says.
#[tactic(auto, unfolding(crate::specs::Blorbs::story_entry))]
fn story_entry(index: &[u8]) -> Option<Entry>
    ensures { result ≡ story_entry index.now }
{
    if index.len() < COUNT_LEN {
        return None;
    }
    let count = word_at(index, 0) as usize;
    if index.len() < COUNT_LEN + ENTRY_LEN * count {
        return None;
    }
    first_story(index, count)
}

/// The first of so many entries that names the story.
#[tactic(auto, using(crate::proofs::Entries::entry_turns))]
fn first_story(index: &[u8], count: usize) -> Option<Entry>
    requires { count_len + entry_len * count ≤ length index.now }
    ensures { result ≡ find is_story (entries_from count index.now count_len) }
{
    for number in 0..count {
        let entry = Entry::read(index, COUNT_LEN + ENTRY_LEN * number);
        if entry.is_story() {
            return Some(entry);
        }
    }
    None
}
