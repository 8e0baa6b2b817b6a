//! An accepted story: its header and its stored part.
//!
//! Contracts see a story as a `FlatStory`. Its readers take no memory.
ghost use Rattle.std.specs.Prelude.{◌≡◌, IfOk};
ghost use Rattle.gx_words.specs.Results.{Gives};
ghost use Rattle.gx_story.specs.Stories.{IsStory, accepted, bare, is_checked};

use crate::StoryFault;
use crate::blorbs::story_in;
use crate::headers::Header;
use gx_words::{Bytes, sum_of_words};
use iff_chunks::begins_form;
use std::alloc::{AllocError, Global};
use std::marker::Model;

/// A story that was accepted. Its addresses and sizes are in bytes.
#[derive(Drop)]
pub struct Story {
    header: Header,
    bytes: Bytes,
}

impl Model for Story {
    ghost use Rattle.gx_story.specs.Stories.{FlatStory};

    ghost Value = { FlatStory };

    ghost use Rattle.gx_story.specs.Views.{flat_story, IsSound};

    ghost view = { flat_story };

    ghost invariant = { IsSound };
}

impl Story {
    /// The story of a file, bare or in a Blorb. Bytes past its stored part are dropped.
    ///
    /// Memory is taken only for a story that is accepted.
    #[tactic(auto, unfolding(crate::specs::Stories::accepted))]
    pub fn read(alloc: Global, bytes: &[u8]) -> Result<Story, StoryFault>
        ensures value { Gives StoryFault.NoMemory (λ story. story) result (accepted bytes.now) }
        ensures sound { IfOk result IsStory }
    {
        if begins_form(bytes) {
            Story::read_bare(alloc, story_in(bytes)?)
        } else {
            Story::read_bare(alloc, bytes)
        }
    }

    /// The story that stands at the start of the bytes.
    #[tactic(auto, unfolding(crate::specs::Stories::bare))]
    fn read_bare(alloc: Global, bytes: &[u8]) -> Result<Story, StoryFault>
        ensures value { Gives StoryFault.NoMemory (λ story. story) result (bare bytes.now) }
        ensures sound { IfOk result IsStory }
    {
        let header = Header::read(bytes)?;
        let stored = Bytes::from_slice(alloc, &bytes[..header.extstart as usize])?;
        Ok(Story {
            header,
            bytes: stored,
        })
    }

    /// An equal story.
    pub fn copy(&self, alloc: Global) -> Result<Story, AllocError>
        ensures { IfOk result (λ story. story ≡ self.now) }
    {
        Ok(Story {
            header: self.header,
            bytes: Bytes::from_slice(alloc, self.bytes.as_slice())?,
        })
    }

    /// The version of Glulx that the story asks for, as 0x00030102 for 3.1.2.
    pub fn version(&self) -> u32
        ensures { result ≡ self.now.header.version }
    {
        self.header.version
    }

    /// The first address that the story may write to.
    pub fn ramstart(&self) -> u32
        ensures value { result ≡ self.now.header.ramstart }
        ensures sound { IsStory self.now }
    {
        self.header.ramstart
    }

    /// The length of the stored part.
    pub fn extstart(&self) -> u32
        ensures value { result ≡ self.now.header.extstart }
        ensures sound { IsStory self.now }
    {
        self.header.extstart
    }

    /// The first size of memory.
    pub fn endmem(&self) -> u32
        ensures value { result ≡ self.now.header.endmem }
        ensures sound { IsStory self.now }
    {
        self.header.endmem
    }

    /// The most bytes on the stack.
    pub fn stack_size(&self) -> u32
        ensures value { result ≡ self.now.header.stack_size }
        ensures sound { IsStory self.now }
    {
        self.header.stack_size
    }

    /// The address of the function that is called first.
    pub fn start_function(&self) -> u32
        ensures { result ≡ self.now.header.start_function }
    {
        self.header.start_function
    }

    /// The address of the string decoding table, 0 for none.
    pub fn table(&self) -> u32
        ensures { result ≡ self.now.header.table }
    {
        self.header.table
    }

    /// The checksum that the header states.
    pub fn checksum(&self) -> u32
        ensures { result ≡ self.now.header.checksum }
    {
        self.header.checksum
    }

    /// Whether the stored part has the checksum that the header states.
    pub fn checksum_ok(&self) -> bool
        ensures { result ≡ is_checked self.now }
    {
        sum_of_words(self.bytes.as_slice()) == self.header.checksum
    }

    /// The stored part: memory from address 0 up to EXTSTART as the program begins.
    pub fn bytes(&self) -> &[u8]
        ensures value { result.now ≡ self.now.bytes }
        ensures sound { IsStory self.now }
    {
        self.bytes.as_slice()
    }
}
