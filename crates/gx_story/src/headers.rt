//! The header of a story (Glulx 3.1.2, "The Header"): nine words, of which the first is the magic.
ghost use Rattle.std.specs.Prelude.{◌≡◌, ◌≢◌, ◌≤◌, length, take, IfOk, IfErr};
ghost use Rattle.gx_words.specs.Results.{Is};
ghost use Rattle.gx_words.specs.Constants.{header_len};
ghost use Rattle.gx_story.specs.Stories.{IsStory, header, header_at_start, has_sizes};

use crate::StoryFault;
use gx_words::{
    CEILING, CHECKSUM_AT, ENDMEM_AT, EXTSTART_AT, HEADER_LEN, MAGIC, MAGIC_AT, RAMSTART_AT,
    STACK_LIMIT, STACK_SIZE_AT, START_FUNCTION_AT, TABLE_AT, VERSION_AT, word_at,
};

/// The versions that are run: 2.0.0 to 3.1.255.
const FIRST_VERSION: u32 = 0x0002_0000;

const LAST_VERSION: u32 = 0x0003_01FF;

/// The words of a header behind the magic, in their order.
#[derive(Clone, Copy)]
pub(crate) struct Header {
    pub version: u32,
    pub ramstart: u32,
    pub extstart: u32,
    pub endmem: u32,
    pub stack_size: u32,
    pub start_function: u32,
    pub table: u32,
    pub checksum: u32,
}

impl Header {
    /// The header of a bare story whose bytes are there.
    #[tactic(auto, unfolding(crate::specs::Stories::header), using(crate::proofs::HeaderTests::is_story))]
    pub fn read(bytes: &[u8]) -> Result<Header, StoryFault>
        ensures value { Is (λ header. header) result (header bytes.now) }
        ensures memory { IfErr result (λ fault. fault ≢ StoryFault.NoMemory) }
        ensures sound { IfOk result (λ header.
            IsStory (record { header = header; bytes = take header.extstart bytes.now })) }
    {
        if bytes.len() < HEADER_LEN {
            return Err(StoryFault::Short);
        }
        if word_at(bytes, MAGIC_AT) != MAGIC {
            return Err(StoryFault::NotGlulx);
        }
        let header = Header::at_start(bytes);
        if header.version < FIRST_VERSION || LAST_VERSION < header.version {
            return Err(StoryFault::Version);
        }
        if !header.has_sizes() {
            return Err(StoryFault::Sizes);
        }
        if CEILING < header.endmem || STACK_LIMIT < header.stack_size {
            return Err(StoryFault::TooLarge);
        }
        if bytes.len() < header.extstart as usize {
            return Err(StoryFault::Cut);
        }
        Ok(header)
    }

    /// The words at the start of a story, unchecked.
    fn at_start(bytes: &[u8]) -> Header
        requires { header_len ≤ length bytes.now }
        ensures { result ≡ header_at_start bytes.now }
    {
        Header {
            version: word_at(bytes, VERSION_AT),
            ramstart: word_at(bytes, RAMSTART_AT),
            extstart: word_at(bytes, EXTSTART_AT),
            endmem: word_at(bytes, ENDMEM_AT),
            stack_size: word_at(bytes, STACK_SIZE_AT),
            start_function: word_at(bytes, START_FUNCTION_AT),
            table: word_at(bytes, TABLE_AT),
            checksum: word_at(bytes, CHECKSUM_AT),
        }
    }

    /// Whether the sizes are multiples of 256 and in order.
    fn has_sizes(&self) -> bool
        ensures { result ≡ has_sizes self.now }
    {
        self.ramstart % 256 == 0
            && self.extstart % 256 == 0
            && self.endmem % 256 == 0
            && self.stack_size % 256 == 0
            && 256 <= self.ramstart
            && self.ramstart <= self.extstart
            && self.extstart <= self.endmem
    }
}
