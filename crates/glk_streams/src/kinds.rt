//! What a stream is (Glk 0.7.5, "The Types of Streams").
use glk_objects::Object;
use gx_words::{Bytes, Name};

/// The form of a file's characters (Glk 0.7.5, "File Streams").
#[derive(Clone, Copy, Debug, PartialEq, Eq)]
pub enum FileForm {
    /// One byte each, in Latin-1.
    Latin,
    /// Four bytes each, big-endian.
    Wide,
    /// UTF-8.
    Utf8,
}

/// Where the characters of a stream go or come from.
#[derive(Drop)]
pub enum StreamKind {
    /// The window of this identifier.
    Window(u32),
    /// So many places of the story's memory from an address on; none where the address is 0. A place is
    /// four bytes where `wide` is true, else one.
    Memory {
        at: u32,
        len: u32,
        wide: bool,
    },
    /// A file by its full name.
    File {
        name: Name,
        content: Bytes,
        form: FileForm,
    },
}

/// A stream.
#[derive(Drop)]
pub struct Stream {
    pub id: u32,
    pub kind: StreamKind,
    pub mode: u32,
    pub rock: u32,
    /// In characters; in a file as UTF-8 in bytes.
    pub position: u32,
    /// The highest position that was reached by putting to memory.
    pub highest: u32,
    /// The characters read, modulo 2^32.
    pub read: u32,
    /// The characters written, modulo 2^32.
    pub written: u32,
}

impl Object for Stream {
    ghost id_of = { λ stream. stream.id };

    fn id(&self) -> u32 {
        self.id
    }
}

/// Places of memory: the address of the first, the bytes of each, and their number.
#[derive(Clone, Copy, Debug, PartialEq, Eq)]
pub struct Places {
    pub at: u64,
    pub width: u32,
    pub count: u32,
}

/// No places.
pub const NO_PLACES: Places = Places {
    at: 0,
    width: 1,
    count: 0,
};
