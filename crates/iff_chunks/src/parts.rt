//! One chunk of a form: its letters, and where its body lies.
ghost use Rattle.std.specs.Prelude.{◌≡◌, ◌+◌, ◌%◌, ◌≤◌, ◌<◌, ◌^◌, length, IfOk};
ghost use Rattle.iff_chunks.specs.Faults.{Reads};
ghost use Rattle.iff_chunks.specs.Chunks.{body, id_at, is_sought, length_at, part_at};
ghost use Rattle.iff_chunks.specs.Laws.{found_first};

use crate::IffFault;
use byteorder::{BigEndian, ByteOrder};

/// The length of a chunk's header: its letters and its body's length.
pub(crate) const HEADER_LEN: usize = 8;

/// A chunk of a form. `at` is the place of its body from the first byte of the form, `len` the
/// length of the body, without the byte that may fill it up.
#[derive(Clone, Copy, Debug, PartialEq, Eq)]
pub struct Part {
    pub id: [u8; 4],
    pub at: usize,
    pub len: usize,
}

impl Part {
    /// The chunk whose header begins at a place of the form.
    #[tactic(auto, unfolding(crate::specs::Chunks::part_at))]
    pub(crate) fn read(form: &[u8], place: usize) -> Result<Part, IffFault>
        requires { place < length form.now }
        ensures value { Reads (λ part. part) result (part_at form.now place) }
        ensures within { IfOk result (λ part. part.at + part.len ≤ length form.now) }
        ensures start { IfOk result (λ part. part.at ≡ place + 8) }
    {
        let rest = form.len() - place;
        if rest < HEADER_LEN {
            return Err(IffFault::Cut);
        }
        let len = length_at(form, place + 4);
        if rest - HEADER_LEN < len {
            return Err(IffFault::Cut);
        }
        Ok(Part {
            id: id_at(form, place),
            at: place + HEADER_LEN,
            len,
        })
    }

    /// The place of the next header: a body of odd length is filled up.
    pub(crate) fn next_place(self) -> usize
        requires { self.at + self.len + 1 < 2 ^ 64 }
        ensures { result ≡ self.at + self.len + self.len % 2 }
    {
        self.at + self.len + self.len % 2
    }

    /// The body, given the bytes that the form was read from.
    pub fn body(self, bytes: &[u8]) -> &[u8]
        ensures { result.now ≡ body bytes.now self }
    {
        let start = self.at.min(bytes.len());
        let rest = &bytes[start..];
        let len = self.len.min(rest.len());
        &rest[..len]
    }
}

/// What a chunk is sought by: its letters, or the place where its header begins, counted from the
/// first byte of the form.
#[derive(Clone, Copy, Debug, PartialEq, Eq)]
pub enum Sought {
    Letters([u8; 4]),
    Place(usize),
}

impl Sought {
    pub(crate) fn is_met_by(self, part: Part) -> bool
        ensures { result ≡ is_sought self part }
    {
        match self {
            Sought::Letters(id) => part.id == id,
            Sought::Place(place) => part.at.checked_sub(HEADER_LEN) == Some(place),
        }
    }

    /// What was found already, or else the chunk where it is sought.
    pub(crate) fn first_of(self, found: Option<Part>, part: Part) -> Option<Part>
        ensures { result ≡ found_first self found part }
    {
        match found {
            None if self.is_met_by(part) => Some(part),
            _ => found,
        }
    }
}

/// The length that stands in the four bytes from a place on.
pub(crate) fn length_at(bytes: &[u8], place: usize) -> usize
    requires { place + 4 ≤ length bytes.now }
    ensures value { result ≡ length_at bytes.now place }
    ensures fits { result < 2 ^ 32 }
{
    BigEndian::read_u32(&bytes[place..]) as usize
}

/// The four letters from a place on.
pub(crate) fn id_at(bytes: &[u8], place: usize) -> [u8; 4]
    requires { place + 4 ≤ length bytes.now }
    ensures { result ≡ id_at bytes.now place }
{
    [
        bytes[place],
        bytes[place + 1],
        bytes[place + 2],
        bytes[place + 3],
    ]
}
