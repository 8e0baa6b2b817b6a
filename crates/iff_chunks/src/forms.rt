//! The chunks of a form, found by their letters or their place.
//!
//! Contracts see a form as the list of its chunks.
ghost use Rattle.std.specs.Prelude.{◌≡◌, ◌≢◌, length, IfErr, IsOk, OnOk};
ghost use Rattle.std.specs.List.{find};
ghost use Rattle.iff_chunks.specs.Faults.{Makes, Reads};
ghost use Rattle.iff_chunks.specs.Chunks.{begins_form, chunks, form_in, is_sought, part_found, parts_from};
ghost use Rattle.iff_chunks.specs.Laws.{at_place, first};
ghost use Rattle.iff_chunks.specs.declared.faults.IffFault.{IffFault};

use crate::parts::{HEADER_LEN, id_at, length_at};
use crate::{IffFault, Part, Sought};
use std::alloc::Global;
use std::marker::Model;

/// The length of what stands before the first chunk: `FORM`, the form's length and its kind.
const FIRST_CHUNK: usize = 12;

/// The chunks of a form in their order.
#[derive(Drop)]
pub struct Form {
    parts: Vec<Part>,
}

impl Model for Form {
    ghost use Rattle.std.specs.Prelude.{List};
    ghost use Rattle.iff_chunks.specs.declared.parts.Part.{Part};

    ghost Value = { List Part };

    ghost view = { λ form. form.parts.items };
}

impl Form {
    /// The first chunk with these letters; None where there is none.
    pub fn first(&self, id: [u8; 4]) -> Option<Part>
        ensures { result ≡ first id self.now }
    {
        self.find(Sought::Letters(id))
    }

    /// The chunk whose header begins at a place, counted from the first byte of the form; None where
    /// none begins there.
    pub fn at(&self, place: usize) -> Option<Part>
        ensures { result ≡ at_place place self.now }
    {
        self.find(Sought::Place(place))
    }

    fn find(&self, sought: Sought) -> Option<Part>
        ensures { result ≡ find (is_sought sought) self.now }
    {
        self.parts
            .iter()
            .copied()
            .find(|part| sought.is_met_by(*part))
    }
}

/// Whether the bytes begin with `FORM`.
pub fn begins_form(bytes: &[u8]) -> bool
    ensures { result ≡ begins_form bytes.now }
{
    bytes.starts_with(b"FORM")
}

/// The chunks of a form of a kind. Bytes after the form aren't looked at, and a byte that should
/// fill up the last body may be missing.
///
/// Memory is taken only for a form whose chunks are all whole.
#[tactic(auto, unfolding(crate::specs::Chunks::chunks))]
pub fn read_form(alloc: Global, bytes: &[u8], kind: [u8; 4]) -> Result<Form, IffFault>
    ensures { Makes (λ form. form) result (chunks bytes.now kind) }
{
    let form = form_in(bytes, kind)?;
    look_through(form)?;
    let parts = parts_of(alloc, form)?;
    Ok(Form { parts })
}

/// The first chunk of a form of a kind that is sought, found without memory; None where there is
/// none.
#[tactic(auto, unfolding(crate::specs::Chunks::chunks))]
pub fn find_part(bytes: &[u8], kind: [u8; 4], sought: Sought) -> Result<Option<Part>, IffFault>
    ensures { Reads (λ found. found) result (part_found sought (chunks bytes.now kind)) }
{
    find_in(form_in(bytes, kind)?, sought)
}

/// The bytes of a form of a kind, without those after it.
#[tactic(auto, unfolding(crate::specs::Chunks::form_in))]
fn form_in(bytes: &[u8], kind: [u8; 4]) -> Result<&[u8], IffFault>
    ensures { Reads (λ form. form.now) result (form_in bytes.now kind) }
{
    if bytes.len() < FIRST_CHUNK {
        return Err(IffFault::Cut);
    }
    if !begins_form(bytes) {
        return Err(IffFault::NotForm);
    }
    if id_at(bytes, 8) != kind {
        return Err(IffFault::WrongKind);
    }
    let len = length_at(bytes, 4);
    if len < 4 || bytes.len() - HEADER_LEN < len {
        return Err(IffFault::Cut);
    }
    Ok(&bytes[..HEADER_LEN + len])
}

/// The first fault of the chunks of a form that ends with the bytes: that of a search for a chunk at the form's first
/// byte, where none begins.
#[tactic(auto, using(crate::proofs::Reading::look_turns))]
fn look_through(form: &[u8]) -> Result<(), IffFault>
    ensures whole { OnOk result (IsOk (parts_from (length form.now) form.now 12)) }
    ensures fault { IfErr result (λ fault. (parts_from (length form.now) form.now 12 ≡ Err fault)
        × (fault ≢ IffFault.NoMemory)) }
{
    find_in(form, Sought::Place(0))?;
    Ok(())
}

/// The chunks of a form that ends with the bytes, of which none is cut.
#[tactic(auto, using(crate::proofs::Reading::part_turns))]
fn parts_of(alloc: Global, form: &[u8]) -> Result<Vec<Part>, IffFault>
    requires { IsOk (parts_from (length form.now) form.now 12) }
    ensures { Makes (λ parts. parts.items) result (parts_from (length form.now) form.now 12) }
{
    let mut parts = Vec::new(alloc);
    let mut place = FIRST_CHUNK;
    while place < form.len() {
        let part = Part::read(form, place)?;
        place = part.next_place();
        parts.push(part)?;
    }
    Ok(parts)
}

/// The first chunk that is sought of a form that ends with the bytes.
#[tactic(auto, using(crate::proofs::Reading::find_turns))]
fn find_in(form: &[u8], sought: Sought) -> Result<Option<Part>, IffFault>
    ensures { Reads (λ found. found) result (part_found sought (parts_from (length form.now) form.now 12)) }
{
    let mut found = None;
    let mut place = FIRST_CHUNK;
    while place < form.len() {
        let part = Part::read(form, place)?;
        place = part.next_place();
        found = sought.first_of(found, part);
    }
    Ok(found)
}
