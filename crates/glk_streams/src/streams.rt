//! All streams, in order of creation.
ghost use Rattle.std.specs.Prelude.{ℕ, List, ◌≡◌, ◌≢◌, ◌≤◌, ◌<◌, ◌+◌, ◌^◌, ◌++◌, ◌∷◌, [], true, false, not, length};
ghost use Rattle.std.specs.Prelude.{map, get_or, Some, is_some, IfOk, IfSome, MatchOption, OnErr, OnOk, IsTrue};
ghost use Rattle.std.specs.Option.{option_map};
ghost use Rattle.glk_objects.specs.Objects.{IsAboveAll, IsBelowAll, object_place, all_but, next, met_from};
ghost use Rattle.glk_streams.specs.Stream as one;
ghost use Rattle.glk_streams.specs.Streams.{id_of, has, stream, with_stream, file_of, without_windows};
ghost use Rattle.glk_streams.specs.Streams.{no_stream, open_files};
ghost use Rattle.glk_streams.specs.Sound.{IsSoundKind};
ghost use Rattle.glk_streams.specs.Constants.{largest};

use crate::{Places, Stream, StreamKind, one};
use glk_objects::{next, place};
use gx_words::{Bytes, Name, Numbers};
use std::alloc::{AllocError, Global};
use std::marker::Model;

/// The streams of a world. Contracts see them as a list.
#[derive(Drop)]
pub struct Streams {
    items: Vec<Stream>,
}

impl Model for Streams {
    ghost use Rattle.std.specs.Prelude.{List};
    ghost use Rattle.glk_streams.specs.declared.kinds.Stream.{Stream};
    ghost use Rattle.glk_streams.specs.Sound.{AreSound};

    ghost Value = { List Stream };

    ghost view = { λ streams. streams.items.items };

    ghost invariant = { λ streams. AreSound streams.items.items };
}

impl Streams {
    /// No streams.
    pub fn new(alloc: Global) -> Streams
        ensures { result ≡ [] }
    {
        Streams {
            items: Vec::new(alloc),
        }
    }

    /// Adds a stream at its opening position.
    #[tactic(auto, using(crate::proofs::Lists::adds), unfolding(crate::specs::Stream::opened))]
    pub fn add(&mut self, id: u32, kind: StreamKind, mode: u32, rock: u32) -> Result<(), AllocError>
        requires above { IsAboveAll id_of self.old id }
        requires mode { IsTrue (one.allows_mode kind mode) }
        requires kind { IsSoundKind kind }
        ensures ok { OnOk result (self.new ≡ self.old ++ one.opened id kind mode rock ∷ []) }
        ensures err { OnErr result (self.new ≡ self.old) }
    {
        self.items.push(one::opened(id, kind, mode, rock))?;
        Ok(())
    }

    /// Removes a stream.
    #[tactic(auto, using(crate::proofs::Lists::places))]
    pub fn remove(&mut self, id: u32)
        requires { IsTrue (has self.old id) }
        ensures { self.new ≡ all_but id_of self.old id }
    {
        let at = place(&self.items, id);
        self.items.remove(at);
    }

    /// Removes the streams of windows that are gone.
    #[tactic(auto, using(crate::proofs::Lists::sound_filter))]
    pub fn remove_windows(&mut self, gone: &[u32])
        ensures { self.new ≡ without_windows self.old gone.now }
    {
        keep_others(&mut self.items, gone);
    }

    pub fn len(&self) -> usize
        ensures { result ≡ length self.now }
    {
        self.items.len()
    }

    /// Whether a stream has an identifier.
    #[tactic(auto, using(crate::proofs::Lists::places))]
    pub fn has(&self, id: u32) -> bool
        ensures { result ≡ has self.now id }
    {
        place(&self.items, id) < self.items.len()
    }

    /// The least identifier above a number, 0 where there is none.
    #[tactic(auto, using(crate::proofs::Lists::places, glk_objects::proofs::Meeting::meets_each))]
    pub fn next(&self, id: u32) -> u32
        ensures value { result ≡ next id_of self.now id }

        // Going on from one to the next meets each stream once, in order of creation.
        ensures each { IsBelowAll id_of self.now 0 → (more : ℕ)
            → met_from id_of (length self.now + more) self.now 0 ≡ map id_of self.now }
    {
        next(&self.items, id)
    }

    #[tactic(auto, using(crate::proofs::Lists::places))]
    pub fn rock(&self, id: u32) -> u32
        requires { IsTrue (has self.now id) }
        ensures { result ≡ (stream self.now id).rock }
    {
        self.items[place(&self.items, id)].rock
    }

    /// The window of a stream, 0 for none.
    #[tactic(auto, using(crate::proofs::Lists::places))]
    pub fn window(&self, id: u32) -> u32
        requires { IsTrue (has self.now id) }
        ensures { result ≡ one.window_of (stream self.now id) }
    {
        one::window_of(&self.items[place(&self.items, id)])
    }

    /// Where a stream stands, and its window, 0 for none; None where no stream has the identifier.
    #[tactic(auto, using(crate::proofs::Lists::places))]
    pub fn find(&self, id: u32) -> Option<(usize, u32)>
        ensures { MatchOption result (has self.now id ≡ false)
            (λ found. (has self.now id ≡ true) × (found.0 ≡ object_place id_of self.now id)
            × (found.1 ≡ one.window_of (stream self.now id))) }
    {
        let at = place(&self.items, id);
        Some((at, one::window_of(self.items.get(at)?)))
    }

    /// Whether a stream is open for reading.
    #[tactic(auto, using(crate::proofs::Lists::places))]
    pub fn readable(&self, id: u32) -> bool
        requires { IsTrue (has self.now id) }
        ensures { result ≡ one.readable (stream self.now id) }
    {
        one::readable(&self.items[place(&self.items, id)])
    }

    /// Whether a stream is open for writing.
    #[tactic(auto, using(crate::proofs::Lists::places))]
    pub fn writable(&self, id: u32) -> bool
        requires { IsTrue (has self.now id) }
        ensures { result ≡ one.writable (stream self.now id) }
    {
        one::writable(&self.items[place(&self.items, id)])
    }

    /// The characters read and those written, each modulo 2^32; 0 and 0 where no stream has the identifier.
    #[tactic(auto, using(crate::proofs::Lists::places))]
    pub fn counts(&self, id: u32) -> (u32, u32)
        ensures { result ≡ ((stream self.now id).read, (stream self.now id).written) }
    {
        let at = place(&self.items, id);
        if at < self.items.len() {
            (self.items[at].read, self.items[at].written)
        } else {
            (0, 0)
        }
    }

    #[tactic(auto, using(crate::proofs::Lists::places))]
    pub fn position(&self, id: u32) -> u32
        requires { IsTrue (has self.now id) }
        ensures value { result ≡ (stream self.now id).position }
        ensures within { result ≤ one.end_position (stream self.now id) }
    {
        self.items[place(&self.items, id)].position
    }

    /// The position behind the last character.
    #[tactic(auto, using(crate::proofs::Lists::places))]
    pub fn end(&self, id: u32) -> u32
        requires { IsTrue (has self.now id) }
        ensures { result ≡ one.end_position (stream self.now id) }
    {
        one::end_of(&self.items[place(&self.items, id)])
    }

    /// Sets a position, which `pos` counts as a signed number from the start, the position or the end.
    #[tactic(auto, using(crate::proofs::Lists::places))]
    pub fn set_position(&mut self, id: u32, pos: u32, seek: u32)
        requires { IsTrue (has self.old id) }
        ensures { self.new ≡ with_stream self.old (one.positioned (stream self.old id) pos seek) }
    {
        let at = place(&self.items, id);
        one::move_to(&mut self.items[at], pos, seek);
    }

    /// The places of memory that so many characters use next.
    #[tactic(auto, using(crate::proofs::Lists::places))]
    pub fn places(&self, id: u32, count: u32) -> Places
        requires { IsTrue (has self.now id) }
        ensures value { result ≡ one.next_places (stream self.now id) count }
        ensures at { result.at < 2 ^ 40 }
        ensures width { result.width ≤ 4 }
        ensures count { result.count ≤ count }
    {
        one::places(&self.items[place(&self.items, id)], count)
    }

    /// Puts a character: counts it, moves on, and changes a file's content.
    #[tactic(auto, using(crate::proofs::Lists::places))]
    pub fn put(&mut self, id: u32, c: u32) -> Result<(), AllocError>
        requires { IsTrue (has self.old id) }
        ensures ok { OnOk result (self.new ≡ with_stream self.old (one.after_put (stream self.old id) c)) }
        ensures err { OnErr result (self.new ≡ self.old) }
        ensures memory { OnErr result (IsTrue (one.lengthens (stream self.old id).kind (stream self.old id) c)) }
    {
        let at = place(&self.items, id);
        one::put(&mut self.items[at], c)
    }

    /// Counts so many characters that are put to the stream of a window, which stands at a place.
    #[tactic(auto, using(crate::proofs::Lists::places))]
    pub fn count(&mut self, at: usize, _id: u32, count: u32)
        requires there { IsTrue (has self.old _id) }
        requires place { at ≡ object_place id_of self.old _id }
        requires window { one.window_of (stream self.old _id) ≢ 0 }
        ensures { (cs : List ℕ) → length cs ≡ count
            → self.new ≡ with_stream self.old (one.after_puts (stream self.old _id) cs) }
    {
        one::count(&mut self.items[at], count);
    }

    /// Puts the bytes of a slice as characters to a stream that takes them at once: one of memory, or a file in Latin-1
    /// with room for them. Says whether it did.
    #[tactic(auto, using(crate::proofs::Lists::places))]
    pub fn put_bytes(&mut self, id: u32, bytes: &[u8]) -> Result<bool, AllocError>
        requires { IsTrue (has self.old id) }
        ensures value { IfOk result (λ put. put ≡ one.takes_bytes (stream self.old id) (length bytes.now)) }
        ensures put { IfOk result
            (λ put. IsTrue put → self.new ≡ with_stream self.old (one.after_puts (stream self.old id) bytes.now)) }
        ensures other { IfOk result (λ put. IsTrue (not put) → self.new ≡ self.old) }
        ensures err { OnErr result (self.new ≡ self.old) }
        ensures memory { OnErr result (IsTrue (one.takes_bytes (stream self.old id) (length bytes.now))) }
        ensures longer { OnErr result
            (one.end_position (stream self.old id) < (stream self.old id).position + length bytes.now) }
        ensures some { OnErr result (0 < length bytes.now) }
    {
        let at = place(&self.items, id);
        one::put_bytes(&mut self.items[at], bytes)
    }

    /// The bytes that are left of a file in Latin-1 that is open for reading, which are its characters; None for any
    /// other stream.
    #[tactic(auto, using(crate::proofs::Lists::places))]
    pub fn latin_rest(&self, id: u32) -> Option<&[u8]>
        requires { IsTrue (has self.now id) }
        ensures { MatchOption result (one.latin_rest (stream self.now id) ≡ None)
            (λ rest. one.latin_rest (stream self.now id) ≡ Some rest.now) }
    {
        one::latin_rest(&self.items[place(&self.items, id)])
    }

    /// Gets the next character; None where the stream isn't open for reading or is at its end. For a memory
    /// stream `found` is the number that stands at the place.
    #[tactic(auto, using(crate::proofs::Lists::places))]
    pub fn get(&mut self, id: u32, found: u32) -> Option<u32>
        requires { IsTrue (has self.old id) }
        ensures value { result ≡ option_map (λ (got : ℕ × ℕ). got.0) (one.read_next (stream self.old id) found) }
        ensures new { self.new ≡ with_stream self.old
            (one.after_get (stream self.old id) (one.read_next (stream self.old id) found)) }
    {
        let at = place(&self.items, id);
        one::get(&mut self.items[at], found)
    }

    /// The character at a position and the position behind it; None where the stream isn't open for reading or
    /// the position is its end. For a memory stream `found` is the number that stands at the place.
    #[tactic(auto, using(crate::proofs::Lists::places))]
    pub fn peek(&self, id: u32, position: u32, found: u32) -> Option<(u32, u32)>
        requires { IsTrue (has self.now id) }
        ensures value { result ≡ one.read_next (record (stream self.now id) { position = position }) found }
        ensures behind { IfSome result (λ got. got.1 ≤ one.end_position (stream self.now id)) }
    {
        one::next_from(&self.items[place(&self.items, id)], position, found)
    }

    /// Counts so many characters as read, and moves to the position behind them.
    #[tactic(auto, using(crate::proofs::Lists::places))]
    pub fn pass(&mut self, id: u32, position: u32, count: u32)
        requires there { IsTrue (has self.old id) }
        requires within { position ≤ one.end_position (stream self.old id) }
        ensures { self.new ≡ with_stream self.old (one.passed (stream self.old id) position count) }
    {
        let at = place(&self.items, id);
        one::pass(&mut self.items[at], position, count);
    }

    /// Whether there is room for the bytes of a save, put as characters.
    #[tactic(auto, using(crate::proofs::Lists::places))]
    pub fn fits(&self, id: u32, bytes: &[u8]) -> bool
        requires { IsTrue (has self.now id) }
        ensures value { result ≡ one.fits (stream self.now id) bytes.now }
        ensures few { IsTrue result → length bytes.now < 2 ^ 32 }
    {
        one::fits(&self.items[place(&self.items, id)], bytes)
    }

    /// The full name and the content of a file; None where no file stream has the identifier.
    #[tactic(auto, using(crate::proofs::Lists::places))]
    pub fn file(&self, id: u32) -> Option<(&str, &[u8])>
        ensures value { MatchOption result (file_of self.now id ≡ None)
            (λ file. file_of self.now id ≡ Some (file.0.now, file.1.now)) }
        ensures fits { IfSome result (λ file. length file.1.now ≤ largest) }
    {
        one::file_in(self.items.get(place(&self.items, id))?)
    }

    /// The full name and the content of the file of the stream at a place, where it is open for writing: it is stored
    /// when it is closed. None for any other stream.
    pub fn stored_file(&self, at: usize) -> Option<(&str, &[u8])>
        requires { at < length self.now }
        ensures { MatchOption result (one.stored_file (get_or self.now at no_stream) ≡ None)
            (λ file. one.stored_file (get_or self.now at no_stream) ≡ Some (file.0.now, file.1.now)) }
    {
        one::stored_file(&self.items[at])
    }

    /// Takes the full name and the content of a file out of its stream, which goes nowhere then.
    #[tactic(auto, using(crate::proofs::Lists::places))]
    pub fn take_file(&mut self, id: u32) -> (Name, Bytes)
        requires there { IsTrue (has self.old id) }
        requires file { IsTrue (is_some (file_of self.old id)) }
        ensures value { file_of self.old id ≡ Some result }
        ensures fits { length result.1 ≤ largest }
        ensures new { self.new ≡ with_stream self.old (one.without_file (stream self.old id)) }
    {
        let at = place(&self.items, id);
        one::take_file(&mut self.items[at])
    }

    /// The file streams that are open for writing, in order of creation: their files are stored when they are closed.
    #[tactic(auto, using(crate::proofs::Lists::files))]
    pub fn open_files(&self, alloc: Global) -> Result<Numbers, AllocError>
        ensures value { IfOk result (λ ids. ids ≡ open_files self.now) }
        ensures memory { OnErr result (open_files self.now ≢ []) }
    {
        let mut ids = Numbers::new(alloc);
        for stream in &self.items {
            if one::is_stored(stream) {
                ids.push(stream.id)?;
            }
        }
        Ok(ids)
    }
}

/// Keeps the streams of other windows.
fn keep_others(streams: &mut Vec<Stream>, gone: &[u32])
    ensures { streams.new.items ≡ without_windows streams.old.items gone.now }
{
    streams.retain(|stream| !gone.contains(&one::window_of(stream)));
}
