//! Characters that are put to streams and got from them (Glk 0.7.5, "Streams" and "Echo Streams").
ghost use Rattle.std.specs.Prelude.{◌≡◌, ◌≢◌, ◌⊎◌, ℕ, ◌+◌, ◌≤◌, ◌<◌, ◌^◌, List, [], not, length, true, false, OnOk};
ghost use Rattle.std.specs.Prelude.{OnErr, IfOk, MatchOption, IsTrue, ◌++◌, map, string_bytes, Bool};
ghost use Rattle.std.specs.Str.{encode_utf8_all};
ghost use Rattle.glk_text.specs.Characters.{shown};
ghost use Rattle.std.specs.Option.{option_map};
ghost use Rattle.glk_objects.specs.Objects.{object_place};
ghost use Rattle.glk_streams.specs.Stream as one;
ghost use Rattle.glk_streams.specs.Streams as streams;
ghost use Rattle.glk_windows.specs.Windows as windows;
ghost use Rattle.glk_windows.specs.Windows.{window_entry};
ghost use Rattle.glk_windows.specs.Constants.{text_buffer};
ghost use Rattle.glk_world.specs.World.{after, silent, is_direct};
ghost use Rattle.glk_world.specs.Putting.{said_char, buffer_put, window_of_stream, window_put, fresh_after};
ghost use Rattle.glk_world.specs.Putting.{stream_put};
ghost use Rattle.glk_world.specs.Putting.{stream_grows, echo_of, put_along, put_of, put_chars, is_plain_text};
ghost use Rattle.glk_world.specs.Putting.{grows_along, takes_chars};
ghost use Rattle.glk_world.specs.Putting.{put_grows, end_along, chain_end, places_of, places_read, leads_along};
ghost use Rattle.glk_world.specs.Putting.{leads_to};
ghost use Rattle.glk_world.specs.Calls.{chars_got, char_got, with_echo};
ghost use Rattle.glk_world.specs.Each.{ShowsEach};

use crate::{View, World};
use glk_streams::{NO_PLACES, Places};
use glk_text::show;
use glk_windows::{Entry, TEXT_BUFFER, TEXT_GRID};
use gx_words::LINE_FEED;
use std::alloc::AllocError;

impl World {
    /// Puts a character to a stream, then to its echo stream, and so on; a stream that isn't there is none.
    pub fn put(&mut self, stream: u32, c: u32) -> Result<(), AllocError>
        ensures ok { OnOk result (self.new ≡ after self.old (put_of self.old.scene stream c)) }
        ensures memory { OnErr result (IsTrue (put_grows self.old.scene stream c)) }
        ensures takes { OnErr result (IsTrue (takes_chars self.old.scene stream)) }
        ensures stays { OnOk result
            (IsTrue (not (takes_chars self.old.scene stream)) → IsTrue (not (takes_chars self.new.scene stream))) }

        // No chain has more streams than there are, so that more turns would do the same.
        ensures whole { (more : ℕ) → put_along (length self.old.scene.streams + more) self.old.scene stream c
            ≡ put_of self.old.scene stream c }
    {
        let streams = self.streams.len();
        self.put_along(streams, stream, c)
    }

    /// Puts a character to the stream of a text buffer window that has no echo stream; says whether it is one.
    pub fn put_text(&mut self, stream: u32, c: u32) -> Result<bool, AllocError>
        ensures value { IfOk result (λ put. put ≡ is_plain_text self.old.scene stream) }
        ensures put { IfOk result (λ put. IsTrue put → self.new ≡ after self.old (put_of self.old.scene stream c)) }
        ensures other { IfOk result (λ put. IsTrue (not put) → self.new ≡ self.old) }
        ensures memory { OnErr result (IsTrue (is_plain_text self.old.scene stream)) }
        ensures grows { OnErr result (IsTrue (put_grows self.old.scene stream c)) }
        ensures places { IsTrue (is_plain_text self.old.scene stream) → (count : ℕ)
            → (places_of self.old.scene stream count).count ≡ 0 }
        ensures current { IfOk result (λ put. IsTrue put → self.new.scene.current ≡ self.old.scene.current) }
        ensures shows { IfOk result (λ put. IsTrue put → (chars : List ℕ) → ShowsEach self.new stream chars) }
    {
        let Some((at, win)) = self.find_text(stream) else {
            return Ok(false);
        };
        self.put_found(at, win, stream, c)?;
        Ok(true)
    }

    /// Whether a stream takes the characters that are put to it: one that is open for writing, of a window only where
    /// that shows text or has an echo stream. Of any other no character is seen.
    pub fn takes(&self, stream: u32) -> bool
        requires { IsTrue (streams.has self.now.scene.streams stream) }
        ensures value { result ≡ takes_chars self.now.scene stream }
        ensures places { IsTrue (not (takes_chars self.now.scene stream)) → (count : ℕ)
            → (places_of self.now.scene stream count).count ≡ 0 }
    {
        let win = self.streams.window(stream);
        if win == 0 {
            return self.streams.writable(stream);
        }
        let entry = self.windows.entry_at(win);
        entry.kind == TEXT_BUFFER || entry.kind == TEXT_GRID || entry.echo != 0
    }

    /// Puts characters, one after another.
    #[tactic(auto, using(crate::proofs::Texts::puts_turns))]
    pub fn puts(&mut self, stream: u32, chars: &[u32]) -> Result<(), AllocError>
        ensures ok { OnOk result (self.new ≡ after self.old (put_chars self.old.scene stream chars.now)) }
        ensures memory { OnErr result (chars.now ≢ []) }
    {
        if let Some((at, win)) = self.find_text(stream) {
            return self.puts_found(at, win, stream, chars);
        }
        for c in chars {
            self.put(stream, *c)?;
        }
        Ok(())
    }

    /// Where the stream of a text buffer window stands that has no echo stream, and the window; None for any other
    /// stream.
    fn find_text(&self, stream: u32) -> Option<(usize, u32)>
        ensures value { MatchOption result (is_plain_text self.now.scene stream ≡ false)
            (λ found. (is_plain_text self.now.scene stream ≡ true)
            × (found.0 ≡ object_place streams.id_of self.now.scene.streams stream)
            × (found.1 ≡ window_of_stream self.now.scene stream)) }
        ensures places { IsTrue (is_plain_text self.now.scene stream) → (count : ℕ)
            → (places_of self.now.scene stream count).count ≡ 0 }
        ensures shows { IsTrue (is_plain_text self.now.scene stream) → (chars : List ℕ)
            → ShowsEach self.now stream chars }
    {
        let (at, win) = self.streams.find(stream)?;
        if win == 0 {
            return None;
        }
        let entry = self.windows.entry_at(win);
        if entry.kind == TEXT_BUFFER && entry.echo == 0 {
            Some((at, win))
        } else {
            None
        }
    }

    /// Puts a character to such a stream.
    fn put_found(&mut self, at: usize, win: u32, stream: u32, c: u32) -> Result<(), AllocError>
        requires text { IsTrue (is_plain_text self.old.scene stream) }
        requires place { at ≡ object_place streams.id_of self.old.scene.streams stream }
        requires window { win ≡ window_of_stream self.old.scene stream }
        ensures ok { OnOk result (self.new ≡ after self.old (put_of self.old.scene stream c)) }
        ensures memory { OnErr result (IsTrue (put_grows self.old.scene stream c)) }
        ensures text { OnOk result (IsTrue (is_plain_text self.new.scene stream)) }
        ensures place { OnOk result (at ≡ object_place streams.id_of self.new.scene.streams stream) }
        ensures window { OnOk result (win ≡ window_of_stream self.new.scene stream) }
    {
        self.streams.count(at, stream, 1);
        self.buffer_put(win, show(c))
    }

    /// Puts characters to such a stream, one after another: in one go where they are text as they come.
    #[tactic(auto, using(crate::proofs::Texts::puts_turns))]
    fn puts_found(
        &mut self,
        at: usize,
        win: u32,
        stream: u32,
        chars: &[u32],
    ) -> Result<(), AllocError>
        requires text { IsTrue (is_plain_text self.old.scene stream) }
        requires place { at ≡ object_place streams.id_of self.old.scene.streams stream }
        requires window { win ≡ window_of_stream self.old.scene stream }
        ensures ok { OnOk result (self.new ≡ after self.old (put_chars self.old.scene stream chars.now)) }
        ensures memory { OnErr result (chars.now ≢ []) }
    {
        if let Ok(count) = u32::try_from(chars.len()) {
            if self.view.is_direct() {
                return self.puts_direct(at, stream, chars, count);
            }
        }
        for c in chars {
            self.put_found(at, win, stream, *c)?;
        }
        Ok(())
    }

    /// Puts so many characters to such a stream in one go.
    fn puts_direct(
        &mut self,
        at: usize,
        stream: u32,
        chars: &[u32],
        count: u32,
    ) -> Result<(), AllocError>
        requires text { IsTrue (is_plain_text self.old.scene stream) }
        requires place { at ≡ object_place streams.id_of self.old.scene.streams stream }
        requires view { IsTrue (is_direct self.old.scene.view) }
        requires count { length chars.now ≡ count }
        ensures ok { OnOk result (self.new ≡ after self.old (put_chars self.old.scene stream chars.now)) }
        ensures memory { OnErr result (chars.now ≢ []) }
    {
        self.fresh = push_text(&mut self.text, chars, self.fresh)?;
        self.streams.count(at, stream, count);
        Ok(())
    }

    /// Puts the bytes of a slice as characters, one after another: at once where the stream takes them so.
    #[tactic(auto, using(crate::proofs::Texts::puts_turns))]
    pub fn put_bytes(&mut self, stream: u32, bytes: &[u8]) -> Result<(), AllocError>
        ensures ok { OnOk result (self.new ≡ after self.old (put_chars self.old.scene stream bytes.now)) }
        ensures memory { OnErr result (bytes.now ≢ []) }
    {
        if self.put_at_once(stream, bytes)? {
            return Ok(());
        }
        for byte in bytes {
            self.put(stream, u32::from(*byte))?;
        }
        Ok(())
    }

    /// Puts bytes to a stream that takes them at once; says whether it did.
    fn put_at_once(&mut self, stream: u32, bytes: &[u8]) -> Result<bool, AllocError>
        ensures put { IfOk result
            (λ put. IsTrue put → self.new ≡ after self.old (put_chars self.old.scene stream bytes.now)) }
        ensures other { IfOk result (λ put. IsTrue (not put) → self.new ≡ self.old) }
        ensures memory { OnErr result (bytes.now ≢ []) }
    {
        if self.streams.has(stream) {
            self.streams.put_bytes(stream, bytes)
        } else {
            Ok(false)
        }
    }

    /// The same for so many streams at most.
    #[tactic(auto, using(crate::proofs::Turns::put_turns))]
    fn put_along(&mut self, left: usize, stream: u32, c: u32) -> Result<(), AllocError>
        ensures ok { OnOk result (self.new ≡ after self.old (put_along left self.old.scene stream c)) }
        ensures memory { OnErr result (IsTrue (grows_along left self.old.scene stream c)) }
    {
        if left == 0 || !self.streams.has(stream) {
            return Ok(());
        }
        let next = self.echo_of(stream);
        self.stream_put(stream, c)?;
        self.put_along(left - 1, next, c)
    }

    /// The stream to which is put what was put to a stream, 0 for none.
    fn echo_of(&self, stream: u32) -> u32
        requires { IsTrue (streams.has self.now.scene.streams stream) }
        ensures { result ≡ echo_of self.now.scene stream }
    {
        let win = self.streams.window(stream);
        if win == 0 {
            0
        } else {
            self.windows.entry_at(win).echo
        }
    }

    /// Puts a character to one stream, and to its window if it has one.
    #[tactic(auto, using(crate::proofs::Kept::puts_kept), unfolding(crate::specs::Putting::stream_put))]
    fn stream_put(&mut self, stream: u32, c: u32) -> Result<(), AllocError>
        requires { IsTrue (streams.has self.old.scene.streams stream) }
        ensures ok { OnOk result (self.new ≡ after self.old (stream_put self.old.scene stream c)) }
        ensures memory { OnErr result (IsTrue (stream_grows self.old.scene stream c)) }
    {
        let win = self.streams.window(stream);
        self.streams.put(stream, c)?;
        if win == 0 {
            Ok(())
        } else {
            self.window_put(win, c)
        }
    }

    /// Puts a character to a window, as it is shown.
    #[tactic(auto, using(crate::proofs::Kept::windows_kept), unfolding(crate::specs::Putting::window_put))]
    fn window_put(&mut self, win: u32, c: u32) -> Result<(), AllocError>
        ensures ok { OnOk result
            (self.new ≡ after self.old (window_put self.old.scene (window_entry self.old.scene.windows.entries win) win
            c)) }
        ensures memory { OnErr result ((window_entry self.old.scene.windows.entries win).kind ≡ text_buffer) }
    {
        if self.windows.entry_at(win).kind == TEXT_BUFFER {
            self.buffer_put(win, show(c))
        } else {
            self.windows.put(win, u32::from(show(c)));
            Ok(())
        }
    }

    /// Puts a character to a text buffer window: to the text, or to the composed screen.
    #[tactic(auto, using(crate::proofs::Texts::silences), unfolding(crate::specs::Putting::buffer_put))]
    fn buffer_put(&mut self, win: u32, c: char) -> Result<(), AllocError>
        ensures { OnOk result (self.new ≡ after self.old (buffer_put self.old.scene win c)) }
    {
        if self.view == View::Screen {
            self.screen.put(win, u32::from(c))
        } else {
            self.show(c)
        }
    }

    /// Adds a character to the text, by way of the row where text is wrapped.
    #[tactic(auto, unfolding(crate::specs::Putting::flowed))]
    fn show(&mut self, c: char) -> Result<(), AllocError>
        ensures { OnOk result (self.new ≡ after self.old (said_char self.old.scene c)) }
    {
        if self.view.wraps() {
            self.row.put(&mut self.text, c)?;
        } else {
            self.text.push(c)?;
        }
        self.fresh = u32::from(c) == LINE_FEED;
        Ok(())
    }

    /// The stream where a chain of echo streams ends, if it has so many at most.
    #[tactic(auto, using(crate::proofs::Turns::end_turns))]
    fn end_along(&self, left: usize, stream: u32) -> u32
        requires { IsTrue (streams.has self.now.scene.streams stream) }
        ensures value { result ≡ end_along left self.now.scene stream }
        ensures there { IsTrue (streams.has self.now.scene.streams result) }
    {
        if left == 0 {
            return stream;
        }
        let next = self.echo_of(stream);
        if self.streams.has(next) {
            self.end_along(left - 1, next)
        } else {
            stream
        }
    }

    /// The places of memory that so many characters put to a stream use: those of the stream where its chain of
    /// echo streams ends, if that is a memory stream that is open for writing.
    pub fn places(&self, stream: u32, count: u32) -> Places
        requires { IsTrue (streams.has self.now.scene.streams stream) }
        ensures value { result ≡ places_of self.now.scene stream count }
        ensures at { result.at < 2 ^ 40 }
        ensures width { result.width ≤ 4 }
        ensures count { result.count ≤ count }

        // A longer walk ends at the same stream.
        ensures whole { (more : ℕ)
            → end_along (length self.now.scene.streams + more) self.now.scene stream ≡ chain_end self.now.scene stream }
    {
        let last = self.end_along(self.streams.len(), stream);
        if self.streams.writable(last) {
            self.streams.places(last, count)
        } else {
            NO_PLACES
        }
    }

    /// The places of memory that so many characters got from a stream use, if it is a memory stream that is open
    /// for reading.
    pub fn places_read(&self, stream: u32, count: u32) -> Places
        requires { IsTrue (streams.has self.now.scene.streams stream) }
        ensures value { result ≡ places_read self.now.scene stream count }
        ensures at { result.at < 2 ^ 40 }
        ensures width { result.width ≤ 4 }
        ensures count { result.count ≤ count }
    {
        if self.streams.readable(stream) {
            self.streams.places(stream, count)
        } else {
            NO_PLACES
        }
    }

    /// Gets the next character; None where the stream isn't open for reading or is at its end. For a memory
    /// stream `found` is the number that stands at the place.
    #[tactic(auto, using(crate::proofs::Kept::streams_kept), unfolding(crate::specs::Calls::char_got))]
    pub fn get(&mut self, stream: u32, found: u32) -> Option<u32>
        requires { IsTrue (streams.has self.old.scene.streams stream) }
        ensures value { result ≡ option_map (λ (got : ℕ × ℕ). got.0)
            (one.read_next (streams.stream self.old.scene.streams stream) found) }
        ensures new { self.new ≡ after self.old (silent (char_got self.old.scene stream found)) }
    {
        self.streams.get(stream, found)
    }

    /// Counts so many characters as read, and moves to the position behind them.
    #[tactic(auto, using(crate::proofs::Kept::streams_kept), unfolding(crate::specs::Calls::chars_got))]
    pub fn pass(&mut self, stream: u32, position: u32, count: u32)
        requires there { IsTrue (streams.has self.old.scene.streams stream) }
        requires within { position ≤ one.end_position (streams.stream self.old.scene.streams stream) }
        ensures { self.new ≡ after self.old (silent (chars_got self.old.scene stream position count)) }
    {
        self.streams.pass(stream, position, count);
    }

    /// Whether a stream's chain of echo streams comes to a window, within so many streams.
    #[tactic(auto, using(crate::proofs::Turns::leads_turns))]
    fn leads_along(&self, left: usize, stream: u32, win: u32) -> bool
        ensures { result ≡ leads_along left self.now.scene stream win }
    {
        if left == 0 || !self.streams.has(stream) {
            return false;
        }
        self.streams.window(stream) == win || self.leads_along(left - 1, self.echo_of(stream), win)
    }

    /// Sets a window's echo stream, 0 for none; nothing changes where that would lead back to the window.
    #[tactic(auto, using(crate::proofs::Kept::windows_kept), unfolding(crate::specs::Calls::with_echo))]
    pub fn set_echo(&mut self, win: u32, stream: u32)
        requires window { IsTrue (windows.is_window self.old.scene.windows win) }
        requires echo { stream ≡ 0 ⊎ IsTrue (streams.has self.old.scene.streams stream) }
        ensures new { self.new ≡ after self.old (silent (with_echo self.old.scene win stream)) }

        // A longer walk comes to the window just the same.
        ensures whole { (more : ℕ) → leads_along (length self.old.scene.streams + more) self.old.scene stream win
            ≡ leads_to self.old.scene stream win }
    {
        if !self.leads_along(self.streams.len(), stream, win) {
            self.windows.set_echo(win, stream);
        }
    }
}

/// Adds characters as they are shown; says whether nothing was shown since a line feed, as was so before or not.
#[tactic(auto, using(crate::proofs::Texts::text_turns))]
fn push_text(text: &mut String, chars: &[u32], fresh: bool) -> Result<bool, AllocError>
    ensures text { OnOk result
        (string_bytes text.new ≡ string_bytes text.old ++ encode_utf8_all (map shown chars.now)) }
    ensures fresh { IfOk result (λ now. now ≡ fresh_after fresh chars.now) }
    ensures memory { OnErr result (chars.now ≢ []) }
{
    let mut fresh = fresh;
    for c in chars {
        let shown = show(*c);
        text.push(shown)?;
        fresh = u32::from(shown) == LINE_FEED;
    }
    Ok(fresh)
}
