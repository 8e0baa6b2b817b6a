//! Windows, streams, file references and requests are made, changed and taken away.
ghost use Rattle.std.specs.Prelude.{◌≡◌, [], ◌+◌, ◌≤◌, ◌<◌, ◌^◌, ◌⊎◌, None, Some, is_some, OnOk, OnErr, IfOk, IsTrue};
ghost use Rattle.std.specs.Prelude.{length, if◌then◌else◌};
ghost use Rattle.glk_objects.specs.Objects as objects;
ghost use Rattle.glk_streams.specs.Constants.{largest};
ghost use Rattle.glk_streams.specs.Stream as one;
ghost use Rattle.glk_streams.specs.Streams as streams;
ghost use Rattle.glk_streams.specs.Sound.{IsSoundKind};
ghost use Rattle.glk_windows.specs.Windows as windows;
ghost use Rattle.glk_windows.specs.Windows.{no_windows, last_given};
ghost use Rattle.glk_windows.specs.Changes.{closing_grows, arranging_grows};
ghost use Rattle.glk_events.specs.Requests as requests;
ghost use Rattle.glk_screen.specs.Texts.{screen_gone};
ghost use Rattle.glk_world.specs.World.{after, silent, has_reference, reference_id};
ghost use Rattle.glk_world.specs.Shown.{line_taken};
ghost use Rattle.glk_world.specs.Calls.{is_identifier, new_id, with_reference, without_reference, can_open};
ghost use Rattle.glk_world.specs.Calls.{with_streams, with_window, without_each};
ghost use Rattle.glk_world.specs.Calls.{window_counts, without_window, with_arrangement, window_cleared};
ghost use Rattle.glk_world.specs.Calls.{cursor_moved};
ghost use Rattle.glk_world.specs.Calls.{with_new_stream, without_stream, without_file, repositioned};

use crate::{FileReference, LAST_IDENTIFIER, World};
use glk_events::{Request, Requests};
use glk_objects::place;
use glk_screen::Screen;
use glk_streams::{StreamKind, Streams, WRITE};
use glk_windows::Windows;
use gx_words::{Bytes, Name};
use std::alloc::{AllocError, Global};

impl World {
    /// Makes a file reference; answers its identifier, 0 where there is none left.
    #[tactic(auto, using(crate::proofs::Kept::references_kept), unfolding(crate::specs::Calls::with_reference))]
    pub fn add_ref(&mut self, base: Name, usage: u32, rock: u32) -> Result<u32, AllocError>
        ensures new { OnOk result (self.new ≡ after self.old (silent (with_reference self.old.scene base usage rock))) }
        ensures value { IfOk result (λ id. id ≡ new_id self.old.scene) }
        ensures memory { OnErr result (IsTrue (is_identifier self.old.scene.next_id)) }
    {
        let id = self.next_id;
        if id > LAST_IDENTIFIER {
            return Ok(0);
        }
        self.references.push(FileReference {
            id,
            base,
            usage,
            rock,
        })?;
        self.next_id = id + 1;
        Ok(id)
    }

    /// Takes a file reference away; streams that were opened by it stay.
    #[tactic(auto, using(crate::proofs::Kept::references_kept), unfolding(crate::specs::Calls::without_reference))]
    pub fn remove_ref(&mut self, id: u32)
        requires { IsTrue (has_reference self.old.scene id) }
        ensures { self.new ≡ after self.old (silent (without_reference self.old.scene id)) }
    {
        remove_reference(&mut self.references, id);
    }

    /// Opens a window: the first one with `split` 0, any other beside the window that is split. Answers its
    /// identifier, and 0 where the rules of windows don't allow it or identifiers are used up.
    #[tactic(auto, using(crate::proofs::Kept::both_kept), unfolding(crate::specs::Calls::with_window))]
    pub fn add_window(
        &mut self,
        split: u32,
        method: u32,
        size: u32,
        kind: u32,
        rock: u32,
    ) -> Result<u32, AllocError>
        requires { split ≡ 0 ⊎ IsTrue (windows.is_window self.old.scene.windows split) }
        ensures new { OnOk result
            (self.new ≡ after self.old (silent (with_window self.old.scene split method size kind rock))) }
        ensures value { IfOk result (λ id. id
            ≡ (if can_open self.old.scene split method kind then self.old.scene.next_id else 0)) }
        ensures memory { OnErr result (IsTrue (can_open self.old.scene split method kind)) }
    {
        let id = self.next_id;
        let made = if split == 0 { 2 } else { 4 };
        if !self.windows.can_add(split, method, kind) || id > LAST_IDENTIFIER - (made - 1) {
            return Ok(0);
        }
        self.next_id = id + made;
        let added = self.windows.add(split, method, size, kind, rock, id);
        or_none(&mut self.windows, &mut self.streams, self.alloc, added)?;
        let added = add_streams(&mut self.streams, split, id);
        or_none(&mut self.windows, &mut self.streams, self.alloc, added)?;
        Ok(id)
    }

    /// Closes a window, with all windows below it and their pair; answers the counts of its stream.
    #[tactic(auto, using(crate::proofs::Kept::both_kept), unfolding(crate::specs::Calls::without_window))]
    pub fn remove_window(&mut self, win: u32) -> Result<(u32, u32), AllocError>
        requires { IsTrue (windows.is_window self.old.scene.windows win) }
        ensures new { OnOk result (self.new ≡ after self.old (silent (without_window self.old.scene win))) }
        ensures value { IfOk result (λ counts. counts ≡ window_counts self.old.scene win) }
        ensures memory { OnErr result (IsTrue (closing_grows self.old.scene.windows win)) }
    {
        let counts = self.streams.counts(self.windows.entry_at(win).stream);
        let removed = self.windows.remove(win);
        let gone = or_none(&mut self.windows, &mut self.streams, self.alloc, removed)?;
        self.streams.remove_windows(gone.as_slice());
        drop_requests(&mut self.requests, gone.as_slice());
        drop_texts(&mut self.screen, gone.as_slice());
        self.current = unless_gone(&self.streams, self.current);
        Ok(counts)
    }

    /// Gives a pair window another method, size and, unless it is 0, key; nothing changes where the rules of
    /// windows don't allow it.
    #[tactic(auto, using(crate::proofs::Kept::windows_kept), unfolding(crate::specs::Calls::with_arrangement))]
    pub fn arrange(&mut self, win: u32, method: u32, size: u32, key: u32) -> Result<(), AllocError>
        ensures ok { OnOk result
            (self.new ≡ after self.old (silent (with_arrangement self.old.scene win method size key))) }
        ensures memory { OnErr result (IsTrue (arranging_grows self.old.scene.windows win method size key)) }
    {
        let changed = self.windows.arrange(win, method, size, key);
        or_none(&mut self.windows, &mut self.streams, self.alloc, changed)
    }

    /// Clears a window's grid, or its text on the composed screen; nothing changes where it has none.
    #[tactic(auto, using(crate::proofs::Kept::windows_kept), unfolding(crate::specs::Calls::window_cleared))]
    pub fn clear_window(&mut self, win: u32)
        ensures { self.new ≡ after self.old (silent (window_cleared self.old.scene win)) }
    {
        self.windows.clear(win);
        self.screen.clear(win);
    }

    /// Moves the cursor of a window's grid; nothing changes where it has none.
    #[tactic(auto, using(crate::proofs::Kept::windows_kept), unfolding(crate::specs::Calls::cursor_moved))]
    pub fn move_cursor(&mut self, win: u32, x: u32, y: u32)
        ensures { self.new ≡ after self.old (silent (cursor_moved self.old.scene win x y)) }
    {
        self.windows.move_cursor(win, x, y);
    }

    /// Opens a stream of memory or of a file; answers its identifier, 0 where there is none left.
    #[tactic(auto, using(crate::proofs::Kept::streams_kept), unfolding(crate::specs::Calls::with_new_stream))]
    pub fn add_stream(&mut self, kind: StreamKind, mode: u32, rock: u32) -> Result<u32, AllocError>
        requires own { one.window_in kind ≡ 0 }
        requires mode { IsTrue (one.allows_mode kind mode) }
        requires kind { IsSoundKind kind }
        ensures new { OnOk result (self.new ≡ after self.old (silent (with_new_stream self.old.scene kind mode rock))) }
        ensures value { IfOk result (λ id. id ≡ new_id self.old.scene) }
        ensures memory { OnErr result (IsTrue (is_identifier self.old.scene.next_id)) }
    {
        let id = self.next_id;
        if id > LAST_IDENTIFIER {
            return Ok(0);
        }
        self.next_id = id + 1;
        self.streams.add(id, kind, mode, rock)?;
        Ok(id)
    }

    /// Closes a stream that isn't a window's; as the current stream or an echo stream it becomes none.
    #[tactic(auto, using(crate::proofs::Kept::both_kept), unfolding(crate::specs::Calls::without_stream))]
    pub fn remove_stream(&mut self, id: u32)
        requires there { IsTrue (streams.has self.old.scene.streams id) }
        requires own { one.window_of (streams.stream self.old.scene.streams id) ≡ 0 }
        ensures { self.new ≡ after self.old (silent (without_stream self.old.scene id)) }
    {
        self.streams.remove(id);
        self.windows.forget_stream(id);
        if self.current == id {
            self.current = 0;
        }
    }

    /// Takes the full name and the content of a file out of its stream, which stays and goes nowhere.
    #[tactic(auto, using(crate::proofs::Kept::streams_kept), unfolding(crate::specs::Calls::without_file))]
    pub fn take_file(&mut self, id: u32) -> (Name, Bytes)
        requires there { IsTrue (streams.has self.old.scene.streams id) }
        requires file { IsTrue (is_some (streams.file_of self.old.scene.streams id)) }
        ensures value { streams.file_of self.old.scene.streams id ≡ Some result }
        ensures fits { length result.1 ≤ largest }
        ensures new { self.new ≡ after self.old (silent (without_file self.old.scene id)) }
    {
        self.streams.take_file(id)
    }

    /// Sets a stream's position, which `pos` counts as a signed number from the start, the position or the end.
    #[tactic(auto, using(crate::proofs::Kept::streams_kept), unfolding(crate::specs::Calls::repositioned))]
    pub fn set_position(&mut self, id: u32, pos: u32, seek: u32)
        requires { IsTrue (streams.has self.old.scene.streams id) }
        ensures { self.new ≡ after self.old (silent (repositioned self.old.scene id pos seek)) }
    {
        self.streams.set_position(id, pos, seek);
    }

    /// Makes a request of a window that has none.
    pub fn ask(&mut self, request: Request) -> Result<(), AllocError>
        requires { requests.of self.old.scene.requests request.win ≡ None }
        ensures ok { OnOk result (self.new ≡ after self.old (silent
            (record self.old.scene { requests = requests.with_request self.old.scene.requests request }))) }
        ensures err { OnErr result (self.new ≡ self.old) }
    {
        self.requests.add(request)
    }

    /// Drops the request of a window; nothing changes where it has none.
    pub fn drop_request(&mut self, win: u32)
        ensures { self.new ≡ after self.old
            (silent (record self.old.scene { requests = requests.removed self.old.scene.requests win })) }
    {
        self.requests.remove(win);
    }

    /// Notes that a line was taken: nothing was shown since then.
    pub fn line_taken(&mut self)
        ensures { self.new ≡ after self.old (silent (line_taken self.old.scene)) }
    {
        self.row.restart();
        self.fresh = true;
    }
}

/// Takes the file reference of an identifier away.
#[tactic(auto, using(glk_objects::proofs::Places::places))]
fn remove_reference(references: &mut Vec<FileReference>, id: u32)
    requires rises { objects.AreRising reference_id references.old.items }
    requires there { IsTrue (objects.has reference_id references.old.items id) }
    ensures { references.new.items ≡ objects.all_but reference_id references.old.items id }
{
    let at = place(references, id);
    references.remove(at);
}

/// What a change of windows or of their streams answered. After want of memory both can only be dropped, and they are:
/// none are left.
fn or_none<T>(
    windows: &mut Windows,
    streams: &mut Streams,
    alloc: Global,
    changed: Result<T, AllocError>,
) -> Result<T, AllocError>
    ensures same { result ≡ changed }
    ensures ok { OnOk result ((windows.new ≡ windows.old) × (streams.new ≡ streams.old)) }
    ensures err { OnErr result ((windows.new ≡ no_windows 1 1) × (streams.new ≡ [])) }
{
    if changed.is_err() {
        *windows = Windows::new(alloc, 1, 1);
        *streams = Streams::new(alloc);
    }
    changed
}

/// Adds the streams of a window of this identifier and, beside another window, of its pair.
#[tactic(auto, using(crate::proofs::Kept::streams_kept, crate::proofs::Kept::opening_kept))]
fn add_streams(all: &mut Streams, split: u32, id: u32) -> Result<(), AllocError>
    requires above { objects.IsAboveAll streams.id_of all.old id }
    requires last { last_given split id < 2 ^ 32 }
    ensures ok { OnOk result (all.new ≡ with_streams all.old split id) }
    ensures above { objects.IsAboveAll streams.id_of all.new (last_given split id + 1) }
{
    all.add(id + 1, StreamKind::Window(id), WRITE, 0)?;
    if split != 0 {
        all.add(id + 3, StreamKind::Window(id + 2), WRITE, 0)?;
    }
    Ok(())
}

/// Drops the requests of windows that are gone.
#[tactic(auto, using(crate::proofs::Requests::turns))]
fn drop_requests(asked: &mut Requests, gone: &[u32])
    ensures { asked.new ≡ without_each requests.removed asked.old gone.now }
{
    for win in gone {
        asked.remove(*win);
    }
}

/// Forgets the texts of windows that are gone.
#[tactic(auto, using(crate::proofs::Requests::turns))]
fn drop_texts(screen: &mut Screen, gone: &[u32])
    ensures { screen.new ≡ without_each screen_gone screen.old gone.now }
{
    for win in gone {
        screen.gone(*win);
    }
}

/// The current stream, none where it is gone.
fn unless_gone(left: &Streams, current: u32) -> u32
    ensures { result ≡ (if streams.has left.now current then current else 0) }
{
    if left.has(current) { current } else { 0 }
}
