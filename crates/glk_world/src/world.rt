//! The world of a run, and what can be looked at.
ghost use Rattle.std.specs.Prelude.{ℕ, ◌≡◌, ◌≢◌, ◌≤◌, ◌+◌, [], length, map, IfOk, OnErr, MatchOption, None, true};
ghost use Rattle.std.specs.Prelude.{false};
ghost use Rattle.glk_objects.specs.Objects.{next, met_from};
ghost use Rattle.glk_streams.specs.Streams as streams;
ghost use Rattle.glk_windows.specs.Windows.{entry_id};
ghost use Rattle.glk_world.specs.declared.views.View.TheVariants as view;
ghost use Rattle.glk_world.specs.World.{after, silent, empty_world, has_reference, reference_at, reference_id};
ghost use Rattle.glk_world.specs.World.{arg, waits, is_wrapping};
ghost use Rattle.glk_world.specs.Kept.{flat_call, waiting_of};

use crate::{FileReference, ShownGrid, View};
use arrayvec::ArrayVec;
use glk_events::Requests;
use glk_objects::{next, place};
use glk_screen::{Screen, Wrapper};
use glk_streams::Streams;
use glk_windows::Windows;
use gx_words::Numbers;
use std::alloc::{AllocError, Global};
use std::marker::Model;

/// A Glk call that waits to go on.
#[derive(Drop)]
pub struct Waiting {
    pub selector: u32,
    pub args: ArrayVec<u32, 8>,
}

/// An argument of a call, counted from 0; one that isn't there is 0.
pub fn arg(args: &[u32], i: usize) -> u32
    ensures { result ≡ arg args.now i }
{
    args.get(i).copied().unwrap_or(0)
}

/// The world of a run.
#[derive(Drop)]
pub struct World {
    pub(crate) alloc: Global,
    pub(crate) windows: Windows,
    pub(crate) view: View,
    /// The grids as they were shown last, behind a bar.
    pub(crate) shown: Vec<ShownGrid>,
    /// The texts of buffer windows, where the screen is composed.
    pub(crate) screen: Screen,
    pub(crate) last_screen: Option<String>,
    pub(crate) streams: Streams,
    pub(crate) references: Vec<FileReference>,
    pub(crate) requests: Requests,
    pub(crate) current: u32,
    pub(crate) next_id: u32,
    /// The present row of text, where it is wrapped.
    pub(crate) row: Wrapper,
    pub(crate) fresh: bool,
    pub(crate) waiting: Option<Waiting>,
    pub(crate) text: String,
}

impl Model for World {
    ghost use Rattle.glk_world.specs.World.{FlatWorld};
    ghost use Rattle.glk_world.specs.Stored.{world_code};

    ghost Value = { FlatWorld };

    ghost coded = { world_code };

    ghost use Rattle.glk_world.specs.Kept.{flat_of, WorldInvariant};

    ghost view = { flat_of };

    ghost invariant = { WorldInvariant };
}

impl World {
    /// An empty world on a screen of so many columns and rows, each from 1 to 255. Rows of grids are shown
    /// behind a bar.
    pub fn new(alloc: Global, columns: u32, rows: u32) -> World
        requires columns { (1 ≤ columns) × (columns ≤ 255) }
        requires rows { (1 ≤ rows) × (rows ≤ 255) }
        ensures { result ≡ empty_world view.Rows columns rows }
    {
        World::viewed(alloc, View::Rows, columns, rows)
    }

    /// The same, where grids are shown nowhere.
    pub fn plain(alloc: Global, columns: u32, rows: u32) -> World
        requires columns { (1 ≤ columns) × (columns ≤ 255) }
        requires rows { (1 ≤ rows) × (rows ≤ 255) }
        ensures { result ≡ empty_world view.Plain columns rows }
    {
        World::viewed(alloc, View::Plain, columns, rows)
    }

    /// The same, where the whole screen is shown at each wait.
    pub fn screened(alloc: Global, columns: u32, rows: u32) -> World
        requires columns { (1 ≤ columns) × (columns ≤ 255) }
        requires rows { (1 ≤ rows) × (rows ≤ 255) }
        ensures { result ≡ empty_world view.Screen columns rows }
    {
        World::viewed(alloc, View::Screen, columns, rows)
    }

    /// Rows of grids are shown behind a bar, and text is wrapped.
    pub fn wrapped(alloc: Global, columns: u32, rows: u32) -> World
        requires columns { (1 ≤ columns) × (columns ≤ 255) }
        requires rows { (1 ≤ rows) × (rows ≤ 255) }
        ensures { result ≡ empty_world view.WrappedRows columns rows }
    {
        World::viewed(alloc, View::WrappedRows, columns, rows)
    }

    /// Grids are shown nowhere, and text is wrapped.
    pub fn wrapped_plain(alloc: Global, columns: u32, rows: u32) -> World
        requires columns { (1 ≤ columns) × (columns ≤ 255) }
        requires rows { (1 ≤ rows) × (rows ≤ 255) }
        ensures { result ≡ empty_world view.WrappedPlain columns rows }
    {
        World::viewed(alloc, View::WrappedPlain, columns, rows)
    }

    fn viewed(alloc: Global, view: View, columns: u32, rows: u32) -> World
        requires columns { (1 ≤ columns) × (columns ≤ 255) }
        requires rows { (1 ≤ rows) × (rows ≤ 255) }
        ensures { result ≡ empty_world view columns rows }
    {
        World {
            alloc,
            windows: Windows::new(alloc, columns, rows),
            view,
            shown: Vec::new(alloc),
            screen: Screen::new(alloc),
            last_screen: None,
            streams: Streams::new(alloc),
            references: Vec::new(alloc),
            requests: Requests::new(alloc),
            current: 0,
            next_id: 1,
            row: Wrapper::new(alloc, columns),
            fresh: true,
            waiting: None,
            text: String::new(alloc),
        }
    }

    /// The allocator from which the world takes its memory, which no contract sees; to ask for it takes none.
    pub fn alloc(&self) -> Global {
        self.alloc
    }

    /// The text that wasn't sent yet, as UTF-8.
    pub fn pending(&self) -> &[u8]
        ensures { result.now ≡ self.now.text }
    {
        self.text.as_bytes()
    }

    /// Notes that the text was sent.
    pub fn sent(&mut self)
        ensures { self.new ≡ record self.old { text = [] } }
    {
        self.text.clear();
    }

    /// Whether text is wrapped.
    pub fn wraps(&self) -> bool
        ensures { result ≡ is_wrapping self.now.scene }
    {
        self.view.wraps()
    }

    pub fn windows(&self) -> &Windows
        ensures { result.now ≡ self.now.scene.windows }
    {
        &self.windows
    }

    pub fn streams(&self) -> &Streams
        ensures { result.now ≡ self.now.scene.streams }
    {
        &self.streams
    }

    pub fn requests(&self) -> &Requests
        ensures { result.now ≡ self.now.scene.requests }
    {
        &self.requests
    }

    /// The current stream, 0 for none.
    pub fn current(&self) -> u32
        ensures { result ≡ self.now.scene.current }
    {
        self.current
    }

    /// Sets the current stream, 0 for none.
    pub fn set_current(&mut self, stream: u32)
        ensures { self.new ≡ after self.old (silent (record self.old.scene { current = stream })) }
    {
        self.current = stream;
    }

    /// The identifier of the next object.
    pub fn next_id(&self) -> u32
        ensures { result ≡ self.now.scene.next_id }
    {
        self.next_id
    }

    /// The least identifier of a window above a number, 0 where there is none.
    pub fn next_window(&self, id: u32) -> u32
        ensures value { result ≡ next entry_id self.now.scene.windows.entries id }
        // Going on from one to the next meets each window once, in order of creation.
        ensures each { (more : ℕ)
            → met_from entry_id (length self.now.scene.windows.entries + more) self.now.scene.windows.entries 0
            ≡ map entry_id self.now.scene.windows.entries }
    {
        self.windows.next(id)
    }

    /// The same of a stream.
    pub fn next_stream(&self, id: u32) -> u32
        ensures value { result ≡ next streams.id_of self.now.scene.streams id }
        ensures each { (more : ℕ)
            → met_from streams.id_of (length self.now.scene.streams + more) self.now.scene.streams 0
            ≡ map streams.id_of self.now.scene.streams }
    {
        self.streams.next(id)
    }

    /// The same of a file reference.
    #[tactic(auto, using(glk_objects::proofs::Meeting::meets_each))]
    pub fn next_ref(&self, id: u32) -> u32
        ensures value { result ≡ next reference_id self.now.scene.references id }
        ensures each { (more : ℕ)
            → met_from reference_id (length self.now.scene.references + more) self.now.scene.references 0
            ≡ map reference_id self.now.scene.references }
    {
        next(&self.references, id)
    }

    /// The base name, the usage and the rock of a file reference; None where none has the identifier.
    #[tactic(auto, using(glk_objects::proofs::Places::places))]
    pub fn file_ref(&self, id: u32) -> Option<(&str, u32, u32)>
        ensures { MatchOption result (has_reference self.now.scene id ≡ false)
            (λ r. (has_reference self.now.scene id ≡ true)
            × (record { id = id; base = r.0.now; usage = r.1; rock = r.2 } ≡ reference_at self.now.scene id)) }
    {
        let at = place(&self.references, id);
        if at < self.references.len() {
            let reference = &self.references[at];
            Some((reference.base.as_str(), reference.usage, reference.rock))
        } else {
            None
        }
    }

    /// The same with its name, which it lends.
    #[tactic(auto, using(glk_objects::proofs::Places::places))]
    pub fn reference(&self, id: u32) -> Option<&FileReference>
        ensures { MatchOption result (has_reference self.now.scene id ≡ false)
            (λ r. (has_reference self.now.scene id ≡ true) × (r.now ≡ reference_at self.now.scene id)) }
    {
        let at = place(&self.references, id);
        self.references.get(at)
    }

    /// The call that waits to go on.
    pub fn waiting(&self) -> Option<&Waiting>
        ensures { MatchOption result (self.now.scene.waiting ≡ None)
            (λ call. self.now.scene.waiting ≡ Some (flat_call call.now)) }
    {
        self.waiting.as_ref()
    }

    /// The same, which then waits no longer.
    pub fn take_waiting(&mut self) -> Option<Waiting>
        ensures value { waiting_of result ≡ self.old.scene.waiting }
        ensures new { self.new ≡ after self.old (silent (record self.old.scene { waiting = None })) }
    {
        self.waiting.take()
    }

    /// Notes that a call waits, with its first three arguments.
    pub fn wait(&mut self, selector: u32, args: &[u32])
        ensures { self.new ≡ after self.old (silent (waits self.old.scene selector args.now)) }
    {
        let mut kept = ArrayVec::new();
        kept.push(arg(args, 0));
        kept.push(arg(args, 1));
        kept.push(arg(args, 2));
        self.waiting = Some(Waiting {
            selector,
            args: kept,
        });
    }

    pub fn set_waiting(&mut self, call: Option<Waiting>)
        ensures { self.new ≡ after self.old (silent (record self.old.scene { waiting = waiting_of call })) }
    {
        self.waiting = call;
    }

    /// The streams that have to be stored at the end: files that are open for writing.
    pub fn open_files(&self, alloc: Global) -> Result<Numbers, AllocError>
        ensures value { IfOk result (λ ids. ids ≡ streams.open_files self.now.scene.streams) }
        ensures memory { OnErr result (streams.open_files self.now.scene.streams ≢ []) }
    {
        self.streams.open_files(alloc)
    }

    /// The full name and the content of a file; None where no file stream has the identifier.
    pub fn file(&self, id: u32) -> Option<(&str, &[u8])>
        ensures { MatchOption result (streams.file_of self.now.scene.streams id ≡ None)
            (λ file. streams.file_of self.now.scene.streams id ≡ Some (file.0.now, file.1.now)) }
    {
        self.streams.file(id)
    }
}
