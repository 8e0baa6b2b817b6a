//! What is known of a window beside its place in the tree.
ghost use Rattle.std.specs.Prelude.{◌≡◌, ◌+◌, ◌<◌, ◌^◌, map, count_by, not, ◌==◌, IsTrue};
ghost use Rattle.glk_objects.specs.Objects as objects;
ghost use Rattle.glk_windows.specs.Windows.{entry_id, window_entry};
ghost use Rattle.glk_windows.specs.Changes.{new_entry, forgetting};

use crate::methods::PAIR;
use crate::tree::is_among;
use glk_objects::{Object, place};

/// All that a story sees of a window.
#[derive(Clone, Copy, Debug, PartialEq, Eq)]
pub struct Window {
    pub id: u32,
    /// Its type: `PAIR`, `BLANK_WINDOW`, `TEXT_BUFFER` or `TEXT_GRID`.
    pub kind: u32,
    pub rock: u32,
    /// The identifier of its stream.
    pub stream: u32,
    /// The identifier of its echo stream, 0 for none.
    pub echo: u32,
    /// The identifier of the pair window above it, 0 for the root.
    pub parent: u32,
}

/// What is known of a window beside its place.
#[derive(Clone, Copy, Debug, PartialEq, Eq)]
pub struct Entry {
    pub id: u32,
    /// Its type: `PAIR`, `BLANK_WINDOW`, `TEXT_BUFFER` or `TEXT_GRID`.
    pub kind: u32,
    pub rock: u32,
    /// The identifier of its stream.
    pub stream: u32,
    /// The identifier of its echo stream, 0 for none.
    pub echo: u32,
}

impl Object for Entry {
    ghost id_of = { λ e. e.id };

    fn id(&self) -> u32 {
        self.id
    }
}

/// A new window or pair, with its stream behind it.
pub(crate) fn new_entry(id: u32, kind: u32, rock: u32) -> Entry
    requires { id + 1 < 2 ^ 32 }
    ensures { result ≡ new_entry id kind rock }
{
    Entry {
        id,
        kind,
        rock,
        stream: id + 1,
        echo: 0,
    }
}

/// The entry of a window, or one of zeros.
#[tactic(auto, using(glk_objects::proofs::Places::places))]
pub(crate) fn entry_at(entries: &[Entry], win: u32) -> Entry
    requires { objects.AreRising entry_id entries.now }
    ensures { result ≡ window_entry entries.now win }
{
    let at = place(entries, win);
    if at < entries.len() {
        entries[at]
    } else {
        Entry {
            id: 0,
            kind: 0,
            rock: 0,
            stream: 0,
            echo: 0,
        }
    }
}

/// How many windows aren't pairs.
pub(crate) fn leaf_count(entries: &[Entry]) -> usize
    ensures { result ≡ count_by (λ e. not (e.kind == PAIR)) entries.now }
{
    entries.iter().filter(|entry| entry.kind != PAIR).count()
}

/// Sets a window's echo stream.
#[tactic(auto, using(glk_objects::proofs::Places::places, crate::proofs::Lists::forgets))]
pub(crate) fn set_echo(entries: &mut Vec<Entry>, win: u32, stream: u32)
    requires rises { objects.AreRising entry_id entries.old.items }
    requires there { IsTrue (objects.has entry_id entries.old.items win) }
    ensures value { entries.new.items
        ≡ objects.with entry_id entries.old.items (record (window_entry entries.old.items win) { echo = stream }) }
    ensures rises { objects.AreRising entry_id entries.new.items }
{
    let at = place(entries, win);
    entries[at].echo = stream;
}

/// An echo stream that is gone becomes none.
#[tactic(auto, unfolding(crate::specs::Changes::forgetting))]
fn forgetting(streams: &[u32], entry: Entry) -> Entry
    ensures value { result ≡ forgetting streams.now entry }
    ensures id { result.id ≡ entry.id }
{
    if is_among(streams, entry.echo) {
        Entry { echo: 0, ..entry }
    } else {
        entry
    }
}

/// Echo streams that are gone become none.
#[tactic(auto, using(crate::proofs::Lists::forgets))]
pub(crate) fn forget(streams: &[u32], entries: &mut Vec<Entry>)
    requires { objects.AreRising entry_id entries.old.items }
    ensures value { entries.new.items ≡ map (forgetting streams.now) entries.old.items }
    ensures rises { objects.AreRising entry_id entries.new.items }
{
    for at in 0..entries.len() {
        entries[at] = forgetting(streams, entries[at]);
    }
}
