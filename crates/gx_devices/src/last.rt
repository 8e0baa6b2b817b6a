//! What the folder knows of its last call.
ghost use Rattle.std.specs.Prelude.{◌≡◌, MatchOption, codes, option_copied};
ghost use Rattle.gx_devices.specs.Last.{IsCallOf, found_of, front_of};

use gx_outside::Load;
use std::alloc::Global;
use std::io;
use std::marker::Model;

/// How many of a file's first bytes are kept: as many as a story's header has.
pub const FRONT_LEN: usize = 36;

/// What was asked of a file.
#[derive(Clone, Copy, Debug, PartialEq, Eq)]
pub enum Act {
    /// Its bytes.
    Read,
    /// That it hold other bytes.
    Store,
    /// That it be removed.
    Remove,
    /// Whether it is there.
    Find,
}

/// What was read of a file.
#[derive(Clone, Copy, Debug)]
pub struct Found {
    /// How many bytes it has.
    pub len: usize,
    /// Its first bytes, and zeros where it has none.
    pub front: [u8; FRONT_LEN],
}

/// The last call of the folder.
#[derive(Drop)]
pub struct LastCall {
    name: Option<String>,
    act: Act,
    error: Option<io::Error>,
    found: Option<Found>,
}

impl Model for LastCall {
    ghost use Rattle.std.specs.Prelude.{option_map, string_bytes};
    ghost use Rattle.gx_devices.specs.Last.{FlatCall};

    ghost Value = { FlatCall };

    ghost view = { λ call. record {
      name = option_map string_bytes call.name;
      act = call.act;
      error = call.error;
      found = call.found;
    } };
}

impl LastCall {
    /// A call of which nothing was read. Where there is no memory for the name, it isn't kept.
    pub fn new(alloc: Global, act: Act, name: &str, error: Option<io::Error>) -> LastCall
        ensures { IsCallOf act name.now error result }
    {
        LastCall {
            name: String::from_str(alloc, name).ok(),
            act,
            error,
            found: None,
        }
    }

    /// Keeps what was read.
    pub fn look(&mut self, load: &Load)
        ensures { self.new ≡ record self.old { found = found_of load.now self.old.found } }
    {
        if let Load::Found(bytes) = load {
            self.found = Some(Found {
                len: bytes.len(),
                front: front_of(bytes.as_slice()),
            });
        }
    }

    /// The name that was asked for, or other words where it isn't known.
    pub fn name(&self) -> &str
        ensures { MatchOption self.now.name (result.now ≡ codes "the file") (λ name. result.now ≡ name) }
    {
        match &self.name {
            Some(name) => name.as_str(),
            None => "the file",
        }
    }

    /// What was asked.
    pub fn act(&self) -> Act
        ensures { result ≡ self.now.act }
    {
        self.act
    }

    /// Why it failed; None where it didn't.
    pub fn error(&self) -> Option<io::Error>
        ensures { result ≡ self.now.error }
    {
        self.error
    }

    /// What was read; None where nothing was.
    pub fn found(&self) -> Option<&Found>
        ensures { option_copied result ≡ self.now.found }
    {
        self.found.as_ref()
    }
}

/// The first bytes, and zeros where there are none.
fn front_of(bytes: &[u8]) -> [u8; FRONT_LEN]
    ensures { result ≡ front_of bytes.now }
{
    let mut front = [0; FRONT_LEN];
    let count = bytes.len().min(FRONT_LEN);
    front[..count].copy_from_slice(&bytes[..count]);
    front
}
