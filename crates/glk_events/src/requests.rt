//! The requests that aren't met yet.
ghost use Rattle.std.specs.Prelude.{◌≡◌, [], OnOk, OnErr};
ghost use Rattle.glk_events.specs.Requests.{of, oldest, with_request, removed};

use std::alloc::{AllocError, Global};
use std::marker::Model;

/// The key Return (Glk 0.7.5, "Character Input").
pub const RETURN: u32 = 0xFFFF_FFFA;

/// A key that has no code of its own (Glk 0.7.5, "Character Input").
pub const UNKNOWN: u32 = 0xFFFF_FFFF;

/// A window waits for a line or a character.
#[derive(Clone, Copy, Debug, PartialEq, Eq)]
pub struct Request {
    /// The window's identifier.
    pub win: u32,
    /// A line is asked for, else a character.
    pub line: bool,
    /// Any character is asked for, else those of Latin-1.
    pub wide: bool,
    /// The address of the line's buffer.
    pub buf: u32,
    /// The number of characters that the buffer has room for.
    pub max: u32,
}

/// The requests of all windows, the oldest first.
#[derive(Drop)]
pub struct Requests {
    all: Vec<Request>,
}

impl Model for Requests {
    ghost use Rattle.std.specs.Prelude.{List};
    ghost use Rattle.glk_events.specs.declared.requests.Request.{Request};

    ghost Value = { List Request };

    ghost view = { λ requests. requests.all.items };
}

impl Requests {
    /// No request.
    pub fn new(alloc: Global) -> Requests
        ensures { result ≡ [] }
    {
        Requests {
            all: Vec::new(alloc),
        }
    }

    /// The request that was made before all others, `None` where there is none.
    pub fn oldest(&self) -> Option<Request>
        ensures { result ≡ oldest self.now }
    {
        self.all.first().copied()
    }

    /// The request of a window, `None` where it has none.
    pub fn of(&self, win: u32) -> Option<Request>
        ensures { result ≡ of self.now win }
    {
        find_of(&self.all, win)
    }

    /// Makes a request of a window that has none.
    pub fn add(&mut self, request: Request) -> Result<(), AllocError>
        requires { of self.old request.win ≡ None }
        ensures ok { OnOk result (self.new ≡ with_request self.old request) }
        ensures err { OnErr result (self.new ≡ self.old) }
    {
        self.all.push(request)?;
        Ok(())
    }

    /// Drops the request of a window; nothing changes where it has none.
    pub fn remove(&mut self, win: u32)
        ensures { self.new ≡ removed self.old win }
    {
        self.all.retain(|request| request.win != win);
    }
}

/// The request of a window, the first one of it.
fn find_of(requests: &[Request], win: u32) -> Option<Request>
    ensures { result ≡ of requests.now win }
{
    requests.iter().copied().find(|request| request.win == win)
}
