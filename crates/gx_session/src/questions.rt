//! What the shelf is asked for the turn of a Glk call.
ghost use Rattle.std.specs.Prelude.{◌≡◌, IfOk};
ghost use Rattle.gx_outside.specs.Chains.{IsCalled};
ghost use Rattle.gx_outside.specs.Outside.{HasCause, shelf_cause};
ghost use Rattle.glk_replies.specs.Turns.{IsGivenFor};
ghost use Rattle.gx_session.specs.Questions.{turn_of, AsksOnce};

use crate::running::MOST_LOADED;
use glk_dispatch::Given;
use gx_outside::{Shelf, ShelfFault};
use gx_words::{Bytes, Name};

/// A question to the shelf.
#[derive(Drop)]
pub enum Question {
    /// The file of a name, if it has at most MOST_LOADED bytes.
    Load(Name),
    /// That the name hold the bytes.
    Store(Name, Bytes),
    /// That the file of a name be removed.
    Remove(Name),
    /// Whether a name has a file.
    Has(Name),
}

impl Question {
    /// Asks the shelf, once.
    pub fn ask<F: Shelf>(&self, shelf: &mut F) -> Result<Given, ShelfFault>
        ensures asks { IsCalled F.called shelf.old shelf.new (λ asked. AsksOnce self.now asked result) }
        ensures given { IfOk result (IsGivenFor (turn_of self.now)) }
        ensures cause { HasCause (F.seen shelf.old).calls (F.seen shelf.new).calls (shelf_cause result).0
            (shelf_cause result).1 }
        ensures tells { (F.seen shelf.new).tells ≡ (F.seen shelf.old).tells }
    {
        match self {
            Question::Load(name) => match shelf.load(name.as_str(), MOST_LOADED) {
                Ok(file) => Ok(Given::Loaded(file)),
                Err(fault) => Err(fault),
            },
            Question::Store(name, bytes) => match shelf.store(name.as_str(), bytes.as_slice()) {
                Ok(()) => Ok(Given::Stored),
                Err(fault) => Err(fault),
            },
            Question::Remove(name) => match shelf.remove(name.as_str()) {
                Ok(was) => Ok(Given::Was(was)),
                Err(fault) => Err(fault),
            },
            Question::Has(name) => match shelf.has(name.as_str()) {
                Ok(was) => Ok(Given::Was(was)),
                Err(fault) => Err(fault),
            },
        }
    }
}
