//! What a step did or asks, and the answer to what it asks.
use arrayvec::ArrayVec;
use gx_words::{Numbers, Writes};

/// What a step did, or what it asks of the outside.
///
/// `Put`, `Glk`, `Save` and `Restore` are askings: the machine stays as before the step until it is answered.
#[derive(Drop)]
pub enum Effect {
    /// The step was done.
    Went,
    /// The step was done, and the random word that it was handed was used.
    Drew,
    /// A character for the current Glk stream.
    Put(u32),
    /// A Glk call with at most the first eight arguments, and how many values the reply may push
    /// beside its own store.
    Glk {
        selector: u32,
        args: ArrayVec<u32, 8>,
        room: u32,
    },
    /// The game is to be saved to a Glk stream.
    Save(u32),
    /// The game is to be restored from a Glk stream.
    Restore(u32),
    /// The program ends.
    Quit,
    /// The step costs more than the budget has left, and was not done.
    Spent,
}

/// The answer to an asking: writes to memory in order, values to be pushed in order, and the value
/// for the store operand.
#[derive(Drop)]
pub struct Reply {
    pub value: u32,
    pub pushes: Numbers,
    pub writes: Writes,
}
