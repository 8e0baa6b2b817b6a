//! What a machine waits for.

/// The answer that a machine waits for.
#[derive(Clone, Copy, Debug, PartialEq, Eq)]
pub enum Asking {
    /// A character was put; its reply pushes nothing, and its value isn't stored.
    Put,
    /// A Glk call; its reply may push so many values beside its own store.
    Glk(u32),
    /// A save; its reply pushes nothing beside its own store.
    Save,
    /// A restore that fails is answered; its reply pushes nothing beside its own store.
    Restore,
}
