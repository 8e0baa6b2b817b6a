//! What is asked of a search, and its answer.

/// The option that `key` is the key's address (KeyIndirect).
pub const KEY_INDIRECT: u32 = 1;
/// The option that an all-zero key ends the search (ZeroKeyTerminates).
pub const ZERO_KEY_TERMINATES: u32 = 2;
/// The option that the instruction's result is an index (ReturnIndex). An answer has both the
/// address and the index.
pub const RETURN_INDEX: u32 = 4;

/// The operands of a search. A list has no `struct_size` and no `count`, a row no `next_offset`.
///
/// `options` is a sum of options; all other bits are ignored.
#[derive(Clone, Copy, Debug, PartialEq, Eq)]
pub struct Ask {
    pub key: u32,
    pub key_size: u32,
    pub start: u32,
    pub struct_size: u32,
    pub count: u32,
    pub key_offset: u32,
    pub next_offset: u32,
    pub options: u32,
}

impl Ask {
    ghost use Rattle.std.specs.Prelude.{◌≡◌, ◌<◌};
    ghost use Rattle.gx_search.specs.Keys.{has_option};

    /// Whether an option is set.
    pub fn has(&self, option: u32) -> bool
        requires { 0 < option }
        ensures { result ≡ has_option self.now option }
    {
        self.options / option % 2 == 1
    }
}

/// What a search answers. `probes` counts the comparisons that it made.
#[derive(Clone, Copy, Debug, PartialEq, Eq)]
pub enum Found {
    /// A struct with the key: its address, and its index modulo 2^32.
    At {
        address: u32,
        index: u32,
        probes: u64,
    },
    /// No struct.
    Nothing {
        probes: u64,
    },
    /// Nothing so far, and the next probe would be past the bound.
    More,
}
