//! Lists that grow at their end and keep their allocator.
//!
//! Contracts see each as the list of its items. `new` takes no memory; after a refusal a list is
//! as it was.
ghost use Rattle.std.specs.Prelude.{◌≡◌, ◌+◌, ◌<◌, ◌≤◌, ◌++◌, ◌∷◌, [], length, take, encode_utf8, OnOk, OnErr, IfOk};
ghost use Rattle.gx_words.specs.Numbers.{spliced};

use crate::splice;
use std::alloc::{AllocError, Global};
use std::marker::Model;

/// A list of items.
#[derive(Drop)]
pub struct Items<T> {
    all: Vec<T>,
}

/// A list of bytes.
pub type Bytes = Items<u8>;

/// A list of 32-bit numbers.
pub type Numbers = Items<u32>;

/// A list of pairs of an address and the bytes to be written there.
pub type Writes = Items<(u32, Bytes)>;

/// A list of pairs of an address and a length.
pub type Blocks = Items<(u32, u32)>;

impl<T> Model for Items<T> {
    ghost use Rattle.std.specs.Prelude.{List};

    ghost Value = { List T };

    ghost view = { λ items. items.all.items };
}

impl<T> Items<T> {
    /// An empty list.
    pub fn new(alloc: Global) -> Self
        ensures { result ≡ [] }
    {
        Items {
            all: Vec::new(alloc),
        }
    }

    /// An empty list, with room for `count` items. No memory is asked for where it is none.
    pub fn with_capacity(alloc: Global, count: usize) -> Result<Self, AllocError>
        ensures value { IfOk result (λ items. items ≡ []) }
        ensures memory { OnErr result (0 < count) }
    {
        Ok(Items {
            all: Vec::with_capacity(alloc, count)?,
        })
    }

    /// A list of a vector's items. No memory is asked for.
    pub fn from_vec(all: Vec<T>) -> Self
        ensures { result ≡ all.items }
    {
        Items { all }
    }

    pub fn len(&self) -> usize
        ensures { result ≡ length self.now }
    {
        self.all.len()
    }

    pub fn as_slice(&self) -> &[T]
        ensures { result.now ≡ self.now }
    {
        self.all.as_slice()
    }
}

impl<T: Drop> Items<T> {
    /// Adds an item at the end.
    pub fn push(&mut self, item: T) -> Result<(), AllocError>
        ensures ok { OnOk result (self.new ≡ self.old ++ item ∷ []) }
        ensures err { OnErr result (self.new ≡ self.old) }
    {
        self.all.push(item)?;
        Ok(())
    }

    /// Keeps the first `count` items.
    pub fn truncate(&mut self, count: usize)
        ensures { self.new ≡ take count self.old }
    {
        self.all.truncate(count);
    }
}

impl Bytes {
    /// The bytes of a slice. No memory is asked for where there are none.
    pub fn from_slice(alloc: Global, bytes: &[u8]) -> Result<Self, AllocError>
        ensures value { IfOk result (λ copy. copy ≡ bytes.now) }
        ensures memory { OnErr result (0 < length bytes.now) }
    {
        if bytes.is_empty() {
            return Ok(Items::new(alloc));
        }
        Ok(Items {
            all: Vec::from_slice(alloc, bytes)?,
        })
    }

    /// Adds the bytes of a slice at the end. No memory is asked for where there are none.
    pub fn extend_from_slice(&mut self, bytes: &[u8]) -> Result<(), AllocError>
        ensures ok { OnOk result (self.new ≡ self.old ++ bytes.now) }
        ensures err { OnErr result (self.new ≡ self.old) }
        ensures memory { OnErr result (0 < length bytes.now) }
    {
        self.all.extend_from_slice(bytes)
    }

    /// Puts bytes over those from `at` on; where they reach past the end the list grows.
    pub fn splice(&mut self, at: usize, bytes: &[u8]) -> Result<(), AllocError>
        requires { at ≤ length self.old }
        ensures ok { OnOk result (self.new ≡ spliced self.old at bytes.now) }
        ensures err { OnErr result (self.new ≡ self.old) }
        ensures memory { OnErr result (length self.old < at + length bytes.now) }
    {
        let (over, more) = bytes.split_at(bytes.len().min(self.all.len() - at));
        if !more.is_empty() {
            self.all.extend_from_slice(more)?;
        }
        splice(&mut self.all, at, over);
        Ok(())
    }
}

/// The name of a file, as text. Contracts see its bytes in UTF-8.
#[derive(Drop)]
pub struct Name {
    text: String,
}

impl Model for Name {
    ghost use Rattle.std.specs.Prelude.{ℕ, List, string_bytes};

    ghost Value = { List ℕ };

    ghost view = { λ name. string_bytes name.text };
}

impl Name {
    /// An empty name.
    pub fn new(alloc: Global) -> Self
        ensures { result ≡ [] }
    {
        Name {
            text: String::new(alloc),
        }
    }

    /// The name that a text spells. No memory is asked for where it has no character.
    pub fn from_str(alloc: Global, text: &str) -> Result<Self, AllocError>
        ensures value { IfOk result (λ name. name ≡ text.now) }
        ensures memory { OnErr result (0 < length text.now) }
    {
        if text.is_empty() {
            return Ok(Name::new(alloc));
        }
        Ok(Name {
            text: String::from_str(alloc, text)?,
        })
    }

    /// Its length in bytes.
    pub fn len(&self) -> usize
        ensures { result ≡ length self.now }
    {
        self.text.len()
    }

    /// Adds a character at the end.
    pub fn push(&mut self, item: char) -> Result<(), AllocError>
        ensures ok { OnOk result (self.new ≡ self.old ++ encode_utf8 item) }
        ensures err { OnErr result (self.new ≡ self.old) }
    {
        self.text.push(item)
    }

    pub fn as_str(&self) -> &str
        ensures { result.now ≡ self.now }
    {
        self.text.as_str()
    }
}
