//! A copy of a reply, and the reply that pushes and writes nothing.
ghost use Rattle.std.specs.Prelude.{◌≡◌, ◌≢◌, true, false, IfOk};
ghost use Rattle.gx_rewind.specs.Path.{empty_reply};

use gx_state::Reply;
use gx_words::{Bytes, Numbers, Writes};
use std::alloc::{AllocError, Global};

/// The reply that pushes and writes nothing.
pub(crate) fn nothing(alloc: Global) -> Reply
    ensures { result ≡ empty_reply }
{
    Reply {
        value: 0,
        pushes: Numbers::new(alloc),
        writes: Writes::new(alloc),
    }
}

/// Whether a reply is that one.
pub(crate) fn is_nothing(reply: &Reply) -> bool
    ensures yes { result ≡ true → reply.now ≡ empty_reply }
    ensures no { result ≡ false → reply.now ≢ empty_reply }
{
    reply.value == 0 && reply.pushes.len() == 0 && reply.writes.len() == 0
}

/// The same reply once more.
pub(crate) fn copied(alloc: Global, reply: &Reply) -> Result<Reply, AllocError>
    ensures { IfOk result (λ copy. copy ≡ reply.now) }
{
    Ok(Reply {
        value: reply.value,
        pushes: numbers(alloc, reply.pushes.as_slice())?,
        writes: writes(alloc, reply.writes.as_slice())?,
    })
}

/// The same numbers.
fn numbers(alloc: Global, all: &[u32]) -> Result<Numbers, AllocError>
    ensures { IfOk result (λ copy. copy ≡ all.now) }
{
    let mut copy = Numbers::with_capacity(alloc, all.len())?;
    for number in all {
        copy.push(*number)?;
    }
    Ok(copy)
}

/// The same writes.
fn writes(alloc: Global, all: &[(u32, Bytes)]) -> Result<Writes, AllocError>
    ensures { IfOk result (λ copy. copy ≡ all.now) }
{
    let mut copy = Writes::with_capacity(alloc, all.len())?;
    for write in all {
        let bytes = Bytes::from_slice(alloc, write.1.as_slice())?;
        copy.push((write.0, bytes))?;
    }
    Ok(copy)
}
