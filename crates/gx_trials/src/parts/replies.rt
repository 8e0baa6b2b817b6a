//! What a reply with writes and pushes makes of a state, by each call that makes it.
ghost use Rattle.std.specs.Prelude.{◌≡◌, ◌<◌, ◌≤◌, ◌∷◌, [], length, IfOk};
ghost use Rattle.gx_state.specs.Flat.{sp_of};

use anyhow::{Result, bail, ensure};
use gx_pool::PagePool;
use gx_state::State;
use gx_story::Story;
use gx_words::{Bytes, Writes};
use std::alloc::Global;

/// A story with a page of ROM, a page of RAM and a stack of 2,048 bytes, whose start function has no code.
fn story(alloc: Global) -> Result<Story> {
    let mut file = [0; 256];
    let head = [
        0x47, 0x6C, 0x75, 0x6C, 0x00, 0x03, 0x01, 0x02, 0x00, 0x00, 0x01, 0x00, 0x00, 0x00, 0x01,
        0x00, 0x00, 0x00, 0x02, 0x00, 0x00, 0x00, 0x08, 0x00, 0x00, 0x00, 0x00, 0x24, 0x00, 0x00,
        0x00, 0x00, 0x00, 0x00, 0x00, 0x00, 0xC1,
    ];
    file[..head.len()].copy_from_slice(&head);
    Ok(Story::read(alloc, &file)?)
}

/// A list of one write.
fn one_write(alloc: Global, at: u32, bytes: &[u8]) -> Result<Writes>
    ensures { IfOk result (λ writes. writes ≡ (at, bytes.now) ∷ []) }
{
    let mut writes = Writes::new(alloc);
    writes.push((at, Bytes::from_slice(alloc, bytes)?))?;
    Ok(writes)
}

/// A story's state, whose RAM begins at 0x100 and has a page.
fn state<'p>(alloc: Global, pool: &'p PagePool) -> Result<State<&'p PagePool>>
    ensures ram { IfOk result (λ state. state.flat.story.header.ramstart ≤ 0x100) }
    ensures size { IfOk result (λ state. 0x200 ≤ length state.flat.memory) }
    ensures live { IfOk result (λ state. 0 < sp_of state.flat) }
{
    let state = State::start(alloc, pool, &story(alloc)?)?;
    if state.ramstart() > 0x100 || state.memory().size() < 0x200 || state.stack().size() == 0 {
        bail!("it has no such RAM, or no frame");
    }
    Ok(state)
}

/// The writes of a reply.
pub fn writes(alloc: Global) -> Result<()> {
    let pool = PagePool::new(alloc, 10);
    let mut state = state(alloc, &pool)?;
    state.write_all(&one_write(alloc, 0x100, &[1, 2])?)?;
    ensure!(
        state.memory().try_number(4, 0x100) == Ok(0x0102_0000),
        "writes: another word"
    );
    Ok(())
}

/// The writes of a reply, and a last one over them.
pub fn writes_and(alloc: Global) -> Result<()> {
    let pool = PagePool::new(alloc, 10);
    let mut state = state(alloc, &pool)?;
    state.write_all_and(&one_write(alloc, 0x100, &[1, 2])?, 0x101, &[3])?;
    ensure!(
        state.memory().try_number(4, 0x100) == Ok(0x0103_0000),
        "writes_and: another word"
    );
    Ok(())
}

/// The values that a reply pushes.
pub fn pushes(alloc: Global) -> Result<()> {
    let pool = PagePool::new(alloc, 10);
    let mut state = state(alloc, &pool)?;
    state.push_all(&[5, 6])?;
    expect_pushed(state.stack().bytes())
}

/// The frame's fixed part and the two values have to be all that the stack holds.
fn expect_pushed(stack: &[u8]) -> Result<()> {
    let values = [0, 0, 0, 5, 0, 0, 0, 6];
    ensure!(
        stack.get(12..) == Some(values.as_slice()),
        "pushes: other values"
    );
    Ok(())
}
