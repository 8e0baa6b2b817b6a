//! Calls of the stack in whose place a machine makes others: it enters a function with its arguments, and drops
//! operands with the result that is pushed.
use anyhow::{Result, ensure};
use gx_stack::{Frame, Stack, StackFault};
use std::alloc::Global;

/// Three locals of a byte and one of two.
const FORMAT: [u8; 6] = [1, 3, 2, 1, 0, 0];

/// Its frame: 24 bytes, the locals from 16 on, the format, and the locals with a byte before the last one.
const FRAME: [u8; 24] = [
    0, 0, 0, 24, 0, 0, 0, 16, 1, 3, 2, 1, 0, 0, 0, 0, 0, 0, 0, 0, 0, 0, 0, 0,
];

/// A frame, and a second one for which the room is too small by a byte.
pub fn frames(alloc: Global) -> Result<()> {
    let mut stack = Stack::new(alloc, 47)?;
    let frame = stack.enter_frame(&FORMAT)?;
    let wanted = Frame {
        fp: 0,
        locals: 16,
        values: 24,
    };
    ensure!(frame == wanted, "another frame");
    let refused = stack.enter_frame(&FORMAT);
    ensure!(refused == Err(StackFault::Overflow), "a frame without room");
    ensure!(stack.bytes() == FRAME.as_slice(), "other bytes of a frame");
    Ok(())
}

/// Three values without the two topmost ones, and then too few to drop two.
pub fn values(alloc: Global) -> Result<()> {
    let mut stack = Stack::new(alloc, 256)?;
    let frame = stack.enter_frame(&[0, 0])?;
    stack.push_all(&[5, 6, 7])?;
    stack.drop_top(&frame, 2)?;
    let refused = stack.drop_top(&frame, 2);
    ensure!(refused == Err(StackFault::Underflow), "two of one value");
    ensure!(
        (stack.size(), stack.peek(&frame, 0)) == (16, Ok(5)),
        "another value is left"
    );
    Ok(())
}
