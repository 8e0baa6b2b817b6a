//! The stack of a save.
ghost use Rattle.std.specs.Prelude.{◌≡◌};
ghost use Rattle.quetzal.specs.Stacks.{is_result_place, is_stack};

use gx_stack::{Frame, Stub, TO_LOCAL, TO_MEMORY, TO_STACK};
use gx_story::Story;

/// The length of a stub.
const STUB_LEN: usize = 16;

/// Whether a stack ends with a stub on a good frame, of a story whose memory has a size.
#[tactic(auto, unfolding(crate::specs::Stacks::is_stack, gx_stack::specs::Frames::frame_in))]
pub(crate) fn is_stack(story: &Story, size: u32, stack: &[u8]) -> bool
    ensures { result ≡ is_stack story.now size stack.now }
{
    let len = stack.len();
    if len % 4 != 0 || len > story.stack_size() as usize || len < STUB_LEN {
        return false;
    }
    let stub = Stub::on_top(stack);
    match Frame::of(&stack[..len - STUB_LEN], stub.fp) {
        Ok(frame) => stub.kind <= TO_STACK && is_result_place(story, size, &frame, &stub),
        Err(_) => false,
    }
}

/// Whether the result of a stub has a place, in RAM or in the locals of its frame.
fn is_result_place(story: &Story, size: u32, frame: &Frame, stub: &Stub) -> bool
    ensures { result ≡ is_result_place story.now size frame.now stub.now }
{
    match stub.kind {
        TO_MEMORY => story.ramstart() <= stub.addr && u64::from(stub.addr) + 4 <= u64::from(size),
        TO_LOCAL => frame.has_local(stub.addr, 4),
        _ => true,
    }
}
