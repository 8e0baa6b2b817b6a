//! The call stubs of strings and numbers (Glulx 3.1.2, "Call Stubs" and "Calling and Returning During
//! Output Filtering").
ghost use Rattle.std.specs.Prelude.{◌≡◌};
ghost use Rattle.gx_state.specs.Relations.{Acts};
ghost use Rattle.gx_stack.specs.Constants.{resume_code};
ghost use Rattle.ops_print.specs.Stubs.{resuming, inner_ended};

use gx_stack::{
    RESUME_C_STRING, RESUME_CODE, RESUME_COMPRESSED, RESUME_NUMBER, RESUME_UNICODE, Stub,
};
use gx_state::{Mode, State, printing_of};
use gx_words::{Fault, PrintKind, Printing};
use std::alloc::Allocator;

/// The stub that resumes a string or number.
#[tactic(auto, unfolding(crate::specs::Stubs::resuming))]
pub fn resuming<A: Allocator + Clone>(state: &State<A>, printing: &Printing) -> Stub
    ensures { result ≡ resuming state.now.flat printing.now }
{
    let (kind, addr) = match printing.kind {
        PrintKind::E0 => (RESUME_C_STRING, 0),
        PrintKind::E1 => (RESUME_COMPRESSED, printing.bit),
        PrintKind::E2 => (RESUME_UNICODE, 0),
        PrintKind::Number => (RESUME_NUMBER, printing.bit),
    };
    Stub {
        kind,
        addr,
        pc: printing.at,
        fp: state.fp(),
    }
}

/// The stub that goes back to the code.
pub fn to_code<A: Allocator + Clone>(state: &State<A>) -> Stub
    ensures { result ≡ record { kind = resume_code; addr = 0; pc = state.now.flat.pc; fp = state.now.flat.fp } }
{
    Stub {
        kind: RESUME_CODE,
        addr: 0,
        pc: state.pc(),
        fp: state.fp(),
    }
}

/// Ends a string or number that a reference began or a stub resumed, and goes on by the stub on top, which
/// is looked at before it is popped. `BadFrame` exactly where no stub is there, its frame is not good, or
/// it resumes neither code nor a compressed string at one of the eight bits of a byte.
#[tactic(auto, unfolding(crate::proofs::Opened::ending), using(gx_state::proofs::Kept::below))]
pub fn end_inner<A: Allocator + Clone>(state: &mut State<A>) -> Result<(), Fault>
    ensures { Acts result state.old state.new (inner_ended state.old.flat) }
{
    let sp = state.stack().size();
    let Ok(stub) = state.stack().stub_at(sp) else {
        return Err(Fault::BadFrame);
    };
    match stub.kind {
        RESUME_COMPRESSED => {
            let printing = printing_of(&stub).ok_or(Fault::BadFrame)?;
            state.pop_stub()?;
            state.set_mode(Mode::Printing(printing));
            Ok(())
        }
        RESUME_CODE => {
            state.pop_stub()?;
            state.set_pc(stub.pc);
            state.set_mode(Mode::Running);
            Ok(())
        }
        _ => Err(Fault::BadFrame),
    }
}
