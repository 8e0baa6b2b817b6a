//! Why the instruction before which a machine stands has no effect.
use crate::reasons::StepReason;
use gx_machine::Machine;
use gx_operands::{decode, opcode};
use gx_rows::{CALL, CALLF, CALLFI, CALLFII, CALLFIII, TAILCALL};
use gx_state::{Mode, State};
use gx_words::Fault;
use std::alloc::Allocator;

/// The most arguments of a function.
const MOST_ARGUMENTS: u32 = 255;

/// The types of functions.
const TYPES: [u32; 2] = [0xC0, 0xC1];

/// All faults of a step.
const FAULTS: [Fault; 16] = [
    Fault::BadOpcode,
    Fault::BadMode,
    Fault::BadAddress,
    Fault::ReadOnly,
    Fault::Divide,
    Fault::Overflow,
    Fault::Underflow,
    Fault::BadFrame,
    Fault::BadLocal,
    Fault::BadFunction,
    Fault::BadString,
    Fault::BadToken,
    Fault::MemSize,
    Fault::HeapUse,
    Fault::DebugTrap,
    Fault::BadGlk,
];

/// The instructions with real numbers (Glulx 3.1.3, "Floating-Point Math" and "Double-Precision Math").
const REAL_NUMBERS: [(u32, &str); 61] = [
    (0x190, "numtof"),
    (0x191, "ftonumz"),
    (0x192, "ftonumn"),
    (0x198, "ceil"),
    (0x199, "floor"),
    (0x1A0, "fadd"),
    (0x1A1, "fsub"),
    (0x1A2, "fmul"),
    (0x1A3, "fdiv"),
    (0x1A4, "fmod"),
    (0x1A8, "sqrt"),
    (0x1A9, "exp"),
    (0x1AA, "log"),
    (0x1AB, "pow"),
    (0x1B0, "sin"),
    (0x1B1, "cos"),
    (0x1B2, "tan"),
    (0x1B3, "asin"),
    (0x1B4, "acos"),
    (0x1B5, "atan"),
    (0x1B6, "atan2"),
    (0x1C0, "jfeq"),
    (0x1C1, "jfne"),
    (0x1C2, "jflt"),
    (0x1C3, "jfle"),
    (0x1C4, "jfgt"),
    (0x1C5, "jfge"),
    (0x1C8, "jisnan"),
    (0x1C9, "jisinf"),
    (0x200, "numtod"),
    (0x201, "dtonumz"),
    (0x202, "dtonumn"),
    (0x203, "ftod"),
    (0x204, "dtof"),
    (0x208, "dceil"),
    (0x209, "dfloor"),
    (0x210, "dadd"),
    (0x211, "dsub"),
    (0x212, "dmul"),
    (0x213, "ddiv"),
    (0x214, "dmodr"),
    (0x215, "dmodq"),
    (0x218, "dsqrt"),
    (0x219, "dexp"),
    (0x21A, "dlog"),
    (0x21B, "dpow"),
    (0x220, "dsin"),
    (0x221, "dcos"),
    (0x222, "dtan"),
    (0x223, "dasin"),
    (0x224, "dacos"),
    (0x225, "datan"),
    (0x226, "datan2"),
    (0x230, "jdeq"),
    (0x231, "jdne"),
    (0x232, "jdlt"),
    (0x233, "jdle"),
    (0x234, "jdgt"),
    (0x235, "jdge"),
    (0x238, "jdisnan"),
    (0x239, "jdisinf"),
];

/// Why a step had a fault of this number, by the machine before it where it was handed back.
pub fn step_reason<A: Allocator + Clone>(
    number: u8,
    machine: Option<&Machine<A>>,
) -> Option<StepReason> {
    let fault = *FAULTS.iter().find(|it| it.number() == number)?;
    let known = match (fault, machine) {
        (Fault::BadOpcode, Some(machine)) => opcode_reason(machine.state()),
        (Fault::BadFunction, Some(machine)) => function_reason(machine.state()),
        _ => None,
    };
    Some(known.unwrap_or(StepReason::Fault(fault)))
}

/// Why an instruction is none; None where that can't be known.
fn opcode_reason<A: Allocator + Clone>(state: &State<A>) -> Option<StepReason> {
    if state.mode() != Mode::Running {
        return None;
    }
    let number = opcode::<A, false>(state, &mut 0).ok()?;
    match REAL_NUMBERS.iter().find(|it| it.0 == number) {
        Some((_, name)) => Some(StepReason::RealNumbers { name, number }),
        None => Some(StepReason::BadOpcode { number }),
    }
}

/// Why a call calls no function; None where that can't be known.
fn function_reason<A: Allocator + Clone>(state: &State<A>) -> Option<StepReason> {
    if state.mode() != Mode::Running || state.stack().size() == 0 {
        return None;
    }
    let plan = decode(state).ok()?;
    let count = match plan.row().number {
        CALL | TAILCALL => plan.load(1),
        CALLF | CALLFI | CALLFII | CALLFIII => 0,
        _ => return None,
    };
    let at = plan.load(0);
    let kind = state.code(1, at).ok()?;
    Some(if !TYPES.contains(&kind) {
        StepReason::NoFunction { at }
    } else if count > MOST_ARGUMENTS {
        StepReason::Arguments { at, count }
    } else {
        StepReason::Locals { at }
    })
}
