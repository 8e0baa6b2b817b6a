//! The quick way of a step: the commonest instructions, each read and done in one go.
//!
//! `quick` reads the number at PC and finds its row. Where that is one of a few shapes, a function of the shape
//! reads the operands into values of its own, and does the row with them. It answers whether the instruction was
//! done; where it wasn't, nothing has changed, and the step is to be made by `rows`. Which rows it does is for
//! speed alone: whatever it does is the definition's step, and so is every fault.
ghost use Rattle.std.specs.Prelude.{◌≡◌, ◌≢◌, ◌<◌, ◌≤◌, ◌+◌, ◌^◌, false, true};
ghost use Rattle.std.specs.Prelude.{length, Ok, Err, None, IfOk, IfErr, IfSome, OnOk, IsTrue, [], ◌∷◌, ℕ};
ghost use Rattle.gx_words.specs.declared.faults.Fault.TheVariants.{BadAddress, NoMemory};
ghost use Rattle.gx_words.specs.Constants.{ceiling};
ghost use Rattle.gx_words.specs.Numbers.{byte};
ghost use Rattle.gx_state.specs.declared.modes.Mode.TheVariants.{Running};
ghost use Rattle.gx_state.specs.Flat.{sp_of, IsHeight};
ghost use Rattle.gx_operands.specs.Code.{IsInRom};
ghost use Rattle.gx_operands.specs.Plans.{HasValues};
ghost use Rattle.gx_undo.specs.Undo.{FlatUndo};
ghost use Rattle.gx_machine.specs.Quick.{Tries, IsPlain, IsQuick, quick_row, read_effect, IsReadWriting, IsRowWriting};
ghost use Rattle.gx_machine.specs.Quick.{IsStreamed, without_result};
ghost use Rattle.gx_machine.specs.Step.{mode_step, probes_in, IsModeWriting};
ghost use Rattle.gx_machine.specs.Views.{machine_with};
ghost use Rattle.ops_calc.specs.Acts as acts;

use crate::quick_acts::{
    bit_in_byte, bit_of, byte_of_bit, call, call_popped, compute, element, fetch, give_back, go_on,
    jump, store_on,
};
use gx_operands::{Cursor, code, code_pair, destination, find_row, load, opcode, stack_pointer};
use gx_rows::{
    ALOAD, ALOADB, ALOADBIT, ALOADS, ASTORE, ASTOREB, ASTORES, CALL, CALLF, CALLFI, CALLFII, Class,
    GETMEMSIZE, NOP, RETURN, Row, STREAMCHAR, STREAMUNICHAR, row_at,
};
use gx_state::{Dest, State};
use gx_words::{Fault, GLK_SYSTEM};
use ops_calc::{calc, test};
use std::alloc::Allocator;

/// aloadbit: a bit of an array, by its signed number.
#[tactic(auto, unfolding(ops_memory::specs::MemoryRows::memory, ops_memory::specs::MemoryRows::aloadbit))]
fn fetch_bit<A: Allocator + Clone>(
    state: &mut State<A>,
    row: &Row,
    a: u32,
    b: u32,
    dest: Dest,
    cursor: Cursor,
) -> Result<bool, Fault>
    requires live { 0 < sp_of state.old.flat }
    requires class { row.now.class ≡ Class.Memory }
    requires number { row.now.number ≡ ALOADBIT }
    requires popped { HasValues state.old.flat cursor.popped }
    ensures value { Tries (IsReadWriting state.old.flat row.now (a ∷ b ∷ []) dest cursor) result
        state.old.flat state.new.flat (read_effect state.old.flat row.now (a ∷ b ∷ []) dest cursor) }
    ensures story { state.new.flat.story ≡ state.old.flat.story }
{
    let byte = state.memory().try_number(1, byte_of_bit(a, b))?;
    let bit = bit_of(byte, bit_in_byte(b));
    store_on(state, 4, dest, bit, &cursor)
}

/// Does a row of two loads and a store.
#[inline(always)]
#[tactic(auto, unfolding(crate::proofs::Opened::rows_of_two_and_store))]
fn do_two_and_store<A: Allocator + Clone>(
    state: &mut State<A>,
    row: &Row,
    a: u32,
    b: u32,
    dest: Dest,
    cursor: &Cursor,
) -> Result<bool, Fault>
    requires live { 0 < sp_of state.old.flat }
    requires quick { IsQuick row.now.class }
    requires calc { row.now.class ≡ Class.Calc → IsTrue (acts.is_calc row.now.act) }
    requires popped { HasValues state.old.flat cursor.now.popped }
    ensures value { Tries (IsReadWriting state.old.flat row.now (a ∷ b ∷ []) dest cursor.now) result state.old.flat
        state.new.flat (read_effect state.old.flat row.now (a ∷ b ∷ []) dest cursor.now) }
    ensures story { state.new.flat.story ≡ state.old.flat.story }
{
    match row.class {
        Class::Memory => match row.number {
            ALOAD => fetch(state, 4, element(a, b, 4), dest, cursor),
            ALOADS => fetch(state, 2, element(a, b, 2), dest, cursor),
            ALOADB => fetch(state, 1, element(a, b, 1), dest, cursor),
            ALOADBIT => fetch_bit(state, row, a, b, dest, *cursor),
            _ => Ok(false),
        },
        Class::Flow => match row.number {
            CALLFI => call(state, a, &[b], dest, cursor),
            CALL => call_popped(state, row, a, b, dest, *cursor),
            _ => Ok(false),
        },
        _ => Ok(false),
    }
}

/// Does a row of three loads.
#[inline(always)]
#[tactic(auto, unfolding(crate::proofs::Opened::rows_of_three))]
fn do_three<A: Allocator + Clone>(
    state: &mut State<A>,
    row: &Row,
    a: u32,
    b: u32,
    c: u32,
    cursor: &Cursor,
) -> Result<bool, Fault>
    requires live { 0 < sp_of state.old.flat }
    requires quick { IsQuick row.now.class }
    requires loads { row.now.loads ≡ 3 }
    requires branch { row.now.class ≡ Class.Branch → IsTrue (acts.is_branch row.now.act) }
    requires popped { HasValues state.old.flat cursor.now.popped }
    ensures value { Tries (IsReadWriting state.old.flat row.now (a ∷ b ∷ c ∷ []) Dest.Nowhere cursor.now) result
        state.old.flat state.new.flat (read_effect state.old.flat row.now (a ∷ b ∷ c ∷ []) Dest.Nowhere cursor.now) }
    ensures story { state.new.flat.story ≡ state.old.flat.story }
{
    match row.class {
        Class::Branch => Ok(jump(state, test(row.act, a, b), c, cursor)),
        Class::Memory => match row.number {
            ASTORE => store_on(state, 4, Dest::Memory(element(a, b, 4)), c, cursor),
            ASTORES => store_on(state, 2, Dest::Memory(element(a, b, 2)), c, cursor),
            ASTOREB => store_on(state, 1, Dest::Memory(element(a, b, 1)), c, cursor),
            _ => Ok(false),
        },
        _ => Ok(false),
    }
}

/// Does a row of two loads.
#[inline(always)]
#[tactic(auto, unfolding(ops_flow::specs::FlowRows::jumps))]
fn do_two<A: Allocator + Clone>(
    state: &mut State<A>,
    row: &Row,
    a: u32,
    b: u32,
    cursor: &Cursor,
) -> Result<bool, Fault>
    requires live { 0 < sp_of state.old.flat }
    requires quick { IsQuick row.now.class }
    requires loads { row.now.loads ≡ 2 }
    requires branch { row.now.class ≡ Class.Branch → IsTrue (acts.is_branch row.now.act) }
    requires popped { HasValues state.old.flat cursor.now.popped }
    ensures value { Tries (IsReadWriting state.old.flat row.now (a ∷ b ∷ []) Dest.Nowhere cursor.now) result
        state.old.flat state.new.flat (read_effect state.old.flat row.now (a ∷ b ∷ []) Dest.Nowhere cursor.now) }
    ensures story { state.new.flat.story ≡ state.old.flat.story }
{
    match row.class {
        Class::Branch => Ok(jump(state, test(row.act, a, b), b, cursor)),
        _ => Ok(false),
    }
}

/// Does a row of a load and a store.
#[inline(always)]
#[tactic(auto, unfolding(crate::proofs::Opened::rows_of_one_and_store))]
fn do_one_and_store<A: Allocator + Clone>(
    state: &mut State<A>,
    row: &Row,
    a: u32,
    dest: Dest,
    cursor: &Cursor,
) -> Result<bool, Fault>
    requires live { 0 < sp_of state.old.flat }
    requires quick { IsQuick row.now.class }
    requires width { row.now.width ≡ 4 }
    requires calc { row.now.class ≡ Class.Calc → IsTrue (acts.is_calc row.now.act) }
    requires popped { HasValues state.old.flat cursor.now.popped }
    ensures value { Tries (IsReadWriting state.old.flat row.now (a ∷ []) dest cursor.now) result state.old.flat
        state.new.flat (read_effect state.old.flat row.now (a ∷ []) dest cursor.now) }
    ensures story { state.new.flat.story ≡ state.old.flat.story }
{
    match row.class {
        Class::Calc => compute(state, row.act, a, 0, dest, cursor),
        Class::Flow if row.number == CALLF => call(state, a, &[], dest, cursor),
        _ => Ok(false),
    }
}

/// Does a row of one load.
#[inline(always)]
#[tactic(auto, unfolding(ops_flow::specs::FlowRows::jumps, ops_flow::specs::FlowRows::flow))]
fn do_one<A: Allocator + Clone>(
    state: &mut State<A>,
    row: &Row,
    a: u32,
    cursor: &Cursor,
) -> Result<bool, Fault>
    requires live { 0 < sp_of state.old.flat }
    requires quick { IsQuick row.now.class }
    requires loads { row.now.loads ≡ 1 }
    requires branch { row.now.class ≡ Class.Branch → IsTrue (acts.is_branch row.now.act) }
    requires popped { HasValues state.old.flat cursor.now.popped }
    ensures value { Tries (IsReadWriting state.old.flat row.now (a ∷ []) Dest.Nowhere cursor.now) result state.old.flat
        state.new.flat (read_effect state.old.flat row.now (a ∷ []) Dest.Nowhere cursor.now) }
    ensures story { state.new.flat.story ≡ state.old.flat.story }
{
    match row.class {
        Class::Branch => Ok(jump(state, test(row.act, a, 0), a, cursor)),
        Class::Flow if row.number == RETURN => give_back(state, a, cursor),
        _ => Ok(false),
    }
}

/// The byte that holds the modes of one or two operands.
#[inline(always)]
#[tactic(auto, unfolding(gx_pages::specs::Memory::number_in))]
fn mode_pair<A: Allocator + Clone, const ROM: bool>(
    state: &State<A>,
    modes: u32,
) -> Result<u32, Fault>
    requires rom { IsInRom ROM state.now.flat (modes + 1) }
    ensures there { OnOk result (modes + 1 ≤ length state.now.flat.memory) }
    ensures low { OnOk result (modes + 1 ≤ ceiling) }
    ensures value { IfOk result (λ pair. pair ≡ byte state.now.flat.memory modes) }
    ensures fits { IfOk result (λ pair. pair < 2 ^ 8) }
    ensures fault { IfErr result (λ fault. (fault ≡ BadAddress) × (length state.now.flat.memory < modes + 1)) }
{
    code::<A, ROM>(state, 1, modes)
}

/// Does a row of three loads and a store.
#[inline(always)]
#[tactic(auto, unfolding(ops_flow::specs::FlowRows::flow, ops_flow::specs::FlowRows::callf))]
fn do_three_and_store<A: Allocator + Clone>(
    state: &mut State<A>,
    row: &Row,
    a: u32,
    b: u32,
    c: u32,
    dest: Dest,
    cursor: &Cursor,
) -> Result<bool, Fault>
    requires live { 0 < sp_of state.old.flat }
    requires quick { IsQuick row.now.class }
    requires popped { HasValues state.old.flat cursor.now.popped }
    ensures value { Tries (IsReadWriting state.old.flat row.now (a ∷ b ∷ c ∷ []) dest cursor.now) result
        state.old.flat state.new.flat (read_effect state.old.flat row.now (a ∷ b ∷ c ∷ []) dest cursor.now) }
    ensures story { state.new.flat.story ≡ state.old.flat.story }
{
    match row.class {
        Class::Flow if row.number == CALLFII => call(state, a, &[b, c], dest, cursor),
        _ => Ok(false),
    }
}

/// Does a row of a store alone.
#[inline(always)]
#[tactic(auto, unfolding(ops_memory::specs::MemoryRows::memory, ops_memory::specs::Space::getmemsize))]
fn do_store<A: Allocator + Clone>(
    state: &mut State<A>,
    row: &Row,
    dest: Dest,
    cursor: &Cursor,
) -> Result<bool, Fault>
    requires live { 0 < sp_of state.old.flat }
    requires quick { IsQuick row.now.class }
    requires popped { HasValues state.old.flat cursor.now.popped }
    ensures value { Tries (IsReadWriting state.old.flat row.now [] dest cursor.now) result
        state.old.flat state.new.flat (read_effect state.old.flat row.now [] dest cursor.now) }
    ensures story { state.new.flat.story ≡ state.old.flat.story }
{
    match row.class {
        Class::Memory if row.number == GETMEMSIZE => {
            let size = state.memory().size();
            store_on(state, 4, dest, size, cursor)
        }
        _ => Ok(false),
    }
}

/// Reads and does a row of three loads and a store.
#[tactic(auto, using(crate::proofs::Reading::three_and_store_reading))]
fn three_and_store<A: Allocator + Clone, const ROM: bool>(
    state: &mut State<A>,
    row: &Row,
    modes: u32,
) -> Result<bool, Fault>
    requires live { 0 < sp_of state.old.flat }
    requires quick { IsQuick row.now.class }
    requires plain { IsPlain row.now }
    requires loads { row.now.loads ≡ 3 }
    requires stores { row.now.stores ≡ 1 }
    requires rom { IsInRom ROM state.old.flat (modes + 18) }
    ensures value { Tries (IsRowWriting state.old.flat row.now modes) result state.old.flat state.new.flat
        (quick_row state.old.flat row.now modes) }
    ensures story { state.new.flat.story ≡ state.old.flat.story }
{
    let (first, second) = code_pair::<A, ROM>(state, modes)?;
    let mut cursor = Cursor {
        at: modes + 2,
        popped: 0,
    };
    let a = load::<A, ROM>(state, 4, first % 16, &mut cursor)?;
    let b = load::<A, ROM>(state, 4, first / 16, &mut cursor)?;
    let c = load::<A, ROM>(state, 4, second % 16, &mut cursor)?;
    let dest = destination::<A, ROM>(state, second / 16, &mut cursor)?;
    do_three_and_store(state, row, a, b, c, dest, &cursor)
}

/// Reads and does a row of a store alone.
#[inline(never)]
#[tactic(auto, using(crate::proofs::Reading::store_reading))]
fn store_alone<A: Allocator + Clone, const ROM: bool>(
    state: &mut State<A>,
    row: &Row,
    modes: u32,
) -> Result<bool, Fault>
    requires live { 0 < sp_of state.old.flat }
    requires quick { IsQuick row.now.class }
    requires plain { IsPlain row.now }
    requires loads { row.now.loads ≡ 0 }
    requires stores { row.now.stores ≡ 1 }
    requires rom { IsInRom ROM state.old.flat (modes + 5) }
    ensures value { Tries (IsRowWriting state.old.flat row.now modes) result state.old.flat state.new.flat
        (quick_row state.old.flat row.now modes) }
    ensures story { state.new.flat.story ≡ state.old.flat.story }
{
    let first = mode_pair::<A, ROM>(state, modes)?;
    let mut cursor = Cursor {
        at: modes + 1,
        popped: 0,
    };
    let dest = destination::<A, ROM>(state, first % 16, &mut cursor)?;
    do_store(state, row, dest, &cursor)
}

/// Reads and does a row of two loads and a store.
#[tactic(auto, using(crate::proofs::Reading::two_and_store_reading))]
fn two_and_store<A: Allocator + Clone, const ROM: bool>(
    state: &mut State<A>,
    row: &Row,
    modes: u32,
) -> Result<bool, Fault>
    requires live { 0 < sp_of state.old.flat }
    requires quick { IsQuick row.now.class }
    requires calc { row.now.class ≡ Class.Calc → IsTrue (acts.is_calc row.now.act) }
    requires plain { IsPlain row.now }
    requires loads { row.now.loads ≡ 2 }
    requires stores { row.now.stores ≡ 1 }
    requires rom { IsInRom ROM state.old.flat (modes + 14) }
    ensures value { Tries (IsRowWriting state.old.flat row.now modes) result state.old.flat state.new.flat
        (quick_row state.old.flat row.now modes) }
    ensures story { state.new.flat.story ≡ state.old.flat.story }
{
    let (first, second) = code_pair::<A, ROM>(state, modes)?;
    let mut cursor = Cursor {
        at: modes + 2,
        popped: 0,
    };
    let a = load::<A, ROM>(state, 4, first % 16, &mut cursor)?;
    let b = load::<A, ROM>(state, 4, first / 16, &mut cursor)?;
    let dest = destination::<A, ROM>(state, second % 16, &mut cursor)?;
    do_two_and_store(state, row, a, b, dest, &cursor)
}

/// The fault of a division that has no result: that of its store operand comes first.
#[inline(never)]
#[cold]
fn no_quotient<A: Allocator + Clone, const ROM: bool>(
    state: &State<A>,
    nibble: u32,
    cursor: Cursor,
) -> Fault
    requires nibble { nibble < 16 }
    requires rom { IsInRom ROM state.now.flat (cursor.at + 4) }
    ensures value { without_result state.now.flat nibble cursor ≡ Err result }
    ensures free { result ≢ NoMemory }
{
    let mut after = cursor;
    match destination::<A, ROM>(state, nibble, &mut after) {
        Ok(_) => Fault::Divide,
        Err(e) => e,
    }
}

/// Reads and does arithmetic on two operands.
#[tactic(auto, using(crate::proofs::Reading::two_and_store_reading))]
fn computed<A: Allocator + Clone, const ROM: bool>(
    state: &mut State<A>,
    row: &Row,
    modes: u32,
) -> Result<bool, Fault>
    requires live { 0 < sp_of state.old.flat }
    requires class { row.now.class ≡ Class.Calc }
    requires calc { IsTrue (acts.is_calc row.now.act) }
    requires plain { IsPlain row.now }
    requires loads { row.now.loads ≡ 2 }
    requires stores { row.now.stores ≡ 1 }
    requires rom { IsInRom ROM state.old.flat (modes + 14) }
    ensures value { Tries (IsRowWriting state.old.flat row.now modes) result state.old.flat state.new.flat
        (quick_row state.old.flat row.now modes) }
    ensures story { state.new.flat.story ≡ state.old.flat.story }
{
    let (first, second) = code_pair::<A, ROM>(state, modes)?;
    let mut cursor = Cursor {
        at: modes + 2,
        popped: 0,
    };
    let a = load::<A, ROM>(state, 4, first % 16, &mut cursor)?;
    let b = load::<A, ROM>(state, 4, first / 16, &mut cursor)?;
    match calc(row.act, a, b) {
        Some(value) => {
            let dest = destination::<A, ROM>(state, second % 16, &mut cursor)?;
            store_on(state, 4, dest, value, &cursor)
        }
        None => Err(no_quotient::<A, ROM>(state, second % 16, cursor)),
    }
}

/// Reads and copies a word.
#[tactic(auto, using(crate::proofs::Reading::one_and_store_reading))]
fn copied<A: Allocator + Clone, const ROM: bool>(
    state: &mut State<A>,
    row: &Row,
    modes: u32,
) -> Result<bool, Fault>
    requires live { 0 < sp_of state.old.flat }
    requires class { row.now.class ≡ Class.Copy }
    requires plain { IsPlain row.now }
    requires loads { row.now.loads ≡ 1 }
    requires stores { row.now.stores ≡ 1 }
    requires rom { IsInRom ROM state.old.flat (modes + 9) }
    ensures value { Tries (IsRowWriting state.old.flat row.now modes) result state.old.flat state.new.flat
        (quick_row state.old.flat row.now modes) }
    ensures story { state.new.flat.story ≡ state.old.flat.story }
{
    let first = mode_pair::<A, ROM>(state, modes)?;
    let mut cursor = Cursor {
        at: modes + 1,
        popped: 0,
    };
    let a = load::<A, ROM>(state, 4, first % 16, &mut cursor)?;
    let dest = destination::<A, ROM>(state, first / 16, &mut cursor)?;
    store_on(state, 4, dest, a, &cursor)
}

/// Reads and does a row of three loads.
#[tactic(auto, using(crate::proofs::Reading::three_reading))]
fn three<A: Allocator + Clone, const ROM: bool>(
    state: &mut State<A>,
    row: &Row,
    modes: u32,
) -> Result<bool, Fault>
    requires live { 0 < sp_of state.old.flat }
    requires quick { IsQuick row.now.class }
    requires branch { row.now.class ≡ Class.Branch → IsTrue (acts.is_branch row.now.act) }
    requires plain { IsPlain row.now }
    requires loads { row.now.loads ≡ 3 }
    requires stores { row.now.stores ≡ 0 }
    requires rom { IsInRom ROM state.old.flat (modes + 14) }
    ensures value { Tries (IsRowWriting state.old.flat row.now modes) result state.old.flat state.new.flat
        (quick_row state.old.flat row.now modes) }
    ensures story { state.new.flat.story ≡ state.old.flat.story }
{
    let (first, second) = code_pair::<A, ROM>(state, modes)?;
    let mut cursor = Cursor {
        at: modes + 2,
        popped: 0,
    };
    let a = load::<A, ROM>(state, 4, first % 16, &mut cursor)?;
    let b = load::<A, ROM>(state, 4, first / 16, &mut cursor)?;
    let c = load::<A, ROM>(state, 4, second % 16, &mut cursor)?;
    do_three(state, row, a, b, c, &cursor)
}

/// Reads and does a row of two loads.
#[tactic(auto, using(crate::proofs::Reading::two_reading))]
fn two<A: Allocator + Clone, const ROM: bool>(
    state: &mut State<A>,
    row: &Row,
    modes: u32,
) -> Result<bool, Fault>
    requires live { 0 < sp_of state.old.flat }
    requires quick { IsQuick row.now.class }
    requires branch { row.now.class ≡ Class.Branch → IsTrue (acts.is_branch row.now.act) }
    requires plain { IsPlain row.now }
    requires loads { row.now.loads ≡ 2 }
    requires stores { row.now.stores ≡ 0 }
    requires rom { IsInRom ROM state.old.flat (modes + 9) }
    ensures value { Tries (IsRowWriting state.old.flat row.now modes) result state.old.flat state.new.flat
        (quick_row state.old.flat row.now modes) }
    ensures story { state.new.flat.story ≡ state.old.flat.story }
{
    let first = mode_pair::<A, ROM>(state, modes)?;
    let mut cursor = Cursor {
        at: modes + 1,
        popped: 0,
    };
    let a = load::<A, ROM>(state, 4, first % 16, &mut cursor)?;
    let b = load::<A, ROM>(state, 4, first / 16, &mut cursor)?;
    do_two(state, row, a, b, &cursor)
}

/// Reads and does a row of a load and a store.
#[tactic(auto, using(crate::proofs::Reading::one_and_store_reading))]
fn one_and_store<A: Allocator + Clone, const ROM: bool>(
    state: &mut State<A>,
    row: &Row,
    modes: u32,
) -> Result<bool, Fault>
    requires live { 0 < sp_of state.old.flat }
    requires quick { IsQuick row.now.class }
    requires calc { row.now.class ≡ Class.Calc → IsTrue (acts.is_calc row.now.act) }
    requires plain { IsPlain row.now }
    requires loads { row.now.loads ≡ 1 }
    requires stores { row.now.stores ≡ 1 }
    requires rom { IsInRom ROM state.old.flat (modes + 9) }
    ensures value { Tries (IsRowWriting state.old.flat row.now modes) result state.old.flat state.new.flat
        (quick_row state.old.flat row.now modes) }
    ensures story { state.new.flat.story ≡ state.old.flat.story }
{
    let first = mode_pair::<A, ROM>(state, modes)?;
    let mut cursor = Cursor {
        at: modes + 1,
        popped: 0,
    };
    let a = load::<A, ROM>(state, 4, first % 16, &mut cursor)?;
    let dest = destination::<A, ROM>(state, first / 16, &mut cursor)?;
    do_one_and_store(state, row, a, dest, &cursor)
}

/// Reads and does a row of one load.
#[tactic(auto, using(crate::proofs::Reading::one_reading))]
fn one<A: Allocator + Clone, const ROM: bool>(
    state: &mut State<A>,
    row: &Row,
    modes: u32,
) -> Result<bool, Fault>
    requires live { 0 < sp_of state.old.flat }
    requires quick { IsQuick row.now.class }
    requires branch { row.now.class ≡ Class.Branch → IsTrue (acts.is_branch row.now.act) }
    requires plain { IsPlain row.now }
    requires loads { row.now.loads ≡ 1 }
    requires stores { row.now.stores ≡ 0 }
    requires rom { IsInRom ROM state.old.flat (modes + 5) }
    ensures value { Tries (IsRowWriting state.old.flat row.now modes) result state.old.flat state.new.flat
        (quick_row state.old.flat row.now modes) }
    ensures story { state.new.flat.story ≡ state.old.flat.story }
{
    let first = mode_pair::<A, ROM>(state, modes)?;
    let mut cursor = Cursor {
        at: modes + 1,
        popped: 0,
    };
    let a = load::<A, ROM>(state, 4, first % 16, &mut cursor)?;
    do_one(state, row, a, &cursor)
}

/// Does the row of no operands that does nothing.
#[inline(always)]
#[tactic(auto, unfolding(ops_flow::specs::FlowRows::flow), using(crate::proofs::Reading::none_read))]
fn none<A: Allocator + Clone>(state: &mut State<A>, row: &Row, modes: u32) -> Result<bool, Fault>
    requires live { 0 < sp_of state.old.flat }
    requires quick { IsQuick row.now.class }
    requires loads { row.now.loads ≡ 0 }
    ensures value { Tries (IsRowWriting state.old.flat row.now modes) result state.old.flat state.new.flat
        (quick_row state.old.flat row.now modes) }
    ensures story { state.new.flat.story ≡ state.old.flat.story }
{
    let size = state.memory().size();
    match row.class {
        Class::Flow if row.number == NOP && row.stores == 0 && modes <= size => {
            let cursor = Cursor {
                at: modes,
                popped: 0,
            };
            go_on(state, modes, &cursor);
            Ok(true)
        }
        _ => Ok(false),
    }
}

/// Reads and does a row by its shape.
#[inline(always)]
fn by_shape<A: Allocator + Clone, const ROM: bool>(
    state: &mut State<A>,
    row: &Row,
    modes: u32,
) -> Result<bool, Fault>
    requires live { 0 < sp_of state.old.flat }
    requires quick { IsQuick row.now.class }
    requires calc { row.now.class ≡ Class.Calc → IsTrue (acts.is_calc row.now.act) }
    requires branch { row.now.class ≡ Class.Branch → IsTrue (acts.is_branch row.now.act) }
    requires one { row.now.loads ≡ 1 → row.now.stores ≡ 0 → IsPlain row.now }
    requires two { row.now.loads ≡ 2 → IsPlain row.now }
    requires three { row.now.loads ≡ 3 → IsPlain row.now }
    requires copy { row.now.class ≡ Class.Copy → row.now.store_first ≡ false }
    requires rom { IsInRom ROM state.old.flat (modes + 18) }
    ensures value { Tries (IsRowWriting state.old.flat row.now modes) result state.old.flat state.new.flat
        (quick_row state.old.flat row.now modes) }
    ensures story { state.new.flat.story ≡ state.old.flat.story }
{
    match (row.loads, row.stores) {
        (0, 1) if row.width == 4 && !row.store_first => store_alone::<A, ROM>(state, row, modes),
        (0, _) => none(state, row, modes),
        (1, 0) => one::<A, ROM>(state, row, modes),
        (1, 1) => match row.class {
            Class::Copy if row.width == 4 => copied::<A, ROM>(state, row, modes),
            _ if row.width == 4 && !row.store_first => {
                one_and_store::<A, ROM>(state, row, modes)
            }
            _ => Ok(false),
        },
        (2, 0) => two::<A, ROM>(state, row, modes),
        (2, 1) => match row.class {
            Class::Calc => computed::<A, ROM>(state, row, modes),
            _ => two_and_store::<A, ROM>(state, row, modes),
        },
        (3, 0) => three::<A, ROM>(state, row, modes),
        (3, 1) => three_and_store::<A, ROM>(state, row, modes),
        _ => Ok(false),
    }
}

/// Whether a class has quick rows.
#[inline(always)]
fn is_quick(class: Class) -> bool
    ensures { IsTrue result → IsQuick class }
{
    matches!(
        class,
        Class::Calc | Class::Branch | Class::Flow | Class::Copy | Class::Memory
    )
}

/// The answer where nothing is done. The compiler is told that this is rare: it then takes the rows of the quick way
/// into the function of their steps.
#[inline(never)]
#[cold]
fn not_quick() -> Result<bool, Fault>
    ensures { result ≡ Ok false }
{
    Ok(false)
}

/// Does the instruction at PC where its row is one of these.
#[inline(always)]
#[tactic(auto, using(crate::proofs::Tries::rows))]
fn at_pc<A: Allocator + Clone, const ROM: bool>(state: &mut State<A>) -> Result<bool, Fault>
    requires live { 0 < sp_of state.old.flat }
    requires rom { IsInRom ROM state.old.flat (state.old.flat.pc + 22) }
    ensures value { (u : FlatUndo) (word : ℕ)
        → Tries (IsModeWriting (machine_with state.old u) Running) result (machine_with state.old u)
        (machine_with state.new u) (mode_step (machine_with state.old u) word Running) }
    ensures free { result ≢ Ok false → probes_in state.old.flat Running ≡ 0 }
    ensures story { state.new.flat.story ≡ state.old.flat.story }
{
    let mut modes = 0;
    let number = opcode::<A, ROM>(state, &mut modes)?;
    let place = find_row(number)?;
    let row = row_at(place);
    if row.loads > 3 || !is_quick(row.class) {
        return not_quick();
    }
    by_shape::<A, ROM>(state, row, modes)
}

/// The same for code that doesn't all lie in ROM.
#[inline(never)]
#[cold]
fn in_ram<A: Allocator + Clone>(state: &mut State<A>) -> Result<bool, Fault>
    requires { 0 < sp_of state.old.flat }
    ensures value { (u : FlatUndo) (word : ℕ)
        → Tries (IsModeWriting (machine_with state.old u) Running) result (machine_with state.old u)
        (machine_with state.new u) (mode_step (machine_with state.old u) word Running) }
    ensures free { result ≢ Ok false → probes_in state.old.flat Running ≡ 0 }
    ensures story { state.new.flat.story ≡ state.old.flat.story }
{
    at_pc::<A, false>(state)
}

/// The most bytes of an instruction that is read here: its number, two bytes of modes, and four operands.
const MOST_BYTES: u32 = 22;

/// Whether that many bytes from PC on lie in ROM.
#[inline(always)]
pub(crate) fn is_in_rom<A: Allocator + Clone>(state: &State<A>) -> bool
    ensures { result ≡ true → IsInRom true state.now.flat (state.now.flat.pc + 22) }
{
    u64::from(state.pc()) + u64::from(MOST_BYTES) <= u64::from(state.ramstart())
}

/// Does the instruction at PC where its row is one of these.
#[inline(always)]
pub(crate) fn quick<A: Allocator + Clone>(state: &mut State<A>) -> Result<bool, Fault>
    requires { 0 < sp_of state.old.flat }
    ensures value { (u : FlatUndo) (word : ℕ)
        → Tries (IsModeWriting (machine_with state.old u) Running) result (machine_with state.old u)
        (machine_with state.new u) (mode_step (machine_with state.old u) word Running) }
    ensures free { result ≢ Ok false → probes_in state.old.flat Running ≡ 0 }
    ensures story { state.new.flat.story ≡ state.old.flat.story }
{
    if is_in_rom(state) {
        at_pc::<A, true>(state)
    } else {
        in_ram(state)
    }
}

/// The character that the instruction at PC asks to be put under Glk, where that is streamchar or streamunichar, with
/// the stack pointer that its pops leave and the address behind it; None of any other instruction.
#[inline(never)]
pub(crate) fn streamed<A: Allocator + Clone>(state: &State<A>) -> Option<(u32, u32, u32)>
    requires { 0 < sp_of state.now.flat }
    ensures value { IfSome result (λ r. IsStreamed state.now.flat r.0 r.1 r.2) }
    ensures height { IfSome result (λ r. IsHeight state.now.flat r.1) }
{
    if is_in_rom(state) {
        streamed_at::<A, true>(state)
    } else {
        streamed_at::<A, false>(state)
    }
}

/// The same, where it is known or not that the instruction lies in ROM.
#[tactic(auto, using(crate::proofs::Streams::streams))]
fn streamed_at<A: Allocator + Clone, const ROM: bool>(state: &State<A>) -> Option<(u32, u32, u32)>
    requires live { 0 < sp_of state.now.flat }
    requires rom { IsInRom ROM state.now.flat (state.now.flat.pc + 22) }
    ensures value { IfSome result (λ r. IsStreamed state.now.flat r.0 r.1 r.2) }
    ensures height { IfSome result (λ r. IsHeight state.now.flat r.1) }
{
    let (system, _) = state.iosys();
    if system != GLK_SYSTEM {
        return None;
    }
    let mut modes = 0;
    let number = opcode::<A, ROM>(state, &mut modes).ok()?;
    if number != STREAMCHAR && number != STREAMUNICHAR {
        return None;
    }
    let first = mode_pair::<A, ROM>(state, modes).ok()?;
    let mut cursor = Cursor {
        at: modes + 1,
        popped: 0,
    };
    let a = load::<A, ROM>(state, 4, first % 16, &mut cursor).ok()?;
    let c = if number == STREAMCHAR { a % 256 } else { a };
    Some((c, stack_pointer(state, cursor.popped), cursor.at))
}
