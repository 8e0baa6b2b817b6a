//! One store, made or looked at.
ghost use Rattle.std.specs.Prelude.{◌≡◌, ◌<◌};
ghost use Rattle.gx_words.specs.Numbers.{IsWidth};
ghost use Rattle.gx_words.specs.Faults.{Reads};
ghost use Rattle.gx_state.specs.Flat.{frame_of, sp_of, IsHeight};
ghost use Rattle.gx_state.specs.Relations.{Stores};
ghost use Rattle.gx_state.specs.Stores.{IsMemory, store_fault, stored};
ghost use Rattle.gx_operands.specs.Stores.{settled};

use gx_state::{Dest, State};
use gx_words::{Fault, low, word_bytes};
use std::alloc::Allocator;

/// Looks whether a store of 1, 2 or 4 bytes would have a fault on the stack cut to `sp`.
#[tactic(auto, unfolding(gx_state::specs::Stores::store_fault))]
pub fn can_store<A: Allocator + Clone>(
    state: &State<A>,
    dest: &Dest,
    width: u32,
    sp: u32,
) -> Result<(), Fault>
    requires width { IsWidth width }
    requires sp { IsHeight state.now.flat sp }
    ensures { Reads (λ v. v) result (store_fault state.now.flat width dest.now sp) }
{
    match *dest {
        Dest::Nowhere => Ok(()),
        Dest::Memory(at) => state.can_write(at, width),
        Dest::Local(at) => {
            if !state.frame().has_local(at, width) {
                return Err(Fault::BadLocal);
            }
            Ok(())
        }
        Dest::Push => {
            let limit = state.stack().limit();
            if sp + 4 > limit {
                return Err(Fault::Overflow);
            }
            Ok(())
        }
    }
}

/// Stores the low 1, 2 or 4 bytes of a value.
#[tactic(auto, unfolding(gx_state::proofs::Opened::storing_anywhere))]
pub fn store<A: Allocator + Clone>(
    state: &mut State<A>,
    dest: &Dest,
    width: u32,
    value: u32,
) -> Result<(), Fault>
    requires live { 0 < sp_of state.old.flat }
    requires width { IsWidth width }
    ensures { Stores (IsMemory dest.now) result state.old state.new (stored state.old.flat width dest.now value) }
{
    match *dest {
        Dest::Nowhere => Ok(()),
        Dest::Memory(at) => write(state, at, width, value),
        Dest::Local(at) => state.set_local(at, width, value),
        Dest::Push => state.push(low(value, width)),
    }
}

/// Writes the low bytes of a number to RAM.
#[tactic(auto, unfolding(gx_state::specs::Stores::stored, gx_state::specs::Stores::store_fault))]
fn write<A: Allocator + Clone>(
    state: &mut State<A>,
    at: u32,
    width: u32,
    value: u32,
) -> Result<(), Fault>
    requires { IsWidth width }
    ensures value { Stores (Unit {0}) result state.old state.new (stored state.old.flat width (Dest.Memory at) value) }
    ensures frame { (frame_of state.new.flat ≡ frame_of state.old.flat)
        × (sp_of state.new.flat ≡ sp_of state.old.flat) }
{
    state.can_write(at, width)?;
    let bytes = word_bytes(value);
    let written = match width {
        1 => state.write(at, &[bytes[3]]),
        2 => state.write(at, &[bytes[2], bytes[3]]),
        _ => state.write(at, &bytes),
    };
    match written {
        Ok(()) => Ok(()),
        Err(_) => Err(Fault::NoMemory),
    }
}

/// Stores the low 1, 2 or 4 bytes of a value after the stack was cut to `sp`.
#[tactic(auto, unfolding(crate::specs::Stores::settled, gx_state::proofs::Opened::storing_anywhere))]
#[inline(always)]
pub fn settle<A: Allocator + Clone>(
    state: &mut State<A>,
    sp: u32,
    dest: &Dest,
    width: u32,
    value: u32,
) -> Result<(), Fault>
    requires width { IsWidth width }
    requires sp { IsHeight state.old.flat sp }
    ensures { Stores (IsMemory dest.now) result state.old state.new (settled state.old.flat sp width dest.now value) }
{
    match *dest {
        Dest::Nowhere => state.cut_stack(sp),
        Dest::Memory(at) => {
            write(state, at, width, value)?;
            state.cut_stack(sp);
        }
        Dest::Local(at) => {
            state.set_local(at, width, value)?;
            state.cut_stack(sp);
        }
        Dest::Push => {
            let limit = state.stack().limit();
            if sp + 4 > limit {
                return Err(Fault::Overflow);
            }
            state.cut_stack(sp);
            return state.push(low(value, width));
        }
    }
    Ok(())
}
