//! The rows of the string decoding table and the iosystem (Glulx 3.1.2, "Output").
//!
//! getiosys makes both stores or none: their faults are looked for first, then memory is written at once,
//! and the rest has no fault.
ghost use Rattle.std.specs.Prelude.{◌≡◌, ◌⊎◌, Ok, IfOk};
ghost use Rattle.gx_words.specs.Faults.{Reads};
ghost use Rattle.gx_state.specs.Flat.{IsHeight};
ghost use Rattle.gx_state.specs.Relations.{Stores, Works};
ghost use Rattle.gx_state.specs.Replies.{IsDone};
ghost use Rattle.gx_state.specs.Sound.{IsSound};
ghost use Rattle.gx_state.specs.Stores.{IsMemory};
ghost use Rattle.gx_operands.specs.Plans.{instruction_of};
ghost use Rattle.ops_game.specs.Pairs.{beside_memory, both_fault, memory_word};
ghost use Rattle.ops_game.specs.GameRows.{both_stored, getiosys, getstringtbl, setiosys, setstringtbl};

use gx_operands::{Plan, can_store, goes, settle, store, stores};
use gx_state::{Dest, Effect, State};
use gx_words::{FILTER_SYSTEM, Fault, GLK_SYSTEM, NULL_SYSTEM};
use std::alloc::Allocator;

/// getstringtbl
#[tactic(auto, unfolding(crate::specs::GameRows::getstringtbl))]
pub fn getstringtbl<A: Allocator + Clone>(
    state: &mut State<A>,
    plan: &Plan,
) -> Result<Effect, Fault>
    requires { IsHeight state.old.flat plan.now.sp }
    ensures value { Works (IsMemory plan.now.dest) result state.old.flat state.new.flat
        (getstringtbl state.old.flat (instruction_of plan.now)) }
    ensures done { IfOk result IsDone }
{
    let table = state.table();
    stores(state, plan, table)
}

/// setstringtbl
#[tactic(auto, unfolding(crate::specs::GameRows::setstringtbl))]
pub fn setstringtbl<A: Allocator + Clone>(state: &mut State<A>, plan: &Plan) -> Effect
    requires { IsHeight state.old.flat plan.now.sp }
    ensures value { setstringtbl state.old.flat (instruction_of plan.now) ≡ Ok (state.new.flat, result) }
    ensures done { IsDone result }
    ensures story { state.new.flat.story ≡ state.old.flat.story }
{
    state.set_table(plan.load(0));
    goes(state, plan)
}

/// setiosys
#[tactic(auto, unfolding(crate::specs::GameRows::setiosys))]
pub fn setiosys<A: Allocator + Clone>(state: &mut State<A>, plan: &Plan) -> Effect
    requires { IsHeight state.old.flat plan.now.sp }
    ensures value { setiosys state.old.flat (instruction_of plan.now) ≡ Ok (state.new.flat, result) }
    ensures done { IsDone result }
    ensures story { state.new.flat.story ≡ state.old.flat.story }
{
    match plan.load(0) {
        system @ (NULL_SYSTEM | FILTER_SYSTEM | GLK_SYSTEM) => state.set_iosys(
            system,
            plan.load(1),
        ),
        _ => state.set_iosys(NULL_SYSTEM, 0),
    }
    goes(state, plan)
}

/// getiosys
#[tactic(auto, unfolding(crate::specs::GameRows::getiosys))]
pub fn getiosys<A: Allocator + Clone>(state: &mut State<A>, plan: &Plan) -> Result<Effect, Fault>
    requires { IsHeight state.old.flat plan.now.sp }
    ensures value { Works (IsMemory plan.now.dest ⊎ IsMemory plan.now.second) result state.old.flat state.new.flat
        (getiosys state.old.flat (instruction_of plan.now)) }
    ensures done { IfOk result IsDone }
{
    store_both(state, plan)?;
    state.set_pc(plan.next);
    Ok(Effect::Went)
}

/// Looks for the faults of both stores of getiosys, the first first.
#[tactic(auto, unfolding(gx_state::specs::Stores::store_fault))]
fn can_store_both<A: Allocator + Clone>(state: &State<A>, plan: &Plan) -> Result<(), Fault>
    requires { IsHeight state.now.flat plan.now.sp }
    ensures value { Reads (λ v. v) result (both_fault state.now.flat (instruction_of plan.now)) }
    ensures sound { IsSound state.now.flat }
{
    let limit = state.stack().limit();
    can_store(state, &plan.dest, 4, plan.sp)?;
    match (plan.dest, plan.second) {
        (Dest::Push, Dest::Push) if limit - plan.sp < 8 => Err(Fault::Overflow),
        (Dest::Push, Dest::Push) => Ok(()),
        _ => can_store(state, &plan.second, 4, plan.sp),
    }
}

/// The word that a store puts in memory, behind its address.
fn memory_word(dest: &Dest, value: u32) -> Option<(u32, u32)>
    ensures { result ≡ memory_word dest.now value }
{
    match *dest {
        Dest::Memory(at) => Some((at, value)),
        _ => None,
    }
}

/// Where a store goes beside memory.
fn beside_memory(dest: &Dest) -> Dest
    ensures { result ≡ beside_memory dest.now }
{
    match *dest {
        Dest::Memory(_) => Dest::Nowhere,
        other => other,
    }
}

/// Makes both stores of getiosys, or none.
fn store_both<A: Allocator + Clone>(state: &mut State<A>, plan: &Plan) -> Result<(), Fault>
    requires { IsHeight state.old.flat plan.now.sp }
    ensures { Stores (IsMemory plan.now.dest ⊎ IsMemory plan.now.second) result state.old state.new
        (both_stored state.old.flat (instruction_of plan.now)) }
{
    can_store_both(state, plan)?;
    let (system, rock) = state.iosys();
    state.write_words(
        memory_word(&plan.dest, system),
        memory_word(&plan.second, rock),
    )?;
    settle(state, plan.sp, &beside_memory(&plan.dest), 4, system)?;
    store(state, &beside_memory(&plan.second), 4, rock)?;
    Ok(())
}
