//! The row of an instruction, class by class.
ghost use Rattle.std.specs.Prelude.{◌≡◌, ◌≢◌, ◌<◌, ◌≤◌, ◌*◌, ◌+◌, ℕ, Ok, None, Some, false, IsSome, IfErr, IfOk};
ghost use Rattle.std.specs.Prelude.{IfSome, OnOk, OnErr};
ghost use Rattle.std.specs.Option.{option_map};
ghost use Rattle.gx_words.specs.Faults.{Does, Reads};
ghost use Rattle.gx_state.specs.declared.effects.Effect.TheVariants.{Put, Spent};
ghost use Rattle.gx_state.specs.declared.modes.Mode.TheVariants.{Running, Printing as APrinting};
ghost use Rattle.gx_state.specs.Flat.{FlatState, sp_of, IsHeight};
ghost use Rattle.gx_operands.specs.Instructions.{instruction};
ghost use Rattle.gx_operands.specs.Plans.{instruction_of};
ghost use Rattle.gx_undo.specs.Undo.{FlatUndo, AreCopiesFor};
ghost use Rattle.ops_game.specs.GameRows as game;
ghost use Rattle.ops_game.specs.Writes as game_writes;
ghost use Rattle.ops_memory.specs.Costs.{probes_of};
ghost use Rattle.ops_memory.specs.Charges.{charged, IsAfforded};
ghost use Rattle.ops_print.specs.PrintRows as print;
ghost use Rattle.ops_print.specs.Asks.{printed, is_put};
ghost use Rattle.gx_machine.specs.declared.askings.Asking.TheVariants as asking;
ghost use Rattle.gx_machine.specs.Quick.{Tries};
ghost use Rattle.gx_machine.specs.MachineRows.{room_above, glk, row_effect, IsWriting};
ghost use Rattle.gx_machine.specs.Step.{asking_of, mode_step, probes_in, IsModeWriting};
ghost use Rattle.gx_machine.specs.Views.{IsPendingAnswer, result_len, machine_with};

use crate::Asking;
use crate::machine::Pending;
use crate::printing::{item_on, prints_at_pc};
use crate::quick::streamed;
use gx_operands::{Plan, arguments, can_store, decode_into};
use gx_rows::Class;
use gx_state::{Dest, Effect, Mode, State};
use gx_undo::Undo;
use gx_words::{Fault, Printing};
use std::alloc::Allocator;

/// How many words fit above a stack pointer, beside a result that is pushed.
fn room_above(limit: u32, sp: u32, dest: &Dest) -> u32
    ensures value { (f : FlatState) → limit ≡ f.stack.limit → result ≡ room_above f sp dest.now }
    ensures fits { sp + result_len dest.now ≤ limit → sp + 4 * result + result_len dest.now ≤ limit }
{
    let room = limit.saturating_sub(sp) / 4;
    match *dest {
        Dest::Push => room.saturating_sub(1),
        _ => room,
    }
}

/// glk: asks for a call.
#[tactic(auto, unfolding(crate::specs::MachineRows::glk), using(crate::proofs::Answers::answers))]
fn glk<A: Allocator + Clone>(
    state: &State<A>,
    plan: &Plan,
    pending: &mut Option<Pending>,
) -> Result<Effect, Fault>
    requires running { state.now.flat.mode ≡ Running }
    requires sp { IsHeight state.now.flat plan.now.sp }
    requires decoded { instruction state.now.flat ≡ Ok (instruction_of plan.now) }
    requires class { (instruction_of plan.now).row.class ≡ Class.Glk }
    ensures value { Reads (λ effect. (state.now.flat, effect)) result (glk state.now.flat (instruction_of plan.now)) }
    ensures asks { IfOk result (λ effect. asking_of effect ≡ option_map (λ p. p.asking) pending.new) }
    ensures pends { OnOk result (IfSome pending.new (IsPendingAnswer state.now.flat)) }
    ensures stays { OnErr result (pending.new ≡ pending.old) }
    ensures spent { IfOk result (λ effect. effect ≢ Spent) }
{
    let count = plan.load(1);
    let limit = state.stack().limit();
    let args = arguments(state, plan.sp, count)?;
    let sp = plan.sp - 4 * count;
    can_store(state, &plan.dest, 4, sp)?;
    let room = room_above(limit, sp, &plan.dest);
    *pending = Some(Pending {
        asking: Asking::Glk(room),
        sp,
        dest: plan.dest,
        next: plan.next,
        mode: Mode::Running,
    });
    Ok(Effect::Glk {
        selector: plan.load(0),
        args,
        room,
    })
}

/// What is pending after a character was put, with the mode that follows.
fn put_pending(sp: u32, next: u32, mode: Mode) -> Pending
    ensures { result ≡ record { asking = Asking.Put; sp = sp; dest = Dest.Nowhere; next = next; mode = mode } }
{
    Pending {
        asking: Asking::Put,
        sp,
        dest: Dest::Nowhere,
        next,
        mode,
    }
}

/// A row of Print.
#[tactic(auto, unfolding(gx_state::specs::Stores::store_fault), using(crate::proofs::Answers::answers))]
fn print_row<A: Allocator + Clone>(
    state: &mut State<A>,
    plan: &Plan,
    pending: &mut Option<Pending>,
) -> Result<Effect, Fault>
    requires free { pending.old ≡ None }
    requires running { state.old.flat.mode ≡ Running }
    requires sp { IsHeight state.old.flat plan.now.sp }
    requires decoded { instruction state.old.flat ≡ Ok (instruction_of plan.now) }
    requires class { (instruction_of plan.now).row.class ≡ Class.Print }
    ensures value { Does ⊥ (λ effect. effect) result state.old.flat state.new.flat
        (print.row_effect state.old.flat (instruction_of plan.now)) }
    ensures asks { IfOk result (λ effect. asking_of effect ≡ option_map (λ p. p.asking) pending.new) }
    ensures stands { OnOk result (IsSome pending.new → state.new.flat ≡ state.old.flat) }
    ensures pends { OnOk result (IfSome pending.new (IsPendingAnswer state.new.flat)) }
    ensures stays { OnErr result (pending.new ≡ None) }
    ensures spent { IfOk result (λ effect. effect ≢ Spent) }
    ensures story { state.new.flat.story ≡ state.old.flat.story }
{
    let _stack = state.stack(); // a state is sound
    match ops_print::act(state, plan)? {
        Effect::Put(c) => {
            *pending = Some(put_pending(plan.sp, plan.next, Mode::Running));
            Ok(Effect::Put(c))
        }
        effect => Ok(effect),
    }
}

/// One step of printing.
#[tactic(auto, unfolding(gx_state::specs::Stores::store_fault), using(crate::proofs::Answers::answers))]
pub(crate) fn print<A: Allocator + Clone>(
    state: &mut State<A>,
    pending: &mut Option<Pending>,
) -> Result<Effect, Fault>
    requires free { pending.old ≡ None }
    requires live { 0 < sp_of state.old.flat }
    requires printing { state.old.flat.mode ≢ Running }
    ensures value { Does ⊥ (λ effect. effect) result state.old.flat state.new.flat (printed state.old.flat) }
    ensures asks { IfOk result (λ effect. asking_of effect ≡ option_map (λ p. p.asking) pending.new) }
    ensures stands { OnOk result (IsSome pending.new → state.new.flat ≡ state.old.flat) }
    ensures pends { OnOk result (IfSome pending.new (IsPendingAnswer state.new.flat)) }
    ensures stays { OnErr result (pending.new ≡ None) }
    ensures spent { IfOk result (λ effect. effect ≢ Spent) }
    ensures story { state.new.flat.story ≡ state.old.flat.story }
{
    let sp = state.stack().size();
    let pc = state.pc();
    let (effect, mode) = ops_print::item_and_mode(state)?;
    match effect {
        Effect::Put(c) => {
            *pending = Some(put_pending(sp, pc, mode));
            Ok(Effect::Put(c))
        }
        effect => Ok(effect),
    }
}

/// The character that the next step asks to be put, where it is an item of what is printed, or a character that code
/// prints: it is pending then.
#[inline(always)]
#[tactic(auto, using(crate::proofs::Answers::answers))]
pub(crate) fn next_put<A: Allocator + Clone>(
    state: &State<A>,
    pending: &mut Option<Pending>,
) -> Option<u32>
    requires free { pending.old ≡ None }
    requires live { 0 < sp_of state.now.flat }
    ensures value { IfSome result (λ c. (u : FlatUndo) (word : ℕ)
        → mode_step (machine_with state.now u) word state.now.flat.mode ≡ Ok (machine_with state.now u, Put c)) }
    ensures probes { IfSome result (λ c. probes_in state.now.flat state.now.flat.mode ≡ 0) }
    ensures live { 0 < sp_of state.now.flat }
    ensures asks { IfSome result (λ c. option_map (λ p. p.asking) pending.new ≡ Some asking.Put) }
    ensures pends { IfSome pending.new (IsPendingAnswer state.now.flat) }
    ensures none { result ≡ None → pending.new ≡ None }
    ensures rest { result ≡ None → state.now.flat.mode ≢ Running
        → IfOk (printed state.now.flat) (λ r. is_put r.1 ≡ false) }
{
    match state.mode() {
        Mode::Running => next_streamed(state, pending),
        Mode::Printing(printing) => next_item(state, &printing, pending),
    }
}

/// The same for a state that runs code.
#[inline(always)]
#[tactic(auto, using(crate::proofs::Streams::steps))]
fn next_streamed<A: Allocator + Clone>(
    state: &State<A>,
    pending: &mut Option<Pending>,
) -> Option<u32>
    requires free { pending.old ≡ None }
    requires live { 0 < sp_of state.now.flat }
    requires running { state.now.flat.mode ≡ Running }
    ensures value { IfSome result (λ c. (u : FlatUndo) (word : ℕ)
        → mode_step (machine_with state.now u) word Running ≡ Ok (machine_with state.now u, Put c)) }
    ensures probes { IfSome result (λ c. probes_in state.now.flat Running ≡ 0) }
    ensures asks { IfSome result (λ c. option_map (λ p. p.asking) pending.new ≡ Some asking.Put) }
    ensures pends { IfSome pending.new (IsPendingAnswer state.now.flat) }
    ensures none { result ≡ None → pending.new ≡ None }
{
    let _stack = state.stack(); // a state is sound
    if !prints_at_pc(state) {
        return None;
    }
    let (c, sp, next) = streamed(state)?;
    *pending = Some(put_pending(sp, next, Mode::Running));
    Some(c)
}

/// The same for a state that prints.
#[inline(always)]
#[tactic(auto, using(crate::proofs::Answers::answers))]
fn next_item<A: Allocator + Clone>(
    state: &State<A>,
    printing: &Printing,
    pending: &mut Option<Pending>,
) -> Option<u32>
    requires free { pending.old ≡ None }
    requires live { 0 < sp_of state.now.flat }
    requires printing { state.now.flat.mode ≡ APrinting printing.now }
    ensures value { IfSome result (λ c. printed state.now.flat ≡ Ok (state.now.flat, Put c)) }
    ensures asks { IfSome result (λ c. option_map (λ p. p.asking) pending.new ≡ Some asking.Put) }
    ensures pends { IfSome pending.new (IsPendingAnswer state.now.flat) }
    ensures none { result ≡ None → pending.new ≡ None }
    ensures rest { result ≡ None → IfOk (printed state.now.flat) (λ r. is_put r.1 ≡ false) }
{
    let (c, at, bit) = ops_print::next_put(state, printing)?;
    let sp = state.stack().size();
    let next = Printing {
        at,
        bit,
        ..*printing
    };
    *pending = Some(put_pending(sp, state.pc(), Mode::Printing(next)));
    Some(c)
}

/// Makes the next step of a machine that prints where it puts no character.
#[inline(always)]
pub(crate) fn quick_item<A: Allocator + Clone>(state: &mut State<A>, printing: &Printing) -> bool
    requires live { 0 < sp_of state.old.flat }
    requires printing { state.old.flat.mode ≡ APrinting printing.now }
    ensures value { Tries ⊥ (Ok result) state.old.flat state.new.flat (printed state.old.flat) }
    ensures story { state.new.flat.story ≡ state.old.flat.story }
{
    if ops_print::pass_item(state, printing) {
        return true;
    }
    item_on(state)
}

/// What is pending after a row of Game asked.
fn game_pending(plan: &Plan, asking: Asking) -> Pending
    ensures { result ≡ record {
      asking = asking;
      sp = plan.now.sp;
      dest = plan.now.dest;
      next = plan.now.next;
      mode = Mode.Running;
    } }
{
    Pending {
        asking,
        sp: plan.sp,
        dest: plan.dest,
        next: plan.next,
        mode: Mode::Running,
    }
}

/// A row of Game.
#[tactic(auto, using(crate::proofs::Answers::answers))]
fn game_row<A: Allocator + Clone>(
    state: &mut State<A>,
    undo: &mut Undo<A>,
    plan: &Plan,
    word: u32,
    pending: &mut Option<Pending>,
) -> Result<Effect, Fault>
    requires free { pending.old ≡ None }
    requires running { state.old.flat.mode ≡ Running }
    requires sp { IsHeight state.old.flat plan.now.sp }
    requires decoded { instruction state.old.flat ≡ Ok (instruction_of plan.now) }
    requires class { (instruction_of plan.now).row.class ≡ Class.Game }
    requires copies { AreCopiesFor state.old.flat.story undo.old.copies }
    ensures value { Does (game_writes.IsWriting undo.old (instruction_of plan.now)) (λ effect. effect) result
        (state.old.flat, undo.old) (state.new.flat, undo.new)
        (game.row_effect state.old.flat undo.old word (instruction_of plan.now)) }
    ensures asks { IfOk result (λ effect. asking_of effect ≡ option_map (λ p. p.asking) pending.new) }
    ensures stands { OnOk result (IsSome pending.new
        → machine_with state.new undo.new ≡ machine_with state.old undo.old) }
    ensures pends { OnOk result (IfSome pending.new (IsPendingAnswer state.new.flat)) }
    ensures stays { OnErr result (pending.new ≡ None) }
    ensures spent { IfOk result (λ effect. effect ≢ Spent) }
    ensures story { state.new.flat.story ≡ state.old.flat.story }
    ensures copies { AreCopiesFor state.old.flat.story undo.new.copies }
{
    match ops_game::act(state, plan, undo, word)? {
        Effect::Save(stream) => {
            *pending = Some(game_pending(plan, Asking::Save));
            Ok(Effect::Save(stream))
        }
        Effect::Restore(stream) => {
            *pending = Some(game_pending(plan, Asking::Restore));
            Ok(Effect::Restore(stream))
        }
        effect => Ok(effect),
    }
}

/// Does the row of a plan that `decode` made of this state.
#[tactic(auto, using(crate::proofs::Answers::answers))]
fn row<A: Allocator + Clone>(
    state: &mut State<A>,
    undo: &mut Undo<A>,
    plan: &Plan,
    word: u32,
    left: &mut u64,
    pending: &mut Option<Pending>,
) -> Result<Effect, Fault>
    requires free { pending.old ≡ None }
    requires running { state.old.flat.mode ≡ Running }
    requires sp { IsHeight state.old.flat plan.now.sp }
    requires decoded { instruction state.old.flat ≡ Ok (instruction_of plan.now) }
    requires copies { AreCopiesFor state.old.flat.story undo.old.copies }
    ensures value { let machine = machine_with state.old undo.old in let i = instruction_of plan.now in
        Does (IsWriting i.row.class machine i) (λ effect. effect) result (machine, left.old)
        (machine_with state.new undo.new, left.new)
        (charged left.old (probes_of i.row.class state.old.flat i) machine (row_effect i.row.class machine word i)) }
    ensures asks { IfOk result (λ effect. asking_of effect ≡ option_map (λ p. p.asking) pending.new) }
    ensures stands { OnOk result (IsSome pending.new
        → machine_with state.new undo.new ≡ machine_with state.old undo.old) }
    ensures pends { OnOk result (IfSome pending.new (IsPendingAnswer state.new.flat)) }
    ensures stays { OnErr result (pending.new ≡ None) }
    ensures spent { IfOk result (λ effect. effect ≡ Spent
        → left.old < probes_of (instruction_of plan.now).row.class state.old.flat (instruction_of plan.now)) }
    ensures affords { IfErr result (IsAfforded left.old
        (probes_of (instruction_of plan.now).row.class state.old.flat (instruction_of plan.now))) }
    ensures story { state.new.flat.story ≡ state.old.flat.story }
    ensures copies { AreCopiesFor state.new.flat.story undo.new.copies }
{
    match plan.row().class {
        Class::Calc | Class::Branch | Class::Flow | Class::Stack => ops_flow::act(state, plan),
        Class::Copy | Class::Memory => ops_memory::act(state, plan, left),
        Class::Print => print_row(state, plan, pending),
        Class::Game => game_row(state, undo, plan, word, pending),
        Class::Glk => glk(state, plan, pending),
    }
}

/// Does the instruction at PC, which is read into `plan`. `left` is the budget after the instruction's own step.
#[tactic(auto)]
pub(crate) fn run<A: Allocator + Clone>(
    state: &mut State<A>,
    undo: &mut Undo<A>,
    plan: &mut Plan,
    word: u32,
    left: &mut u64,
    pending: &mut Option<Pending>,
) -> Result<Effect, Fault>
    requires free { pending.old ≡ None }
    requires live { 0 < sp_of state.old.flat }
    requires running { state.old.flat.mode ≡ Running }
    requires copies { AreCopiesFor state.old.flat.story undo.old.copies }
    ensures value { let machine = machine_with state.old undo.old in
        Does (IsModeWriting machine Running) (λ effect. effect) result (machine, left.old)
        (machine_with state.new undo.new, left.new)
        (charged left.old (probes_in state.old.flat Running) machine (mode_step machine word Running)) }
    ensures asks { IfOk result (λ effect. asking_of effect ≡ option_map (λ p. p.asking) pending.new) }
    ensures stands { OnOk result (IsSome pending.new
        → machine_with state.new undo.new ≡ machine_with state.old undo.old) }
    ensures pends { OnOk result (IfSome pending.new (IsPendingAnswer state.new.flat)) }
    ensures stays { OnErr result (pending.new ≡ None) }
    ensures spent { IfOk result (λ effect. effect ≡ Spent → left.old < probes_in state.old.flat Running) }
    ensures affords { IfErr result (IsAfforded left.old (probes_in state.old.flat Running)) }
    ensures copies { AreCopiesFor state.new.flat.story undo.new.copies }
{
    decode_into(state, plan)?;
    row(state, undo, plan, word, left, pending)
}
