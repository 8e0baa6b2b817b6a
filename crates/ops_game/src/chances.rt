//! The rows of random words (Glulx 3.1.2, "Random Number Generator").
//!
//! The generator moves on only where the word was stored: a result in memory is drawn from a copy of a
//! seeded generator, and any other store is looked at before.
ghost use Rattle.std.specs.Prelude.{◌≡◌, if◌then◌else◌, Ok, IfOk};
ghost use Rattle.gx_state.specs.Flat.{IsHeight};
ghost use Rattle.gx_state.specs.Relations.{Acts, Stores, Works};
ghost use Rattle.gx_state.specs.Replies.{IsDone};
ghost use Rattle.gx_state.specs.Stores.{IsMemory};
ghost use Rattle.gx_operands.specs.Plans.{instruction_of};
ghost use Rattle.ops_calc.specs.Generator.{is_outside};
ghost use Rattle.ops_game.specs.GameRows.{drawn, random, setrandom};

use gx_operands::{Plan, can_store, goes, settle};
use gx_state::{Dest, Effect, State};
use gx_words::Fault;
use ops_calc::{Generator, pick};
use std::alloc::Allocator;

/// What a step says that draws a word: whether it is the one handed in.
fn effect_of(generator: &Generator) -> Effect
    ensures value { result ≡ (if is_outside generator.now then Effect.Drew else Effect.Went) }
    ensures done { IsDone result }
{
    if generator.is_outside() {
        Effect::Drew
    } else {
        Effect::Went
    }
}

/// Draws a word that goes to memory.
#[tactic(auto)]
fn draw_to_memory<A: Allocator + Clone>(
    state: &mut State<A>,
    plan: &Plan,
    word: u32,
) -> Result<(), Fault>
    requires { IsHeight state.old.flat plan.now.sp }
    ensures { Stores (IsMemory plan.now.dest) result state.old state.new
        (drawn state.old.flat word (instruction_of plan.now)) }
{
    let mut generator = state.generator().copy()?;
    let drawn = generator.word(word);
    settle(state, plan.sp, &plan.dest, 4, pick(plan.load(0), drawn))?;
    state.set_generator(generator);
    Ok(())
}

/// Draws a word that goes elsewhere.
#[tactic(auto, unfolding(gx_operands::specs::Stores::settled), using(crate::proofs::Generators::generators))]
fn draw_elsewhere<A: Allocator + Clone>(
    state: &mut State<A>,
    plan: &Plan,
    word: u32,
) -> Result<(), Fault>
    requires sp { IsHeight state.old.flat plan.now.sp }
    requires elsewhere { IsMemory plan.now.dest → ⊥ }
    ensures { Acts result state.old state.new (drawn state.old.flat word (instruction_of plan.now)) }
{
    can_store(state, &plan.dest, 4, plan.sp)?;
    let drawn = state.draw(word);
    settle(state, plan.sp, &plan.dest, 4, pick(plan.load(0), drawn))
}

/// Draws a word, or moves nothing.
fn draw_word<A: Allocator + Clone>(
    state: &mut State<A>,
    plan: &Plan,
    word: u32,
) -> Result<(), Fault>
    requires { IsHeight state.old.flat plan.now.sp }
    ensures { Stores (IsMemory plan.now.dest) result state.old state.new
        (drawn state.old.flat word (instruction_of plan.now)) }
{
    match plan.dest {
        Dest::Memory(_) => draw_to_memory(state, plan, word),
        _ => draw_elsewhere(state, plan, word),
    }
}

/// random
#[tactic(auto, unfolding(crate::specs::GameRows::random))]
pub fn random<A: Allocator + Clone>(
    state: &mut State<A>,
    plan: &Plan,
    word: u32,
) -> Result<Effect, Fault>
    requires { IsHeight state.old.flat plan.now.sp }
    ensures value { Works (IsMemory plan.now.dest) result state.old.flat state.new.flat
        (random state.old.flat word (instruction_of plan.now)) }
    ensures done { IfOk result IsDone }
{
    let effect = effect_of(state.generator());
    draw_word(state, plan, word)?;
    state.set_pc(plan.next);
    Ok(effect)
}

/// setrandom
#[tactic(auto, unfolding(crate::specs::GameRows::setrandom))]
pub fn setrandom<A: Allocator + Clone>(state: &mut State<A>, plan: &Plan) -> Effect
    requires { IsHeight state.old.flat plan.now.sp }
    ensures value { setrandom state.old.flat (instruction_of plan.now) ≡ Ok (state.new.flat, result) }
    ensures done { IsDone result }
    ensures story { state.new.flat.story ≡ state.old.flat.story }
{
    let mut generator = Generator::fresh();
    generator.seed(plan.load(0));
    state.set_generator(generator);
    goes(state, plan)
}
