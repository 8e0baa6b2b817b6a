//! What the library can do (Glk 0.7.5, "The Gestalt System"): gestalt and gestalt_ext.
ghost use Rattle.std.specs.Prelude.{◌≡◌, ℕ, ◌≤◌, ◌<◌, ◌^◌, if◌then◌else◌, Ok, IfOk, IsTrue};
ghost use Rattle.gx_state.specs.Flat.{FlatState};
ghost use Rattle.gx_state.specs.Replies.{IsReply};
ghost use Rattle.glk_world.specs.World.{arg, MakesCall};
ghost use Rattle.glk_object_calls.specs.Gestalts.{gestalt_answer, gestalt, has_glyphs, gestalt_ext};

use glk_events::RETURN;
use glk_replies::{can_lay, filled, reply};
use glk_streams::Places;
use glk_text::printable;
use glk_world::{World, arg};
use gx_state::{Reply, State};
use gx_words::{Fault, LINE_FEED};
use std::alloc::Allocator;

// The selectors, by the standard's names.
const VERSION: u32 = 0;

const CHAR_INPUT: u32 = 1;

const LINE_INPUT: u32 = 2;

const CHAR_OUTPUT: u32 = 3;

const UNICODE: u32 = 15;

/// What is answered for a character that is shown as another one.
const CANNOT_PRINT: u32 = 0;

/// What is answered for a character that is shown as itself.
const EXACT_PRINT: u32 = 2;

/// The answer to a selector with its value.
#[tactic(auto, unfolding(crate::specs::Gestalts::gestalt_answer))]
fn gestalt_of(sel: u32, val: u32) -> u32
    ensures { result ≡ gestalt_answer sel val }
{
    match sel {
        VERSION => 0x0000_0705,
        CHAR_INPUT => u32::from(printable(val) || val == RETURN),
        LINE_INPUT => u32::from(printable(val)),
        CHAR_OUTPUT if printable(val) || val == LINE_FEED => EXACT_PRINT,
        CHAR_OUTPUT => CANNOT_PRINT,
        UNICODE => 1,
        _ => 0,
    }
}

/// gestalt: the answer alone.
#[tactic(auto, unfolding(crate::specs::Gestalts::gestalt))]
pub fn gestalt(world: &World, args: &[u32]) -> Reply
    ensures value { MakesCall ⊥ (Ok result) world.now world.now (gestalt world.now.scene args.now) }
    ensures fits { (f : FlatState) (room : ℕ) → IsReply f room result }
{
    reply(world.alloc(), gestalt_of(arg(args, 0), arg(args, 1)))
}

/// The place in the array of the number of glyphs of a character, if it has one.
fn glyphs_place(args: &[u32]) -> Places
    ensures value { result ≡ record { at = arg args.now 2; width = 4; count = if has_glyphs args.now then 1 else 0 } }
    ensures at { result.at < 2 ^ 32 }
    ensures width { result.width ≡ 4 }
    ensures count { result.count ≤ 1 }
{
    Places {
        at: u64::from(arg(args, 2)),
        width: 4,
        count: u32::from(arg(args, 0) == CHAR_OUTPUT && arg(args, 2) != 0 && arg(args, 3) != 0),
    }
}

/// gestalt_ext: the same answer, and the number of glyphs of a character.
#[tactic(auto, using(glk_replies::proofs::Ram::laid_in_ram), unfolding(crate::specs::Gestalts::gestalt_ext))]
pub fn gestalt_ext<A: Allocator + Clone>(
    world: &World,
    state: &State<A>,
    args: &[u32],
) -> Result<Reply, Fault>
    ensures value { MakesCall (IsTrue (has_glyphs args.now)) result world.now world.now
        (gestalt_ext world.now.scene state.now.flat args.now) }
    ensures fits { (room : ℕ) → IfOk result (IsReply state.now.flat room) }
{
    let places = glyphs_place(args);
    can_lay(state, places)?;
    let answer = gestalt_of(arg(args, 0), arg(args, 1));
    filled(world.alloc(), answer, places, &[1_u32])
}
