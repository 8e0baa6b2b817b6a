//! The case of characters (Glk 0.7.5, "Upper and Lower Case").
ghost use Rattle.std.specs.Prelude.{◌≡◌, ℕ, ◌++◌, ◌<◌, ◌==◌, ◌^◌, nat_lt, if◌then◌else◌, map, length};
ghost use Rattle.std.specs.Prelude.{OnOk, IfOk, IsTrue, Ok};
ghost use Rattle.gx_state.specs.Flat.{FlatState};
ghost use Rattle.gx_state.specs.Replies.{IsReply};
ghost use Rattle.glk_world.specs.World.{arg, MakesCall};
ghost use Rattle.glk_replies.specs.Parts.{reply_filling, MayWant};
ghost use Rattle.glk_text_calls.specs.Characters.{changed, recased, char_to_case, buffer_of, buffer_to_case};
ghost use Rattle.glk_text_calls.specs.declared.characters.Case.TheVariants.{Lower, Same};

use glk_replies::{can_lay, can_read, filled, numbers_at, reply};
use glk_streams::Places;
use glk_text::{lower, upper};
use glk_world::{World, arg};
use gx_state::{Reply, State};
use gx_words::{Fault, Numbers};
use std::alloc::{AllocError, Allocator, Global};

/// What becomes of a character.
#[derive(Clone, Copy)]
pub enum Case {
    Lower,
    Upper,
    /// It stays as it is.
    Same,
}

fn changed(case: Case, c: u32) -> u32
    ensures { result ≡ changed case c }
{
    match case {
        Case::Lower => lower(c),
        Case::Upper => upper(c),
        Case::Same => c,
    }
}

/// Adds characters, each changed.
fn push_changed(out: &mut Numbers, case: Case, chars: &[u32]) -> Result<(), AllocError>
    ensures { OnOk result (out.new ≡ out.old ++ map (changed case) chars.now) }
{
    for c in chars {
        out.push(changed(case, *c))?;
    }
    Ok(())
}

/// The reply that writes a text, of which the first character gets one case, and all others another.
fn recase(
    alloc: Global,
    value: u32,
    places: Places,
    first: Case,
    others: Case,
    chars: &[u32],
) -> Result<Reply, Fault>
    requires at { places.at < 2 ^ 32 }
    requires count { places.count ≡ length chars.now }
    ensures { MayWant (0 < places.count) (λ reply. reply) result
        (Ok (reply_filling value places (recased first others chars.now))) }
{
    let [c, rest @ ..] = chars else {
        return filled(alloc, value, places, &[]);
    };
    let mut text = Numbers::new(alloc);
    text.push(changed(first, *c))?;
    push_changed(&mut text, others, rest)?;
    filled(alloc, value, places, text.as_slice())
}

/// char_to_lower and char_to_upper: the low eight bits as a character.
#[tactic(auto, unfolding(crate::specs::Characters::char_to_case))]
pub fn char_to_case(world: &mut World, case: Case, args: &[u32]) -> Result<Reply, Fault>
    ensures value { MakesCall ⊥ result world.old world.new (char_to_case world.old.scene case args.now) }
    ensures fits { (f : FlatState) (room : ℕ) → IfOk result (IsReply f room) }
{
    let c = changed(case, arg(args, 0) % 256);
    Ok(reply(world.alloc(), c))
}

/// The characters of a buffer.
fn buffer_of(args: &[u32]) -> Places
    ensures value { result ≡ buffer_of args.now }
    ensures at { result.at < 2 ^ 32 }
    ensures width { result.width ≡ 4 }
{
    Places {
        at: u64::from(arg(args, 0)),
        width: 4,
        count: arg(args, 2).min(arg(args, 1)),
    }
}

/// buffer_to_lower_case_uni, buffer_to_upper_case_uni and buffer_to_title_case_uni: the first character of a buffer
/// gets one case, and all others another.
pub fn buffer_to_case<A: Allocator + Clone>(
    world: &mut World,
    state: &State<A>,
    first: Case,
    others: Case,
    args: &[u32],
) -> Result<Reply, Fault>
    ensures value { MakesCall (IsTrue (nat_lt 0 (buffer_of args.now).count)) result world.old world.new
        (buffer_to_case world.old.scene state.now.flat first others args.now) }
    ensures fits { (room : ℕ) → IfOk result (IsReply state.now.flat room) }
{
    let places = buffer_of(args);
    can_read(state, places.at, 4 * u64::from(places.count))?;
    can_lay(state, places)?;
    let alloc = world.alloc();
    let chars = numbers_at(alloc, state.memory(), 4, arg(args, 0), places.count)?;
    recase(alloc, arg(args, 2), places, first, others, chars.as_slice())
}

/// The case of the characters of a title behind the first one.
pub fn rest_of(args: &[u32]) -> Case
    ensures { result ≡ (if arg args.now 3 == 0 then Same else Lower) }
{
    if arg(args, 3) == 0 {
        Case::Same
    } else {
        Case::Lower
    }
}
