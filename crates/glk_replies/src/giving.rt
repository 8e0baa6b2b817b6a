//! References that are given words (Glk 0.7.5, "The Dispatch Layer"; specs/Parts): the looks come first, and then the
//! reply is made.
ghost use Rattle.std.specs.Prelude.{◌≡◌, ◌==◌, if◌then◌else◌, ◌≢◌, ◌≤◌, ◌++◌, length, OnOk, OnErr, IfOk, IsTrue};
ghost use Rattle.gx_words.specs.Faults.{Reads};
ghost use Rattle.gx_state.specs.Replies.{IsReply};
ghost use Rattle.glk_replies.specs.Parts.{MayWant, give, can_give_each, pushes_for_each, writes_for_each, give_each};
ghost use Rattle.glk_replies.specs.Parts.{some_given, can_give_pair};

use crate::parts::{ON_STACK, add_given, can_give, fitting, reply};
use gx_state::{Reply, State};
use gx_words::Fault;
use std::alloc::{AllocError, Allocator, Global};

/// How many words are pushed for a reference.
pub fn pushes(at: u32, words: usize) -> usize
    ensures value { result ≡ (if at == ON_STACK then words else 0) }
{
    if at == ON_STACK { words } else { 0 }
}

/// Looks at a reference for two words.
#[tactic(auto, unfolding(crate::specs::Parts::can_give_pair))]
pub fn can_give_pair<A: Allocator + Clone>(
    state: &State<A>,
    room: u32,
    at: u32,
) -> Result<(), Fault>
    ensures { Reads (λ _. tt) result (can_give_pair state.now.flat room at) }
{
    can_give(state, at, 2)?;
    fitting(room, pushes(at, 2))
}

/// The reply of a call that gives words to one reference.
#[tactic(auto, unfolding(crate::proofs::Opened::giving))]
pub fn give<A: Allocator + Clone>(
    alloc: Global,
    state: &State<A>,
    room: u32,
    value: u32,
    at: u32,
    words: &[u32],
) -> Result<Reply, Fault>
    requires { length words.now ≤ 4 }
    ensures value { MayWant (at ≢ 0) (λ reply. reply) result (give state.now.flat room value at words.now) }
    ensures fits { IfOk result (IsReply state.now.flat room) }
{
    let count = words.len();
    can_give(state, at, count)?;
    fitting(room, pushes(at, count))?;
    let mut reply = reply(alloc, value);
    add_given(alloc, &mut reply, at, words)?;
    Ok(reply)
}

/// Looks at references for a word each.
#[tactic(auto, unfolding(crate::specs::Parts::can_give_each))]
fn can_give_each<A: Allocator + Clone>(state: &State<A>, ats: &[u32]) -> Result<(), Fault>
    ensures { Reads (λ _. tt) result (can_give_each state.now.flat ats.now) }
{
    match ats {
        [] => Ok(()),
        [at, rest @ ..] => {
            can_give(state, *at, 1)?;
            can_give_each(state, rest)
        }
    }
}

/// How many words are pushed for references of a word each.
#[tactic(auto, unfolding(crate::specs::Parts::pushes_for_each))]
fn pushes_each(ats: &[u32], words: &[u32]) -> usize
    ensures value { result ≡ length (pushes_for_each ats.now words.now) }
    ensures few { result ≤ length ats.now }
{
    match ats {
        [] => 0,
        [at, ats @ ..] => match words {
            [] => 0,
            [_, words @ ..] => pushes(*at, 1) + pushes_each(ats, words),
        },
    }
}

/// Adds what is given to references of a word each.
#[tactic(auto, using(crate::proofs::Ram::adding_rules), unfolding(crate::proofs::Opened::adding_each))]
fn add_each(alloc: Global, reply: &mut Reply, ats: &[u32], words: &[u32]) -> Result<(), AllocError>
    ensures ok { OnOk result (reply.new ≡ record reply.old {
      pushes = reply.old.pushes ++ pushes_for_each ats.now words.now;
      writes =
          reply.old.writes ++ writes_for_each ats.now words.now;
    }) }
    ensures memory { OnErr result (IsTrue (some_given ats.now)) }
{
    match ats {
        [] => Ok(()),
        [at, ats @ ..] => match words {
            [] => Ok(()),
            [word, words @ ..] => {
                add_given(alloc, reply, *at, &[*word])?;
                add_each(alloc, reply, ats, words)
            }
        },
    }
}

/// The reply of a call that gives a word to each of some references.
#[tactic(auto, unfolding(crate::proofs::Opened::giving_each))]
pub fn give_each<A: Allocator + Clone>(
    alloc: Global,
    state: &State<A>,
    room: u32,
    value: u32,
    ats: &[u32],
    words: &[u32],
) -> Result<Reply, Fault>
    ensures value { MayWant (IsTrue (some_given ats.now)) (λ reply. reply) result
        (give_each state.now.flat room value ats.now words.now) }
    ensures fits { IfOk result (IsReply state.now.flat room) }
{
    can_give_each(state, ats)?;
    fitting(room, pushes_each(ats, words))?;
    let mut reply = reply(alloc, value);
    add_each(alloc, &mut reply, ats, words)?;
    Ok(reply)
}
