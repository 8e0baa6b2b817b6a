//! The rows of searches (Glulx 3.1.2, "Searching").
//!
//! A search has the budget that is left as its bound of probes. It isn't done where it would begin more; else
//! `left` is lowered by its probes, but stands after a fault.
ghost use Rattle.std.specs.Prelude.{◌≡◌, ◌≤◌, if◌then◌else◌, IfErr, IfOk};
ghost use Rattle.gx_words.specs.Faults.{Reads, Does};
ghost use Rattle.gx_search.specs.Finding.{found_within};
ghost use Rattle.gx_state.specs.Flat.{IsHeight};
ghost use Rattle.gx_state.specs.Stores.{IsMemory};
ghost use Rattle.gx_state.specs.Replies.{IsDone};
ghost use Rattle.gx_operands.specs.Plans.{instruction_of};
ghost use Rattle.gx_operands.specs.Stores.{stores};
ghost use Rattle.ops_memory.specs.Searching.{row_ask, list_ask, search_by, is_indexed, searches};
ghost use Rattle.ops_memory.specs.Charges.{lowered, charged, EndsWithin, IsAfforded};

use gx_operands::{Plan, stores};
use gx_search::{Ask, Found, RETURN_INDEX, binary, linear, linked};
use gx_state::{Effect, State};
use gx_words::Fault;
use std::alloc::Allocator;

/// How a search goes.
#[derive(Clone, Copy)]
pub enum Method {
    /// From struct to struct of a row.
    Linear,
    /// Halving a row.
    Binary,
    /// From struct to struct of a list.
    Linked,
}

/// What linearsearch and binarysearch ask.
fn row_ask(plan: &Plan) -> Ask
    ensures { result ≡ row_ask (instruction_of plan.now) }
{
    Ask {
        key: plan.load(0),
        key_size: plan.load(1),
        start: plan.load(2),
        struct_size: plan.load(3),
        count: plan.load(4),
        key_offset: plan.load(5),
        next_offset: 0,
        options: plan.load(6),
    }
}

/// What linkedsearch asks.
fn list_ask(plan: &Plan) -> Ask
    ensures { result ≡ list_ask (instruction_of plan.now) }
{
    Ask {
        key: plan.load(0),
        key_size: plan.load(1),
        start: plan.load(2),
        struct_size: 0,
        count: 0,
        key_offset: plan.load(3),
        next_offset: plan.load(4),
        options: plan.load(5),
    }
}

/// Whether the result is an index.
fn is_indexed(plan: &Plan, method: Method) -> bool
    ensures { result ≡ is_indexed method (instruction_of plan.now) }
{
    match method {
        Method::Linear | Method::Binary => row_ask(plan).has(RETURN_INDEX),
        Method::Linked => false,
    }
}

/// What the search finds within a bound of probes.
fn found<A: Allocator + Clone>(
    state: &State<A>,
    plan: &Plan,
    method: Method,
    bound: u64,
) -> Result<Found, Fault>
    ensures { Reads (λ found. found) result
        (found_within bound (search_by method state.now.flat (instruction_of plan.now))) }
{
    match method {
        Method::Linear => linear(state.memory(), &row_ask(plan), bound),
        Method::Binary => binary(state.memory(), &row_ask(plan), bound),
        Method::Linked => linked(state.memory(), &list_ask(plan), bound),
    }
}

/// An index, or else an address.
fn word(indexed: bool, index: u32, address: u32) -> u32
    ensures { result ≡ (if indexed then index else address) }
{
    if indexed { index } else { address }
}

/// Stores a result, and lowers the budget by probes once that is done.
fn pays<A: Allocator + Clone>(
    state: &mut State<A>,
    plan: &Plan,
    left: &mut u64,
    probes: u64,
    value: u32,
) -> Result<Effect, Fault>
    requires sp { IsHeight state.old.flat plan.now.sp }
    requires probes { probes ≤ left.old }
    ensures value { Does (IsMemory plan.now.dest) (λ effect. effect) result (state.old.flat, left.old)
        (state.new.flat, left.new) (lowered left.old probes (stores state.old.flat (instruction_of plan.now) value)) }
    ensures done { IfOk result IsDone }
    ensures story { state.new.flat.story ≡ state.old.flat.story }
{
    let effect = stores(state, plan, value)?;
    *left -= probes;
    Ok(effect)
}

/// Searches, and stores the result.
#[tactic(auto, using(crate::proofs::Charges::charges))]
pub fn searches<A: Allocator + Clone>(
    state: &mut State<A>,
    plan: &Plan,
    left: &mut u64,
    method: Method,
) -> Result<Effect, Fault>
    requires { IsHeight state.old.flat plan.now.sp }
    ensures value { Does (IsMemory plan.now.dest) (λ effect. effect) result (state.old.flat, left.old)
        (state.new.flat, left.new) (charged left.old
        (search_by method state.old.flat (instruction_of plan.now)).probes state.old.flat
        (searches method state.old.flat (instruction_of plan.now))) }
    ensures done { IfOk result (EndsWithin left.old
        (search_by method state.old.flat (instruction_of plan.now)).probes) }
    ensures affords { IfErr result (IsAfforded left.old
        (search_by method state.old.flat (instruction_of plan.now)).probes) }
    ensures story { state.new.flat.story ≡ state.old.flat.story }
{
    let indexed = is_indexed(plan, method);
    match found(state, plan, method, *left)? {
        Found::At {
            address,
            index,
            probes,
        } => pays(state, plan, left, probes, word(indexed, index, address)),
        Found::Nothing { probes } => pays(state, plan, left, probes, word(indexed, u32::MAX, 0)),
        Found::More => Ok(Effect::Spent),
    }
}
