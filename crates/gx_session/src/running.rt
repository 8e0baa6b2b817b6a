//! What a run holds, and what every event of it does: text is sent, words are drawn, replies are given.
//!
//! Each function of a run keeps what is held a configuration of the session (`Going` and `IsInCall` of
//! specs/Standing), or comes to its stop (`HasStopped`), or is cut short (`Early`).
ghost use Rattle.std.specs.Prelude.{◌≡◌, ◌≢◌, ◌≤◌, ◌<◌, ◌+◌, ◌*◌, ◌⊎◌, ℕ, List, [], length, false, None, Some, Ok, Err};
ghost use Rattle.std.specs.Prelude.{IfOk, IfErr, OnOk, OnErr};
ghost use Rattle.gx_machine.specs.declared.askings.Asking.TheVariants as asking;
ghost use Rattle.gx_machine.specs.Answer.{answered_whole, AnswersAsking};
ghost use Rattle.gx_state.specs.Flat.{sp_of};
ghost use Rattle.ops_print.specs.Puts.{most_puts};
ghost use Rattle.gx_machine.specs.WaysBack.{HasWaysBack};
ghost use Rattle.gx_machine.specs.Puts.{put_on, put_reply};
ghost use Rattle.gx_machine.specs.Log.{logged};
ghost use Rattle.gx_machine.specs.Advancing.{left_after};
ghost use Rattle.glk_world.specs.World.{after, is_wrapping};
ghost use Rattle.glk_world.specs.Putting.{put_chars};
ghost use Rattle.glk_world.specs.Each.{ShowsEach};
ghost use Rattle.glk_replies.specs.Parts.{replies};
ghost use Rattle.gx_session.specs.Counts.{Blames};
ghost use Rattle.gx_session.specs.Wants.{ReplyWants};
ghost use Rattle.gx_session.specs.Devices.{Devices};
ghost use Rattle.gx_session.specs.Configurations.{Configuration, steps};
ghost use Rattle.gx_session.specs.Holding.{held_by, Handed, asking_in, WordIs};
ghost use Rattle.gx_session.specs.Constants.{enough};
ghost use Rattle.gx_session.specs.Standing.{Standing, ResumesWithReply, ResumesFreely};
ghost use Rattle.gx_session.specs.Outcomes.{EventGives, IsNext};
ghost use Rattle.gx_session.specs.Outcomes.{Flushes};
ghost use Rattle.gx_session.specs.Outcomes.{TakesReply, FaultGives, Leads, Keeps};
ghost use Rattle.rand_core.specs.Stream.{Stream};

use crate::ends::{Halt, Next, Stop};
use crate::lines::Lines;
use arrayvec::ArrayVec;
use glk_world::World;
use gx_machine::Engine;
use gx_outside::Sink;
use gx_state::{Mode, Reply};
use gx_words::Fault;
use ops_print::MOST_PUTS;
use rand_core::Rng;
use std::alloc::{AllocError, Allocator};

/// Text is sent after an event that leaves so many bytes or more pending.
pub const ENOUGH: usize = 4096;

/// A story can load files of so many bytes.
pub const MOST_LOADED: usize = 0x0100_0000;

/// What a run holds.
pub struct Running<E> {
    pub engine: E,
    pub world: World,
    pub lines: Lines,
    /// Each line that is taken is shown.
    pub echo: bool,
    /// A random word that was drawn and not used.
    pub word: Option<u32>,
    /// The units of the budget that are left.
    pub left: u64,
}

/// A Glk call that waits.
#[derive(Clone, Copy)]
pub struct GlkWait {
    /// How many values its answer may push beside its own store.
    pub room: u32,
    /// The units of the budget that are left once it is answered.
    pub left: u64,
}

/// Sends the pending text where it has so many bytes or more.
pub fn flush<K: Sink>(world: &mut World, output: &mut K, enough: usize) -> Result<(), Halt>
    ensures sends { Flushes K.called enough output.old output.new world.old world.new result }
    ensures count { Blames (K.seen output.old).calls (K.seen output.new).calls (result ≡ Err Halt.Output) }
    ensures tells { (K.seen output.new).tells ≡ (K.seen output.old).tells }
    ensures only { IfErr result (λ halt. (halt ≡ Halt.Output) ⊎ (halt ≡ Halt.NoMemory)) }
{
    if world.pending().len() < enough {
        return Ok(());
    }
    output.send(world.pending())?;
    world.sent();
    Ok(())
}

/// The word for the next step: the one in hand, or one more.
#[inline(always)]
pub fn draw<R: Rng>(word: &mut Option<u32>, dice: &mut R) -> u32
    ensures is { (words : Stream)
        → WordIs word.old (R.stream dice.old) words
        → WordIs word.new (R.stream dice.new) words }
    ensures in_hand { word.new ≡ Some result }
{
    let next = match *word {
        Some(next) => next,
        None => dice.next_u32(),
    };
    *word = Some(next);
    next
}

/// Want of memory cuts a run short, and every other fault stops it.
pub fn faulted(fault: Fault) -> Result<Next, Halt>
    ensures gives { FaultGives fault result }
    ensures not_goes { result ≢ Ok Next.Goes }
    ensures stop { IfOk result IsNext }
    ensures memory { IfErr result (λ halt. halt ≡ Halt.NoMemory) }
{
    match fault {
        Fault::NoMemory => Err(Halt::NoMemory),
        _ => Ok(Next::Stops(Stop::Faulted(fault))),
    }
}

/// The machine takes the reply to its asking.
fn give<A: Allocator + Clone, E: Engine<A>>(
    run: &mut Running<E>,
    reply: &Reply,
    left: u64,
) -> Result<(), Halt>
    requires { AnswersAsking (E.whole run.old.engine) reply.now }
    ensures gives { TakesReply E.whole E.log run.old run.new reply.now left result }
    ensures memory { IfErr result (λ halt. halt ≡ Halt.NoMemory) }
    ensures wants { OnErr result (ReplyWants (E.log run.old.engine) (E.whole run.old.engine).machine reply.now) }
{
    run.engine.finish(reply)?;
    run.left = left;
    Ok(())
}

/// Sends the pending text where it is long enough, and goes on.
#[inline(always)]
fn send_due<A: Allocator + Clone, E: Engine<A>, K: Sink>(
    run: &mut Running<E>,
    output: &mut K,
) -> Result<Next, Halt>
    requires { (E.whole run.old.engine).asking ≡ None }
    ensures plays { (coming : List ℕ) (start : Configuration) (entry d : Handed K.called)
        → Standing start entry (held_by E.whole E.log run.old coming) (record d { sink = output.old }) steps
        → EventGives start entry (held_by E.whole E.log run.new coming) (asking_in E.whole run.new)
        (record d { sink = output.new }) result }
    ensures same { run.new ≡ record run.old { world = run.new.world } }
    ensures goes { IfOk result (λ next. next ≡ Next.Goes) }
    ensures keeps { (d : Devices) → Keeps (record d { sink = K.seen output.old })
        (record d { sink = K.seen output.new }) result }
{
    flush(&mut run.world, output, ENOUGH)?;
    Ok(Next::Goes)
}

/// Answers what the machine asked, and sends the pending text where it is long enough.
pub fn answer<A: Allocator + Clone, E: Engine<A>, K: Sink>(
    run: &mut Running<E>,
    output: &mut K,
    reply: &Reply,
    left: u64,
) -> Result<Next, Halt>
    requires fits { AnswersAsking (E.whole run.old.engine) reply.now }
    requires fewer { left ≤ run.old.left }
    requires room { left ≤ left_after (E.log run.old.engine) (E.whole run.old.engine) }
    ensures plays { (coming : List ℕ) (start : Configuration) (entry d : Handed K.called)
        → ResumesWithReply start entry (held_by E.whole E.log run.old coming) (asking_in E.whole run.old)
        (record d { sink = output.old }) left reply.now
        → EventGives start entry (held_by E.whole E.log run.new coming) (asking_in E.whole run.new)
        (record d { sink = output.new }) result }
    ensures leads { Leads E.whole E.log run.old run.new left result }
    ensures keeps { (d : Devices) → Keeps (record d { sink = K.seen output.old })
        (record d { sink = K.seen output.new }) result }
    ensures lines { run.new.lines ≡ run.old.lines }
{
    give(run, reply, left)?;
    send_due(run, output)
}

/// How many characters can be put behind one that came to text alone, so that no text is due before the last of them
/// is put: at most four bytes are added for each. It is none where text is wrapped, since a whole row may be let go at
/// once.
fn room_for_puts(world: &World, left: u64) -> usize
    ensures free { 0 < result → is_wrapping world.now.scene ≡ false }
    ensures bytes { 0 < result → length world.now.text + 4 * result ≤ enough }
    ensures most { result ≤ most_puts }
    ensures units { result ≤ left }
{
    if world.wraps() {
        return 0;
    }
    let room = ENOUGH.saturating_sub(world.pending().len()) / 4;
    let most = room.min(MOST_PUTS);
    if left < most as u64 {
        left as usize
    } else {
        most
    }
}

/// Puts characters to the current stream, one after another.
fn show_puts(world: &mut World, chars: &[u32]) -> Result<(), AllocError>
    ensures ok { OnOk result (world.new
        ≡ after world.old (put_chars world.old.scene world.old.scene.current chars.now)) }
    ensures memory { OnErr result (chars.now ≢ []) }
{
    let stream = world.current();
    world.puts(stream, chars)
}

/// The machine takes the reply to a character that was put, which pushes and writes nothing.
#[inline(always)]
fn give_put<A: Allocator + Clone, E: Engine<A>>(run: &mut Running<E>, left: u64)
    requires { (E.whole run.old.engine).asking ≡ Some asking.Put }
    ensures engine { E.whole run.new.engine ≡ answered_whole (E.whole run.old.engine) (replies 0) }
    ensures logs { E.log run.new.engine ≡ logged (E.log run.old.engine) (E.whole run.old.engine).machine }
    ensures same { run.new ≡ record run.old { engine = run.new.engine; left = left } }
{
    run.engine.finish_put();
    run.left = left;
}

/// Answers a character that was put so, and sends the pending text where it is long enough.
#[inline(always)]
fn answer_put<A: Allocator + Clone, E: Engine<A>, K: Sink>(
    run: &mut Running<E>,
    output: &mut K,
    left: u64,
) -> Result<Next, Halt>
    requires asks { (E.whole run.old.engine).asking ≡ Some asking.Put }
    requires fewer { left ≤ run.old.left }
    requires room { left ≤ left_after (E.log run.old.engine) (E.whole run.old.engine) }
    ensures plays { (coming : List ℕ) (start : Configuration) (entry d : Handed K.called)
        → ResumesFreely start entry (held_by E.whole E.log run.old coming) (asking_in E.whole run.old)
        (record d { sink = output.old }) left (replies 0)
        → EventGives start entry (held_by E.whole E.log run.new coming) (asking_in E.whole run.new)
        (record d { sink = output.new }) result }
    ensures leads { Leads E.whole E.log run.old run.new left result }
    ensures keeps { (d : Devices) → Keeps (record d { sink = K.seen output.old })
        (record d { sink = K.seen output.new }) result }
    ensures lines { run.new.lines ≡ run.old.lines }
{
    give_put(run, left);
    send_due(run, output)
}

/// The machine takes the replies to the character that it asks to be put and to those behind it, up to this mode.
#[inline(always)]
fn give_puts<A: Allocator + Clone, E: Engine<A>>(run: &mut Running<E>, behind: Mode, left: u64)
    requires asks { (E.whole run.old.engine).asking ≡ Some asking.Put }
    requires unrecorded { E.log run.old.engine ≡ None }
    ensures engine { E.whole run.new.engine ≡ put_on (E.whole run.old.engine) behind }
    ensures logs { E.log run.new.engine ≡ logged (E.log run.old.engine) (E.whole run.old.engine).machine }
    ensures same { run.new ≡ record run.old { engine = run.new.engine; left = left } }
{
    run.engine.finish_puts(behind);
    run.left = left;
}

/// Answers a character that came to a text buffer window alone, and puts and answers those that the machine puts behind
/// it, `most` at most. Then the pending text is sent where it is long enough.
///
/// Where there is no memory for what is put behind it, none of these characters was put: the machine still asks for the
/// first.
#[inline(never)]
fn answer_run<A: Allocator + Clone, E: Engine<A>, K: Sink>(
    run: &mut Running<E>,
    output: &mut K,
    left: u64,
    most: usize,
) -> Result<Next, Halt>
    requires asks { (E.whole run.old.engine).asking ≡ Some asking.Put }
    requires fewer { left ≤ run.old.left }
    requires room { left ≤ left_after (E.log run.old.engine) (E.whole run.old.engine) }
    requires shows { (chars : List ℕ) → ShowsEach run.old.world run.old.world.scene.current chars }
    requires free { is_wrapping run.old.world.scene ≡ false }
    requires bytes { length run.old.world.text + 4 * most ≤ enough }
    requires most { most ≤ most_puts }
    requires units { most ≤ left }
    ensures plays { (coming : List ℕ) (start : Configuration) (entry d : Handed K.called) (word : ℕ)
        → run.old.word ≡ Some word
        → 0 < sp_of (E.whole run.old.engine).machine.flat
        → HasWaysBack (E.whole run.old.engine).machine
        → ResumesFreely start entry (held_by E.whole E.log run.old coming) (asking_in E.whole run.old)
        (record d { sink = output.old }) left (replies 0)
        → EventGives start entry (held_by E.whole E.log run.new coming) (asking_in E.whole run.new)
        (record d { sink = output.new }) result }
    ensures leads { Leads E.whole E.log run.old run.new left result }
    ensures keeps { (d : Devices) → Keeps (record d { sink = K.seen output.old })
        (record d { sink = K.seen output.new }) result }
    ensures lines { run.new.lines ≡ run.old.lines }
{
    let mut chars = ArrayVec::new();
    let behind = run.engine.more_puts(most, &mut chars);
    if chars.is_empty() {
        return answer_put(run, output, left);
    }
    show_puts(&mut run.world, chars.as_slice())?;
    give_puts(run, behind, left - chars.len() as u64);
    send_due(run, output)
}

/// Answers a character that came to a text buffer window alone. Where it is one of a string or number, those behind it
/// are put and answered too, as many as there can be before text is due.
#[inline(always)]
pub fn answer_puts<A: Allocator + Clone, E: Engine<A>, K: Sink>(
    run: &mut Running<E>,
    output: &mut K,
    left: u64,
) -> Result<Next, Halt>
    requires asks { (E.whole run.old.engine).asking ≡ Some asking.Put }
    requires fewer { left ≤ run.old.left }
    requires room { left ≤ left_after (E.log run.old.engine) (E.whole run.old.engine) }
    requires shows { (chars : List ℕ) → ShowsEach run.old.world run.old.world.scene.current chars }
    ensures plays { (coming : List ℕ) (start : Configuration) (entry d : Handed K.called) (word : ℕ)
        → run.old.word ≡ Some word
        → 0 < sp_of (E.whole run.old.engine).machine.flat
        → HasWaysBack (E.whole run.old.engine).machine
        → ResumesFreely start entry (held_by E.whole E.log run.old coming) (asking_in E.whole run.old)
        (record d { sink = output.old }) left (replies 0)
        → EventGives start entry (held_by E.whole E.log run.new coming) (asking_in E.whole run.new)
        (record d { sink = output.new }) result }
    ensures leads { Leads E.whole E.log run.old run.new left result }
    ensures keeps { (d : Devices) → Keeps (record d { sink = K.seen output.old })
        (record d { sink = K.seen output.new }) result }
    ensures lines { run.new.lines ≡ run.old.lines }
{
    if let Mode::Running = run.engine.state().mode() {
        return answer_put(run, output, left);
    }
    let most = room_for_puts(&run.world, left);
    if most == 0 {
        return answer_put(run, output, left);
    }
    answer_run(run, output, left, most)
}
