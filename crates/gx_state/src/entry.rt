//! How a story starts, and how its functions are entered (Glulx 3.1.2, "Call Frames" and "Functions").
//!
//! The faults of an entry are looked for before anything changes, and before a start or a restart asks
//! for memory.
ghost use Rattle.std.specs.Prelude.{ℕ, List, ◌≡◌, ◌≢◌, ◌+◌, ◌*◌, ◌%◌, ◌≤◌, ◌<◌, ◌^◌, ◌++◌, length, take, slice_range};
ghost use Rattle.std.specs.Prelude.{get_or, true, Ok, Err, IfSome, IfOk, IfErr, IsOk, OnOk};
ghost use Rattle.std.specs.List.{flat_map};
ghost use Rattle.gx_words.specs.Constants.{ceiling, stack_function};
ghost use Rattle.gx_words.specs.declared.faults.Fault.TheVariants.{NoMemory};
ghost use Rattle.gx_words.specs.Faults.{Makes, Reads};
ghost use Rattle.gx_stack.specs.Formats.{frame_len};
ghost use Rattle.gx_stack.specs.Held.{IsFormat};
ghost use Rattle.gx_stack.specs.Frames.{IsGood};
ghost use Rattle.gx_stack.specs.Stubs.{stub_bytes};
ghost use Rattle.gx_state.specs.Flat.{sp_of};
ghost use Rattle.gx_state.specs.Relations.{Acts};
ghost use Rattle.gx_state.specs.Entry.{kind_at, format_from, entry_bytes, entry_size, entered, function_at, initial};
ghost use Rattle.gx_state.specs.Entry.{started};

use crate::formats::{format_at, format_end};
use crate::readable::{Code, Readable, Started};
use crate::{Mode, State};
use arrayvec::ArrayVec;
use gx_pages::Pages;
use gx_stack::{Frame, Stack, Stub, frame_len};
use gx_story::Story;
use gx_words::{Fault, LOCALS_FUNCTION, STACK_FUNCTION};
use heap_blocks::Heap;
use ops_calc::Generator;
use std::alloc::{AllocError, Allocator, Global};
use std::rc::Rc;

/// The type of a function.
#[tactic(auto, unfolding(crate::specs::Entry::kind_at))]
#[inline(always)]
fn kind_at<M: Readable>(memory: &M, at: u32) -> Result<u32, Fault>
    ensures value { Reads (λ v. v) result (kind_at (M.bytes memory.now) at) }
    ensures low { OnOk result (at < ceiling) }
{
    let kind = u32::from(memory.byte(at)?);
    match kind {
        STACK_FUNCTION | LOCALS_FUNCTION => Ok(kind),
        _ => Err(Fault::BadFunction),
    }
}

/// How many bytes an entry pushes, whose frame has `len` bytes.
#[inline(always)]
fn entry_size(kind: u32, len: u32, count: usize) -> u32
    requires frame { len < 2 ^ 18 }
    requires count { count ≤ 255 }
    ensures value { (format : List ℕ) → len ≡ frame_len format → result ≡ entry_size kind format count }
    ensures fits { result < 2 ^ 19 }
{
    if kind == STACK_FUNCTION {
        len + 4 * (count as u32 + 1)
    } else {
        len
    }
}

/// The type and the locals format of a function, whose frame begins at `fp` and fits below `limit`.
#[tactic(auto, unfolding(crate::specs::Entry::function_at))]
pub fn function_at<M: Readable>(
    memory: &M,
    at: u32,
    count: usize,
    fp: u32,
    limit: u32,
) -> Result<(u32, ArrayVec<u8, 130>), Fault>
    requires { fp ≤ 2 ^ 24 }
    ensures value { Reads (λ r. (r.0, r.1.items)) result (function_at (M.bytes memory.now) at count fp limit) }
    ensures count { OnOk result (count ≤ 255) }
    ensures format { IfOk result (λ r. IsFormat r.1.items) }
    ensures room { IfOk result (λ r. fp + entry_size r.0 r.1.items count ≤ limit) }
    ensures low { OnOk result (at < ceiling) }
{
    let kind = kind_at(memory, at)?;
    if count > 255 {
        return Err(Fault::BadFunction);
    }
    let format = format_at(memory, at + 1)?;
    if fp + entry_size(kind, frame_len(format.as_slice()), count) > limit {
        return Err(Fault::Overflow);
    }
    Ok((kind, format))
}

/// Pushes what an entry pushes into a function of type C0.
#[tactic(auto, unfolding(gx_stack::specs::Calls::with_frame))]
fn push_stack_entry(stack: &mut Stack, format: &[u8], len: u32, args: &[u32])
    requires format { IsFormat format.now }
    requires frame { len ≡ frame_len format.now }
    requires count { length args.now ≤ 255 }
    requires room { length stack.old.bytes + (len + 4 * (length args.now + 1)) ≤ stack.old.limit }
    ensures value { stack.new ≡ record stack.old
        { bytes = stack.old.bytes ++ entry_bytes stack_function format.now args.now } }
    ensures good { IsGood stack.new.bytes (length stack.old.bytes) }
{
    stack.push_frame(format, len, &[]);
    stack.push_args(args);
}

/// Pushes what an entry pushes.
#[tactic(auto, unfolding(gx_stack::specs::Calls::with_frame))]
fn push_entry(stack: &mut Stack, kind: u32, format: &[u8], len: u32, args: &[u32])
    requires format { IsFormat format.now }
    requires frame { len ≡ frame_len format.now }
    requires count { length args.now ≤ 255 }
    requires room { length stack.old.bytes + entry_size kind format.now (length args.now) ≤ stack.old.limit }
    ensures value { stack.new ≡ record stack.old { bytes = stack.old.bytes ++ entry_bytes kind format.now args.now } }
    ensures good { IsGood stack.new.bytes (length stack.old.bytes) }
{
    if kind == STACK_FUNCTION {
        push_stack_entry(stack, format, len, args);
    } else {
        stack.push_frame(format, len, args);
    }
}

/// Pushes stubs that fit.
#[tactic(auto, unfolding(crate::proofs::Opened::fitting_stubs))]
fn push_several(stack: &mut Stack, stubs: &[Stub])
    requires room { length stack.old.bytes + 16 * length stubs.now ≤ stack.old.limit }
    ensures value { stack.new ≡ record stack.old { bytes = stack.old.bytes ++ flat_map stub_bytes stubs.now } }
    ensures size { length stack.new.bytes ≡ length stack.old.bytes + 16 * length stubs.now }
{
    match stack.push_stubs(stubs) {
        Ok(()) => {}
        Err(_) => unreachable!(),
    }
}

/// Pushes stubs, and above them what an entry pushes.
#[inline(never)]
fn push_apart(stack: &mut Stack, stubs: &[Stub], kind: u32, format: &[u8], len: u32, args: &[u32])
    requires format { IsFormat format.now }
    requires frame { len ≡ frame_len format.now }
    requires count { length args.now ≤ 255 }
    requires room { length stack.old.bytes + 16 * length stubs.now + entry_size kind format.now (length args.now)
        ≤ stack.old.limit }
    ensures value { stack.new ≡ record stack.old
        { bytes = (stack.old.bytes ++ flat_map stub_bytes stubs.now) ++ entry_bytes kind format.now args.now } }
    ensures good { IsGood stack.new.bytes (length stack.old.bytes + 16 * length stubs.now) }
{
    push_several(stack, stubs);
    push_entry(stack, kind, format, len, args);
}

/// The same, where there is most often one stub, and the function is of type C1.
#[inline(always)]
#[tactic(auto, using(gx_stack::proofs::Pieces::one_stub))]
fn push_called(stack: &mut Stack, stubs: &[Stub], kind: u32, format: &[u8], len: u32, args: &[u32])
    requires format { IsFormat format.now }
    requires frame { len ≡ frame_len format.now }
    requires count { length args.now ≤ 255 }
    requires room { length stack.old.bytes + 16 * length stubs.now + entry_size kind format.now (length args.now)
        ≤ stack.old.limit }
    ensures value { stack.new ≡ record stack.old
        { bytes = (stack.old.bytes ++ flat_map stub_bytes stubs.now) ++ entry_bytes kind format.now args.now } }
    ensures good { IsGood stack.new.bytes (length stack.old.bytes + 16 * length stubs.now) }
{
    match stubs {
        [stub] if kind != STACK_FUNCTION => stack.push_call(stub, format, len, args),
        _ => push_apart(stack, stubs, kind, format, len, args),
    }
}

/// Cuts a stack, pushes stubs, and pushes what an entry pushes.
#[tactic(auto, using(crate::proofs::Kept::good_at))]
#[inline(always)]
pub fn push_call(
    stack: &mut Stack,
    sp: u32,
    stubs: &[Stub],
    kind: u32,
    format: &[u8],
    len: u32,
    args: &[u32],
)
    requires there { sp ≤ length stack.old.bytes }
    requires aligned { sp % 4 ≡ 0 }
    requires format { IsFormat format.now }
    requires frame { len ≡ frame_len format.now }
    requires count { length args.now ≤ 255 }
    requires room { sp + 16 * length stubs.now + entry_size kind format.now (length args.now) ≤ stack.old.limit }
    ensures value { stack.new ≡ record stack.old
        { bytes = (take sp stack.old.bytes ++ flat_map stub_bytes stubs.now) ++ entry_bytes kind format.now args.now } }
    ensures good { IsGood stack.new.bytes (sp + 16 * length stubs.now) }
    ensures height { length stack.new.bytes ≤ stack.new.limit }
    ensures aligned { length stack.new.bytes % 4 ≡ 0 }
{
    stack.leave_frame(sp);
    push_called(stack, stubs, kind, format, len, args);
    let _size = stack.size(); // what holds of every stack
}

/// What stands for the present frame where the stack is empty.
const NO_FRAME: Frame = Frame {
    fp: 0,
    locals: 0,
    values: 0,
};

/// The state of a story before its start function is entered.
fn initial<A: Allocator + Clone>(alloc: Global, pages: A, story: Story) -> Result<State<A>, Fault>
    ensures value { IfOk result (λ state. state.flat ≡ initial story) }
    ensures memory { IfErr result (λ fault. fault ≡ NoMemory) }
{
    let endmem = story.endmem();
    let memory = Pages::from_bytes(alloc, pages, story.bytes(), endmem)?;
    let stack = Stack::new(alloc, story.stack_size())?;
    let table = story.table();
    Ok(State {
        story: shared(alloc, story)?,
        memory,
        stack,
        frame: NO_FRAME,
        pc: 0,
        table,
        iosys: (0, 0),
        protected: (0, 0),
        heap: Heap::new(alloc),
        generator: Generator::fresh(),
        mode: Mode::Running,
    })
}

/// A story that states may share.
fn shared(alloc: Global, story: Story) -> Result<Rc<Story>, AllocError>
    ensures { IfOk result (λ one. one.value ≡ story) }
{
    Ok(Rc::new(alloc, story)?)
}

/// Looks whether a start of a story would have a fault.
#[tactic(auto, unfolding(crate::specs::Entry::started, crate::specs::Entry::entered))]
fn can_start(story: &Story) -> Result<(), Fault>
    ensures ok { OnOk result (IsOk (started story.now)) }
    ensures err { IfErr result (λ fault. (started story.now ≡ Err fault) × (fault ≢ NoMemory)) }
{
    let at = story.start_function();
    function_at(&Started(story), at, 0, 0, story.stack_size())?;
    Ok(())
}

impl<A: Allocator + Clone> State<A> {
    /// The state in which a story starts: the stored part and zeros in memory, and its start
    /// function entered on an empty stack.
    pub fn start(alloc: Global, pages: A, story: &Story) -> Result<State<A>, Fault>
        ensures { Makes (λ state. state.flat) result (started story.now) }
    {
        can_start(story)?;
        State::start_with(alloc, pages, story.copy(alloc)?)
    }

    /// The same, where the state takes the story as its own.
    #[tactic(auto, unfolding(crate::specs::Entry::started))]
    pub fn start_with(alloc: Global, pages: A, story: Story) -> Result<State<A>, Fault>
        ensures { Makes (λ state. state.flat) result (started story) }
    {
        can_start(&story)?;
        let at = story.start_function();
        let mut state = initial(alloc, pages, story)?;
        state.enter(0, &[], at, &[])?;
        Ok(state)
    }

    /// Cuts the stack to `sp`, pushes the stubs in order and enters the function at an address.
    #[tactic(auto, unfolding(crate::specs::Entry::entered), using(crate::proofs::Kept::framed_good))]
    pub fn enter(&mut self, sp: u32, stubs: &[Stub], at: u32, args: &[u32]) -> Result<(), Fault>
        requires there { sp ≤ sp_of self.old.flat }
        requires aligned { sp % 4 ≡ 0 }
        ensures { Acts result self.old self.new (entered self.old.flat sp stubs.now at args.now) }
    {
        let limit = self.stack.limit();
        if stubs.len() > (limit - sp) as usize / 16 {
            return Err(Fault::Overflow);
        }
        match self.stored_format(at) {
            Some(end) => self.enter_stored(sp, stubs, at, end, args),
            None => self.enter_read(sp, stubs, at, args),
        }
    }

    /// The same for a function whose locals format is read from memory.
    #[inline(never)]
    #[tactic(auto, unfolding(crate::specs::Entry::entered), using(crate::proofs::Kept::framed_good))]
    fn enter_read(&mut self, sp: u32, stubs: &[Stub], at: u32, args: &[u32]) -> Result<(), Fault>
        requires there { sp ≤ sp_of self.old.flat }
        requires aligned { sp % 4 ≡ 0 }
        requires room { sp + 16 * length stubs.now ≤ self.old.flat.stack.limit }
        ensures { Acts result self.old self.new (entered self.old.flat sp stubs.now at args.now) }
    {
        let limit = self.stack.limit();
        let fp = sp + 16 * stubs.len() as u32;
        let (kind, read) = function_at(&self.memory, at, args.len(), fp, limit)?;
        let format = read.as_slice();
        let len = frame_len(format);
        push_call(&mut self.stack, sp, stubs, kind, format, len, args);
        self.frame = self.stack.parts(fp);
        self.pc = at + 1 + format.len() as u32;
        Ok(())
    }

    /// Whether the function at an address has locals of four bytes alone, and its format stands below RAMSTART: one
    /// pair, and the ending one.
    #[inline(always)]
    fn has_words(&self, at: usize) -> bool
        ensures { result ≡ true → (at + 5 ≤ self.now.flat.story.header.ramstart)
            × (get_or self.now.flat.story.bytes (at + 1) 0 ≡ 4)
            × (get_or self.now.flat.story.bytes (at + 3) 0 ≡ 0) }
    {
        let ramstart = self.story.ramstart() as usize;
        if at >= ramstart || ramstart - at < 5 {
            return false;
        }
        let code = self.story.bytes();
        code[at + 1] == 4 && code[at + 3] == 0
    }

    /// Where the locals format of the function at an address ends, where all of it stands below RAMSTART.
    #[inline(always)]
    #[tactic(auto, using(crate::proofs::Pairs::stored, crate::proofs::Pairs::stored_words))]
    fn stored_format(&self, at: u32) -> Option<u32>
        ensures value { IfSome result (λ end. format_from self.now.flat.memory (at + 1) 64
            ≡ Ok (slice_range self.now.flat.story.bytes (at + 1) end)) }
        ensures format { IfSome result (λ end. IsFormat (slice_range self.now.flat.story.bytes (at + 1) end)) }
        ensures behind { IfSome result (λ end. at + 3 ≤ end) }
        ensures there { IfSome result (λ end. end ≤ length self.now.flat.story.bytes) }
    {
        let ramstart = self.story.ramstart();
        if at >= ramstart {
            return None;
        }
        if self.has_words(at as usize) {
            return Some(at + 5);
        }
        match format_end(&Code(self), at + 1) {
            Ok(end) if end <= ramstart => Some(end),
            _ => None,
        }
    }

    /// The same for a function whose locals format stands in the story's own bytes, and ends at a place.
    #[inline(always)]
    #[tactic(auto, unfolding(crate::proofs::Opened::entering), using(crate::proofs::Kept::framed_good))]
    fn enter_stored(
        &mut self,
        sp: u32,
        stubs: &[Stub],
        at: u32,
        end: u32,
        args: &[u32],
    ) -> Result<(), Fault>
        requires there { sp ≤ sp_of self.old.flat }
        requires aligned { sp % 4 ≡ 0 }
        requires room { sp + 16 * length stubs.now ≤ self.old.flat.stack.limit }
        requires behind { at + 3 ≤ end }
        requires stored { end ≤ length self.old.flat.story.bytes }
        requires value { format_from self.old.flat.memory (at + 1) 64
            ≡ Ok (slice_range self.old.flat.story.bytes (at + 1) end) }
        requires format { IsFormat (slice_range self.old.flat.story.bytes (at + 1) end) }
        ensures { Acts result self.old self.new (entered self.old.flat sp stubs.now at args.now) }
    {
        let kind = kind_at(&Code(self), at)?;
        let count = args.len();
        if count > 255 {
            return Err(Fault::BadFunction);
        }
        let format = &self.story.bytes()[at as usize + 1..end as usize];
        let len = frame_len(format);
        let fp = sp + 16 * stubs.len() as u32;
        if fp + entry_size(kind, len, count) > self.stack.limit() {
            return Err(Fault::Overflow);
        }
        push_call(&mut self.stack, sp, stubs, kind, format, len, args);
        self.frame = self.stack.parts(fp);
        self.pc = end;
        Ok(())
    }
}
