//! Call frames on the stack (Glulx 3.1.2, "Call Frames"): finding, entering and leaving them.
ghost use Rattle.std.specs.Prelude.{◌≡◌, ◌+◌, ◌*◌, ◌%◌, ◌≤◌, ◌++◌, [], length, take, reverse, IfOk, OnOk};
ghost use Rattle.std.specs.List.{flat_map};
ghost use Rattle.gx_words.specs.Constants.{stack_limit};
ghost use Rattle.gx_words.specs.Numbers.{bytes_of_word};
ghost use Rattle.gx_words.specs.Results.{Alters};
ghost use Rattle.gx_stack.specs.Formats.{pairs_of, locals_pos, frame_len, frame};
ghost use Rattle.gx_stack.specs.Held.{IsFormat};
ghost use Rattle.gx_stack.specs.Laws.{local_places, local_values, numbers_at};
ghost use Rattle.gx_stack.specs.Frames.{IsGood, has_local, parts, frame_in, IsFrame, KeepsFrames};
ghost use Rattle.gx_stack.specs.Calls.{with_frame};
ghost use Rattle.gx_stack.specs.Stubs.{stub_bytes};

use crate::formats::{frame_len, push_call, push_frame};
use crate::room::push_word;
use crate::{Stack, StackFault, Stub};
use gx_words::word_at;

/// Where the parts of a good frame stand on the stack.
#[derive(Clone, Copy, Debug, PartialEq, Eq)]
pub struct Frame {
    /// Its begin, which is FramePtr while its function runs.
    pub fp: u32,
    /// The begin of its locals.
    pub locals: u32,
    /// The begin of its values.
    pub values: u32,
}

impl Frame {
    /// The frame at a place of a stack's bytes.
    #[tactic(auto, unfolding(crate::specs::Frames::frame_in))]
    #[inline(always)]
    pub fn of(stack: &[u8], fp: u32) -> Result<Frame, StackFault>
        requires { length stack.now ≤ stack_limit }
        ensures value { result ≡ frame_in stack.now fp }
        ensures good { IfOk result (λ frame. IsFrame stack.now frame) }
        ensures place { IfOk result (λ frame. frame.fp ≡ fp) }
    {
        let at = fp as usize;
        if at + 8 > stack.len() || fp % 4 != 0 {
            return Err(StackFault::BadFrame);
        }
        let len = word_at(stack, at);
        let locals = word_at(stack, at + 4);
        if len % 4 != 0 || locals < 8 || len < locals || at + len as usize > stack.len() {
            return Err(StackFault::BadFrame);
        }
        Ok(Frame {
            fp,
            locals: fp + locals,
            values: fp + len,
        })
    }

    /// Whether so many bytes at an offset into its locals are all in its locals.
    #[inline(always)]
    pub fn has_local(&self, at: u32, width: u32) -> bool
        ensures { result ≡ has_local self.now at width }
    {
        u64::from(at) + u64::from(width) <= u64::from(self.values.saturating_sub(self.locals))
    }

    /// The same for a frame whose locals don't begin behind its values.
    #[inline(always)]
    pub(crate) fn reaches(&self, at: u32, width: u32) -> bool
        requires { self.now.locals ≤ self.now.values }
        ensures { result ≡ has_local self.now at width }
    {
        u64::from(self.locals) + u64::from(at) + u64::from(width) <= u64::from(self.values)
    }
}

impl Stack {
    /// The frame at a place.
    pub fn frame(&self, fp: u32) -> Result<Frame, StackFault>
        ensures value { result ≡ frame_in self.now.bytes fp }
        ensures good { IfOk result (λ frame. IsFrame self.now.bytes frame) }
        ensures place { IfOk result (λ frame. frame.fp ≡ fp) }
    {
        self.frame_at(fp, self.size())
    }

    /// The frame at a place of the stack cut to `sp`.
    #[inline(always)]
    pub fn frame_at(&self, fp: u32, sp: u32) -> Result<Frame, StackFault>
        requires there { sp ≤ length self.now.bytes }
        requires aligned { sp % 4 ≡ 0 }
        ensures value { result ≡ frame_in (take sp self.now.bytes) fp }
        ensures good { IfOk result (λ frame. IsFrame (take sp self.now.bytes) frame) }
        ensures place { IfOk result (λ frame. frame.fp ≡ fp) }
    {
        Frame::of(&self.bytes[..sp as usize], fp)
    }

    /// The frame at a place where one is known to be good.
    #[inline(always)]
    pub fn parts(&self, fp: u32) -> Frame
        requires { IsGood self.now.bytes fp }
        ensures value { result ≡ parts self.now.bytes fp }
        ensures frame { IsFrame self.now.bytes result }
    {
        Frame {
            fp,
            locals: fp + word_at(&self.bytes, fp as usize + 4),
            values: fp + word_at(&self.bytes, fp as usize),
        }
    }

    /// Pushes the frame of a format, with all locals zero.
    #[inline(always)]
    pub fn enter_frame(&mut self, format: &[u8]) -> Result<Frame, StackFault>
        requires { IsFormat format.now }
        ensures value { Alters result self.old self.new (with_frame self.old format.now []) }
        ensures parts { IfOk result (λ frame. frame ≡ parts self.new.bytes (length self.old.bytes)) }
        ensures good { IfOk result (λ frame. IsFrame self.new.bytes frame) }
        ensures keeps { KeepsFrames self.old.bytes self.new.bytes }
        ensures size { OnOk result (length self.new.bytes ≡ length self.old.bytes + frame_len format.now) }
    {
        self.enter_with(format, &[])
    }

    /// Pushes the frame of a function of type C1: the arguments stand in its locals in order, each
    /// cut to the local's size. Arguments without a local are dropped, locals without one are zero.
    #[tactic(auto, unfolding(crate::specs::Calls::with_frame), using(crate::proofs::Opened::entering))]
    #[inline(always)]
    pub fn enter_with(&mut self, format: &[u8], args: &[u32]) -> Result<Frame, StackFault>
        requires { IsFormat format.now }
        ensures value { Alters result self.old self.new (with_frame self.old format.now args.now) }
        ensures parts { IfOk result (λ frame. frame ≡ parts self.new.bytes (length self.old.bytes)) }
        ensures good { IfOk result (λ frame. IsFrame self.new.bytes frame) }
        ensures keeps { KeepsFrames self.old.bytes self.new.bytes }
        ensures size { OnOk result (length self.new.bytes ≡ length self.old.bytes + frame_len format.now) }
        ensures locals { OnOk result (let places = local_places 0 (pairs_of format.now) in
            let at = length self.old.bytes + locals_pos format.now in
            numbers_at self.new.bytes at places ≡ local_values places args.now) }
        ensures place { IfOk result (λ frame. frame.locals ≡ length self.old.bytes + locals_pos format.now) }
    {
        let fp = self.size();
        let len = frame_len(format);
        if fp + len > self.limit {
            return Err(StackFault::Overflow);
        }
        self.push_frame(format, len, args);
        Ok(self.parts(fp))
    }

    /// Pushes the frame of a format where it fits, with arguments in its locals; `len` is its FrameLen.
    #[inline(always)]
    #[tactic(auto, using(crate::proofs::Kept::entered_frames))]
    pub fn push_frame(&mut self, format: &[u8], len: u32, args: &[u32])
        requires format { IsFormat format.now }
        requires len { len ≡ frame_len format.now }
        requires room { length self.old.bytes + len ≤ self.old.limit }
        ensures value { self.new ≡ record self.old { bytes = self.old.bytes ++ frame format.now args.now } }
        ensures good { IsGood self.new.bytes (length self.old.bytes) }
        ensures keeps { KeepsFrames self.old.bytes self.new.bytes }
        ensures size { length self.new.bytes ≡ length self.old.bytes + len }
    {
        push_frame(&mut self.bytes, format, len, args);
    }

    /// Pushes a stub, and above it the frame of a format where both fit, with arguments in its locals; `len` is its
    /// FrameLen.
    #[inline(always)]
    #[tactic(auto, using(crate::proofs::Kept::called_frames))]
    pub fn push_call(&mut self, stub: &Stub, format: &[u8], len: u32, args: &[u32])
        requires format { IsFormat format.now }
        requires len { len ≡ frame_len format.now }
        requires room { length self.old.bytes + (16 + len) ≤ self.old.limit }
        ensures value { self.new ≡ record self.old
            { bytes = (self.old.bytes ++ stub_bytes stub.now) ++ frame format.now args.now } }
        ensures good { IsGood self.new.bytes (length self.old.bytes + 16) }
        ensures keeps { KeepsFrames self.old.bytes self.new.bytes }
        ensures size { length self.new.bytes ≡ length self.old.bytes + (16 + len) }
    {
        push_call(&mut self.bytes, stub, format, len, args);
    }

    /// Pushes the arguments of a function of type C0, the first topmost, and their count on top.
    #[tactic(auto, using(crate::proofs::Turns::arg_turns, crate::proofs::Kept::frame_after_push))]
    #[inline(always)]
    pub fn push_args(&mut self, args: &[u32])
        requires room { length self.old.bytes + 4 * (length args.now + 1) ≤ self.old.limit }
        ensures value { self.new ≡ record self.old {
          bytes = self.old.bytes ++ flat_map bytes_of_word (reverse args.now) ++ bytes_of_word (length args.now);
        } }
        ensures keeps { KeepsFrames self.old.bytes self.new.bytes }
        ensures size { length self.new.bytes ≡ length self.old.bytes + 4 * (length args.now + 1) }
    {
        let count = args.len();
        for i in 0..count {
            push_word(&mut self.bytes, args[count - 1 - i]);
        }
        push_word(&mut self.bytes, count as u32);
    }

    /// Cuts the stack to the begin of a frame, or to any other place.
    #[inline(always)]
    pub fn leave_frame(&mut self, fp: u32)
        requires whole { fp ≤ length self.old.bytes }
        requires aligned { fp % 4 ≡ 0 }
        ensures value { self.new ≡ record self.old { bytes = take fp self.old.bytes } }
        ensures size { length self.new.bytes ≡ fp }
    {
        self.bytes.truncate(fp as usize);
    }
}
