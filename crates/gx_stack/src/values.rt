//! The values and locals of a frame (Glulx 3.1.2, "Call Frames" and "The Stack").
//!
//! Each call that is given a frame keeps it good. Beside what it makes of the bytes, a clause
//! `values` says what it makes of the list of the frame's values, the deepest first.
ghost use Rattle.std.specs.Prelude.{◌≡◌, ◌+◌, ◌-◌, ◌*◌, ◌≤◌, ◌<◌, ◌++◌, ◌%◌, ◌^◌, [], ◌∷◌, length, slice_index, IfOk};
ghost use Rattle.std.specs.Prelude.{OnOk, pos, unsigned_abs};
ghost use Rattle.std.specs.Int.{int_rem_euclid};
ghost use Rattle.gx_words.specs.Constants.{stack_limit};
ghost use Rattle.gx_words.specs.Numbers.{IsWidth};
ghost use Rattle.gx_words.specs.Results.{Alters};
ghost use Rattle.gx_stack.specs.Frames.{IsFrame, KeepsFrames};
ghost use Rattle.gx_stack.specs.Values.{count, peeked, rolled, copied, local_at};
ghost use Rattle.gx_stack.specs.Calls.{pushed, pushed_all, dropped, with_local};
ghost use Rattle.gx_stack.specs.Laws.{values_of, last, but_last, rolled_values};

use crate::room::{push_from, push_word, put, turn};
use crate::{Frame, Stack, StackFault};
use gx_words::{number_at, word_at};

/// How many places up the top n values go.
fn places(n: u32, by: i32) -> u32
    requires some { 0 < n }
    requires few { n ≤ stack_limit }
    ensures value { result ≡ unsigned_abs (int_rem_euclid by (pos n)) }
    ensures fits { result < n }
{
    by.rem_euclid(n as i32) as u32
}

impl Stack {
    /// Pushes a value.
    #[tactic(auto, unfolding(crate::specs::Calls::pushed), using(crate::proofs::Opened::pushing))]
    #[inline(always)]
    pub fn push(&mut self, v: u32) -> Result<(), StackFault>
        ensures value { Alters result self.old self.new (pushed self.old v) }
        ensures keeps { KeepsFrames self.old.bytes self.new.bytes }
        ensures size { OnOk result (length self.new.bytes ≡ length self.old.bytes + 4) }
        ensures values { OnOk result ((f : Frame) → IsFrame self.old.bytes f
            → values_of self.new.bytes f ≡ values_of self.old.bytes f ++ v ∷ []) }
    {
        if self.bytes.len() + 4 > self.limit as usize {
            return Err(StackFault::Overflow);
        }
        push_word(&mut self.bytes, v);
        Ok(())
    }

    /// Pushes values, the first deepest, where all of them fit.
    #[tactic(auto, unfolding(crate::specs::Calls::pushed_all), using(crate::proofs::Opened::pushing_all))]
    pub fn push_all(&mut self, values: &[u32]) -> Result<(), StackFault>
        ensures value { Alters result self.old self.new (pushed_all self.old values.now) }
        ensures keeps { KeepsFrames self.old.bytes self.new.bytes }
        ensures size { OnOk result (length self.new.bytes ≡ length self.old.bytes + 4 * length values.now) }
    {
        if values.len() > (self.limit as usize - self.bytes.len()) / 4 {
            return Err(StackFault::Overflow);
        }
        for value in values {
            push_word(&mut self.bytes, *value);
        }
        Ok(())
    }

    /// How many values the frame has.
    #[tactic(auto, using(crate::proofs::Lists::values_counted))]
    #[inline(always)]
    pub fn count(&self, frame: &Frame) -> u32
        requires { IsFrame self.now.bytes frame.now }
        ensures value { result ≡ count self.now.bytes frame.now }
        ensures size { frame.now.values + 4 * result ≡ length self.now.bytes }
        ensures values { result ≡ length (values_of self.now.bytes frame.now) }
    {
        (self.size() - frame.values) / 4
    }

    /// The value `i` from the top, which is number 0.
    #[tactic(auto, unfolding(crate::specs::Values::peeked), using(crate::proofs::Lists::value_peeked))]
    #[inline(always)]
    pub fn peek(&self, frame: &Frame, i: u32) -> Result<u32, StackFault>
        requires { IsFrame self.now.bytes frame.now }
        ensures value { result ≡ peeked self.now.bytes frame.now i }
        ensures values { IfOk result (λ v. let values = values_of self.now.bytes frame.now in
            v ≡ slice_index values (length values - 1 - i)) }
    {
        if i >= self.count(frame) {
            return Err(StackFault::Underflow);
        }
        Ok(word_at(&self.bytes, self.bytes.len() - 4 * (i as usize + 1)))
    }

    /// Drops the top n values.
    #[tactic(auto, unfolding(crate::specs::Calls::dropped), using(crate::proofs::Opened::dropping))]
    pub fn drop_top(&mut self, frame: &Frame, n: u32) -> Result<(), StackFault>
        requires { IsFrame self.old.bytes frame.now }
        ensures value { Alters result self.old self.new (dropped self.old frame.now n) }
        ensures keeps { IsFrame self.new.bytes frame.now }
        ensures size { OnOk result (length self.new.bytes + 4 * n ≡ length self.old.bytes) }
        ensures values { OnOk result (values_of self.new.bytes frame.now
            ≡ but_last n (values_of self.old.bytes frame.now)) }
    {
        if n > self.count(frame) {
            return Err(StackFault::Underflow);
        }
        let size = self.size() - 4 * n;
        self.bytes.truncate(size as usize);
        Ok(())
    }

    /// Moves the top n values up by so many places, cyclically, or down where `by` is negative.
    #[tactic(auto, unfolding(crate::specs::Values::rolled), using(crate::proofs::Opened::turning))]
    pub fn roll(&mut self, frame: &Frame, n: u32, by: i32) -> Result<(), StackFault>
        requires { IsFrame self.old.bytes frame.now }
        ensures value { Alters result self.old self.new (rolled self.old frame.now n by) }
        ensures keeps { IsFrame self.new.bytes frame.now }
        ensures size { length self.new.bytes ≡ length self.old.bytes }
        ensures values { 0 < n → OnOk result (values_of self.new.bytes frame.now
            ≡ rolled_values n (unsigned_abs (int_rem_euclid by (pos n))) (values_of self.old.bytes frame.now)) }
    {
        if n > self.count(frame) {
            return Err(StackFault::Underflow);
        }
        if n == 0 {
            return Ok(());
        }
        let up = places(n, by);
        let at = self.size() - 4 * n;
        turn(&mut self.bytes, at as usize, 4 * up as usize);
        Ok(())
    }

    /// Exchanges the top two values.
    #[tactic(auto, unfolding(crate::specs::Values::rolled), using(crate::proofs::Opened::turning))]
    pub fn swap(&mut self, frame: &Frame) -> Result<(), StackFault>
        requires { IsFrame self.old.bytes frame.now }
        ensures value { Alters result self.old self.new (rolled self.old frame.now 2 (pos 1)) }
        ensures keeps { IsFrame self.new.bytes frame.now }
        ensures size { length self.new.bytes ≡ length self.old.bytes }
        ensures values { OnOk result (values_of self.new.bytes frame.now
            ≡ rolled_values 2 1 (values_of self.old.bytes frame.now)) }
    {
        if self.count(frame) < 2 {
            return Err(StackFault::Underflow);
        }
        let at = self.size() - 8;
        turn(&mut self.bytes, at as usize, 4);
        Ok(())
    }

    /// Pushes the top n values again.
    #[tactic(auto, unfolding(crate::specs::Values::copied), using(crate::proofs::Opened::copying))]
    pub fn copy_top(&mut self, frame: &Frame, n: u32) -> Result<(), StackFault>
        requires { IsFrame self.old.bytes frame.now }
        ensures value { Alters result self.old self.new (copied self.old frame.now n) }
        ensures keeps { KeepsFrames self.old.bytes self.new.bytes }
        ensures size { OnOk result (length self.new.bytes ≡ length self.old.bytes + 4 * n) }
        ensures values { OnOk result (let values = values_of self.old.bytes frame.now in
            values_of self.new.bytes frame.now ≡ values ++ last n values) }
    {
        if n > self.count(frame) {
            return Err(StackFault::Underflow);
        }
        let size = self.size();
        if size + 4 * n > self.limit {
            return Err(StackFault::Overflow);
        }
        push_from(&mut self.bytes, (size - 4 * n) as usize);
        Ok(())
    }

    /// The local of 1, 2 or 4 bytes at an offset into the frame's locals.
    #[tactic(auto, unfolding(crate::specs::Values::local_at))]
    #[inline(always)]
    pub fn local(&self, frame: &Frame, at: u32, width: u32) -> Result<u32, StackFault>
        requires frame { IsFrame self.now.bytes frame.now }
        requires width { IsWidth width }
        ensures { result ≡ local_at self.now.bytes frame.now at width }
    {
        if !frame.reaches(at, width) {
            return Err(StackFault::BadLocal);
        }
        Ok(number_at(&self.bytes, width, frame.locals as usize + at as usize))
    }

    /// Puts the low 1, 2 or 4 bytes of a number into the local at an offset.
    #[tactic(auto, unfolding(crate::specs::Calls::with_local), using(crate::proofs::Kept::puts))]
    #[inline(always)]
    pub fn set_local(
        &mut self,
        frame: &Frame,
        at: u32,
        width: u32,
        v: u32,
    ) -> Result<(), StackFault>
        requires frame { IsFrame self.old.bytes frame.now }
        requires width { IsWidth width }
        ensures value { Alters result self.old self.new (with_local self.old frame.now at width v) }
        ensures keeps { IsFrame self.new.bytes frame.now }
        ensures size { length self.new.bytes ≡ length self.old.bytes }
        ensures read_back { OnOk result (local_at self.new.bytes frame.now at width ≡ Ok (v % 256 ^ width)) }
    {
        if !frame.reaches(at, width) {
            return Err(StackFault::BadLocal);
        }
        let place = frame.locals as usize + at as usize;
        put(&mut self.bytes, place, width, v);
        Ok(())
    }
}
