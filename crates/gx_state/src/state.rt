//! The state, its readers, and the calls that set one part.
//!
//! A state shares its story with the forks that `copies` makes of it.
ghost use Rattle.std.specs.Prelude.{◌≡◌, ◌+◌, ◌*◌, ◌<◌, ◌≤◌, ◌^◌, length, Ok, Err, None, IfOk, IfErr, IfSome, OnOk};
ghost use Rattle.gx_words.specs.Constants.{ceiling};
ghost use Rattle.gx_words.specs.Numbers.{IsWidth, byte};
ghost use Rattle.gx_words.specs.declared.faults.Fault.TheVariants.{BadAddress};
ghost use Rattle.gx_words.specs.Faults.{Reads};
ghost use Rattle.gx_pages.specs.Memory.{number_in};
ghost use Rattle.gx_stack.specs.Frames.{IsFrame};
ghost use Rattle.heap_blocks.specs.Heap.{IsHeapBelow};
ghost use Rattle.ops_calc.specs.Generator.{word_from, after_word};
ghost use Rattle.gx_story.specs.Stories.{IsStory, is_checked};
ghost use Rattle.gx_state.specs.Flat.{frame_of, sp_of};
ghost use Rattle.gx_state.specs.Sound.{IsSound};

use crate::Mode;
use gx_pages::Pages;
use gx_stack::{Frame, Stack};
use gx_story::Story;
use gx_words::{Fault, number_at};
use heap_blocks::Heap;
use ops_calc::Generator;
use std::alloc::Allocator;
use std::marker::Model;
use std::rc::Rc;

/// The state of a machine.
#[derive(Drop)]
pub struct State<A: Allocator + Clone> {
    pub(crate) story: Rc<Story>,
    pub(crate) memory: Pages<A>,
    pub(crate) stack: Stack,
    /// The present frame; of a function that has returned to nothing, what it was.
    pub(crate) frame: Frame,
    pub(crate) pc: u32,
    pub(crate) table: u32,
    pub(crate) iosys: (u32, u32),
    pub(crate) protected: (u32, u32),
    pub(crate) heap: Heap,
    pub(crate) generator: Generator,
    pub(crate) mode: Mode,
}

impl<A: Allocator + Clone> Model for State<A> {
    ghost use Rattle.gx_state.specs.Flat.{HeldState};

    ghost Value = { HeldState };

    ghost use Rattle.gx_state.specs.Views.{held_of, StateInvariant};

    ghost view = { held_of };

    ghost invariant = { StateInvariant };
}

impl<A: Allocator + Clone> State<A> {
    /// Memory.
    #[inline(always)]
    pub fn memory(&self) -> &Pages<A>
        ensures value { result.now ≡ self.now.flat.memory }
        ensures sound { IsSound self.now.flat }
    {
        &self.memory
    }

    /// The stack.
    #[inline(always)]
    pub fn stack(&self) -> &Stack
        ensures value { result.now ≡ self.now.flat.stack }
        ensures sound { IsSound self.now.flat }
    {
        &self.stack
    }

    /// The memory allocation heap.
    pub fn heap(&self) -> &Heap
        ensures value { result.now.heap ≡ self.now.flat.heap }
        ensures within { IsHeapBelow (length self.now.flat.memory) self.now.flat.heap }
    {
        &self.heap
    }

    /// The story that the state began with.
    pub fn story(&self) -> &Story
        ensures { result.now ≡ self.now.flat.story }
    {
        &self.story
    }

    /// The address of the next instruction.
    pub fn pc(&self) -> u32
        ensures { result ≡ self.now.flat.pc }
    {
        self.pc
    }

    /// FramePtr: where the present frame begins on the stack.
    pub fn fp(&self) -> u32
        ensures { result ≡ self.now.flat.fp }
    {
        self.frame.fp
    }

    /// The present frame.
    #[inline(always)]
    pub fn frame(&self) -> Frame
        requires { 0 < sp_of self.now.flat }
        ensures value { result ≡ frame_of self.now.flat }
        ensures good { IsFrame self.now.flat.stack.bytes result }
    {
        self.frame
    }

    /// The address of the string decoding table, 0 for none.
    pub fn table(&self) -> u32
        ensures { result ≡ self.now.flat.table }
    {
        self.table
    }

    /// The iosystem and its rock.
    pub fn iosys(&self) -> (u32, u32)
        ensures { result ≡ self.now.flat.iosys }
    {
        self.iosys
    }

    /// The protected range: its address and how many bytes it has.
    pub fn protected(&self) -> (u32, u32)
        ensures { result ≡ self.now.flat.protected }
    {
        self.protected
    }

    /// Where random words come from.
    pub fn generator(&self) -> &Generator
        ensures { result.now ≡ self.now.flat.generator }
    {
        &self.generator
    }

    /// Whether the machine runs code or prints.
    pub fn mode(&self) -> Mode
        ensures { result ≡ self.now.flat.mode }
    {
        self.mode
    }

    /// The byte of code at `at`, read as `code` reads it.
    #[tactic(auto, using(crate::proofs::Bytes::code_byte))]
    #[inline(always)]
    pub fn code_byte(&self, at: u32) -> u32
        requires { at < length self.now.flat.memory }
        ensures value { result ≡ byte self.now.flat.memory at }
        ensures fits { result < 2 ^ 8 }
    {
        if at < self.story.ramstart() {
            return u32::from(self.story.bytes()[at as usize]);
        }
        self.memory.byte(at)
    }

    /// The 1, 2 or 4 bytes of code from `at` on; `BadAddress` where one of them isn't in memory.
    ///
    /// The bytes below RAMSTART are the story's in every state, so they are read from it.
    #[tactic(auto, unfolding(gx_pages::specs::Memory::number_in), using(crate::proofs::Bytes::code))]
    #[inline(always)]
    pub fn code(&self, width: u32, at: u32) -> Result<u32, Fault>
        requires { IsWidth width }
        ensures value { Reads (λ v. v) result (number_in width self.now.flat.memory at) }
        ensures low { OnOk result (at + width ≤ ceiling) }
        ensures fits { IfOk result (λ v. v < 256 ^ width) }
    {
        if u64::from(at) + u64::from(width) <= u64::from(self.story.ramstart()) {
            return Ok(number_at(self.story.bytes(), width, at as usize));
        }
        match self.number_in_ram(width, at) {
            Some(v) => Ok(v),
            None => Err(Fault::BadAddress),
        }
    }

    /// The same where they aren't all the story's: None where one of them isn't in memory.
    #[inline(never)]
    #[tactic(auto, unfolding(gx_pages::specs::Memory::number_in))]
    fn number_in_ram(&self, width: u32, at: u32) -> Option<u32>
        requires { IsWidth width }
        ensures value { IfSome result (λ v. number_in width self.now.flat.memory at ≡ Ok v) }
        ensures none { result ≡ None → number_in width self.now.flat.memory at ≡ Err BadAddress }
        ensures low { IfSome result (λ v. at + width ≤ ceiling) }
        ensures fits { IfSome result (λ v. v < 256 ^ width) }
    {
        if u64::from(at) + u64::from(width) <= u64::from(self.memory.size()) {
            Some(self.memory.number(width, at))
        } else {
            None
        }
    }

    /// The same for two numbers of one byte each.
    #[inline(always)]
    pub fn code_pair(&self, at: u32) -> Result<(u32, u32), Fault>
        ensures there { OnOk result (at + 2 ≤ length self.now.flat.memory) }
        ensures low { OnOk result (at + 2 ≤ ceiling) }
        ensures value { IfOk result (λ pair. (pair.0 ≡ byte self.now.flat.memory at)
            × (pair.1 ≡ byte self.now.flat.memory (at + 1))) }
        ensures fits { IfOk result (λ pair. (pair.0 < 2 ^ 8) × (pair.1 < 2 ^ 8)) }
        ensures fault { IfErr result (λ fault. (fault ≡ BadAddress) × (length self.now.flat.memory < at + 2)) }
    {
        let both = self.both_bytes(at)?;
        Ok((both % 256, both / 256))
    }

    /// The same as one number, the first byte lowest.
    #[inline(always)]
    #[tactic(auto, using(crate::proofs::Bytes::code_byte))]
    fn both_bytes(&self, at: u32) -> Result<u32, Fault>
        ensures there { OnOk result (at + 2 ≤ length self.now.flat.memory) }
        ensures low { OnOk result (at + 2 ≤ ceiling) }
        ensures value { IfOk result (λ both. both
            ≡ byte self.now.flat.memory at + 256 * byte self.now.flat.memory (at + 1)) }
        ensures fits { OnOk result ((byte self.now.flat.memory at < 256)
            × (byte self.now.flat.memory (at + 1) < 256)) }
        ensures fault { IfErr result (λ fault. (fault ≡ BadAddress) × (length self.now.flat.memory < at + 2)) }
    {
        if u64::from(at) + 2 <= u64::from(self.story.ramstart()) {
            let bytes = self.story.bytes();
            let at = at as usize;
            return Ok(u32::from(bytes[at]) + 256 * u32::from(bytes[at + 1]));
        }
        if u64::from(at) + 2 > u64::from(self.memory.size()) {
            return Err(Fault::BadAddress);
        }
        Ok(self.memory.byte(at) + 256 * self.memory.byte(at + 1))
    }

    /// The first address that the story may write to.
    pub fn ramstart(&self) -> u32
        ensures value { result ≡ self.now.flat.story.header.ramstart }
        ensures sound { IsStory self.now.flat.story }
    {
        self.story.ramstart()
    }

    /// The first size of memory, which it never falls below.
    pub fn endmem(&self) -> u32
        ensures value { result ≡ self.now.flat.story.header.endmem }
        ensures within { result ≤ length self.now.flat.memory }
        ensures sound { IsStory self.now.flat.story }
    {
        self.story.endmem()
    }

    /// Whether the stored part has the checksum that the header states.
    pub fn checksum_ok(&self) -> bool
        ensures { result ≡ is_checked self.now.flat.story }
    {
        self.story.checksum_ok()
    }

    /// Sets the address of the next instruction.
    pub fn set_pc(&mut self, pc: u32)
        ensures { self.new ≡ record self.old { flat = record self.old.flat { pc = pc } } }
    {
        self.pc = pc;
    }

    /// Sets the address of the string decoding table.
    pub fn set_table(&mut self, at: u32)
        ensures { self.new ≡ record self.old { flat = record self.old.flat { table = at } } }
    {
        self.table = at;
    }

    /// Sets the iosystem and its rock.
    pub fn set_iosys(&mut self, system: u32, rock: u32)
        ensures { self.new ≡ record self.old { flat = record self.old.flat { iosys = (system, rock) } } }
    {
        self.iosys = (system, rock);
    }

    /// Sets the protected range.
    pub fn set_protected(&mut self, at: u32, count: u32)
        ensures { self.new ≡ record self.old { flat = record self.old.flat { protected = (at, count) } } }
    {
        self.protected = (at, count);
    }

    /// Sets whether the machine runs code or prints.
    pub fn set_mode(&mut self, mode: Mode)
        ensures { self.new ≡ record self.old { flat = record self.old.flat { mode = mode } } }
    {
        self.mode = mode;
    }

    /// The next random word; `outside` is the one to be used where words come from outside.
    pub fn draw(&mut self, outside: u32) -> u32
        ensures word { result ≡ word_from self.old.flat.generator outside }
        ensures rest { self.new ≡ record self.old
            { flat = record self.old.flat { generator = after_word self.old.flat.generator } } }
    {
        self.generator.word(outside)
    }

    /// Sets where random words come from.
    pub fn set_generator(&mut self, generator: Generator)
        ensures { self.new ≡ record self.old { flat = record self.old.flat { generator = generator } } }
    {
        self.generator = generator;
    }
}
