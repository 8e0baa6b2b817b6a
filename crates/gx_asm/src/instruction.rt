//! An instruction as it is written: what a line of a text and bytes of a code have in common.
//!
//! Contracts see it as a `Written` of specs/Instructions.
ghost use Rattle.std.specs.Prelude.{◌≡◌, ◌<◌, ◌^◌};
ghost use Rattle.gx_asm.specs.Instructions.{data_len, fits_kind};

use arrayvec::ArrayVec;
use gx_rows::modes::{Addressing, Kind};

/// An instruction, by its place in the table of instructions. It has at most eight operands.
#[derive(Drop)]
pub(crate) struct Instruction {
    pub place: usize,
    /// The addressing modes of its operands, in order.
    pub modes: ArrayVec<Addressing, 8>,
    /// The data of its operands, one after another.
    pub operand_data: ArrayVec<u8, 32>,
}

/// How many bytes of data an operand has by its mode.
pub(crate) fn data_len(mode: Addressing) -> usize
    ensures value { result ≡ data_len mode }
    ensures fits { result < 2 ^ 32 }
{
    match mode {
        Addressing::Zero | Addressing::Top => 0,
        Addressing::Constant(n)
        | Addressing::Memory(n)
        | Addressing::Local(n)
        | Addressing::Ram(n) => n as usize,
    }
}

/// Whether an operand of a kind can have a mode: a constant is no place for a store.
pub(crate) fn fits_kind(kind: Kind, mode: Addressing) -> bool
    ensures { result ≡ fits_kind kind mode }
{
    !matches!((kind, mode), (Kind::Store, Addressing::Constant(_)))
}
