//! How the operands of an instruction are written (Glulx 3.1.2, "Instruction Format"): their addressing
//! modes, and which of them are loaded and which are stored to.
//!
//! A mode is a nibble. It says how the operand is found, and how many bytes of data stand for it behind the
//! modes; `read_mode` is the definition of specs/Modes, by which two nibbles have no meaning.
ghost use Rattle.std.specs.Prelude.{◌≡◌};
ghost use Rattle.gx_rows.specs.Modes.{addressing, kind_of};

use crate::Row;

/// Constant zero.
pub const CONSTANT_ZERO: u32 = 0x0;
/// A constant of one byte.
pub const CONSTANT_BYTE: u32 = 0x1;
/// A constant of two bytes.
pub const CONSTANT_SHORT: u32 = 0x2;
/// A constant of four bytes.
pub const CONSTANT_WORD: u32 = 0x3;
/// The contents of an address of one byte.
pub const ADDRESS_BYTE: u32 = 0x5;
/// The contents of an address of two bytes.
pub const ADDRESS_SHORT: u32 = 0x6;
/// The contents of an address of four bytes.
pub const ADDRESS_WORD: u32 = 0x7;
/// The value on top of the stack.
pub const STACK_TOP: u32 = 0x8;
/// The local of the frame at an address of one byte.
pub const LOCAL_BYTE: u32 = 0x9;
/// The local of the frame at an address of two bytes.
pub const LOCAL_SHORT: u32 = 0xA;
/// The local of the frame at an address of four bytes.
pub const LOCAL_WORD: u32 = 0xB;
/// The contents of a RAM address of one byte.
pub const RAM_BYTE: u32 = 0xD;
/// The contents of a RAM address of two bytes.
pub const RAM_SHORT: u32 = 0xE;
/// The contents of a RAM address of four bytes.
pub const RAM_WORD: u32 = 0xF;

/// How an operand is found. A number says how many bytes of data stand in the instruction.
#[derive(Clone, Copy, Debug, Default, PartialEq, Eq)]
pub enum Addressing {
    /// Zero as a load; as a store the result is dropped.
    #[default]
    Zero,
    /// A constant, by its sign.
    Constant(u32),
    /// Memory at an address.
    Memory(u32),
    /// The top of the stack: popped as a load, pushed as a store.
    Top,
    /// The local at an offset.
    Local(u32),
    /// Memory at an offset from RAMSTART.
    Ram(u32),
}

/// Whether an operand is loaded or stored to.
#[derive(Clone, Copy, Debug, PartialEq, Eq)]
pub enum Kind {
    Load,
    Store,
}

/// The addressing mode of a nibble; None for the two that have no meaning.
#[tactic(auto, unfolding(crate::specs::Modes::addressing))]
pub fn read_mode(nibble: u32) -> Option<Addressing>
    ensures { result ≡ addressing nibble }
{
    match nibble {
        CONSTANT_ZERO => Some(Addressing::Zero),
        CONSTANT_BYTE => Some(Addressing::Constant(1)),
        CONSTANT_SHORT => Some(Addressing::Constant(2)),
        CONSTANT_WORD => Some(Addressing::Constant(4)),
        ADDRESS_BYTE => Some(Addressing::Memory(1)),
        ADDRESS_SHORT => Some(Addressing::Memory(2)),
        ADDRESS_WORD => Some(Addressing::Memory(4)),
        STACK_TOP => Some(Addressing::Top),
        LOCAL_BYTE => Some(Addressing::Local(1)),
        LOCAL_SHORT => Some(Addressing::Local(2)),
        LOCAL_WORD => Some(Addressing::Local(4)),
        RAM_BYTE => Some(Addressing::Ram(1)),
        RAM_SHORT => Some(Addressing::Ram(2)),
        RAM_WORD => Some(Addressing::Ram(4)),
        _ => None,
    }
}

/// Whether the operand of an index is loaded or stored to.
#[inline(always)]
pub fn kind_of(row: &Row, i: u32) -> Kind
    ensures { result ≡ kind_of row.now i }
{
    if row.store_first {
        if i < u32::from(row.stores) {
            Kind::Store
        } else {
            Kind::Load
        }
    } else if i < u32::from(row.loads) {
        Kind::Load
    } else {
        Kind::Store
    }
}
