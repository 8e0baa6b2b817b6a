//! The instructions that the calls of this crate are for, each by its name in the standard (Glulx 3.1.2, "Dictionary of
//! Opcodes"): the low byte of its number.

// Integer math, and the sign extensions of "Moving Data"
pub(crate) const ADD: u8 = 0x10;

pub(crate) const SUB: u8 = 0x11;

pub(crate) const MUL: u8 = 0x12;

pub(crate) const DIV: u8 = 0x13;

pub(crate) const MOD: u8 = 0x14;

pub(crate) const NEG: u8 = 0x15;

pub(crate) const BITAND: u8 = 0x18;

pub(crate) const BITOR: u8 = 0x19;

pub(crate) const BITXOR: u8 = 0x1A;

pub(crate) const BITNOT: u8 = 0x1B;

pub(crate) const SHIFTL: u8 = 0x1C;

pub(crate) const SSHIFTR: u8 = 0x1D;

pub(crate) const USHIFTR: u8 = 0x1E;

pub(crate) const SEXS: u8 = 0x44;

pub(crate) const SEXB: u8 = 0x45;

// Branches
pub(crate) const JUMP: u8 = 0x20;

pub(crate) const JZ: u8 = 0x22;

pub(crate) const JNZ: u8 = 0x23;

pub(crate) const JEQ: u8 = 0x24;

pub(crate) const JNE: u8 = 0x25;

pub(crate) const JLT: u8 = 0x26;

pub(crate) const JGE: u8 = 0x27;

pub(crate) const JGT: u8 = 0x28;

pub(crate) const JLE: u8 = 0x29;

pub(crate) const JLTU: u8 = 0x2A;

pub(crate) const JGEU: u8 = 0x2B;

pub(crate) const JGTU: u8 = 0x2C;

pub(crate) const JLEU: u8 = 0x2D;
