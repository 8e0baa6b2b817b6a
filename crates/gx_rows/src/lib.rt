//! The instructions of the machine as a table, and the look-up of a row by its key.
//!
//! - `numbers` names the instructions' numbers as the standard does.
//! - `instructions` has the table: one row for each instruction of Glulx 3.1.2 that the machine knows,
//!   and for hasundo and discardundo, in rising order of number.
//! - `arms` has `by_row!`, a body's arms over the rows of a class.
//! - `keys` finds the one row of a key in any table whose keys rise.
//! - `opcodes` reads the number with which an instruction begins, `modes` has the addressing modes of its operands.
//! - `capabilities` answers the gestalt selectors.
//!
//! The table is proved equal to that of specs/Table, which has a line for each instruction of the
//! standard, and the answers are those of specs/Gestalts. What an instruction does is said by the
//! crates that carry it out. Nothing here takes memory.
#![tactic(auto)]

mod arms;
mod capabilities;
mod instructions;
mod keys;
pub mod modes;
mod numbers;
mod opcodes;

pub use capabilities::gestalt;
pub use instructions::{Class, ROW_COUNT, ROWS, Row, place_of, row_at, rows};
pub use keys::{Keyed, find_row};
pub use numbers::{
    ACCELFUNC, ACCELPARAM, ADD, ALOAD, ALOADB, ALOADBIT, ALOADS, ASTORE, ASTOREB, ASTOREBIT,
    ASTORES, BINARYSEARCH, BITAND, BITNOT, BITOR, BITXOR, CALL, CALLF, CALLFI, CALLFII, CALLFIII,
    CATCH, COPY, COPYB, COPYS, DEBUGTRAP, DISCARDUNDO, DIV, GESTALT, GETIOSYS, GETMEMSIZE,
    GETSTRINGTBL, GLK, HASUNDO, JEQ, JGE, JGEU, JGT, JGTU, JLE, JLEU, JLT, JLTU, JNE, JNZ, JUMP,
    JUMPABS, JZ, LINEARSEARCH, LINKEDSEARCH, MALLOC, MCOPY, MFREE, MOD, MUL, MZERO, NEG, NOP,
    PROTECT, QUIT, RANDOM, RESTART, RESTORE, RESTOREUNDO, RETURN, SAVE, SAVEUNDO, SETIOSYS,
    SETMEMSIZE, SETRANDOM, SETSTRINGTBL, SEXB, SEXS, SHIFTL, SSHIFTR, STKCOPY, STKCOUNT, STKPEEK,
    STKROLL, STKSWAP, STREAMCHAR, STREAMNUM, STREAMSTR, STREAMUNICHAR, SUB, TAILCALL, THROW,
    USHIFTR, VERIFY,
};
pub use opcodes::read_opcode;
