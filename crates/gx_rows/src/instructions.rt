//! The table of the instructions (Glulx 3.1.2, "Dictionary of Opcodes").
//!
//! `ROWS` is the table of specs/Table, row by row. A place of the table names an instruction: it
//! is got from `place_of` and read by `row_at`.
ghost use Rattle.std.specs.Prelude.{◌≡◌, ◌<◌, IsTrue, IfSome, option_map, length};
ghost use Rattle.std.specs.List.{list_all};
ghost use Rattle.gx_rows.specs.Keys.{is_rising};
ghost use Rattle.gx_rows.specs.Table.{table, row_count, row_of, row_at, place_of, row_fits, RowFits, are_places};
ghost use Rattle.gx_rows.specs.Table.{are_below};

use crate::Keyed;
use crate::numbers::*;

/// The instructions that one part of the machine carries out.
#[derive(Clone, Copy, Debug, PartialEq, Eq)]
pub enum Class {
    /// Arithmetic and bits.
    Calc,
    /// Jumps by a test of the operands.
    Branch,
    /// Calls, returns, continuations, absolute jumps.
    Flow,
    /// Moving a value of 32, 16 or 8 bits.
    Copy,
    /// Arrays, blocks of memory, its size, the heap, searches.
    Memory,
    /// The values on the stack.
    Stack,
    /// Output through the iosystem.
    Print,
    /// The state of the game and of the machine, random numbers.
    Game,
    /// Calls of Glk.
    Glk,
}

/// An instruction: its number and the shape of its operands.
#[derive(Clone, Copy, Debug, PartialEq, Eq)]
pub struct Row {
    pub number: u32,
    /// How many operands are loaded.
    pub loads: u8,
    /// How many operands are stored.
    pub stores: u8,
    /// Whether the store stands before the loads.
    pub store_first: bool,
    /// The width of memory and local operands in bytes.
    pub width: u8,
    pub class: Class,
    /// The low eight bits of the number, which tell the rows of a class apart.
    pub act: u8,
}

impl Keyed for Row {
    ghost key_of = { λ row. row.number };

    fn key(&self) -> u32 {
        self.number
    }
}

/// A table from lines of number, operands and class, with a width that isn't 4 bytes.
macro_rules! rows {
    ($($number:ident $($operand:ident)* => $class:ident $(of $width:literal $bytes:ident)?;)*) => {
        [$(Row {
            number: $number,
            loads: loads!($($operand)*),
            stores: stores!($($operand)*),
            store_first: store_first!($($operand)*),
            width: width!($($width)?),
            class: Class::$class,
            act: ($number % 256) as u8,
        }),*]
    };
}

/// How many operands are loads.
macro_rules! loads {
    () => { 0 };
    (L $($rest:ident)*) => { 1 + loads!($($rest)*) };
    (S $($rest:ident)*) => { loads!($($rest)*) };
}

/// How many operands are stores.
macro_rules! stores {
    () => { 0 };
    (S $($rest:ident)*) => { 1 + stores!($($rest)*) };
    (L $($rest:ident)*) => { stores!($($rest)*) };
}

/// Whether a store stands before a load.
macro_rules! store_first {
    (S L) => { true };
    ($($operand:ident)*) => { false };
}

/// The width in bytes.
macro_rules! width {
    () => { 4 };
    ($width:literal) => { $width };
}

/// How many instructions there are.
pub const ROW_COUNT: usize = 89;

/// The instructions in rising order of number, each with its loads (L) and stores (S) in order.
pub const ROWS: [Row; ROW_COUNT] = rows! {
    // No operation
    NOP                          => Flow;
    // Integer math
    ADD L L S                    => Calc;
    SUB L L S                    => Calc;
    MUL L L S                    => Calc;
    DIV L L S                    => Calc;
    MOD L L S                    => Calc;
    NEG L S                      => Calc;
    BITAND L L S                 => Calc;
    BITOR L L S                  => Calc;
    BITXOR L L S                 => Calc;
    BITNOT L S                   => Calc;
    SHIFTL L L S                 => Calc;
    SSHIFTR L L S                => Calc;
    USHIFTR L L S                => Calc;
    // Branches
    JUMP L                       => Branch;
    JZ L L                       => Branch;
    JNZ L L                      => Branch;
    JEQ L L L                    => Branch;
    JNE L L L                    => Branch;
    JLT L L L                    => Branch;
    JGE L L L                    => Branch;
    JGT L L L                    => Branch;
    JLE L L L                    => Branch;
    JLTU L L L                   => Branch;
    JGEU L L L                   => Branch;
    JGTU L L L                   => Branch;
    JLEU L L L                   => Branch;
    // Functions and continuations
    CALL L L S                   => Flow;
    RETURN L                     => Flow;
    CATCH S L                    => Flow;
    THROW L L                    => Flow;
    TAILCALL L L                 => Flow;
    // Moving data
    COPY L S                     => Copy;
    COPYS L S                    => Copy of 2 bytes;
    COPYB L S                    => Copy of 1 byte;
    SEXS L S                     => Calc;
    SEXB L S                     => Calc;
    // Array data
    ALOAD L L S                  => Memory;
    ALOADS L L S                 => Memory;
    ALOADB L L S                 => Memory;
    ALOADBIT L L S               => Memory;
    ASTORE L L L                 => Memory;
    ASTORES L L L                => Memory;
    ASTOREB L L L                => Memory;
    ASTOREBIT L L L              => Memory;
    // The stack
    STKCOUNT S                   => Stack;
    STKPEEK L S                  => Stack;
    STKSWAP                      => Stack;
    STKROLL L L                  => Stack;
    STKCOPY L                    => Stack;
    // Output
    STREAMCHAR L                 => Print;
    STREAMNUM L                  => Print;
    STREAMSTR L                  => Print;
    STREAMUNICHAR L              => Print;
    // Miscellaneous, the memory map
    GESTALT L L S                => Game;
    DEBUGTRAP L                  => Game;
    GETMEMSIZE S                 => Memory;
    SETMEMSIZE L S               => Memory;
    JUMPABS L                    => Flow;
    // Random numbers
    RANDOM L S                   => Game;
    SETRANDOM L                  => Game;
    // Game state
    QUIT                         => Game;
    VERIFY S                     => Game;
    RESTART                      => Game;
    SAVE L S                     => Game;
    RESTORE L S                  => Game;
    SAVEUNDO S                   => Game;
    RESTOREUNDO S                => Game;
    PROTECT L L                  => Game;
    HASUNDO S                    => Game;
    DISCARDUNDO                  => Game;
    // Glk
    GLK L L S                    => Glk;
    // String decoding table, iosystem
    GETSTRINGTBL S               => Game;
    SETSTRINGTBL L               => Game;
    GETIOSYS S S                 => Game;
    SETIOSYS L L                 => Game;
    // Searching
    LINEARSEARCH L L L L L L L S => Memory;
    BINARYSEARCH L L L L L L L S => Memory;
    LINKEDSEARCH L L L L L L S   => Memory;
    // Functions
    CALLF L S                    => Flow;
    CALLFI L L S                 => Flow;
    CALLFII L L L S              => Flow;
    CALLFIII L L L L S           => Flow;
    // Block copy and clear
    MZERO L L                    => Memory;
    MCOPY L L L                  => Memory;
    // Memory allocation heap
    MALLOC L S                   => Memory;
    MFREE L                      => Memory;
    // Accelerated functions
    ACCELFUNC L L                => Game;
    ACCELPARAM L L               => Game;
};

/// What stands in `PLACES` for a number that no instruction has.
const NO: u8 = ROW_COUNT as u8;

/// How many numbers `PLACES` has: no instruction has a greater one.
const PLACE_COUNT: usize = 0x182;

/// The instructions in the order of the table: as a number, each is its place there.
enum Place {
    NOP,
    ADD,
    SUB,
    MUL,
    DIV,
    MOD,
    NEG,
    BITAND,
    BITOR,
    BITXOR,
    BITNOT,
    SHIFTL,
    SSHIFTR,
    USHIFTR,
    JUMP,
    JZ,
    JNZ,
    JEQ,
    JNE,
    JLT,
    JGE,
    JGT,
    JLE,
    JLTU,
    JGEU,
    JGTU,
    JLEU,
    CALL,
    RETURN,
    CATCH,
    THROW,
    TAILCALL,
    COPY,
    COPYS,
    COPYB,
    SEXS,
    SEXB,
    ALOAD,
    ALOADS,
    ALOADB,
    ALOADBIT,
    ASTORE,
    ASTORES,
    ASTOREB,
    ASTOREBIT,
    STKCOUNT,
    STKPEEK,
    STKSWAP,
    STKROLL,
    STKCOPY,
    STREAMCHAR,
    STREAMNUM,
    STREAMSTR,
    STREAMUNICHAR,
    GESTALT,
    DEBUGTRAP,
    GETMEMSIZE,
    SETMEMSIZE,
    JUMPABS,
    RANDOM,
    SETRANDOM,
    QUIT,
    VERIFY,
    RESTART,
    SAVE,
    RESTORE,
    SAVEUNDO,
    RESTOREUNDO,
    PROTECT,
    HASUNDO,
    DISCARDUNDO,
    GLK,
    GETSTRINGTBL,
    SETSTRINGTBL,
    GETIOSYS,
    SETIOSYS,
    LINEARSEARCH,
    BINARYSEARCH,
    LINKEDSEARCH,
    CALLF,
    CALLFI,
    CALLFII,
    CALLFIII,
    MZERO,
    MCOPY,
    MALLOC,
    MFREE,
    ACCELFUNC,
    ACCELPARAM,
}

/// The places of names in `PLACES`, with `_` for a number that no instruction has.
macro_rules! places {
    ($($name:tt)*) => { [$(place!($name)),*] };
}

macro_rules! place {
    (_) => { NO };
    ($name:ident) => { Place::$name as u8 };
}

/// The place in the table of each number. A line has sixteen numbers, from the one that stands at its end.
#[rattlefmt::skip]
const PLACES: [u8; PLACE_COUNT] = places! {
    NOP _ _ _ _ _ _ _ _ _ _ _ _ _ _ _ // 00
    ADD SUB MUL DIV MOD NEG _ _ BITAND BITOR BITXOR BITNOT SHIFTL SSHIFTR USHIFTR _ // 10
    JUMP _ JZ JNZ JEQ JNE JLT JGE JGT JLE JLTU JGEU JGTU JLEU _ _ // 20
    CALL RETURN CATCH THROW TAILCALL _ _ _ _ _ _ _ _ _ _ _ // 30
    COPY COPYS COPYB _ SEXS SEXB _ _ ALOAD ALOADS ALOADB ALOADBIT ASTORE ASTORES ASTOREB ASTOREBIT // 40
    STKCOUNT STKPEEK STKSWAP STKROLL STKCOPY _ _ _ _ _ _ _ _ _ _ _ // 50
    _ _ _ _ _ _ _ _ _ _ _ _ _ _ _ _ // 60
    STREAMCHAR STREAMNUM STREAMSTR STREAMUNICHAR _ _ _ _ _ _ _ _ _ _ _ _ // 70
    _ _ _ _ _ _ _ _ _ _ _ _ _ _ _ _ // 80
    _ _ _ _ _ _ _ _ _ _ _ _ _ _ _ _ // 90
    _ _ _ _ _ _ _ _ _ _ _ _ _ _ _ _ // A0
    _ _ _ _ _ _ _ _ _ _ _ _ _ _ _ _ // B0
    _ _ _ _ _ _ _ _ _ _ _ _ _ _ _ _ // C0
    _ _ _ _ _ _ _ _ _ _ _ _ _ _ _ _ // D0
    _ _ _ _ _ _ _ _ _ _ _ _ _ _ _ _ // E0
    _ _ _ _ _ _ _ _ _ _ _ _ _ _ _ _ // F0
    GESTALT DEBUGTRAP GETMEMSIZE SETMEMSIZE JUMPABS _ _ _ _ _ _ _ _ _ _ _ // 100
    RANDOM SETRANDOM _ _ _ _ _ _ _ _ _ _ _ _ _ _ // 110
    QUIT VERIFY RESTART SAVE RESTORE SAVEUNDO RESTOREUNDO PROTECT HASUNDO DISCARDUNDO _ _ _ _ _ _ // 120
    GLK _ _ _ _ _ _ _ _ _ _ _ _ _ _ _ // 130
    GETSTRINGTBL SETSTRINGTBL _ _ _ _ _ _ GETIOSYS SETIOSYS _ _ _ _ _ _ // 140
    LINEARSEARCH BINARYSEARCH LINKEDSEARCH _ _ _ _ _ _ _ _ _ _ _ _ _ // 150
    CALLF CALLFI CALLFII CALLFIII _ _ _ _ _ _ _ _ _ _ _ _ // 160
    MZERO MCOPY _ _ _ _ _ _ MALLOC MFREE _ _ _ _ _ _ // 170
    ACCELFUNC ACCELPARAM // 180
};

/// The places of the numbers from 0 on.
#[tactic(auto, unfolding(crate::specs::Table::table, crate::specs::Table::are_places, crate::specs::Table::are_below))]
fn places() -> &'static [u8; PLACE_COUNT]
    ensures places { IsTrue (are_places 0 result.now) }
    ensures all { IsTrue (are_below PLACE_COUNT table) }
{
    &PLACES
}

/// The table.
#[tactic(auto, unfolding(crate::specs::Table::table))]
pub fn rows() -> &'static [Row; ROW_COUNT]
    ensures table { result.now ≡ table }
    ensures count { length table ≡ row_count }
    ensures rising { IsTrue (is_rising (λ row. row.number) result.now) }
    ensures fits { IsTrue (list_all row_fits result.now) }
{
    &ROWS
}

/// The place of an instruction in the table; None where it has no such number.
#[tactic(auto, using(crate::proofs::Places::places))]
pub fn place_of(number: u32) -> Option<usize>
    ensures is { result ≡ place_of number }
    ensures row { option_map row_at result ≡ row_of number }
    ensures place { IfSome result (λ place. place < row_count) }
    ensures fits { IfSome result (λ place. RowFits (row_at place)) }
{
    let places = places();
    if number >= PLACE_COUNT as u32 {
        return None;
    }
    match places[number as usize] {
        NO => None,
        place => Some(usize::from(place)),
    }
}

/// The row at a place of the table.
#[tactic(auto, unfolding(crate::specs::Table::row_at))]
pub fn row_at(place: usize) -> &'static Row
    requires { place < row_count }
    ensures row { result.now ≡ row_at place }
    ensures fits { RowFits result.now }
{
    let rows = rows();
    &rows[place]
}
