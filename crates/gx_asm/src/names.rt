//! The names of the instructions (Glulx 3.1.2, "Dictionary of Opcodes").
//!
//! `NAMES` is the list of specs/Names, in the order of the table of instructions, so that a place of the table has
//! its name and a name its place.
ghost use Rattle.std.specs.Prelude.{◌≡◌, ◌<◌, IfSome, map};
ghost use Rattle.gx_rows.specs.Table.{row_count, table};
ghost use Rattle.gx_asm.specs.Names.{instruction_names, names, name_at, place_named};

use gx_rows::ROW_COUNT;

const NAMES: [&str; ROW_COUNT] = [
    // No operation
    "nop",
    // Integer math
    "add",
    "sub",
    "mul",
    "div",
    "mod",
    "neg",
    "bitand",
    "bitor",
    "bitxor",
    "bitnot",
    "shiftl",
    "sshiftr",
    "ushiftr",
    // Branches
    "jump",
    "jz",
    "jnz",
    "jeq",
    "jne",
    "jlt",
    "jge",
    "jgt",
    "jle",
    "jltu",
    "jgeu",
    "jgtu",
    "jleu",
    // Functions and continuations
    "call",
    "return",
    "catch",
    "throw",
    "tailcall",
    // Moving data
    "copy",
    "copys",
    "copyb",
    "sexs",
    "sexb",
    // Array data
    "aload",
    "aloads",
    "aloadb",
    "aloadbit",
    "astore",
    "astores",
    "astoreb",
    "astorebit",
    // The stack
    "stkcount",
    "stkpeek",
    "stkswap",
    "stkroll",
    "stkcopy",
    // Output
    "streamchar",
    "streamnum",
    "streamstr",
    "streamunichar",
    // Miscellaneous, the memory map
    "gestalt",
    "debugtrap",
    "getmemsize",
    "setmemsize",
    "jumpabs",
    // Random numbers
    "random",
    "setrandom",
    // Game state
    "quit",
    "verify",
    "restart",
    "save",
    "restore",
    "saveundo",
    "restoreundo",
    "protect",
    "hasundo",
    "discardundo",
    // Glk
    "glk",
    // String decoding table, iosystem
    "getstringtbl",
    "setstringtbl",
    "getiosys",
    "setiosys",
    // Searching
    "linearsearch",
    "binarysearch",
    "linkedsearch",
    // Functions
    "callf",
    "callfi",
    "callfii",
    "callfiii",
    // Block copy and clear
    "mzero",
    "mcopy",
    // Memory allocation heap
    "malloc",
    "mfree",
    // Accelerated functions
    "accelfunc",
    "accelparam",
];

/// The names.
fn names() -> &'static [&'static str; ROW_COUNT]
    ensures names { map (λ name. name.now) result.now ≡ names }
    ensures order { map (λ entry. entry.0) instruction_names ≡ map (λ row. row.number) table }
{
    &NAMES
}

/// The name of the instruction at a place of the table.
pub(crate) fn name_at(place: usize) -> &'static str
    requires { place < row_count }
    ensures { result.now ≡ name_at place }
{
    names()[place]
}

/// The place of the instruction that has a name.
pub(crate) fn place_named(name: &[u8]) -> Option<usize>
    ensures place { result ≡ place_named name.now }
    ensures within { IfSome result (λ place. place < row_count) }
{
    for place in 0..ROW_COUNT {
        if name_at(place).as_bytes() == name {
            return Some(place);
        }
    }
    None
}
