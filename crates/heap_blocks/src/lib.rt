//! The live blocks of the memory allocation heap (Glulx 3.1.2, "Memory Allocation Heap").
//!
//! A heap knows where its blocks lie and where the next one goes; the bytes in them are memory's.
//! It begins at the end of memory with its first block and ends with its last one. After every
//! call its blocks are in rising order, not empty, disjoint, at or after its start and below 2^32.
#![tactic(auto)]

mod blocks;

pub use blocks::Heap;
