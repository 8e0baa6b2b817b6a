//! A large valid story that is made from a number: work to measure the machine by.
//!
//! RAM begins with words that the number determines. The code replaces each word by the sum of the
//! words up to it, and prints the last sum as a signed number and a line feed. `make_story` gives
//! exactly the bytes of specs/Work, whose checksum is right.
#![tactic(auto)]

ghost use Rattle.std.specs.Prelude.{◌≡◌, ◌+◌, ◌*◌, ◌/◌, ◌%◌, ◌^◌, ◌≤◌, length, IfOk};
ghost use Rattle.gx_words.specs.Constants.{checksum_at};
ghost use Rattle.gx_words.specs.Numbers.{word, sum_of_words};
ghost use Rattle.gx_work.specs.Work.{page, ram_count, work_word, work_story};
ghost use Rattle.gx_work.specs.Laws.{ram_sum, HasHeader};

use gx_words::{
    Bytes, CHECKSUM_AT, ENDMEM_AT, EXTSTART_AT, put_number, splice, sum_of_words, word_bytes,
};
use std::alloc::{AllocError, Global};

/// The length of what stands before RAM.
const RAM_START: u32 = 0x100;

/// The address of the count of words, an operand of the code's jump.
const COUNT_AT: usize = 0x60;

/// The header and the code, with zeros for EXTSTART, ENDMEM, the checksum and the count of words.
const HEAD: [u8; 109] = [
    // magic, version, RAMSTART, EXTSTART, ENDMEM, stack size, start function, table, checksum
    0x47, 0x6C, 0x75, 0x6C, 0x00, 0x03, 0x01, 0x02, 0x00, 0x00, 0x01, 0x00, 0, 0, 0, 0, 0, 0, 0, 0,
    0x00, 0x00, 0x01, 0x00, 0x00, 0x00, 0x00, 0x24, 0, 0, 0, 0, 0, 0, 0, 0,
    // two locals: the index of a word, the sum
    0xC1, 0x04, 0x02, 0x00, 0x00,
    // setiosys 2 0
    0x81, 0x49, 0x01, 0x02,
    // copy 0 sp, copy 3 sp, copy 0 sp three times
    0x40, 0x80, 0x40, 0x81, 0x03, 0x40, 0x80, 0x40, 0x80, 0x40, 0x80,
    // glk window_open 5 sp
    0x81, 0x30, 0x11, 0x08, 0x23, 0x05,
    // glk set_window 1
    0x81, 0x30, 0x11, 0x00, 0x2F, 0x01,
    // aload 0x100 index sp
    0x48, 0x92, 0x08, 0x01, 0x00, 0x00,
    // add sp sum sum
    0x10, 0x98, 0x09, 0x04, 0x04,
    // astore 0x100 index sum
    0x4C, 0x92, 0x09, 0x01, 0x00, 0x00, 0x04,
    // add index 1 index
    0x10, 0x19, 0x09, 0x00, 0x01, 0x00,
    // jltu index COUNT, to the aload
    0x2A, 0x39, 0x01, 0x00, 0, 0, 0, 0, 0xE1,
    // streamnum sum, streamchar 10, quit
    0x71, 0x09, 0x04, 0x70, 0x01, 0x0A, 0x81, 0x20,
];

/// The story of a number, a multiple of 256 bytes from 512 to 1,048,832.
pub fn make_story(alloc: Global, number: u32) -> Result<Bytes, AllocError>
    ensures story { IfOk result (λ story. story ≡ work_story number) }
    ensures size { IfOk result (λ story. length story ≡ 0x100 + 4 * ram_count number) }
    ensures header { IfOk result HasHeader }
    ensures checksum { IfOk result (λ story. word story checksum_at ≡ sum_of_words (length story / 4) story % 2 ^ 32) }
{
    let count = 64 * (1 + number % 4096);
    let mut page = first_page(count);
    let checksum = sum_of_words(&page).wrapping_add(ram_sum(number, count));
    put_number(&mut page, CHECKSUM_AT, 4, checksum);
    let mut story = Bytes::from_slice(alloc, &page)?;
    for index in 0..count {
        story.extend_from_slice(&word_bytes(work_word(number, index)))?;
    }
    Ok(story)
}

/// The header, with a checksum of 0, and the code, with zeros up to RAM.
fn first_page(count: u32) -> [u8; 256]
    requires { count ≤ 64 * 4096 }
    ensures { result ≡ page count 0 }
{
    let size = word_bytes(RAM_START + 4 * count);
    let mut page = [0; 256];
    splice(&mut page, 0, &HEAD);
    splice(&mut page, EXTSTART_AT, &size);
    splice(&mut page, ENDMEM_AT, &size);
    splice(&mut page, COUNT_AT, &word_bytes(count));
    page
}

/// The word of RAM with this index.
fn work_word(number: u32, index: u32) -> u32
    ensures { result ≡ work_word number index }
{
    number.wrapping_add(index).wrapping_mul(0x9E37_79B1)
}

/// The sum modulo 2^32 of the first words of RAM.
#[tactic(auto, using(crate::proofs::Turns::turns))]
fn ram_sum(number: u32, count: u32) -> u32
    ensures { result ≡ ram_sum count number % 2 ^ 32 }
{
    let mut sum = 0u32;
    for index in 0..count {
        sum = sum.wrapping_add(work_word(number, index));
    }
    sum
}
