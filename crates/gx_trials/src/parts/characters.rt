//! Characters as UTF-8 in a list of bytes; the text that is shown is a `String`.
use anyhow::{Result, ensure};
use glk_text::push_utf8;
use gx_words::Bytes;
use std::alloc::Global;

/// Characters of one to four bytes, the last of each length, and two numbers that are no character.
const FORMS: [(u32, &[u8]); 8] = [
    (0x41, &[0x41]),
    (0x7F, &[0x7F]),
    (0xE9, &[0xC3, 0xA9]),
    (0x7FF, &[0xDF, 0xBF]),
    (0xFFFF, &[0xEF, 0xBF, 0xBF]),
    (0x10_FFFF, &[0xF4, 0x8F, 0xBF, 0xBF]),
    (0xD800, &[0x3F]),
    (0x11_0000, &[0x3F]),
];

/// Each behind another byte.
pub fn forms(alloc: Global) -> Result<()> {
    for (number, wanted) in FORMS.iter() {
        let mut bytes = Bytes::from_slice(alloc, &[0x2D])?;
        push_utf8(&mut bytes, *number)?;
        let there = bytes.as_slice().split_first();
        ensure!(there == Some((&0x2D, *wanted)), "{number} has other bytes");
    }
    Ok(())
}
