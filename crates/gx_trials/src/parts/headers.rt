//! Words of a story's header that the machine doesn't read: its version, and where its stored part ends, which is the
//! length of what is kept of it.
use anyhow::{Result, ensure};
use gx_story::Story;
use std::alloc::Global;

/// Version 3.1.0, RAM from 0x100, the stored part up to 0x200, memory up to 0x300, a stack of 0x400 bytes, and a start
/// function at 0x24.
const HEAD: [u8; 36] = [
    0x47, 0x6C, 0x75, 0x6C, 0x00, 0x03, 0x01, 0x00, 0x00, 0x00, 0x01, 0x00, 0x00, 0x00, 0x02, 0x00,
    0x00, 0x00, 0x03, 0x00, 0x00, 0x00, 0x04, 0x00, 0x00, 0x00, 0x00, 0x24, 0x00, 0x00, 0x00, 0x00,
    0x00, 0x00, 0x00, 0x00,
];

/// A story of two pages.
pub fn words(alloc: Global) -> Result<()> {
    let mut file = [0; 512];
    file[..HEAD.len()].copy_from_slice(&HEAD);
    let story = Story::read(alloc, &file)?;
    ensure!(story.version() == 0x0003_0100, "another version");
    ensure!(story.extstart() == 0x200, "another end of what is stored");
    Ok(())
}
