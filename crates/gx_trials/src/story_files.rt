//! A story's file, as its lines make it.
//!
//! Code is written as instructions, each as gx_asm takes it: its name, and its operands with a blank before each. What
//! isn't code, or is code that no such text gives, is written as data. The listing of code that has no data in it has
//! to be the text that it was written as.
use crate::notation::{data_of, put};
use crate::wanted::compare_bytes;
use anyhow::{Result, bail, ensure};
use gx_asm::{assemble, list};
use gx_words::Bytes;
use std::alloc::Global;

/// Where a story's code begins, behind its header and the type and format of its start function.
const CODE: usize = 0x27;

/// The most bytes of a text that is assembled, and of code that is listed.
const MOST: usize = 0x10000;

/// A story's file, as far as its lines were read.
#[derive(Drop)]
pub struct StoryFile {
    bytes: Vec<u8>,
    /// Where the next code goes.
    next: usize,
    /// The instructions of the code, a line each.
    text: String,
    /// Whether the code is these instructions alone.
    spelled: bool,
}

impl StoryFile {
    /// A file of so many bytes that begins with a header, and is zero behind it.
    pub fn new(alloc: Global, size: usize, header: &str) -> Result<StoryFile> {
        let mut bytes = data_of(alloc, header)?;
        bytes.resize(size, 0)?;
        Ok(StoryFile {
            bytes,
            next: CODE,
            text: String::new(alloc),
            spelled: true,
        })
    }

    pub fn bytes(&self) -> &[u8] {
        self.bytes.as_slice()
    }

    /// Where the next code goes.
    pub fn next(&self) -> usize {
        self.next
    }

    /// Puts instructions behind the code.
    pub fn put_code(&mut self, alloc: Global, text: &str) -> Result<()> {
        self.text.push_str(text)?;
        let code = code_of(alloc, text)?;
        self.next = put(&mut self.bytes, self.next, code.as_slice())?;
        Ok(())
    }

    /// Puts data behind the code.
    pub fn put_data(&mut self, alloc: Global, data: &str) -> Result<()> {
        self.spelled = false;
        let data = data_of(alloc, data)?;
        self.next = put(&mut self.bytes, self.next, data.as_slice())?;
        Ok(())
    }

    /// Puts an instruction or data at an address.
    pub fn put_at(&mut self, alloc: Global, rest: &str) -> Result<()> {
        let (at, what) = rest.split_once(' ').unwrap_or((rest, ""));
        let at = usize::from_str_radix(at, 16)?;
        match what.strip_prefix("code ") {
            Some(instruction) => self.put_code_at(alloc, at, instruction),
            None => self.put_bytes(at, data_of(alloc, what)?.as_slice()),
        }
    }

    fn put_code_at(&mut self, alloc: Global, at: usize, instruction: &str) -> Result<()> {
        let text = format!(in alloc; "{instruction}\n")?;
        self.put_bytes(at, code_of(alloc, text.as_str())?.as_slice())
    }

    /// Puts bytes at an address.
    pub fn put_bytes(&mut self, at: usize, bytes: &[u8]) -> Result<()> {
        put(&mut self.bytes, at, bytes)?;
        Ok(())
    }

    /// Compares the listing of the code with its text, where it is nothing but instructions.
    pub fn compare_listing(&self, alloc: Global) -> Result<()> {
        if !self.spelled {
            return Ok(());
        }
        let code = self.bytes.as_slice().get(CODE..self.next);
        let listed = listing_of(alloc, code.unwrap_or_default())?;
        compare_bytes("the listing", self.text.as_bytes(), Some(listed.as_slice()))
    }
}

/// The code of instructions.
fn code_of(alloc: Global, text: &str) -> Result<Bytes> {
    ensure!(text.len() <= MOST, "too many instructions");
    match assemble(alloc, text.as_bytes()) {
        Ok(code) => Ok(code),
        Err(fault) => bail!("{text}: {fault}"),
    }
}

/// The instructions of code, a line each.
fn listing_of(alloc: Global, code: &[u8]) -> Result<Bytes> {
    ensure!(code.len() <= MOST, "too much code");
    match list(alloc, code) {
        Ok(text) => Ok(text),
        Err(fault) => bail!("the listing of the code: {fault}"),
    }
}
