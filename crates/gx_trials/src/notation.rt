//! How the stories are written: lines, numbers and data.
//!
//! A line is a word and what belongs to it; what follows `;` is a remark. Numbers are hexadecimal, or a character
//! between `'`. DATA are bytes of two digits, words of eight, `BYTE*COUNT` for a byte again and again, and characters
//! between `'`, in UTF-8. WORDS are numbers with `WORD*COUNT` for a word again and again. An INSTRUCTION is a line as
//! gx_asm takes it: `add @0100 #01 sp`.
use anyhow::{Context, Result};
use std::alloc::Global;

/// A line's first word and the others, without a remark.
pub fn facts(line: &str) -> (&str, &str) {
    let facts = line.split(';').next().unwrap_or_default().trim();
    let (key, rest) = facts.split_once(' ').unwrap_or((facts, ""));
    (key, rest.trim())
}

/// What the last line of a kind says, if there is one.
pub fn last<'a>(lines: &'a str, kind: &str) -> Option<&'a str> {
    let mut last = None;
    for line in lines.lines() {
        let (key, rest) = facts(line);
        if key == kind {
            last = Some(rest);
        }
    }
    last
}

/// What the last line of a kind says; an empty text where there is none.
pub fn text<'a>(lines: &'a str, kind: &str) -> &'a str {
    last(lines, kind).unwrap_or_default()
}

/// Whether lines hold nothing but remarks.
pub fn are_remarks(lines: &str) -> bool {
    lines.lines().all(|line| facts(line).0.is_empty())
}

/// The name of the story that these lines are; an empty one where there are several or none.
pub fn name_of(lines: &str) -> &str {
    let mut name = "";
    for line in lines.lines() {
        if let ("story", found) = facts(line) {
            if !name.is_empty() {
                return "";
            }
            name = found;
        }
    }
    name
}

/// The lines of the run of a story that one of them plays.
pub fn lines_of_run(alloc: Global, story: &str, line: &str) -> Result<String> {
    let (key, more) = facts(line);
    match key {
        "also" => Ok(format!(in alloc; "{story}\n{}", more.replace(alloc, ",", "\n")?)?),
        "faults" => {
            let (above, _) = story.split_once(line).unwrap_or((story, ""));
            let (number, call) = more.split_once(' ').unwrap_or((more, ""));
            Ok(format!(in alloc; "{above}\n{call}\nends fault {number}")?)
        }
        _ => Ok(String::from_str(alloc, story)?),
    }
}

/// A number in hexadecimal, or that of a character between `'`.
pub fn number(text: &str) -> Result<u32> {
    let text = text.trim();
    match text.strip_prefix('\'') {
        Some(quoted) => Ok(u32::from(quoted.chars().next().context("no character")?)),
        None => Ok(u32::from_str_radix(text, 16)?),
    }
}

/// The numbers of a list.
pub fn numbers_of(alloc: Global, text: &str) -> Result<Vec<u64>> {
    let mut numbers = Vec::new(alloc);
    for word in text.split_whitespace() {
        numbers.push(u64::from(number(word)?))?;
    }
    Ok(numbers)
}

/// A word, and the data after it.
pub fn named_data(alloc: Global, text: &str) -> Result<(&str, Vec<u8>)> {
    let (name, data) = text.split_once(' ').unwrap_or((text, ""));
    Ok((name, data_of(alloc, data)?))
}

/// The bytes of data.
pub fn data_of(alloc: Global, data: &str) -> Result<Vec<u8>> {
    let mut bytes = Vec::new(alloc);
    add_data(alloc, &mut bytes, data)?;
    Ok(bytes)
}

fn add_data(alloc: Global, bytes: &mut Vec<u8>, data: &str) -> Result<()> {
    for (index, piece) in data.split('\'').enumerate() {
        if index % 2 == 1 {
            bytes.extend_from_slice(piece.as_bytes())?;
        } else {
            add_numbers(alloc, bytes, piece)?;
        }
    }
    Ok(())
}

/// Adds bytes of two digits, which may be repeated, and words of eight.
fn add_numbers(alloc: Global, bytes: &mut Vec<u8>, items: &str) -> Result<()> {
    for item in items.split_whitespace() {
        let (item, count) = item.split_once('*').unwrap_or((item, "1"));
        if item.len() == 8 {
            bytes.extend_from_slice(&number(item)?.to_be_bytes())?;
        } else {
            add_repeated(alloc, bytes, u8::from_str_radix(item, 16)?, number(count)?)?;
        }
    }
    Ok(())
}

fn add_repeated(alloc: Global, bytes: &mut Vec<u8>, byte: u8, count: u32) -> Result<()> {
    let repeated = vec![in alloc; byte; usize::try_from(count)?]?;
    bytes.extend_from_slice(repeated.as_slice())?;
    Ok(())
}

/// Adds words to a text, in eight digits each, with a blank before each.
pub fn add_words(text: &mut String, words: &str) -> Result<()> {
    for word in words.split_whitespace() {
        let (word, count) = word.split_once('*').unwrap_or((word, "1"));
        add_word(text, u64::from(number(word)?), number(count)?)?;
    }
    Ok(())
}

/// Adds a word again and again.
pub fn add_word(text: &mut String, word: u64, count: u32) -> Result<()> {
    for _ in 0..count {
        write!(text, " {word:08X}")?;
    }
    Ok(())
}

/// Puts bytes into a file; where the next one goes.
pub fn put(file: &mut Vec<u8>, at: usize, bytes: &[u8]) -> Result<usize> {
    let mut at = at;
    for byte in bytes {
        *file
            .as_mut_slice()
            .get_mut(at)
            .context("a byte past the file")? = *byte;
        at = at.saturating_add(1);
    }
    Ok(at)
}
