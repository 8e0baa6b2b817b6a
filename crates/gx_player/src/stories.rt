//! What is wrong with a file that was read as a story or a text.
use crate::reasons::{FileReason, Guess};
use crate::shown::{Shown, Version};
use gx_asm::{AsmFault, ListFault};
use gx_devices::{Found, LastCall};
use gx_session::{Ended, statuses};
use gx_story::StoryFault;
use std::alloc::Allocator;

/// The number of the fault of a file that isn't there.
const NO_FILE: u8 = 0;

/// Where a header has its version, the length of the stored part, and the address of the start function.
const VERSION_AT: usize = 4;

const LENGTH_AT: usize = 12;

const START_AT: usize = 24;

/// The faults of story files.
const STORY_FAULTS: [StoryFault; 7] = [
    StoryFault::Short,
    StoryFault::NotGlulx,
    StoryFault::Version,
    StoryFault::Sizes,
    StoryFault::TooLarge,
    StoryFault::Cut,
    StoryFault::Blorb,
];

/// Why a file is none to begin with, has another checksum, or has no listing.
pub fn file_reason<'a, A: Allocator + Clone>(
    ended: &Ended<A>,
    last: &'a LastCall,
) -> Option<FileReason<'a>> {
    let name = Shown(last.name());
    match ended.status {
        statuses::BAD_STORY if ended.fault != NO_FILE => {
            story_reason(name, ended.fault, last.found())
        }
        statuses::BAD_STORY if last.name().is_empty() => Some(FileReason::NoName),
        statuses::BAD_STORY => Some(FileReason::Missing(name)),
        statuses::BAD_TEXT => text_fault(ended.fault, ended.at).map(|it| FileReason::Text(
            name, it,
        )),
        statuses::NO_LISTING => {
            list_fault(ended.fault, ended.at).map(|it| FileReason::Listing(name, it))
        }
        _ => Some(FileReason::Checksum(name)),
    }
}

/// Why a file that is there is no story, by its first bytes where they are a story's.
fn story_reason<'a>(name: Shown<'a>, number: u8, found: Option<&Found>) -> Option<FileReason<'a>> {
    let fault = *STORY_FAULTS.iter().find(|it| it.number() == number)?;
    let Some(found) = found else {
        return Some(FileReason::TooLong(name));
    };
    // What a Blorb has for a story begins elsewhere in the file.
    if found.front.starts_with(b"FORM") {
        return Some(FileReason::Story(name, fault));
    }
    Some(match fault {
        StoryFault::Short => FileReason::Short(name, found.len),
        StoryFault::NotGlulx => FileReason::NotGlulx(name, guess(found)),
        StoryFault::Version => FileReason::Version(name, Version(word(found, VERSION_AT))),
        StoryFault::Cut => FileReason::Cut(name, found.len, word(found, LENGTH_AT)),
        fault => FileReason::Story(name, fault),
    })
}

/// What a file may be that is no Glulx story.
fn guess(found: &Found) -> Guess {
    match found.front {
        [1..=8, ..] => Guess::ZMachine,
        [b'T', b'A', b'D', b'S', b'2', ..] | [b'T', b'3', b'-', ..] => Guess::Tads,
        _ => Guess::Nothing,
    }
}

/// The four bytes from a place on, the highest first; 0 where they aren't kept.
fn word(found: &Found, at: usize) -> u32 {
    let bytes = found.front.iter().skip(at).take(4);
    bytes.fold(0, |number, byte| number << 8 | u32::from(*byte))
}

/// Whether the last file that was read is a bare story whose start function has this address.
pub fn starts_at(last: &LastCall, at: u32) -> bool {
    match last.found() {
        Some(found) => found.front.starts_with(b"Glul") && word(found, START_AT) == at,
        None => false,
    }
}

/// The fault of a text by its number.
fn text_fault(fault: u8, line: u32) -> Option<AsmFault> {
    [
        AsmFault::Cut,
        AsmFault::BadName { line },
        AsmFault::Count { line },
        AsmFault::BadOperand { line },
    ]
    .into_iter()
    .find(|it| it.number() == fault)
}

/// The fault of a listing by its number.
fn list_fault(fault: u8, at: u32) -> Option<ListFault> {
    [
        ListFault::BadFunction { at },
        ListFault::Cut { at },
        ListFault::Spelling { at },
        ListFault::BadOpcode { at },
        ListFault::BadMode { at },
    ]
    .into_iter()
    .find(|it| it.number() == fault)
}
