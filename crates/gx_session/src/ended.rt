//! How a run ended, and the line that says so.
ghost use Rattle.std.specs.Prelude.{◌≡◌, ◌≢◌, ◌++◌, [], OnErr, IfOk, string_bytes, codes, decimal};
ghost use Rattle.gx_session.specs.Reports.{report_line, fault_line, text_line, listing_line};

use crate::numerals::{push_hex, push_number};
use crate::statuses;
use gx_machine::Machine;
use std::alloc::{AllocError, Allocator, Global};

/// How a run ended.
#[derive(Drop)]
pub struct Ended<A: Allocator + Clone> {
    /// One of `statuses`.
    pub status: u8,
    /// The fault's number at BAD_STORY, FAULT, BAD_TEXT and NO_LISTING, else 0.
    pub fault: u8,
    /// The PC before the faulting step at FAULT, the number of a line at BAD_TEXT, an address at
    /// NO_LISTING, else 0.
    pub at: u32,
    /// The units of the budget that were used.
    pub steps: u64,
    /// The machine as the run left it, where one was started.
    pub machine: Option<Machine<A>>,
}

impl<A: Allocator + Clone> Ended<A> {
    /// The line that says how the run ended, without a line feed; empty where nothing is to be said.
    #[tactic(auto, unfolding(crate::specs::Reports::report_line))]
    pub fn line(&self, alloc: Global) -> Result<String, AllocError>
        ensures value { IfOk result (λ line.
            string_bytes line ≡ report_line self.now.status self.now.fault self.now.at self.now.steps) }
        ensures memory { OnErr result (report_line self.now.status self.now.fault self.now.at self.now.steps ≢ []) }
    {
        match self.status {
            statuses::BAD_WORDS => String::from_str(
                alloc,
                "gx_player: the command line is not understood",
            ),
            statuses::BAD_STORY => self.story_line(alloc),
            statuses::FAULT => self.fault_line(alloc),
            statuses::SPENT => self.spent_line(alloc),
            statuses::INPUT_ENDED => String::from_str(alloc, "gx_player: input ended"),
            statuses::STUCK => String::from_str(alloc, "gx_player: nothing to wait for"),
            statuses::LINE_TOO_LONG => String::from_str(alloc, "gx_player: input line too long"),
            statuses::SHELF_FAULT => String::from_str(alloc, "gx_player: file fault"),
            statuses::INPUT_FAULT => String::from_str(alloc, "gx_player: input fault"),
            statuses::OUTPUT_FAULT => String::from_str(alloc, "gx_player: output fault"),
            statuses::NO_MEMORY => String::from_str(alloc, "gx_player: out of memory"),
            statuses::BAD_TEXT => self.text_line(alloc),
            statuses::NO_LISTING => self.listing_line(alloc),
            _ => Ok(String::new(alloc)),
        }
    }

    fn story_line(&self, alloc: Global) -> Result<String, AllocError>
        ensures { IfOk result (λ line.
            string_bytes line ≡ codes "gx_player: no story (" ++ decimal self.now.fault ++ codes ")") }
    {
        let mut line = String::from_str(alloc, "gx_player: no story (")?;
        push_number(&mut line, u64::from(self.fault))?;
        line.push_str(")")?;
        Ok(line)
    }

    fn fault_line(&self, alloc: Global) -> Result<String, AllocError>
        ensures { IfOk result (λ line. string_bytes line ≡ fault_line self.now.fault self.now.at self.now.steps) }
    {
        if self.fault == 0 {
            return String::from_str(alloc, "gx_player: the checksum differs");
        }
        let mut line = String::from_str(alloc, "gx_player: fault ")?;
        push_number(&mut line, u64::from(self.fault))?;
        line.push_str(" at ")?;
        push_hex(&mut line, self.at)?;
        line.push_str(" after ")?;
        push_number(&mut line, self.steps)?;
        line.push_str(" steps")?;
        Ok(line)
    }

    fn spent_line(&self, alloc: Global) -> Result<String, AllocError>
        ensures { IfOk result (λ line.
            string_bytes line ≡ codes "gx_player: budget spent after " ++ decimal self.now.steps ++ codes " steps") }
    {
        let mut line = String::from_str(alloc, "gx_player: budget spent after ")?;
        push_number(&mut line, self.steps)?;
        line.push_str(" steps")?;
        Ok(line)
    }

    fn text_line(&self, alloc: Global) -> Result<String, AllocError>
        ensures { IfOk result (λ line. string_bytes line ≡ text_line self.now.fault self.now.at) }
    {
        let mut line = String::from_str(alloc, "gx_player: text not understood (")?;
        push_number(&mut line, u64::from(self.fault))?;
        line.push_str(" at line ")?;
        push_number(&mut line, u64::from(self.at))?;
        line.push_str(")")?;
        Ok(line)
    }

    fn listing_line(&self, alloc: Global) -> Result<String, AllocError>
        ensures { IfOk result (λ line. string_bytes line ≡ listing_line self.now.fault self.now.at) }
    {
        let mut line = String::from_str(alloc, "gx_player: no listing (")?;
        push_number(&mut line, u64::from(self.fault))?;
        line.push_str(" at ")?;
        push_hex(&mut line, self.at)?;
        line.push_str(")")?;
        Ok(line)
    }
}
