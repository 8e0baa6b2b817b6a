//! Text that stands in no buffer window: grids at a wait, prompts, and lines that were taken; or the composed screen.
ghost use Rattle.std.specs.Prelude.{◌≡◌, ◌≢◌, ◌++◌, ◌∷◌, [], map, not, string_bytes, IfOk, IsTrue, OnErr, OnOk};
ghost use Rattle.std.specs.Option.{option_map};
ghost use Rattle.std.specs.Str.{encode_utf8_all};
ghost use Rattle.glk_text.specs.Characters.{shown};
ghost use Rattle.glk_screen.specs.Wrapper.{wrapped_chars};
ghost use Rattle.glk_world.specs.World.{after, said_each, is_composed};
ghost use Rattle.glk_world.specs.Naming.{IsWholeScene};
ghost use Rattle.glk_world.specs.Shown.{said_row, said_grid, show_rows, screen_of, is_prompting};
ghost use Rattle.glk_world.specs.Shown.{last_rows, same_rows};
ghost use Rattle.glk_world.specs.Shown.{show_screen, is_last, screen_again, row_let_go, IsHeld, end_text, EndWants};
ghost use Rattle.glk_world.specs.Shown.{show_grids, ShowWants, show_prompt, show_line};

use crate::grids::{shown_grids, was_shown};
use crate::{ShownGrid, View, World};
use glk_screen::Wrapper;
use glk_text::show;
use gx_words::Numbers;
use std::alloc::AllocError;

/// The selector of glk_fileref_create_by_prompt.
pub(crate) const PROMPT_SELECTOR: u32 = 0x62;

/// The words of a prompt for a file's name.
const PROMPT_WORDS: &str = "File name: ";

impl World {
    /// Shows at a wait what the view shows then: the rows of grids that changed, nothing, or the whole screen.
    #[tactic(auto, unfolding(crate::specs::Shown::show_grids))]
    pub fn show_grids(&mut self) -> Result<(), AllocError>
        ensures ok { OnOk result (self.new ≡ after self.old (show_grids self.old.scene)) }
        ensures memory { OnErr result (ShowWants self.old.scene) }

        // In every world windows and streams name each other, and the windows that aren't pairs tile the screen.
        ensures whole { IsWholeScene self.old.scene }
    {
        let size = self.windows.size();
        match self.view {
            View::Rows => self.show_rows(),
            View::Plain => Ok(()),
            View::Screen => self.show_screen(size),
            View::WrappedRows => {
                self.let_go()?;
                self.show_rows()
            }
            View::WrappedPlain => self.let_go(),
        }
    }

    /// Shows, in order of identifiers, each grid that differs from what was shown of it last: its rows that aren't
    /// blank, each behind a bar on a line of its own.
    #[tactic(auto, unfolding(crate::specs::Shown::show_rows))]
    fn show_rows(&mut self) -> Result<(), AllocError>
        ensures ok { OnOk result (self.new ≡ after self.old (show_rows self.old.scene)) }
        ensures memory { OnErr result (self.old.scene.windows.grids ≢ []) }
    {
        let grids = shown_grids(self.alloc, self.windows.grids())?;
        self.say_grids(&grids)?;
        self.shown = grids;
        Ok(())
    }

    /// The composed screen, of its size.
    fn compose(&self, size: (u32, u32)) -> Result<String, AllocError>
        requires { size ≡ (self.now.scene.windows.columns, self.now.scene.windows.rows) }
        ensures { IfOk result (λ screen. string_bytes screen ≡ screen_of self.now.scene) }
    {
        self.screen
            .compose(self.alloc, &self.windows, size.0, size.1)
    }

    /// Shows the composed screen, and behind it the words of a prompt that waits.
    #[tactic(auto, unfolding(crate::specs::Shown::show_screen))]
    fn show_screen(&mut self, size: (u32, u32)) -> Result<(), AllocError>
        requires { size ≡ (self.old.scene.windows.columns, self.old.scene.windows.rows) }
        ensures { OnOk result (self.new ≡ after self.old (show_screen self.old.scene)) }
    {
        let screen = self.compose(size)?;
        self.text.push_str(&screen)?;
        if self.is_prompting() {
            self.text.push_str(PROMPT_WORDS)?;
        }
        self.last_screen = Some(screen);
        Ok(())
    }

    /// Whether a prompt for a file's name waits.
    fn is_prompting(&self) -> bool
        ensures { result ≡ is_prompting self.now.scene.waiting }
    {
        match &self.waiting {
            Some(call) => call.selector == PROMPT_SELECTOR,
            None => false,
        }
    }

    /// Lets go what is held of the present row.
    fn let_go(&mut self) -> Result<(), AllocError>
        ensures ok { OnOk result (self.new ≡ after self.old (row_let_go self.old.scene)) }
        ensures memory { OnErr result (IsHeld self.old.scene) }
    {
        self.row.let_go(&mut self.text)
    }

    /// At the end of a run: shows the composed screen once more, where it differs from the one shown last; or lets go
    /// what is held.
    #[tactic(auto, using(crate::proofs::Texts::silences), unfolding(crate::specs::Shown::end_text))]
    pub fn end_text(&mut self) -> Result<(), AllocError>
        ensures ok { OnOk result (self.new ≡ after self.old (end_text self.old.scene)) }
        ensures memory { OnErr result (EndWants self.old.scene) }
    {
        match self.view {
            View::Rows | View::Plain => Ok(()),
            View::Screen => self.show_last(),
            View::WrappedRows | View::WrappedPlain => self.let_go(),
        }
    }

    /// Shows the composed screen once more, where it differs from the one shown last.
    #[tactic(auto, using(crate::proofs::Texts::silences))]
    fn show_last(&mut self) -> Result<(), AllocError>
        ensures { OnOk result (self.new ≡ after self.old (screen_again self.old.scene)) }
    {
        let screen = self.compose(self.windows.size())?;
        if !is_last(&self.last_screen, &screen) {
            self.text.push_str(&screen)?;
            self.last_screen = Some(screen);
        }
        Ok(())
    }

    /// Shows what differs of these grids.
    #[tactic(auto, using(crate::proofs::Texts::grid_turns))]
    fn say_grids(&mut self, grids: &[ShownGrid]) -> Result<(), AllocError>
        ensures ok { OnOk result (self.new ≡ after self.old (said_each said_grid self.old.scene grids.now)) }
        ensures memory { OnErr result (grids.now ≢ []) }
    {
        for grid in grids {
            self.say_grid(grid)?;
        }
        Ok(())
    }

    /// Shows a grid, where it differs from what was shown of it last.
    #[tactic(auto, using(crate::proofs::Texts::silences), unfolding(crate::specs::Shown::said_grid))]
    fn say_grid(&mut self, grid: &ShownGrid) -> Result<(), AllocError>
        ensures ok { OnOk result (self.new ≡ after self.old (said_grid self.old.scene grid.now)) }
        ensures differs { OnErr result
            (IsTrue (not (same_rows grid.now.rows (last_rows self.old.scene.shown grid.now.id)))) }
        ensures memory { OnErr result (grid.now.rows ≢ []) }
    {
        if was_shown(&self.shown, grid) {
            return Ok(());
        }
        self.say_rows(grid.rows.as_slice())
    }

    /// Shows rows.
    #[tactic(auto, using(crate::proofs::Texts::row_turns))]
    fn say_rows(&mut self, rows: &[Numbers]) -> Result<(), AllocError>
        ensures ok { OnOk result (self.new ≡ after self.old (said_each said_row self.old.scene rows.now)) }
        ensures memory { OnErr result (rows.now ≢ []) }
    {
        for row in rows {
            self.say_row(row.as_slice())?;
        }
        Ok(())
    }

    /// Shows a row that isn't blank, on a line of its own.
    #[tactic(auto, using(crate::proofs::Texts::silences), unfolding(crate::specs::Shown::said_row))]
    fn say_row(&mut self, row: &[u32]) -> Result<(), AllocError>
        ensures ok { OnOk result (self.new ≡ after self.old (said_row self.old.scene row.now)) }
        ensures memory { OnErr result (row.now ≢ []) }
    {
        if row.is_empty() {
            return Ok(());
        }
        if !self.fresh {
            self.text.push('\n')?;
        }
        self.text.push_str("| ")?;
        push_line(&mut self.text, row)?;
        self.row.restart();
        self.fresh = true;
        Ok(())
    }

    /// Shows the words of a prompt for a file's name. On the composed screen they come at the wait.
    #[tactic(auto, using(crate::proofs::Texts::silences), unfolding(crate::specs::Shown::show_prompt))]
    pub fn show_prompt(&mut self) -> Result<(), AllocError>
        ensures ok { OnOk result (self.new ≡ after self.old (show_prompt self.old.scene)) }
        ensures memory { OnErr result (IsTrue (not (is_composed self.old.scene))) }
    {
        if self.view == View::Screen {
            return Ok(());
        }
        self.fresh = false;
        if self.view.wraps() {
            wrap_bytes(&mut self.row, &mut self.text, PROMPT_WORDS.as_bytes())?;
            return self.let_go();
        }
        self.text.push_str(PROMPT_WORDS)
    }

    /// Shows a line that was taken, unless the screen is composed.
    #[tactic(auto, using(crate::proofs::Texts::silences), unfolding(crate::specs::Shown::show_line))]
    pub fn show_line(&mut self, line: &Numbers) -> Result<(), AllocError>
        ensures ok { OnOk result (self.new ≡ after self.old (show_line self.old.scene line.now)) }
        ensures memory { OnErr result (IsTrue (not (is_composed self.old.scene))) }
    {
        if self.view == View::Screen {
            return Ok(());
        }
        self.fresh = true;
        if self.view.wraps() {
            return wrap_line(&mut self.row, &mut self.text, line.as_slice());
        }
        push_line(&mut self.text, line.as_slice())
    }
}

/// Wraps the bytes as characters.
#[tactic(auto, using(crate::proofs::Texts::wrap_turns))]
fn wrap_bytes(row: &mut Wrapper, text: &mut String, bytes: &[u8]) -> Result<(), AllocError>
    ensures row { OnOk result (row.new ≡ (wrapped_chars row.old bytes.now).1) }
    ensures text { OnOk result
        (string_bytes text.new ≡ string_bytes text.old ++ encode_utf8_all (wrapped_chars row.old bytes.now).0) }
{
    for byte in bytes {
        row.put(text, char::from(*byte))?;
    }
    Ok(())
}

/// Wraps characters as they are shown and a line feed.
#[tactic(auto, using(crate::proofs::Texts::line_turns))]
fn wrap_line(row: &mut Wrapper, text: &mut String, chars: &[u32]) -> Result<(), AllocError>
    ensures row { OnOk result (row.new ≡ (wrapped_chars row.old (map shown chars.now ++ 0x0A ∷ [])).1) }
    ensures text { OnOk result (string_bytes text.new ≡ string_bytes text.old
        ++ encode_utf8_all (wrapped_chars row.old (map shown chars.now ++ 0x0A ∷ [])).0) }
{
    for c in chars {
        row.put(text, show(*c))?;
    }
    row.put(text, '\n')
}

/// Whether a screen is the one that was shown last.
fn is_last(last: &Option<String>, screen: &str) -> bool
    ensures { result ≡ is_last (option_map string_bytes last.now) screen.now }
{
    match last {
        Some(last) => last.as_str() == screen,
        None => false,
    }
}

/// Adds characters as they are shown and a line feed.
fn push_line(text: &mut String, chars: &[u32]) -> Result<(), AllocError>
    ensures { OnOk result (string_bytes text.new ≡ string_bytes text.old ++
        (encode_utf8_all (map shown chars.now) ++ 0x0A ∷ [])) }
{
    push_shown(text, chars)?;
    text.push('\n')
}

/// Adds characters as they are shown.
#[tactic(auto, using(crate::proofs::Texts::shown_turns))]
fn push_shown(text: &mut String, chars: &[u32]) -> Result<(), AllocError>
    ensures { OnOk result (string_bytes text.new ≡ string_bytes text.old ++ encode_utf8_all (map shown chars.now)) }
{
    for c in chars {
        text.push(show(*c))?;
    }
    Ok(())
}
