//! A row without its trailing blanks.
ghost use Rattle.std.specs.Prelude.{◌≡◌, ◌≤◌, length};
ghost use Rattle.glk_screen.specs.ScreenRows.{kept};

use glk_windows::BLANK;

/// How many cells of a row are left without its trailing blanks.
#[tactic(auto, unfolding(crate::specs::ScreenRows::kept))]
pub fn kept(row: &[u32]) -> usize
    ensures value { result ≡ kept row.now }
    ensures within { result ≤ length row.now }
{
    match row {
        [] => 0,
        [c, rest @ ..] => {
            let count = kept(rest);
            if count == 0 && *c == BLANK {
                0
            } else {
                count + 1
            }
        }
    }
}
