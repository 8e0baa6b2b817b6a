//! What holds of the definitions of this crate.
ghost use Rattle.glk_screen.specs.Laws.{RowsFit, ScreenIsFilled, KeepsLast, WrappingKeeps};

/// No row of a text is wider than the window for which the text was wrapped.
pub fn rows_fit()
    ensures { RowsFit }
{}

/// The screen has exactly as many rows as it should, and each of them exactly as many columns.
pub fn screen_is_filled()
    ensures { ScreenIsFilled }
{}

/// What a window keeps of the characters that were put to it is their last 255 paragraphs.
pub fn last_paragraphs_are_kept()
    ensures { KeepsLast }
{}

/// A text that is wrapped as it comes loses nothing, and has no row that is too wide.
pub fn wrapping_keeps()
    ensures { WrappingKeeps }
{}
