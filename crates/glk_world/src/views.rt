//! How the text that a story shows is put together.
ghost use Rattle.std.specs.Prelude.{◌≡◌};
ghost use Rattle.glk_world.specs.World.{wraps, is_direct};

/// What is shown of windows.
#[derive(Clone, Copy, Debug, PartialEq, Eq)]
pub enum View {
    /// What is put to buffer windows, in order; and at each wait the rows of the grids that changed, behind a bar.
    Rows,
    /// What is put to buffer windows, in order, alone.
    Plain,
    /// The whole screen at each wait, each window at its place.
    Screen,
    /// As with `Rows`, where text that isn't a grid's is wrapped.
    WrappedRows,
    /// As with `Plain`, where text is wrapped.
    WrappedPlain,
}

impl View {
    /// Whether text is wrapped.
    pub fn wraps(self) -> bool
        ensures { result ≡ wraps self }
    {
        matches!(self, View::WrappedRows | View::WrappedPlain)
    }

    /// Whether what comes to a text buffer is text as it comes.
    pub(crate) fn is_direct(self) -> bool
        ensures { result ≡ is_direct self }
    {
        matches!(self, View::Rows | View::Plain)
    }
}
