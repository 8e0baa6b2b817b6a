//! What holds of the definitions of this crate.
ghost use Rattle.glk_windows.specs.Laws.{PairsDivide, LeavesTile};

/// A pair's place is divided between its children, with nothing left over.
pub fn pairs_divide()
    ensures { PairsDivide }
{}

/// The sizes of the windows that aren't pairs add up to the screen's.
pub fn leaves_tile()
    ensures { LeavesTile }
{}
