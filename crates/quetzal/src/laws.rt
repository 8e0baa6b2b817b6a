//! What holds of the definitions of this crate.
ghost use Rattle.quetzal.specs.Laws.{OldSavesLoad, ReadsBack};

/// A copy that is fit for its story and is written as a save is read from it as it was.
pub fn written_saves_are_read()
    ensures { ReadsBack }
{}

/// A save that could be read while memory had a lower ceiling is read as the same copy.
pub fn old_saves_load()
    ensures { OldSavesLoad }
{}
