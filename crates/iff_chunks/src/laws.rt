//! What holds of the definitions of this crate.
ghost use Rattle.iff_chunks.specs.Laws.{ReadsBack};

/// Chunks that are written as a form are read from it, with the same letters and bodies and in the
/// same order.
pub fn written_forms_are_read()
    ensures { ReadsBack }
{}
