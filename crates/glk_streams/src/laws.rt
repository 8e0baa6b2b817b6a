//! What holds of the definitions of this crate.
ghost use Rattle.glk_streams.specs.Laws.{FileReadsBack};

/// What is put to a file is read back, in each of its three forms.
pub fn what_is_put_is_read_back()
    ensures { FileReadsBack }
{}
