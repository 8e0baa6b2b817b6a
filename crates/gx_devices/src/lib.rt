//! The program's devices: standard input, standard output and the files of the current folder.
//!
//! They count their calls and failures as each device does. As devices they tell nothing of what they
//! hold, since std tells no byte that an operating system gives or takes. What they do with the bytes
//! of any reader or writer that std does tell of is proved.
//!
//! - `source` is standard input: it hands out the next bytes, and loses none.
//! - `sink` is standard output: it writes all the bytes, or fails.
//! - `folder` has the files: one is read to its end, or has more bytes than were asked for.
//! - `last` is what the folder knows of its last call.
//! - `names` has the name of a file in the folder, which is a shorter one where the file's is too long.
//! - `patient` asks a device again that was interrupted, or isn't ready.
//! - `replace` puts a new file in an old one's place, with all the bytes, or fails.
#![tactic(auto)]

mod folder;
mod last;
mod names;
mod patient;
mod replace;
mod sink;
mod source;

pub use folder::FolderShelf;
pub use last::{Act, Found, LastCall};
pub use patient::Patient;
pub use sink::StdSink;
pub use source::StdSource;
