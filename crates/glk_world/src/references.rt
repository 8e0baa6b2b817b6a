//! A file reference (Glk 0.7.5, "File References").
use glk_objects::Object;
use gx_words::Name;

/// A file reference: the base of the file's name, and what the file is for.
#[derive(Drop)]
pub struct FileReference {
    pub id: u32,
    pub base: Name,
    pub usage: u32,
    pub rock: u32,
}

impl Object for FileReference {
    ghost id_of = { λ reference. reference.id };

    fn id(&self) -> u32 {
        self.id
    }
}
