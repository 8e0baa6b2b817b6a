//! How names, words, versions and errors of the system are shown in a line.
use arrayvec::ArrayString;
use std::fmt::{Display, Formatter, Write};
use std::{fmt, io};

/// A name or a word, with a question mark for each character that would move the cursor.
#[derive(Clone, Copy, Debug, PartialEq, Eq)]
pub struct Shown<'a>(pub &'a str);

impl Display for Shown<'_> {
    fn fmt<W: Write>(&self, f: &mut Formatter<W>) -> fmt::Result {
        for letter in self.0.chars() {
            f.write_char(if letter.is_control() { '?' } else { letter })?;
        }
        Ok(())
    }
}

/// An error of the system, without its number.
#[derive(Clone, Copy, Debug)]
pub struct Cause(pub io::Error);

impl Display for Cause {
    fn fmt<W: Write>(&self, f: &mut Formatter<W>) -> fmt::Result {
        let mut text = ArrayString::<300>::new();
        let _ = write!(text, "{}", self.0);
        match text.as_str().rsplit_once(" (os error ") {
            Some((message, _)) => f.write_str(message),
            None => f.write_str(text.as_str()),
        }
    }
}

/// A version of Glulx, as it stands in a header.
#[derive(Clone, Copy, Debug, PartialEq, Eq)]
pub struct Version(pub u32);

impl Display for Version {
    fn fmt<W: Write>(&self, f: &mut Formatter<W>) -> fmt::Result {
        let major = self.0 / 0x1_0000;
        let minor = self.0 / 0x100 % 0x100;
        let patch = self.0 % 0x100;
        write!(f, "{major}.{minor}.{patch}")
    }
}
