//! The text of an error of the system, as `sha256sum` prints it.
use std::fmt::{Display, Formatter, InlineText};
use std::{fmt, io};

// Long enough for the text of each error of the C library, with its number.
const TEXT_LEN: usize = 256;

/// Why a call of the system failed: the text of its error, without its number.
#[derive(Debug, Clone, Copy)]
pub struct Cause(pub io::Error);

impl Display for Cause {
    fn fmt<W: fmt::Write>(&self, f: &mut Formatter<W>) -> fmt::Result {
        let whole = InlineText::<TEXT_LEN>::of(self.0);
        match whole.as_str().split_once(" (os error ") {
            Some((text, _)) => f.write_str(text),
            None => f.write_str(whole.as_str()),
        }
    }
}
