//! Lines of bounded length.
//!
//! A line is ended by a line feed, which the last one may lack. Of a line that is too long one byte
//! more than it may have is taken, and so a line without an end takes neither memory nor time.
use executor_core::task::OutOfMemory;
use std::alloc::Global;
use std::io::{self, BufRead, BufReader, Read, Take};

/// How many bytes a line may have, its line feed not counted.
pub const LINE_LIMIT: usize = 64;

/// The lines of a reader, in order.
#[derive(Drop)]
pub struct Lines<R> {
    reader: Take<BufReader<R>>,
    line: Vec<u8>,
    is_ended: bool,
}

impl<R: Read + Drop> Lines<R> {
    /// The lines that the reader gives from here on. All memory is taken here, and nothing is read.
    /// If memory is refused, the reader is dropped.
    pub fn new(alloc: Global, reader: R) -> Result<Self, OutOfMemory> {
        match (
            BufReader::new(alloc, reader),
            Vec::with_capacity(alloc, LINE_LIMIT + 1),
        ) {
            (Ok(reader), Ok(line)) => Ok(Lines {
                reader: reader.take(0),
                line,
                is_ended: false,
            }),
            _ => Err(OutOfMemory),
        }
    }

    /// The next line, without its line feed, or `None` if no line is left. Of a line of more
    /// than `LINE_LIMIT` bytes these are the first `LINE_LIMIT + 1`. Past the end the reader isn't
    /// asked again. After an error what was read of the line is lost.
    pub fn next_line(&mut self) -> io::Result<Option<&[u8]>> {
        self.line.clear();
        if !self.is_ended {
            self.reader.set_limit(LINE_LIMIT as u64 + 1);
            self.reader.read_until(b'\n', &mut self.line)?;
        }
        Ok(self.line_read())
    }

    // The line that was read, without its line feed. Past the end nothing was read.
    fn line_read(&mut self) -> Option<&[u8]> {
        if let Some(line) = self.line.strip_suffix(b"\n") {
            return Some(line);
        }
        self.is_ended = self.line.len() <= LINE_LIMIT;
        if self.line.is_empty() {
            None
        } else {
            Some(&self.line)
        }
    }
}
