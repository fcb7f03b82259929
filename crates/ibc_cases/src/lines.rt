//! Lines of a file, which know their numbers.

use std::alloc::{AllocError, Global};

/// Lines that stand one below another, and the number of the first in the file, from 1 on.
#[derive(Clone, Copy)]
pub struct Lines<'t> {
    pub number: usize,
    pub texts: &'t [&'t [u8]],
}

impl<'t> Lines<'t> {
    /// The first line, and those below it; nothing where there is none.
    pub fn split_first(self) -> Option<(&'t [u8], Lines<'t>)> {
        let (first, texts) = self.texts.split_first()?;
        let number = self.number.saturating_add(1);
        Some((first, Lines { number, texts }))
    }

    // Those from a place up to another.
    fn between(self, start: usize, end: usize) -> Lines<'t> {
        Lines {
            number: self.number.saturating_add(start),
            texts: self.texts.get(start..end).unwrap_or(&[]),
        }
    }

    /// Cuts them before each line that begins with a mark. The first piece stands before the first mark. Error: no memory.
    pub fn pieces(self, alloc: Global, mark: &[u8]) -> Result<Vec<Lines<'t>>, AllocError> {
        let mut pieces = Vec::new(alloc);
        let mut start = 0;
        for (index, line) in self.texts.iter().enumerate() {
            if line.starts_with(mark) {
                pieces.push(self.between(start, index))?;
                start = index;
            }
        }
        pieces.push(self.between(start, self.texts.len()))?;
        Ok(pieces)
    }

    /// The text with a line feed behind each line. Error: no memory.
    pub fn joined(self, alloc: Global) -> Result<Vec<u8>, AllocError> {
        let mut text = Vec::new(alloc);
        for line in self.texts {
            text.extend_from_slice(line)?;
            text.push(b'\n')?;
        }
        Ok(text)
    }
}
