//! A reader and a writer that take the bytes in small pieces, and fail after so many calls.

use std::io;
use std::io::{Read, Write};

/// Gives at most 5 bytes a call, and fails after so many calls.
#[derive(Drop)]
pub struct SlowReader<'a> {
    pub text: &'a [u8],
    pub calls: u64,
}

impl Read for SlowReader<'_> {
    fn read(&mut self, buf: &mut [u8]) -> io::Result<usize> {
        if self.calls == 0 {
            return Err(io::Error::from(io::ErrorKind::Other));
        }
        self.calls -= 1;
        let n = buf.len().min(self.text.len()).min(5);
        let (front, rest) = self.text.split_at(n);
        buf[..n].copy_from_slice(front);
        self.text = rest;
        Ok(n)
    }
}

/// Takes at most 7 bytes a call, and fails after so many calls.
#[derive(Drop)]
pub struct SlowWriter {
    pub taken: Vec<u8>,
    pub calls: u64,
}

impl Write for SlowWriter {
    fn write(&mut self, buf: &[u8]) -> io::Result<usize> {
        if self.calls == 0 {
            return Err(io::Error::from(io::ErrorKind::Other));
        }
        self.calls -= 1;
        let n = buf.len().min(7);
        match self.taken.extend_from_slice(&buf[..n]) {
            Ok(()) => Ok(n),
            Err(_) => Err(io::Error::from(io::ErrorKind::OutOfMemory)),
        }
    }

    fn flush(&mut self) -> io::Result<()> {
        Ok(())
    }
}
