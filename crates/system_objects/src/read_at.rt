use std::fs::File;
use std::io::{self, Read};
use std::os::unix::fs::FileExt;

/// Reads an open file from an offset on, wherever an earlier read stopped.
#[derive(Drop)]
pub(crate) struct ReadAt<'f> {
    pub(crate) file: &'f File,
    pub(crate) offset: u64,
}

impl Read for ReadAt<'_> {
    fn read(&mut self, buf: &mut [u8]) -> io::Result<usize> {
        let n = self.file.read_at(buf, self.offset)?;
        self.offset = self.offset.saturating_add(n as u64);
        Ok(n)
    }
}
