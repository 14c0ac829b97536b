mod below;
mod real;

use pam_base::{Failed, Text};
use pam_outside::{Source, VaultFault};
use std::alloc::AllocError;

pub fn bytes_of(read: &Result<Text, VaultFault>) -> Result<&[u8], VaultFault> {
    match read {
        Ok(text) => Ok(text.bytes()),
        Err(fault) => Err(*fault),
    }
}

// Reads once, at most three bytes, and adds them to the text.
pub fn read_some<S: Source>(
    source: &mut S,
    text: &mut Vec<u8>,
) -> Result<Result<usize, Failed>, AllocError> {
    let mut into = [0u8; 3];
    let taken = source.read(&mut into);
    if let Ok(n) = taken {
        text.extend_from_slice(&into[..n])?;
    }
    Ok(taken)
}
