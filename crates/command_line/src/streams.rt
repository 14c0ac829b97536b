use std::fs::{self, File};
use std::io;
use std::rt::Files;

/// The exit status if a standard stream is closed and nothing can stand in its place.
pub const NO_STREAMS: u8 = 15;

/// What stands in the place of a closed stream: it reads as empty, and can't be written.
const NULL: &str = "/dev/null";

/// The standard streams, by their numbers.
const STREAMS: [&str; 3] = ["/proc/self/fd/0", "/proc/self/fd/1", "/proc/self/fd/2"];

/// Files in the place of standard input, output and error, as far as these are closed. As long as
/// they stay open, no other file gets the number of a stream; otherwise a file that is opened later
/// would be taken for what somebody types. Without `/proc` there is one for each stream.
pub fn reserve_streams(rt: &HostRuntime) -> io::Result<Vec<File>> {
    let mut files = Vec::new(rt.alloc());
    for stream in STREAMS.iter() {
        if rt.metadata(stream).is_err() {
            files.push(fs::open(rt, NULL)?)?;
        }
    }
    Ok(files)
}
