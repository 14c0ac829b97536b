use std::io::ErrorKind;
use std::rt::Env;
use std::{env, io};

/// The arguments of the command line, without the program's name; None if one of them isn't UTF-8.
pub fn arguments<R: Env + AllocGlobal>(rt: &R) -> io::Result<Option<Vec<String>>> {
    let mut words = Vec::new(rt.alloc());
    match env::args(rt) {
        Ok(all) => {
            for word in all.skip(1) {
                words.push(word)?;
            }
            Ok(Some(words))
        }
        Err(error) if error.kind() == ErrorKind::InvalidData => Ok(None),
        Err(error) => Err(error),
    }
}
