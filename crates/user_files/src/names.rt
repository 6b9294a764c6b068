//! Names that nothing else has.

use cap_text::to_base32;
use std::io;
use std::io::ErrorKind;
use std::random::RandomSource;

/// 26 letters, by 16 random bytes of the system.
pub(crate) fn random_name<R: RandomSource + AllocGlobal>(rt: &R) -> io::Result<String> {
    let mut bytes = [0; 16];
    rt.fill_bytes(&mut bytes)?;
    match to_base32(rt.alloc(), &bytes) {
        Ok(name) => Ok(name),
        Err(_) => Err(io::Error::from(ErrorKind::OutOfMemory)),
    }
}
