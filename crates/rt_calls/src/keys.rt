//! The keys of the hashes of ids.

use std::io;
use std::random::RandomSource;

/// Two words that the caller drew at random.
#[derive(Clone, Copy)]
pub struct Keys {
    /// The first word.
    pub first: u64,
    /// The second word.
    pub second: u64,
}

// No contract depends on the bytes of a source, so the caller's words can be one.
impl RandomSource for Keys {
    fn fill_bytes(&self, buf: &mut [u8]) -> io::Result<()> {
        let keys = [self.first.to_le_bytes(), self.second.to_le_bytes()];
        for (place, byte) in buf.iter_mut().zip(keys.as_flattened()) {
            *place = *byte;
        }
        Ok(())
    }
}
