//! The arguments of the command line, as bytes: they need not be UTF-8.
use pp_core::{OutOfMemory, Words};
use std::alloc::{AllocError, Global};
use std::env::{Env, FillError};

/// A vector of this many zeros.
fn zeros(alloc: Global, size: usize) -> Result<Vec<u8>, AllocError> {
    vec![in alloc; 0u8; size]
}

/// The argument at a position, if there is one. The buffer is doubled until the argument fits.
fn word_at<E: Env>(alloc: Global, env: &E, place: usize) -> Result<Option<Vec<u8>>, OutOfMemory> {
    let mut room = 256usize;
    for _ in 0..usize::BITS {
        let mut word = zeros(alloc, room)?;
        match env.arg(place, word.as_mut_slice()) {
            Ok(length) => {
                word.truncate(length);
                return Ok(Some(word));
            }
            Err(FillError::NotPresent) => return Ok(None),
            Err(FillError::TooLong) => room = room.saturating_mul(2),
        }
    }
    Err(OutOfMemory)
}

/// The arguments after the program's own name, or None if the system does not have even the name.
pub fn collect_words<E: Env>(alloc: Global, env: &E) -> Result<Option<Words>, OutOfMemory> {
    let Some(_name) = word_at(alloc, env, 0)? else {
        return Ok(None);
    };
    let mut words = Words::new(alloc);
    for place in 1..usize::MAX {
        match word_at(alloc, env, place)? {
            Some(word) => words.push(word.as_slice())?,
            None => break,
        }
    }
    Ok(Some(words))
}
