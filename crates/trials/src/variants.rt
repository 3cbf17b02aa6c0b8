//! A script with seals, or without its last LF.

use std::alloc::{AllocError, Global};

/// The script without the LF that ends it.
pub fn without_last_feed(script: &[u8]) -> &[u8] {
    match script {
        [rest @ .., b'\n'] => rest,
        _ => script,
    }
}

/// The script with a seal after each line from its first `open` on. Nothing where it opens no
/// client, or has a seal of its own.
pub fn sealed(alloc: Global, script: &[u8]) -> Result<Option<Vec<u8>>, AllocError> {
    let mut sealed = Vec::new(alloc);
    let mut is_open = false;
    for line in script.split_inclusive(|byte| *byte == b'\n') {
        if line == b"seal\n".as_slice() {
            return Ok(None);
        }
        is_open = is_open || line.starts_with(b"open ");
        sealed.extend_from_slice(line)?;
        if is_open {
            sealed.extend_from_slice(b"seal\n")?;
        }
    }
    Ok(if is_open { Some(sealed) } else { None })
}

/// What a sealed script printed, but for the lines of the seals.
pub fn without_seals(alloc: Global, printed: &[u8]) -> Result<Vec<u8>, AllocError> {
    let mut rest = Vec::new(alloc);
    for line in printed.split_inclusive(|byte| *byte == b'\n') {
        if !line.starts_with(b"sealed ") {
            rest.extend_from_slice(line)?;
        }
    }
    Ok(rest)
}
