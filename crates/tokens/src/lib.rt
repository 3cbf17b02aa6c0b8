//! JSON Web Tokens (RFC 7519) in the compact form, signed by HMAC with SHA-256: who has one that is
//! valid is who it says.
#![tactic(auto)]

/// What a step comes to that meets no flaw. A flaw is what the function answers.
macro_rules! unless_flawed {
    ($step:expr) => {
        match $step {
            Ok(sound) => sound,
            Err(flaw) => return Ok(Err(flaw)),
        }
    };
}

mod claims;
mod form;
mod keys;
mod payload;
mod verifier;

pub use claims::{Claims, expires_in, is_over, read_whole, seconds_of};
pub use keys::{Key, hmac_sha256, is_same};
pub use payload::{text_of, token_in, without_token};
pub use verifier::{Flaw, Verifier};
