//! A file, what it is by the end of its name, and the head of the answer that it is.

ghost use Rattle.std.specs.Prelude.{◌≡◌, IfOk, length, option_map, string_bytes};
ghost use Rattle.page.specs.Answer.{head_of};
ghost use Rattle.page.specs.Media as media;
ghost use Rattle.page.specs.Media.{ends};

use http_edge::{push_field, push_length, push_origin};
use std::alloc::{AllocError, Global};
use terms::{Bytes, Text};

/// A file of a page.
#[derive(Debug, Drop)]
pub struct File {
    pub name: Text,
    pub bytes: Bytes,
}

impl File {
    /// What stands before the file's bytes in the answer to a GET, and is all of the answer to a
    /// HEAD (RFC 9110, sections 9.3.1 and 9.3.2). Pages of a named origin may read it.
    #[tactic(auto, unfolding(crate::specs::Answer::head_of))]
    pub fn head(&self, alloc: Global, origin: &Option<String>) -> Result<String, AllocError>
        ensures { IfOk result (λ text. string_bytes text ≡ head_of
            self.now.name (length self.now.bytes) (option_map string_bytes origin.now)) }
    {
        let mut text = String::new(alloc);
        text.push_str("HTTP/1.1 200 OK\r\n")?;
        push_field(&mut text, "Content-Type", media_type(self.name.as_str()))?;
        push_length(&mut text, self.bytes.as_slice().len())?;
        push_field(&mut text, "X-Content-Type-Options", "nosniff")?;
        push_field(&mut text, "Cache-Control", "no-cache")?;
        push_origin(&mut text, origin)?;
        push_field(&mut text, "Connection", "close")?;
        text.push_str("\r\n")?;
        Ok(text)
    }
}

/// Whether a name ends so.
fn ends(name: &str, ending: &str) -> bool
    ensures { result ≡ ends name.now ending.now }
{
    name.as_bytes().ends_with(ending.as_bytes())
}

/// The media type behind the first of these endings that a name has, or the last one.
macro_rules! by_ending {
    ($name:ident; $($ending:literal $media_type:literal,)* else $other:literal) => {
        $(if ends($name, $ending) { $media_type } else)* { $other }
    };
}

/// The media type of the file with this name (RFC 9110, section 8.3.1). Names of which nothing is
/// known are bytes.
pub fn media_type(name: &str) -> &'static str
    ensures { result.now ≡ media.media_type name.now }
{
    by_ending!(name;
        ".html" "text/html; charset=UTF-8",
        ".css" "text/css; charset=UTF-8",
        ".js" "text/javascript; charset=UTF-8",
        ".json" "application/json",
        ".txt" "text/plain; charset=UTF-8",
        ".woff2" "font/woff2",
        ".svg" "image/svg+xml",
        ".png" "image/png",
        ".jpg" "image/jpeg",
        ".jpeg" "image/jpeg",
        ".gif" "image/gif",
        ".webp" "image/webp",
        ".ico" "image/x-icon",
        else "application/octet-stream")
}
