//! Texts and bytes that contracts see as lists, and packets of them that wait to be sent.

ghost use Rattle.std.specs.Prelude.{◌≡◌, ℕ, List, IfOk, string_bytes, ◌<◌, [], ◌∷◌, ◌++◌, length, IsTrue, ◌↔◌, OnOk, OnErr, IfSome, IfNone};
ghost use Rattle.std.specs.Str.{IsAscii};
ghost use Rattle.terms.specs.Bytes.{IsBytes};
ghost use Rattle.terms.specs.Entry.{entry_size};

use std::alloc::{AllocError, Global};
use std::marker::Model;
use std::str;

/// A text, in a contract the list of its UTF-8 bytes: two are equal where their contents are.
#[derive(Debug, Drop)]
pub struct Text {
    text: String,
}

impl Model for Text {
    ghost use Rattle.std.specs.Prelude.{ℕ, List, string_bytes};

    ghost Value = { List ℕ };

    ghost view = { λ t. string_bytes t.text };
}

impl Text {
    /// A copy of a text.
    pub fn copy_of(alloc: Global, text: &str) -> Result<Text, AllocError>
        ensures { IfOk result (λ copy. copy ≡ text.now) }
    {
        let text = String::from_str(alloc, text)?;
        Ok(Text { text })
    }

    /// The text of a `String`, which takes no memory.
    pub fn from_string(owned: String) -> Text
        ensures { result ≡ string_bytes owned }
    {
        Text { text: owned }
    }

    /// The text itself.
    pub fn as_str(&self) -> &str
        ensures { result.now ≡ self.now }
    {
        self.text.as_str()
    }
}

impl Clone for Text {
    ghost is_clone = { λ source copy. copy ≡ source };

    fn clone(&self) -> Result<Text, AllocError> {
        let text = self.text.clone()?;
        Ok(Text { text })
    }
}

/// ASCII bytes as a text, which takes no memory.
pub fn ascii_text(bytes: &[u8]) -> &str
    requires { IsAscii bytes.now }
    ensures { result.now ≡ bytes.now }
{
    match str::from_utf8(bytes) {
        Ok(text) => text,
        Err(_) => unreachable!(),
    }
}

/// Bytes, in a contract the list of their values: two are equal where their contents are.
#[derive(Debug, Drop)]
pub struct Bytes {
    items: Vec<u8>,
}

impl Model for Bytes {
    ghost use Rattle.std.specs.Prelude.{ℕ, List};
    ghost use Rattle.terms.specs.Bytes.{IsBytes};

    ghost Value = { List ℕ };

    ghost view = { λ b. b.items.items };

    ghost invariant = { λ b. IsBytes b.items.items };
}

impl Bytes {
    /// A copy of some bytes.
    pub fn copy_of(alloc: Global, items: &[u8]) -> Result<Bytes, AllocError>
        ensures { IfOk result (λ copy. copy ≡ items.now) }
    {
        let items = Vec::from_slice(alloc, items)?;
        Ok(Bytes { items })
    }

    /// The bytes of a `Vec`, which takes no memory.
    pub fn from_vec(owned: Vec<u8>) -> Bytes
        ensures { result ≡ owned.items }
    {
        Bytes { items: owned }
    }

    /// The bytes themselves.
    pub fn as_slice(&self) -> &[u8]
        ensures value { result.now ≡ self.now }
        ensures bytes { IsBytes self.now }
    {
        self.items.as_slice()
    }
}

impl Clone for Bytes {
    ghost is_clone = { λ source copy. copy ≡ source };

    fn clone(&self) -> Result<Bytes, AllocError> {
        let items = self.items.clone()?;
        Ok(Bytes { items })
    }
}

/// A packet's attachments, in the order of their frames: in a contract a list of lists of bytes.
#[derive(Debug, Drop)]
pub struct Attachments {
    list: Vec<Bytes>,
}

impl Model for Attachments {
    ghost use Rattle.std.specs.Prelude.{ℕ, List};

    ghost Value = { List (List ℕ) };

    ghost view = { λ a. a.list.items };
}

impl Attachments {
    /// No attachments. It takes no memory.
    pub fn new(alloc: Global) -> Attachments
        ensures { result ≡ [] }
    {
        let list = Vec::new(alloc);
        Attachments { list }
    }

    /// The attachments themselves.
    pub fn as_slice(&self) -> &[Bytes]
        ensures { result.now ≡ self.now }
    {
        self.list.as_slice()
    }

    /// How many there are.
    pub fn len(&self) -> usize
        ensures { result ≡ length self.now }
    {
        self.list.len()
    }

    /// Whether there are none.
    pub fn is_empty(&self) -> bool
        ensures { IsTrue result ↔ (self.now ≡ []) }
    {
        self.list.is_empty()
    }

    /// Adds one at the end. Where memory is refused, it is dropped.
    pub fn push(&mut self, attachment: Bytes) -> Result<(), AllocError>
        ensures ok { OnOk result (self.new ≡ self.old ++ attachment ∷ []) }
        ensures err { OnErr result (self.new ≡ self.old) }
    {
        self.list.push(attachment)?;
        Ok(())
    }
}

impl Clone for Attachments {
    ghost is_clone = { λ source copy. copy ≡ source };

    fn clone(&self) -> Result<Attachments, AllocError> {
        let list = self.list.clone()?;
        Ok(Attachments { list })
    }
}

/// A packet that waits to be sent: its whole text, and the attachments that follow it.
#[derive(Debug, Drop)]
pub struct Entry {
    pub text: Text,
    pub attachments: Attachments,
}

impl Entry {
    /// How many bytes it holds, or `None` past the greatest usize.
    #[tactic(auto, using(std::proofs::lemmas::List::Sums::sum_by_more_le))]
    pub fn size(&self) -> Option<usize>
        ensures some { IfSome result (λ size. size ≡ entry_size self.now) }
        ensures none { IfNone result (usize.MAX < entry_size self.now) }
    {
        let mut size = self.text.as_str().len();
        for attachment in self.attachments.as_slice() {
            size = size.checked_add(attachment.as_slice().len())?;
        }
        Some(size)
    }
}

impl Clone for Entry {
    ghost is_clone = { λ source copy. copy ≡ source };

    fn clone(&self) -> Result<Entry, AllocError> {
        Ok(Entry {
            text: self.text.clone()?,
            attachments: self.attachments.clone()?,
        })
    }
}
