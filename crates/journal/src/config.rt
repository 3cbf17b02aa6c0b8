//! What a hub is made with.

ghost use Rattle.std.specs.Prelude.{◌≡◌, ◌≤◌, ◌==◌, ◌||◌, false, length};
ghost use Rattle.journal.specs.Config as rules;
ghost use Rattle.journal.specs.Plain.{Limits};

use std::marker::Model;
use terms::Text;

/// The limits and the namespaces of a hub.
#[derive(Debug, Drop)]
pub struct Config {
    /// How many clients there may be, at least 1.
    pub clients: usize,
    /// How many entries may wait for a client, 1 to 65,536.
    pub capacity: usize,
    /// How many bytes the entries that wait for a client may have together, at least 1.
    pub bytes: usize,
    /// How many broadcasts the log holds, at least 1.
    pub log: usize,
    /// How many bytes they may have together, at least 1.
    pub log_bytes: usize,
    /// How many sessions may be saved.
    pub saved: usize,
    /// How long a logged broadcast or a saved session is kept, in milliseconds.
    pub keep: u64,
    /// The offset of the first logged broadcast, at least 1.
    pub first_offset: u64,
    /// The namespaces: 1 to 65,536, each once. Each begins with `/`, and has no comma and no
    /// character under U+0020.
    pub spaces: Vec<Text>,
}

impl Model for Config {
    ghost Value = { Limits };

    ghost view = { λ c. record {
      clients = c.clients;
      capacity = c.capacity;
      bytes = c.bytes;
      log = c.log;
      log_bytes = c.log_bytes;
      saved = c.saved;
      keep = c.keep;
      first_offset = c.first_offset;
      spaces = c.spaces.items;
    } };
}

impl Config {
    /// Whether no hub can be made with this.
    pub fn is_bad(&self) -> bool
        ensures is { result ≡ rules.is_bad_config self.now }
        ensures few { result ≡ false → length self.now.spaces ≤ 65536 }
        ensures log { result ≡ false → 1 ≤ self.now.log }
        ensures first { result ≡ false → 1 ≤ self.now.first_offset }
    {
        self.clients == 0
            || self.capacity == 0
            || self.bytes == 0
            || self.log == 0
            || self.log_bytes == 0
            || self.first_offset == 0
            || self.capacity > 65_536
            || self.spaces.len() == 0
            || self.spaces.len() > 65_536
            || has_repeat(&self.spaces)
            || self.spaces.iter().any(|name| !is_namespace(name.as_str()))
    }
}

/// Whether a name is that of a namespace: no byte of it is a comma or under U+0020.
fn is_namespace(name: &str) -> bool
    ensures { result ≡ rules.is_namespace name.now }
{
    let mut bytes = name.as_bytes().iter();
    name.starts_with('/') && !bytes.any(|byte| *byte == b',' || *byte < 32)
}

/// Whether some name stands twice. It compares each two.
fn has_repeat(names: &[Text]) -> bool
    ensures { result ≡ rules.has_repeat names.now }
{
    let mut rest = names;
    while let Some((name, others)) = rest.split_first() {
        if others.iter().any(|other| name.as_str() == other.as_str()) {
            return true;
        }
        rest = others;
    }
    false
}
