//! A packet's JSON text, and what was read of it (Socket.IO protocol 5, "Packet encoding").

ghost use Rattle.std.specs.Prelude.{◌≡◌, Ok, IfSome};
ghost use Rattle.sio_wire.specs.JsonFields.{names_at};

use std::marker::Model;
use terms::Text;

/// The JSON text of a packet. The texts of an array that has nothing else in it are kept with it
/// once it is read, so that the app need not read it again. In a contract it is its text.
#[derive(Debug, Drop)]
pub struct Payload {
    text: Text,
    names: Option<Vec<Option<Text>>>,
}

impl Model for Payload {
    ghost use Rattle.std.specs.Prelude.{◌≡◌, ℕ, List, Ok, IfSome};
    ghost use Rattle.sio_wire.specs.JsonFields.{names_at};

    ghost Value = { List ℕ };

    ghost view = { λ p. p.text };

    ghost invariant = { λ p. IfSome p.names (λ names. names_at p.text ≡ Ok names.items) };
}

impl Payload {
    /// This text, of which nothing was read.
    pub fn of(text: Text) -> Payload
        ensures { result ≡ text }
    {
        Payload { text, names: None }
    }

    /// The text itself.
    pub fn as_str(&self) -> &str
        ensures { result.now ≡ self.now }
    {
        self.text.as_str()
    }

    /// The text, of which is forgotten what was read.
    pub fn into_text(self) -> Text
        ensures { result ≡ self }
    {
        let Payload { text, names: _ } = self;
        text
    }

    /// What `names` answers, where it is known.
    pub fn known_names(&self) -> Option<&[Option<Text>]>
        ensures { IfSome result (λ names. names_at self.now ≡ Ok names.now) }
    {
        self.names.as_ref().map(|names| names.as_slice())
    }

    /// What `names` answers is known from now on.
    pub(crate) fn know(&mut self, names: Vec<Option<Text>>)
        requires { names_at self.old ≡ Ok names.items }
        ensures { self.new ≡ self.old }
    {
        self.names = Some(names);
    }
}
