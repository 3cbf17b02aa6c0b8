//! What others hand to a loop while it is at work or asleep.

ghost use Rattle.std.specs.Prelude.{◌≡◌, ◌++◌, ◌∷◌, [], true, false, IsTrue};
ghost use Rattle.std.specs.Bool.{OnTrue, OnFalse};
ghost use Rattle.loop_rules.specs.Mailboxes as mails;
ghost use Rattle.loop_rules.specs.Mailboxes.{IsUnread};

use std::alloc::Global;
use std::mem;

/// What was handed to a loop and not taken yet.
#[derive(Drop)]
pub struct Mail<H> {
    /// Connections that are this loop's from now on.
    pub handed: Vec<H>,
    /// Clients of this loop for which something was put.
    pub woken: Vec<u128>,
    /// All connections are to be looked at.
    pub everyone: bool,
}

/// What others hand to a loop. One that sleeps has nothing there; who hands it some wakes it.
#[derive(Drop)]
pub struct Mailbox<H> {
    mail: Mail<H>,
    asleep: bool,
    ghost unread: { IsUnread mail asleep },
}

impl<H> Mail<H> {
    /// Nothing was handed in.
    pub fn new(alloc: Global) -> Mail<H>
        ensures { mails.count result ≡ 0 }
    {
        Mail {
            handed: Vec::new(alloc),
            woken: Vec::new(alloc),
            everyone: false,
        }
    }
}

impl<H: Drop> Mailbox<H> {
    /// Nothing was handed in, and the loop is at work.
    pub fn new(alloc: Global) -> Mailbox<H>
        ensures empty { mails.count result.mail ≡ 0 }
        ensures work { result.asleep ≡ false }
    {
        let (mail, asleep) = (Mail::new(alloc), false);
        Mailbox { mail, asleep }
    }

    /// The loop is awake from now on. Answers whether it slept.
    pub fn rouse(&mut self) -> bool
        ensures slept { result ≡ self.old.asleep }
        ensures awake { self.new.asleep ≡ false }
        ensures mail { self.new.mail ≡ self.old.mail }
    {
        mem::replace(&mut self.asleep, false)
    }

    /// Hands a connection over, and tells whether there was memory for it; else it is closed.
    pub fn hand(&mut self, handed: H) -> bool
        ensures awake { self.new.asleep ≡ false }
        ensures given { OnTrue result
            (self.new.mail.handed.items ≡ self.old.mail.handed.items ++ handed ∷ []) }
        ensures refused { OnFalse result (self.new.mail.handed.items ≡ self.old.mail.handed.items) }
        ensures others { (self.new.mail.woken ≡ self.old.mail.woken)
            × (self.new.mail.everyone ≡ self.old.mail.everyone) }
    {
        self.asleep = false;
        self.mail.handed.push(handed).is_ok()
    }

    /// Something was put for these clients. Without memory for them all connections are to look.
    pub fn wake(&mut self, clients: &[u128])
        ensures awake { self.new.asleep ≡ false }
        ensures told { mails.Tells clients.now self.old.mail self.new.mail }
        ensures handed { self.new.mail.handed ≡ self.old.mail.handed }
        ensures everyone { self.old.mail.everyone ≡ true → self.new.mail.everyone ≡ true }
    {
        self.asleep = false;
        self.mail.everyone |= self.mail.woken.extend_from_slice(clients).is_err();
    }

    /// All connections are to be looked at.
    pub fn wake_everyone(&mut self)
        ensures awake { self.new.asleep ≡ false }
        ensures told { self.new.mail ≡ record self.old.mail { everyone = true } }
    {
        self.asleep = false;
        self.mail.everyone = true;
    }

    /// Whether nothing was handed in here, nor beside it: then the loop falls asleep.
    pub fn fall_asleep(&mut self, nothing_beside: bool) -> bool
        ensures empty { IsTrue result → (mails.count self.new.mail ≡ 0) × (nothing_beside ≡ true) }
        ensures asleep { self.new.asleep ≡ result }
        ensures mail { self.new.mail ≡ self.old.mail }
        ensures falls { OnFalse result (nothing_beside ≡ true → ¬ (mails.count self.old.mail ≡ 0)) }
    {
        let mail = &self.mail;
        let is_empty = mail.handed.is_empty() && mail.woken.is_empty() && !mail.everyone;
        self.asleep = nothing_beside && is_empty;
        self.asleep
    }

    /// Takes all that was handed in, and leaves this mail there, which is empty.
    pub fn take(&mut self, mail: &mut Mail<H>)
        ensures awake { self.new.asleep ≡ false }
        ensures taken { mail.new ≡ self.old.mail }
        ensures left { self.new.mail ≡ mail.old }
    {
        self.asleep = false;
        mem::swap(&mut self.mail, mail);
    }
}
