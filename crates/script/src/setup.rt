//! What a script's server is made with.

ghost use Rattle.std.specs.Prelude.{◌≡◌};
ghost use Rattle.script.specs.Setup.{with_limit};

use crate::script_line::Key;
use journal::Config;
use std::alloc::Global;
use std::marker::PhantomData;
use std::sync::ledger::{Blank, Ledger};

/// What a server that isn't made yet is given: two ledgers, each cut into 65,536 parts.
#[derive(Drop)]
pub(crate) struct Ledgers<C: Ledger, T: Ledger> {
    pub(crate) alloc: Global,
    pub(crate) commands: Blank,
    pub(crate) taken: Blank,
    pub(crate) of: PhantomData<(C, T)>,
    ghost commands_of: { (commands.name ≡ C.name)
        × (commands.parts ≡ C.parts) × (commands.parts ≡ 65536) },
    ghost taken_of: { (taken.name ≡ T.name) × (taken.parts ≡ T.parts) × (taken.parts ≡ 65536) },
}

/// Sets one limit.
pub(crate) fn set_limit(limits: &mut Config, key: Key, number: u64)
    ensures { limits.new ≡ with_limit key number limits.old }
{
    match key {
        Key::Capacity => limits.capacity = number as usize,
        Key::Clients => limits.clients = number as usize,
        Key::Bytes => limits.bytes = number as usize,
        Key::Log => limits.log = number as usize,
        Key::LogBytes => limits.log_bytes = number as usize,
        Key::Saved => limits.saved = number as usize,
        Key::Keep => limits.keep = number,
        Key::FirstOffset => limits.first_offset = number,
    }
}
