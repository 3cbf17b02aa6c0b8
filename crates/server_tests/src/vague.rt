//! An app that wants what can't be done.

use events::{App, Arrived, Effect, Verdict, Wanted, Who};
use journal::Ending;
use std::alloc::{AllocError, Global};
use terms::Room;

/// It lets everybody in. A socket of which an event or its answer came it wants disconnected twice,
/// and one that has ended once more.
#[derive(Clone, Copy)]
pub struct Vague;

impl App for Vague {
    ghost policy = { λ app. record {
      allows = λ moment space payload verdict. Unit {0};
      decides = λ who arrived effects. Unit {0};
      ends = λ who rooms ending effects. Unit {0};
    } };

    fn connects(
        &self,
        alloc: Global,
        _moment: u64,
        _space: &str,
        _payload: &str,
    ) -> Result<Verdict, AllocError> {
        Ok(Verdict::Accept(Vec::new(alloc)))
    }

    fn decides(&self, alloc: Global, _who: &Who, arrived: &Arrived) -> Wanted {
        let mut effects = Vec::new(alloc);
        if matches!(arrived, Arrived::Event(_) | Arrived::Answer(_)) {
            effects.push(Effect::Disconnect)?;
            effects.push(Effect::Disconnect)?;
        }
        Ok(effects)
    }

    fn ended(&self, alloc: Global, _who: &Who, _rooms: &[Room], _ending: Ending) -> Wanted {
        let mut effects = Vec::new(alloc);
        effects.push(Effect::Disconnect)?;
        Ok(effects)
    }
}
