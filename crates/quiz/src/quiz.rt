//! The quiz: what it does with what arrives.

ghost use Rattle.std.specs.Prelude.{◌≡◌, [], IfOk};
ghost use Rattle.quiz.specs.Quiz as table;
ghost use Rattle.quiz.specs.Quiz.{Allows, begins_with, decided};

use events::{App, Arrived, Effect, Inquiry, Reply, Verdict, Wanted, Who};
use journal::{Cast, Ending, Form};
use sio_wire::{SioError, names};
use std::alloc::{AllocError, Global};
use terms::{Attachments, Room, Text};

const QUESTION: &str = r#"["question","How much is six times seven?"]"#;

/// How long an answer is waited for, in milliseconds.
const PATIENCE: u64 = 30_000;

/// The quiz.
#[derive(Clone, Copy, Debug)]
pub struct Quiz;

impl App for Quiz {
    ghost policy = { λ app. record {
      allows = λ moment space payload verdict. Allows verdict;
      decides = λ who arrived effects. effects ≡ decided who arrived;
      ends = λ who rooms ending effects. effects ≡ [];
    } };

    fn connects(
        &self,
        alloc: Global,
        _moment: u64,
        _space: &str,
        _payload: &str,
    ) -> Result<Verdict, AllocError> {
        Ok(Verdict::Accept(Vec::new(alloc)))
    }

    fn decides(&self, alloc: Global, who: &Who, arrived: &Arrived) -> Wanted {
        decide(alloc, who, arrived)
    }

    fn ended(&self, alloc: Global, _who: &Who, _rooms: &[Room], _ending: Ending) -> Wanted {
        Ok(Vec::new(alloc))
    }
}

/// The effects of what arrived.
fn decide(alloc: Global, who: &Who, arrived: &Arrived) -> Wanted
    ensures { IfOk result (λ effects. effects.items ≡ decided who.now arrived.now) }
{
    let mut effects = Vec::new(alloc);
    match arrived {
        Arrived::Event(message) => {
            if begins_with(alloc, message.payload.as_str(), "play")? {
                effects.push(ask(alloc)?)?;
            }
            if message.id.is_some() {
                effects.push(reply(alloc)?)?;
            }
        }
        Arrived::Answer(answer) => {
            let next = if begins_with(alloc, answer.payload.as_str(), "42")? {
                announce(alloc, who)?
            } else {
                ask(alloc)?
            };
            effects.push(next)?;
        }
        _ => {}
    }
    Ok(effects)
}

/// Whether a payload is an array that begins with this text.
fn begins_with(alloc: Global, payload: &str, word: &str) -> Result<bool, AllocError>
    ensures { IfOk result (λ answer. answer ≡ begins_with payload.now word.now) }
{
    match names(alloc, payload) {
        Ok(texts) => Ok(matches!(texts.get(0), Some(Some(text)) if text.as_str() == word)),
        Err(SioError::Memory) => Err(AllocError),
        Err(_) => Ok(false),
    }
}

/// The question, which is asked once more after a wrong answer.
fn ask(alloc: Global) -> Result<Effect, AllocError>
    ensures { IfOk result (λ effect. effect ≡ table.ask) }
{
    Ok(Effect::EmitAsk(Inquiry {
        payload: Text::copy_of(alloc, QUESTION)?,
        attachments: Attachments::new(alloc),
        tag: 1,
        wait: PATIENCE,
    }))
}

/// Everybody in the socket's namespace hears that somebody knew it; who comes back later too.
fn announce(alloc: Global, who: &Who) -> Result<Effect, AllocError>
    ensures { IfOk result (λ effect. effect ≡ table.announce who.now) }
{
    Ok(Effect::Emit(Cast {
        space: who.space.clone()?,
        rooms: Vec::new(alloc),
        excepted: Vec::new(alloc),
        form: Form::Event { logged: true },
        payload: Text::copy_of(alloc, r#"["solved"]"#)?,
        attachments: Attachments::new(alloc),
    }))
}

/// The acknowledgement of an event.
fn reply(alloc: Global) -> Result<Effect, AllocError>
    ensures { IfOk result (λ effect. effect ≡ table.reply) }
{
    Ok(Effect::Reply(Reply {
        payload: Text::copy_of(alloc, "[]")?,
        attachments: Attachments::new(alloc),
    }))
}
