//! The demonstration app, which of some events, CONNECTs and ends wants what can't be done, or what it
//! never wants by itself.

ghost use Rattle.std.specs.Prelude.{IfOk, IfSome};
ghost use Rattle.events.specs.App.{AllClean, IsCleanEffect};

use events::{App, Arrived, Effect, Inquiry, Reply, Selection, Verdict, Wanted, Who};
use journal::{Cast, Ending, Form};
use relay::{Presence, RelayApp};
use std::alloc::{AllocError, Global};
use terms::{Attachments, Room, Sid, Text};

fn everybody(alloc: Global, space: &str) -> Result<Selection, AllocError> {
    Ok(Selection {
        space: Text::copy_of(alloc, space)?,
        rooms: Vec::new(alloc),
        excepted: Vec::new(alloc),
    })
}

fn nobody(alloc: Global, space: &str) -> Result<Selection, AllocError> {
    let mut selection = everybody(alloc, space)?;
    selection.rooms.push(Room::own(Sid::new(0)))?;
    Ok(selection)
}

/// What is no array is sent, asked or acknowledged.
fn no_array(alloc: Global, space: &str, wish: &str) -> Result<Option<Effect>, AllocError>
    ensures { IfOk result (λ found. IfSome found IsCleanEffect) }
{
    let payload = Text::from_string(String::new(alloc));
    let attachments = Attachments::new(alloc);
    Ok(match wish {
        "[\"mute\"]" => Some(Effect::Emit(Cast {
            space: Text::copy_of(alloc, space)?,
            rooms: Vec::new(alloc),
            excepted: Vec::new(alloc),
            form: Form::Event { logged: false },
            payload,
            attachments,
        })),
        "[\"vague\"]" => Some(Effect::EmitAsk(Inquiry {
            payload,
            attachments,
            tag: 0,
            wait: 1,
        })),
        "[\"again\"]" => Some(Effect::Reply(Reply {
            payload,
            attachments,
        })),
        _ => None,
    })
}

/// The id of a question that is asked of a whole namespace.
const POLL: u64 = 900;

/// The event by which everybody in a namespace hears of something.
const HEARD: &str = "[\"heard\"]";

/// What goes to everybody in a namespace in this form.
#[tactic(auto, using(crate::proofs::WishLemmas::far_is_whole))]
fn sent_to(alloc: Global, space: &str, form: Form) -> Result<Effect, AllocError>
    ensures { IfOk result IsCleanEffect }
{
    Ok(Effect::Emit(Cast {
        space: Text::copy_of(alloc, space)?,
        rooms: Vec::new(alloc),
        excepted: Vec::new(alloc),
        form,
        payload: Text::copy_of(alloc, "[\"far\"]")?,
        attachments: Attachments::new(alloc),
    }))
}

/// Something goes to another namespace, is asked of all, or is answered to all.
fn sent_far(alloc: Global, space: &str, wish: &str) -> Result<Option<Effect>, AllocError>
    ensures { IfOk result (λ found. IfSome found IsCleanEffect) }
{
    Ok(Some(match wish {
        "[\"far\"]" => sent_to(alloc, "/admin", Form::Event { logged: true })?,
        "[\"nowhere\"]" => sent_to(alloc, "/none", Form::Event { logged: true })?,
        HEARD => sent_to(alloc, space, Form::Event { logged: false })?,
        "[\"poll\"]" => sent_to(alloc, space, Form::Question(POLL))?,
        "[\"told\"]" => sent_to(alloc, space, Form::Answer(POLL))?,
        _ => return Ok(None),
    }))
}

/// What an event or a CONNECT wants that the demonstration app never wants, or the last of two such
/// effects.
fn last_effect(
    alloc: Global,
    space: &str,
    own: Room,
    wish: &str,
) -> Result<Option<Effect>, AllocError>
    ensures { IfOk result (λ found. IfSome found IsCleanEffect) }
{
    match wish {
        "[\"over\"]" => Ok(Some(Effect::AllEnd(everybody(alloc, space)?))),
        "[\"gone\"]" => Ok(Some(Effect::AllEnd(nobody(alloc, space)?))),
        "[\"own\"]" => Ok(Some(Effect::Leave(own))),
        "[\"fine\"]" | "[\"report\"]" => Ok(Some(Effect::Report)),
        "[\"list\"]" => Ok(Some(Effect::Fetch(everybody(alloc, space)?))),
        "[\"late\"]" | "{\"do\":\"late\"}" | "{\"do\":\"join\"}" => {
            Ok(Some(Effect::Join(Room::own(Sid::new(7)))))
        }
        wish => match sent_far(alloc, space, wish)? {
            Some(effect) => Ok(Some(effect)),
            None => no_array(alloc, space, wish),
        },
    }
}

/// The effects that are wanted: that all are disconnected, twice, or to join a room after the
/// disconnection, or a report of a room that can't be left, or one.
fn effects_of(
    alloc: Global,
    space: &str,
    own: Room,
    wish: &str,
) -> Result<Option<Vec<Effect>>, AllocError>
    ensures { IfOk result (λ found. IfSome found (λ effects. AllClean effects.items)) }
{
    let Some(last) = last_effect(alloc, space, own, wish)? else {
        return Ok(None);
    };
    match wish {
        "[\"over\"]" => {
            let first = Effect::AllEnd(everybody(alloc, space)?);
            Ok(Some(vec![in alloc; first, last]?))
        }
        "[\"report\"]" => Ok(Some(vec![in alloc; Effect::Leave(own), last]?)),
        "[\"late\"]" | "{\"do\":\"late\"}" => Ok(Some(vec![in alloc; Effect::Disconnect, last]?)),
        _ => Ok(Some(vec![in alloc; last]?)),
    }
}

/// Whether a socket was in a room of this name.
fn was_in(rooms: &[Room], name: &[u8]) -> bool {
    rooms.iter().any(|room| room.bytes() == name)
}

/// The demonstration app, but for some events, some CONNECTs and some ends.
#[derive(Clone, Copy)]
pub struct WildApp;

impl App for WildApp {
    ghost policy = { λ app. record {
      allows = λ moment space payload verdict. Unit {0};
      decides = λ who arrived effects. Unit {0};
      ends = λ who rooms ending effects. Unit {0};
    } };

    fn connects(
        &self,
        alloc: Global,
        moment: u64,
        space: &str,
        payload: &str,
    ) -> Result<Verdict, AllocError> {
        match effects_of(alloc, space, Room::own(Sid::new(7)), payload)? {
            Some(effects) => Ok(Verdict::Accept(effects)),
            None => RelayApp.connects(alloc, moment, space, payload),
        }
    }

    fn decides(&self, alloc: Global, who: &Who, arrived: &Arrived) -> Wanted {
        let wish = match arrived {
            Arrived::Event(message) => message.payload.as_str(),
            Arrived::Stray(stray) if stray.id == POLL => HEARD,
            Arrived::Connected(newcomer) if newcomer.payload.as_str() == "{\"do\":\"greet\"}" =>
                HEARD,
            Arrived::Returned(back) if was_in(&back.rooms, b"back") => HEARD,
            _ => "",
        };
        let own = Room::own(who.sid);
        if let Some(effects) = effects_of(alloc, who.space.as_str(), own, wish)? {
            return Ok(effects);
        }
        RelayApp.decides(alloc, who, arrived)
    }

    fn ended(&self, alloc: Global, who: &Who, rooms: &[Room], ending: Ending) -> Wanted {
        if was_in(rooms, b"oops") {
            return Ok(vec![in alloc; Effect::Disconnect]?);
        }
        let app = Presence {
            app: RelayApp,
            tells: was_in(rooms, b"wake"),
        };
        app.ended(alloc, who, rooms, ending)
    }
}
