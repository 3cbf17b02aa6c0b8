//! What a line of a script does to the server.

ghost use Rattle.std.specs.Prelude.{◌≡◌, ◌<◌, IfOk, OnOk, IsOkUnless, None, Some, Ok, option_map, length};
ghost use Rattle.std.specs.BTreeMap.{get_by_text};
ghost use Rattle.script.specs.declared.faults.RunError.TheVariants.{Memory};
ghost use Rattle.script.specs.Playing.{new_play, play_of, Happens, Asks, IsOfNone, NamesOpened, Opens, AsksMembers, RepliesForClient, Replies, Plays, told};
ghost use Rattle.script.specs.Printing.{answer_text, done_text};

use crate::faults::RunError;
use crate::notices::event_of;
use crate::printing::{Answer, Posted, frame_lines, id_list, is_read};
use crate::script_line::{ScriptLine, name_in};
use dispatch::Core;
use events::{Answered, App, Cause, CoreFault, Done, Event, Outcome};
use hub_totals::Pass;
use journal::HubError;
use relay::Counter;
use std::alloc::{AllocError, Global};
use std::collections::BTreeMap;
use std::sync::ledger::Ledger;
use terms::Room;

/// The answer to a line, or the fault that ends the run.
type Reply<'a> = Result<Answer<'a>, RunError>;

/// A server under way, and the clients that the names stand for.
#[derive(Drop)]
pub(crate) struct Play<C: Ledger, T: Ledger> {
    alloc: Global,
    core: Core<C, T>,
    pass: Pass<C, T>,
    ids: Counter,
    clients: BTreeMap<String, u128>,
    now: u64,
}

impl<C: Ledger, T: Ledger> Play<C, T> {
    /// A server, of which nothing was asked yet.
    pub(crate) fn new(alloc: Global, core: Core<C, T>, pass: Pass<C, T>) -> Play<C, T>
        ensures { play_of result ≡ new_play core }
    {
        Play {
            alloc,
            core,
            pass,
            ids: Counter::new(),
            clients: BTreeMap::new(alloc),
            now: 0,
        }
    }

    /// Does what a line asks for. A limit can't be set any more.
    pub(crate) fn answer<'a, A: App>(
        &mut self,
        app: &A,
        line: ScriptLine<'a>,
    ) -> Result<Option<Answer<'a>>, RunError>
        ensures nothing { line.entry ≡ ScriptLine.Nothing → result ≡ Ok None }
        ensures bad { line.entry ≡ ScriptLine.Bad → result ≡ Ok (Some Answer.BadLine) }
        ensures plays { IfOk result (λ answer. Plays (A.policy app.now)
            line.entry (play_of self.old) (option_map answer_text answer) (play_of self.new)) }
        ensures err { IsOkUnless result Memory }
    {
        match line {
            ScriptLine::At(now) => {
                self.now = now;
                Ok(None)
            }
            ScriptLine::Nothing => Ok(None),
            asking => Ok(Some(self.reply(app, asking)?)),
        }
    }

    /// Does what a line asks for that always has an answer. Any other line is bad.
    fn reply<'a, A: App>(&mut self, app: &A, line: ScriptLine<'a>) -> Reply<'a>
        ensures bad { line.entry ≡ ScriptLine.Bad → result ≡ Ok Answer.BadLine }
        ensures replies { IfOk result (λ answer. Replies (A.policy app.now)
            line.entry (play_of self.old) (answer_text answer) (play_of self.new)) }
        ensures err { IsOkUnless result Memory }
    {
        match line {
            ScriptLine::Open(name) => self.open(app, name, false),
            ScriptLine::OpenSocket(name) => self.open(app, name, true),
            ScriptLine::Members(space, room) => self.members(space, room),
            ScriptLine::Totals => Ok(Answer::Totals(self.core.hub().state().totals())),
            ScriptLine::Seal => match self.core.seal(self.alloc) {
                Ok(epoch) => Ok(Answer::Sealed(epoch.steps.len())),
                Err(_) => Err(RunError::Memory),
            },
            ScriptLine::Sweep => self.ask(app, "", &Event::Sweep),
            other => self.reply_for_client(app, other),
        }
    }

    /// Does what a line asks for of the client that it names. Any other line is bad, and so is one
    /// whose name stands for no client.
    fn reply_for_client<'a, A: App>(&mut self, app: &A, line: ScriptLine<'a>) -> Reply<'a>
        ensures bad { IsOfNone line.entry (get_by_text self.old.clients)
            → result ≡ Ok Answer.BadLine }
        ensures replies { IfOk result (λ answer.
            RepliesForClient (A.policy app.now) line.entry
            (play_of self.old) (answer_text answer) (play_of self.new)) }
        ensures err { IsOkUnless result Memory }
    {
        let Some(name) = name_in(line) else {
            return Ok(Answer::BadLine);
        };
        let Some(client) = self.clients.get(name).copied() else {
            return Ok(Answer::BadLine);
        };
        match event_of(self.alloc, line, client, self.core.transport(client))? {
            Some(event) => self.ask(app, name, &event),
            None => Ok(Answer::BadLine),
        }
    }

    /// What becomes of an event, or why it is refused. Want of memory ends the run.
    fn apply<A: App>(&mut self, app: &A, event: &Event) -> Result<Answered, RunError>
        ensures happens { IfOk result (λ answer. Happens (A.policy app.now)
            (play_of self.old) event.now answer (play_of self.new)) }
        ensures err { IsOkUnless result Memory }
    {
        let (alloc, core) = (self.alloc, &mut self.core);
        let answer = core.apply(alloc, &mut self.pass, app, event, self.now, &mut self.ids);
        if matches!(&answer, Err(error) if error.fault == CoreFault::Memory) {
            return Err(RunError::Memory);
        }
        Ok(answer)
    }

    /// What the client of this name is answered at an event.
    fn ask<'a, A: App>(&mut self, app: &A, name: &'a str, event: &Event) -> Reply<'a>
        ensures asks { IfOk result (λ answer.
            Asks (A.policy app.now) name.entry.now event.now
            (play_of self.old) (answer_text answer) (play_of self.new)) }
        ensures err { IsOkUnless result Memory }
    {
        let answer = self.apply(app, event)?;
        Ok(answer_to(self.alloc, name, event, answer)?)
    }

    /// Opens a client, for which the name stands from now on.
    fn open<'a, A: App>(&mut self, app: &A, name: &'a str, socket: bool) -> Reply<'a>
        ensures opens { IfOk result (λ answer. Opens (A.policy app.now)
            name.entry.now socket (play_of self.old) (answer_text answer) (play_of self.new)) }
        ensures err { IsOkUnless result Memory }
    {
        let event = Event::Opened { socket };
        let answer = self.apply(app, &event)?;
        self.call_opened(name, &answer)?;
        Ok(answer_to(self.alloc, name, &event, answer)?)
    }

    /// From now on the name stands for the client that was opened, if one was.
    fn call_opened(&mut self, name: &str, answer: &Answered) -> Result<(), RunError>
        ensures names { OnOk result
            (NamesOpened name.now answer.now (play_of self.old) (play_of self.new)) }
        ensures err { IsOkUnless result Memory }
    {
        if let Ok(Outcome::Opened(opening)) = answer {
            let key = String::from_str(self.alloc, name)?;
            self.clients.insert(key, opening.client)?;
        }
        Ok(())
    }

    /// The sockets of a namespace that are in a room, whose name has at most 64 bytes.
    fn members(&self, space: &str, room: &str) -> Reply<'static>
        ensures long { 64 < length room.now → result ≡ Ok Answer.BadLine }
        ensures asks { IfOk result (λ answer.
            AsksMembers space.now room.now (play_of self.entry.now) (answer_text answer)) }
        ensures err { IsOkUnless result Memory }
    {
        let Some(room) = Room::read(room) else {
            return Ok(Answer::BadLine);
        };
        match self.core.hub().state().members(self.alloc, space, room) {
            Ok(sids) if sids.is_empty() => Ok(Answer::Members(None)),
            Ok(sids) => Ok(Answer::Members(Some(id_list(self.alloc, &sids)?))),
            Err(HubError::UnknownNamespace) => Ok(Answer::UnknownNamespace),
            Err(_) => Err(RunError::Memory),
        }
    }
}

/// What is printed of an event's answer for the client of this name.
fn answer_to<'a>(
    alloc: Global,
    name: &'a str,
    event: &Event,
    answer: Answered,
) -> Result<Answer<'a>, AllocError>
    ensures { IfOk result (λ said. answer_text said ≡ told name.entry.now event.now answer) }
{
    match answer {
        Ok(Outcome::Opened(opening)) => Ok(Answer::Opened(name, opening.text)),
        Ok(Outcome::Done(done)) => Ok(answer_when_done(event, &done)),
        Ok(Outcome::Begun) => Ok(Answer::Ok),
        Ok(Outcome::Payload(text)) => Ok(Answer::Taken(name, Some(text))),
        Ok(Outcome::Frames(frames)) => {
            let frames = frames.copies(alloc)?;
            Ok(Answer::Frames(frame_lines(alloc, name, &frames)?))
        }
        Ok(Outcome::Nothing) => Ok(Answer::Taken(name, None)),
        Ok(Outcome::Probed(text)) => Ok(Answer::Probed(name, text)),
        Ok(Outcome::Lost { saved: true, .. }) => Ok(Answer::Ok),
        Ok(Outcome::Lost { saved: false, .. }) => Ok(Answer::NotSaved),
        Ok(Outcome::Ticked { ping, done }) => Ok(Answer::Ticked(name, ping, done.closed)),
        Ok(Outcome::Swept(swept)) => Ok(Answer::Swept(swept)),
        Err(error) => Ok(Answer::Refused(error.fault)),
    }
}

/// What is printed of an event that was worked on. A second GET that waits has closed the client,
/// and no payload does so for that cause. A frame was read, also one that is no packet.
fn answer_when_done<'a>(event: &Event, done: &Done) -> Answer<'a>
    ensures { answer_text result ≡ done_text event.now done.now }
{
    match (event, done.closed) {
        (Event::Frame { .. }, _) => Answer::Posted(Posted::of(done, true)),
        (_, Some(Cause::DoubleGet)) => Answer::Closed(Cause::DoubleGet),
        _ => Answer::Posted(Posted::of(done, is_read(done))),
    }
}
