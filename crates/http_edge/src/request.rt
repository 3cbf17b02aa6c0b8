//! A request (RFC 9112): read from a wire, or gathered of pieces for a caller that waits for none of
//! them.

ghost use Rattle.std.specs.Prelude.{◌≡◌, ◌≤◌, ◌++◌, [], ℕ, List, true, Ok, Err, None, IfOk, IfErr, IfSome};
ghost use Rattle.std.specs.Io.KnownBytes.{IsAtEnd};
ghost use Rattle.http_edge.specs.Reading.{Answers};
ghost use Rattle.http_edge.specs.Head.{Begins};
ghost use Rattle.http_edge.specs.SoFar.{StepsTo, fed, so_far};
ghost use Rattle.http_edge.specs.Taken.{TakesRequest, TakesFault, ReadsMore};
ghost use Rattle.http_edge.specs.declared.error.EdgeError.{EdgeError};
ghost use Rattle.http_edge.specs.declared.error.EdgeError.TheVariants.{Device, EarlyEnd, TurnsSpent};

use crate::error::EdgeError;
use crate::head::{Head, LineState, find_head, judge};
use crate::wire::Wire;
use std::alloc::Global;
use std::marker::Model;
use std::mem;

/// How many bytes a head may have.
const HEAD_LIMIT: usize = 16_384;

/// How many bytes are asked for at once.
const PIECE: usize = 4_096;

/// A request that was read whole.
#[derive(Debug, Drop)]
pub struct Request {
    pub method: String,
    /// The target up to its first `?`.
    pub path: String,
    /// What follows the `?`, or nothing.
    pub query: String,
    /// It has an `Upgrade` field that is `websocket`, in any case.
    pub upgrade: bool,
    /// The value of its `Origin` field; none where it is missing, comes twice or is no UTF-8.
    pub origin: Option<String>,
    /// The bytes of its head, with the empty line.
    pub head: Vec<u8>,
    pub body: String,
    /// The bytes that were read past the request.
    pub rest: Vec<u8>,
}

/// Reads a request, by at most so many reads.
pub fn read_request<W: Wire>(alloc: Global, wire: &mut W, turns: u64) -> Result<Request, EdgeError>
    ensures request { IfOk result (λ q. TakesRequest (W.left wire.old) (W.left wire.new) q) }
    ensures fault { IfErr result (λ e. TakesFault (W.left wire.old) (W.left wire.new) e) }
    ensures broken { IfErr result (λ e. e ≡ Device → W.is_broken wire.new ≡ true) }
    ensures ended { IfErr result (λ e. e ≡ EarlyEnd → IsAtEnd (W.left wire.new)) }
    ensures counted { (count : ℕ) × (count ≤ turns)
        × ReadsMore (W.reads wire.old) (W.reads wire.new) count }
    ensures spent { IfErr result
        (λ e. e ≡ TurnsSpent → ReadsMore (W.reads wire.old) (W.reads wire.new) turns) }
{
    let mut gathered = Gathered::new(alloc);
    let mut piece = [0; PIECE];
    for _turn in 0..turns {
        let Ok(count) = wire.read(&mut piece) else {
            return Err(EdgeError::Device);
        };
        if count == 0 {
            return Err(EdgeError::EarlyEnd);
        }
        if let Some(request) = gathered.feed(alloc, &piece[..count])? {
            return Ok(request);
        }
    }
    Err(EdgeError::TurnsSpent)
}

/// The bytes so far of a request. In a contract it is these bytes, or the fault that was found in
/// them.
#[derive(Drop)]
pub struct Gathered {
    come: SoFar,
}

impl Model for Gathered {
    ghost use Rattle.std.specs.Prelude.{List, ℕ, Result};
    ghost use Rattle.http_edge.specs.declared.error.EdgeError.{EdgeError};
    ghost use Rattle.http_edge.specs.SoFar.{so_far};

    ghost Value = { Result (List ℕ) EdgeError };

    ghost view = { λ g. so_far g.come };
}

impl Gathered {
    /// No byte has come yet. It takes no memory.
    pub fn new(alloc: Global) -> Gathered
        ensures { result ≡ Ok [] }
    {
        Gathered {
            come: SoFar::Opening(Opening {
                bytes: Vec::new(alloc),
                line: LineState::Blank,
            }),
        }
    }

    /// Takes the next bytes: `None` says that more are needed. After a request it is as a new one,
    /// and after a fault it answers that fault for ever. An allocation that was refused is one too.
    pub fn feed(&mut self, alloc: Global, piece: &[u8]) -> Result<Option<Request>, EdgeError>
        // The pieces don't matter: what is answered is said of all bytes so far.
        ensures answer { (bytes : List ℕ)
            → self.old ≡ Ok bytes → Answers (bytes ++ piece.now) result }
        ensures failed { (fault : EdgeError) → self.old ≡ Err fault → result ≡ Err fault }

        // What it stands for then.
        ensures more { IfOk result (λ answer. answer ≡ None → self.new ≡ fed self.old piece.now) }
        ensures done { IfOk result (λ answer. IfSome answer (λ q. self.new ≡ Ok [])) }
        ensures fault { IfErr result (λ e. self.new ≡ Err e) }
    {
        let come = mem::replace(&mut self.come, SoFar::Failed(EdgeError::Memory));
        match step_of(alloc, come, piece) {
            Ok(Fed::More(come)) => {
                self.come = come;
                Ok(None)
            }
            Ok(Fed::Done(request)) => {
                *self = Gathered::new(alloc);
                Ok(Some(request))
            }
            Err(fault) => {
                self.come = SoFar::Failed(fault);
                Err(fault)
            }
        }
    }
}

/// How far a request has come.
#[derive(Drop)]
enum SoFar {
    Opening(Opening),
    Filling(Filling),
    Failed(EdgeError),
}

/// The head hasn't ended. In a contract it is the bytes so far.
#[derive(Drop)]
struct Opening {
    bytes: Vec<u8>,
    line: LineState,
}

impl Model for Opening {
    ghost use Rattle.std.specs.Prelude.{List, ℕ};
    ghost use Rattle.http_edge.specs.Head.{IsOpening};

    ghost Value = { List ℕ };

    ghost view = { λ o. o.bytes.items };

    ghost invariant = { λ o. IsOpening o.line o.bytes.items };
}

/// The head is known, and its body isn't whole. In a contract it is the bytes so far.
#[derive(Drop)]
struct Filling {
    bytes: Vec<u8>,
    head: Head,
}

impl Model for Filling {
    ghost use Rattle.std.specs.Prelude.{List, ℕ};
    ghost use Rattle.http_edge.specs.Head.{Awaits};

    ghost Value = { List ℕ };

    ghost view = { λ f. f.bytes.items };

    ghost invariant = { λ f. Awaits f.head f.bytes.items };
}

/// What bytes that came have led to.
#[derive(Drop)]
enum Fed {
    More(SoFar),
    Done(Request),
}

/// What these bytes, after those so far, lead to.
fn step_of(alloc: Global, come: SoFar, piece: &[u8]) -> Result<Fed, EdgeError>
    ensures step { (bytes : List ℕ)
        → so_far come ≡ Ok bytes → StepsTo (bytes ++ piece.now) result }
    ensures failed { (fault : EdgeError) → so_far come ≡ Err fault → result ≡ Err fault }
{
    match come {
        SoFar::Opening(opening) => opening.step(alloc, piece),
        SoFar::Filling(filling) => filling.step(alloc, piece),
        SoFar::Failed(fault) => Err(fault),
    }
}

impl Opening {
    fn step(self, alloc: Global, piece: &[u8]) -> Result<Fed, EdgeError>
        ensures { StepsTo (self ++ piece.now) result }
    {
        let Opening { mut bytes, line } = self;
        let free = HEAD_LIMIT - bytes.len();
        let after = line.after_all(&piece[..free.min(piece.len())]);
        bytes.extend_from_slice(piece)?;
        let ended = after == LineState::Empty;
        if !ended && piece.len() < free {
            // So a head has at most 102 looks, in whatever pieces it comes.
            if after.is_due(line, piece) {
                judge(&bytes)?;
            }
            return Ok(Fed::More(SoFar::Opening(Opening { bytes, line: after })));
        }
        let head = find_head(alloc, &bytes[..HEAD_LIMIT.min(bytes.len())], ended)?;
        filled(alloc, bytes, head)
    }
}

impl Filling {
    fn step(self, alloc: Global, piece: &[u8]) -> Result<Fed, EdgeError>
        ensures { StepsTo (self ++ piece.now) result }
    {
        let Filling { mut bytes, head } = self;
        bytes.extend_from_slice(piece)?;
        filled(alloc, bytes, head)
    }
}

// The request, where its body is whole.
fn filled(alloc: Global, bytes: Vec<u8>, head: Head) -> Result<Fed, EdgeError>
    requires { Begins head bytes.items }
    ensures { StepsTo bytes.items result }
{
    if bytes.len() - head.len < head.body_len {
        return Ok(Fed::More(SoFar::Filling(Filling { bytes, head })));
    }
    let end = head.len + head.body_len;
    let Ok(text) = std::str::from_utf8(&bytes[head.len..end]) else {
        return Err(EdgeError::NotUtf8);
    };
    Ok(Fed::Done(Request {
        body: String::from_str(alloc, text)?,
        rest: Vec::from_slice(alloc, &bytes[end..])?,
        head: Vec::from_slice(alloc, &bytes[..head.len])?,
        method: head.method,
        path: head.path,
        query: head.query,
        upgrade: head.upgrade,
        origin: head.origin,
    }))
}
