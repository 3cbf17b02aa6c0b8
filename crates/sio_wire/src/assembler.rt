//! One client's frames, put together to packets (Socket.IO protocol 5, "Packet encoding").

ghost use Rattle.std.specs.Prelude.{List, [], ◌≡◌, ◌⊎◌, ◌≤◌, Some, Err, IfOk, IfErr, IfSome, OnOk, length};
ghost use Rattle.sio_wire.specs.declared.assembler.Progress.{Progress};
ghost use Rattle.sio_wire.specs.Header.{Sio};
ghost use Rattle.sio_wire.specs.Frames.{Frame, text as text_frame, binary as binary_frame, Accepted, Accepts, GivesOrKeeps, IsProgress, RefusesText, text_refusal, binary_refusal, awaited, held, exceeds};

use crate::error::SioError;
use crate::header::{Header, read_header};
use json::Scratch;
use std::alloc::Global;
use std::marker::Model;
use std::mem;
use terms::{Attachments, Bytes};

/// A packet that came whole: its header, and as many attachments as the header counts.
#[derive(Debug, Drop)]
pub struct SioPacket {
    pub header: Header,
    pub attachments: Attachments,
}

/// How far an assembler has come.
#[derive(Debug, Drop)]
pub enum Progress {
    /// No frame is kept.
    Ready,
    /// A packet's header has come, and not yet all of its attachments.
    Waiting(SioPacket),
    /// A frame was refused for this error, which is never `Memory`.
    Failed(SioError),
}

/// Puts a packet's header and the frames after it together. In a contract it is its progress.
#[derive(Debug, Drop)]
pub struct Assembler {
    progress: Progress,
}

impl Model for Assembler {
    ghost Value = { Progress };

    ghost view = { λ a. a.progress };

    ghost invariant = { λ a. IsProgress a.progress };
}

impl Assembler {
    /// An assembler before its first frame. It takes no memory.
    pub fn new() -> Assembler
        ensures { result ≡ Progress.Ready }
    {
        Assembler {
            progress: Progress::Ready,
        }
    }

    /// Takes a text frame, and gives the packet that it makes whole. After an error other than
    /// `Memory` the assembler has failed: each further frame is answered with that error. After
    /// `Memory` it is as before.
    pub fn text(
        &mut self,
        alloc: Global,
        scratch: &mut Scratch,
        text: &str,
    ) -> Result<Option<SioPacket>, SioError>
        ensures accepted { IfOk result (λ g. Accepts self.old (text_frame text.now) g self.new) }
        ensures spells { OnOk result ((header : Header) × Sio header text.now) }

        // While binary frames are awaited, and after a failure, no text is looked at.
        ensures refused { IfSome (text_refusal self.old) (λ error.
            (result ≡ Err error) × (self.new ≡ Progress.Failed error)) }
        ensures fault { IfErr result (λ error. ((error ≡ SioError.Memory) × (self.new ≡ self.old))
            ⊎ (RefusesText self.old text.now error × (self.new ≡ Progress.Failed error))) }
    {
        let header = match &self.progress {
            Progress::Ready => read_header(alloc, scratch, text),
            Progress::Waiting(_) => Err(SioError::TextAwaitingBinary),
            Progress::Failed(error) => Err(*error),
        };
        match header {
            Ok(header) => Ok(self.keep(SioPacket {
                header,
                attachments: Attachments::new(alloc),
            })),
            Err(SioError::Memory) => Err(SioError::Memory),
            Err(error) => {
                self.progress = Progress::Failed(error);
                Err(error)
            }
        }
    }

    /// Takes a binary frame, and gives the packet that it makes whole. It fails as `text` does.
    pub fn binary(&mut self, alloc: Global, bytes: &[u8]) -> Result<Option<SioPacket>, SioError>
        ensures accepted { IfOk result (λ g. Accepts self.old (binary_frame bytes.now) g self.new) }
        ensures refused { IfSome (binary_refusal self.old) (λ error.
            (result ≡ Err error) × (self.new ≡ Progress.Failed error)) }
        ensures fault { IfErr result (λ error. ((error ≡ SioError.Memory) × (self.new ≡ self.old))
            ⊎ ((binary_refusal self.old ≡ Some error) × (self.new ≡ Progress.Failed error))) }
    {
        let attachment = match &self.progress {
            Progress::Ready => {
                self.progress = Progress::Failed(SioError::BinaryUnawaited);
                return Err(SioError::BinaryUnawaited);
            }
            Progress::Waiting(_) => Bytes::copy_of(alloc, bytes)?,
            Progress::Failed(error) => return Err(*error),
        };
        match mem::replace(&mut self.progress, Progress::Ready) {
            Progress::Waiting(mut packet) => {
                if packet.attachments.push(attachment).is_err() {
                    self.progress = Progress::Waiting(packet);
                    return Err(SioError::Memory);
                }
                Ok(self.keep(packet))
            }
            _ => unreachable!(),
        }
    }

    /// How many binary frames are awaited. After a failure it is 0.
    pub fn waiting(&self) -> u32
        ensures { result ≡ awaited self.now }
    {
        match &self.progress {
            Progress::Waiting(packet) => packet.header.count - packet.attachments.len() as u32,
            _ => 0,
        }
    }

    /// Whether this binary frame, with the attachments that came so far, has more bytes than the
    /// limit. Where none is awaited it hasn't.
    #[tactic(auto, using(std::proofs::lemmas::List::Sums::sum_by_more_le))]
    pub fn exceeds(&self, bytes: &[u8], limit: usize) -> bool
        ensures { result ≡ exceeds self.now limit (length bytes.now) }
    {
        let Progress::Waiting(packet) = &self.progress else {
            return false;
        };
        let mut left = limit;
        for attachment in packet.attachments.as_slice() {
            left = match left.checked_sub(attachment.as_slice().len()) {
                Some(left) => left,
                None => return true,
            };
        }
        left < bytes.len()
    }

    /// How many bytes the attachments have that came of the packet that isn't whole. It stays at
    /// the greatest usize, and is 0 where none is awaited.
    pub fn held(&self) -> usize
        ensures { result ≡ held self.now }
    {
        let Progress::Waiting(packet) = &self.progress else {
            return 0;
        };
        let mut held: usize = 0;
        for attachment in packet.attachments.as_slice() {
            held = held.saturating_add(attachment.as_slice().len());
        }
        held
    }

    /// Gives the packet where it is whole; else it is kept, and the rest of it awaited.
    fn keep(&mut self, packet: SioPacket) -> Option<SioPacket>
        requires ready { self.old ≡ Progress.Ready }
        requires at_most { length packet.attachments ≤ packet.header.count }
        ensures { GivesOrKeeps packet result self.new }
    {
        if packet.attachments.len() as u32 == packet.header.count {
            return Some(packet);
        }
        self.progress = Progress::Waiting(packet);
        None
    }
}

/// Frames are accepted with one progress and one list of packets at most, and a new assembler has
/// accepted none. It has no effect.
pub fn frames_cut_once()
    ensures once { (frames : List Frame) (packets others : List SioPacket) (one other : Progress)
        → Accepted one frames packets → Accepted other frames others
        → (packets ≡ others) × (one ≡ other) }
    ensures none { Accepted Progress.Ready [] [] }
{}
