//! Who works at a server: its loops, the keeper, and who accepts.

ghost use Rattle.std.specs.Prelude.{◌≡◌, ◌<◌, ◌+◌, IfOk, vec_len};
ghost use Rattle.loop_rules.specs.Ids.{LOOPS};

use crate::base::Base;
use crate::event_loop::EventLoop;
use events::{Answered, Event, IdSource, Peer, PeerFault};
use loop_rules::{LOOPS, marked};
use rand::rngs::StdRng;
use rand::{Rng, make_rng};
use std::alloc::{AllocError, Global};
use std::random::RandomSource;
use std::rt::Clock;
use std::sync::{Arc, Wait};
use std::thread;
use std::thread::{JoinHandle, Threads};
use tcp_streams::{Acceptor, Ears, Log, ServerFault};

/// What a thread of the pool serves.
pub enum Worker<'a, R, L, K, W> {
    Serves(EventLoop<'a, R, L>),
    Keeps(K),
    Wards(W),
}

/// Written out, so that a crate above takes the drop of all that lies in it by this one call.
impl<R: Drop, L, K: Drop, W: Drop> Drop for Worker<'_, R, L, K, W> {
    fn drop(self) {
        match self {
            Worker::Serves(_) | Worker::Keeps(_) | Worker::Wards(_) => {}
        }
    }
}

impl<R: Wait + Clock + Copy + Drop, L: Log, K: Peer, W: Peer> Peer for Worker<'_, R, L, K, W> {
    fn next(&mut self) -> Result<Option<(Event, u64)>, PeerFault> {
        match self {
            Worker::Serves(own) => Ok(own.next()),
            Worker::Keeps(keeper) => keeper.next(),
            Worker::Wards(warden) => warden.next(),
        }
    }

    fn answer(&mut self, got: &Answered) -> Result<(), PeerFault> {
        match self {
            Worker::Serves(own) => {
                own.hear(got);
                Ok(())
            }
            Worker::Keeps(keeper) => keeper.answer(got),
            Worker::Wards(warden) => warden.answer(got),
        }
    }

    fn hear(&mut self, got: Answered) -> Result<(), PeerFault> {
        match self {
            Worker::Serves(own) => {
                own.note(got);
                Ok(())
            }
            Worker::Keeps(keeper) => keeper.answer(&got),
            Worker::Wards(warden) => warden.answer(&got),
        }
    }

    fn has_next(&self) -> bool {
        match self {
            Worker::Serves(own) => own.has_next(),
            _ => false,
        }
    }
}

/// The loops, each with its ears, and the keeper as the last worker.
pub fn workers_for<'a, R: Wait + Clock + Copy + Drop, L: Log, K: Drop, W: Drop>(
    base: &'a Base<'a, R, L>,
    ears: Vec<Ears>,
    keeper: K,
) -> Result<Vec<Worker<'a, R, L, K, W>>, AllocError>
    ensures { IfOk result (λ workers. vec_len workers ≡ vec_len ears + 1) }
{
    let mut workers = Vec::new(base.alloc);
    for own in ears {
        let number = workers.len();
        workers.push(Worker::Serves(EventLoop::new(base, number, own)?))?;
    }
    workers.push(Worker::Keeps(keeper))?;
    Ok(workers)
}

/// Draws ids from a generator of random numbers. All but their ten low bits are as they were drawn;
/// these are the number of a loop. In a contract it is that number, and what the generator answers.
#[derive(Drop)]
pub struct DrawnIds<G> {
    number: u128,
    random: G,
    ghost in_range: { number < LOOPS },
}

impl<G: Rng> IdSource for DrawnIds<G> {
    ghost use Rattle.tcp_loops.specs.Drawn.{drawn_ids};

    ghost stream = { λ d. drawn_ids d.number (G.stream d.random) };

    fn draw(&mut self) -> u128 {
        let high = self.random.next_u64();
        let low = self.random.next_u64();
        marked(high, low, self.number)
    }
}

/// A source of ids for each worker, which begins where the system says.
pub fn sources<R: RandomSource>(
    rt: &R,
    alloc: Global,
    workers: usize,
) -> Result<Vec<DrawnIds<StdRng>>, ServerFault>
    ensures { IfOk result (λ v. vec_len v ≡ workers) }
{
    let mut all = Vec::new(alloc);
    for worker in 0..workers {
        let number = (worker as u128) % LOOPS;
        let random = make_rng::<StdRng, R>(rt)?;
        all.push(DrawnIds { number, random })?;
    }
    Ok(all)
}

/// Accepts in a thread of its own.
pub fn start_accepting<R: Threads + Wait + Clock + Copy + Drop + Send + 'static, L>(
    base: &Base<'_, R, L>,
    mut acceptor: Box<Acceptor>,
) -> Result<JoinHandle<()>, ServerFault> {
    let shared = Arc::try_clone(base.shared)?;
    let handle = *base.rt;
    let accepting = thread::spawn(base.rt, move || acceptor.accept_all(&handle, &shared));
    accepting.map_err(|_| ServerFault::Starting)
}
