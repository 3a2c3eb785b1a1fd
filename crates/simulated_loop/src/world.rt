//! The system, its peers, and a run.

ghost use Rattle.std.specs.Prelude.{Some, false};
ghost use Rattle.event_loop.specs.Servers.{lanes_in};
ghost use Rattle.hub_server.specs.Measuring.{hub_steps};
ghost use Rattle.hub_server.specs.Looping.{AreServed};

use event_loop::{
    Accepted, Ending, Held, Journal, LEAST_MEMORY, Limits, Report, Server, System, Time, Totals,
    Woken,
};
use hub_core::HubCore;
use hub_server::{MeasuredHub, rounds_join, step};
use path_hub::Hub;
use simulated_peers::{Chance, End, Peer, Pipe, Shared, TENANTS, Tally, Times, key_of};
use std::alloc::{AllocError, Global};
use std::cell::{Cell, RefCell};
use std::fmt;
use std::io::ErrorKind;
use std::net::{Ipv4Addr, SocketAddr, SocketAddrV4};
use std::time::Duration;

/// The milliseconds of a round.
const ROUND: u64 = 20;

/// The rounds of a second.
const SECOND: u64 = 50;

/// The most rounds in which all connections are closed whose peers have left.
const PATIENCE: u64 = 6_000;

/// Memory for which nobody ever waits, and the rounds in which a reply has come then.
const AMPLE: usize = 1 << 40;

const SWIFT: u64 = 300;

/// The most reports of one wait.
const REPORTS: usize = 1_024;

/// After so many looks at the clock it goes on by some time at once, as behind a request that took long.
const LOOKS: u64 = 100_003;

/// That time, in milliseconds.
const LEAP: u64 = 1_500;

/// The factor by which names are hashed: any number does.
const FACTOR: u64 = 1_234_567_891;

/// What came of a run.
#[derive(Clone, Copy, Default)]
pub struct Outcome {
    pub rounds: u64,
    /// The most rounds that one that goes on may wait for a reply.
    pub most: u64,
    /// The reads and writes of the server.
    pub calls: u64,
    pub tally: Tally,
    /// Behind the rounds all peers left, and then one was answered that asked for the longest reply.
    pub is_settled: bool,
    /// A growth was refused, or the server ended.
    pub is_short: bool,
}

impl Outcome {
    /// Whether all went as it must.
    pub fn is_good(&self) -> bool {
        let tally = &self.tally;
        self.is_settled
            && !self.is_short
            && tally.differ == 0
            && tally.closed == 0
            && tally.waited < self.most
    }
}

impl fmt::Display for Outcome {
    fn fmt<W: fmt::Write>(&self, f: &mut fmt::Formatter<W>) -> fmt::Result {
        let tally = &self.tally;
        write!(f, "{} rounds, {} calls", self.rounds, self.calls)?;
        write!(f, ", {} connections", tally.opened)?;
        write!(f, ", {} closed that stalled", tally.stalled)?;
        write!(f, ", {} that went on", tally.closed)?;
        write!(f, ", {} replies, {} differ", tally.replies, tally.differ)?;
        write!(f, ", {} refused", tally.refused)?;
        write!(f, ", waited {} rounds of {}", tally.waited, self.most)?;
        if !self.is_settled {
            write!(f, ", memory is held that nobody holds")?;
        }
        if self.is_short {
            write!(f, ", no memory")?;
        }
        Ok(())
    }
}

/// A clock that a run holds: its milliseconds, and how often it was looked at.
#[derive(Clone, Copy, Drop)]
struct Watch<'w> {
    millis: &'w Cell<u64>,
    looks: &'w Cell<u64>,
}

impl Time for Watch<'_> {
    fn now(&self) -> Option<Duration> {
        let looks = self.looks.get().saturating_add(1);
        self.looks.set(looks);
        if looks % LOOKS == 0 {
            self.millis.set(self.millis.get().saturating_add(LEAP));
        }
        Some(Duration::from_millis(self.millis.get()))
    }
}

/// A system of pipes.
#[derive(Drop)]
struct Pipes<'w> {
    alloc: Global,
    pipes: &'w [RefCell<Pipe>],
    chance: Chance,
    millis: &'w Cell<u64>,
    // How many were watched.
    watched: u64,
    // Where the next wait and the next accept begin to look.
    waits_from: usize,
    accepts_from: usize,
    // An accept was asked for since the last wait.
    has_tried: bool,
    reports: Vec<Report>,
}

impl<'w> Pipes<'w> {
    // Notes what is to be reported of a pipe.
    fn note_pipe(&mut self, place: usize) {
        let Some(mut pipe) = borrow(self.pipes, place) else {
            return;
        };
        if let Some(report) = pipe.report() {
            let _ = self.reports.push(report);
        }
    }

    // The next pipe that asks.
    fn next_asking(&mut self) -> Option<usize> {
        let count = self.pipes.len();
        'pipes: for step in 0..count {
            let place = self.accepts_from.saturating_add(step) % count.max(1);
            if is_asking(self.pipes, place) {
                self.accepts_from = place.saturating_add(1);
                return Some(place);
            }
        }
        None
    }
}

fn is_asking(pipes: &[RefCell<Pipe>], place: usize) -> bool {
    match borrow(pipes, place) {
        Some(pipe) => pipe.is_asking,
        None => false,
    }
}

fn borrow(pipes: &[RefCell<Pipe>], place: usize) -> Option<std::cell::RefMut<'_, Pipe>> {
    pipes.get(place)?.try_borrow_mut().ok()
}

impl<'w> System for Pipes<'w> {
    type Stream = End<'w>;

    ghost tried = { λ pipes. Some pipes.has_tried };

    ghost failed = { λ _. Some false };

    fn wait(&mut self, _most: Duration) -> Result<Woken, ErrorKind> {
        self.reports.clear();
        let count = self.pipes.len();
        let from = self.waits_from;
        'pipes: for step in 0..count {
            if self.reports.len() >= REPORTS {
                break 'pipes;
            }
            let place = from.saturating_add(step) % count.max(1);
            self.note_pipe(place);
            self.waits_from = place.saturating_add(1);
        }
        self.has_tried = false;
        Ok(Woken {
            is_asked: true,
            is_closed: false,
        })
    }

    fn report(&self, number: usize) -> Option<Report> {
        self.reports.get(number).copied()
    }

    fn accept(&mut self) -> Accepted<End<'w>> {
        let asking = self.next_asking();
        self.has_tried = true;
        if self.chance.once_in(50) {
            return Accepted::Refused;
        }
        let Some(place) = asking else {
            return Accepted::Blocked;
        };
        let Some(pipe) = self.pipes.get(place) else {
            return Accepted::Blocked;
        };
        if let Ok(mut pipe) = pipe.try_borrow_mut() {
            pipe.is_asking = false;
        }
        let end = End::new(self.alloc, pipe, self.millis);
        if self.chance.once_in(50) {
            return Accepted::Aborted;
        }
        let port = u16::try_from(place).unwrap_or(u16::MAX);
        let peer = SocketAddrV4::new(Ipv4Addr::LOCALHOST, port);
        Accepted::Stream(end, SocketAddr::V4(peer))
    }

    fn watch(&mut self, stream: &mut End<'w>, key: usize) -> bool {
        if self.chance.once_in(50) {
            return false;
        }
        if !stream.watch(key, self.watched) {
            return false;
        }
        self.watched = self.watched.saturating_add(1);
        true
    }

    fn local_addr(&self) -> Result<SocketAddr, ErrorKind> {
        Err(ErrorKind::Unsupported)
    }
}

/// A journal that notes how each connection ended, where it is told so under its number. One that was refused memory as it came has none.
#[derive(Drop)]
struct Ends<'w> {
    pipes: &'w [RefCell<Pipe>],
    is_scarce: bool,
}

impl Journal for Ends<'_> {
    fn ended(&mut self, ending: &Ending) {
        let place = usize::from(ending.peer.port());
        if let Some(mut pipe) = borrow(self.pipes, place) {
            if self.is_scarce || pipe.number == ending.number {
                pipe.how = Some(ending.how);
            }
        }
    }

    fn counted(&mut self, _totals: &Totals) {}

    fn tell_held(&mut self, _limit: Held, _totals: &Totals) {}

    fn ticked(&mut self) {}
}

/// What all parts of a run share.
#[derive(Clone, Copy, Drop)]
struct Room<'w> {
    pipes: &'w [RefCell<Pipe>],
    millis: &'w Cell<u64>,
    looks: &'w Cell<u64>,
}

/// The numbers of the command line.
#[derive(Clone, Copy)]
pub struct Words {
    pub seed: u64,
    pub peers: usize,
    pub rounds: u64,
    pub is_scarce: bool,
}

/// A run of so many peers for so many rounds.
pub fn run<R: Print + AllocGlobal>(rt: &R, words: Words) -> Outcome {
    let mut outcome = Outcome::default();
    if simulate(rt, words, &mut outcome).is_err() {
        outcome.is_short = true;
    }
    outcome
}

fn simulate<R: Print + AllocGlobal>(
    rt: &R,
    words: Words,
    outcome: &mut Outcome,
) -> Result<(), AllocError> {
    let pipes = new_pipes(rt.alloc(), words.peers)?;
    let (millis, looks) = (Cell::new(0), Cell::new(0));
    let room = Room {
        pipes: pipes.as_slice(),
        millis: &millis,
        looks: &looks,
    };
    simulate_in(rt, room, words, outcome)
}

fn new_pipes(alloc: Global, count: usize) -> Result<Vec<RefCell<Pipe>>, AllocError> {
    let mut pipes = Vec::new(alloc);
    'pipes: for _ in 0..count {
        pipes.push(RefCell::new(Pipe::new(alloc)))?;
    }
    Ok(pipes)
}

// One more than there are pipes: the last one comes when all others have left.
fn new_peers(alloc: Global, count: usize) -> Result<Vec<Peer>, AllocError> {
    let mut peers = Vec::new(alloc);
    'peers: for place in 0..count.saturating_add(1) {
        peers.push(Peer::new(alloc, place))?;
    }
    Ok(peers)
}

fn simulate_in<R: Print + AllocGlobal>(
    rt: &R,
    room: Room<'_>,
    words: Words,
    outcome: &mut Outcome,
) -> Result<(), AllocError> {
    let mut chance = Chance(words.seed);
    let count = words.peers;
    let limits = any_limits(&mut chance, count);
    outcome.most = patience(&limits, count);
    let mut shared = Shared {
        chance,
        times: Times {
            idle: limits.idle.map(|seconds| seconds.saturating_mul(1_000)),
            spare: limits.spare.saturating_mul(1_000),
            frame_time: limits.frame_time.saturating_mul(1_000),
        },
        tally: outcome.tally,
        is_scarce: words.is_scarce,
    };
    let mut peers = new_peers(rt.alloc(), count)?;
    let done = go_on(
        rt,
        room,
        words,
        &limits,
        peers.as_mut_slice(),
        &mut shared,
        outcome,
    );
    outcome.tally = shared.tally;
    done
}

fn go_on<R: Print + AllocGlobal>(
    rt: &R,
    room: Room<'_>,
    words: Words,
    limits: &Limits,
    peers: &mut [Peer],
    shared: &mut Shared,
    outcome: &mut Outcome,
) -> Result<(), AllocError> {
    let mut stage = staged(rt.alloc(), room, &words, limits)?;
    stage.run(rt, peers, words.rounds, shared, outcome)
}

/// A server, its pipes and its clock.
#[derive(Drop)]
struct Stage<'w> {
    server: Box<Server<Pipes<'w>, MeasuredHub, Watch<'w>>>,
    ends: Ends<'w>,
    room: Room<'w>,
}

impl<'w> Stage<'w> {
    // So many rounds, and then all leave, and the last one comes. All that is served in them is served as in one.
    fn run<R: Print>(
        &mut self,
        rt: &R,
        peers: &mut [Peer],
        rounds: u64,
        shared: &mut Shared,
        outcome: &mut Outcome,
    ) -> Result<(), AllocError>
        ensures { AreServed (lanes_in hub_steps self.old.server.value) (lanes_in hub_steps self.new.server.value) }
    {
        rounds_join();
        self.play(rt, peers, rounds, shared, outcome)?;
        outcome.calls = calls_of(self.room.pipes);
        quit_all(peers, self.room.pipes);
        outcome.is_settled = self.settle(peers, shared)?;
        Ok(())
    }

    // So many rounds.
    fn play<R: Print>(
        &mut self,
        rt: &R,
        peers: &mut [Peer],
        rounds: u64,
        shared: &mut Shared,
        outcome: &mut Outcome,
    ) -> Result<(), AllocError>
        ensures { AreServed (lanes_in hub_steps self.old.server.value) (lanes_in hub_steps self.new.server.value) }
    {
        rounds_join();
        'rounds: for round in 0..rounds {
            outcome.rounds = round.saturating_add(1);
            play_round(peers, self.room.pipes, shared);
            print_mark(rt, shared.is_scarce);
            let done = self.step();
            print_mark(rt, shared.is_scarce);
            done?;
        }
        Ok(())
    }

    // All have left, and one comes that asks for all its texts: for the longest reply there is room only where nobody holds memory any more. Whether
    // it came.
    fn settle(&mut self, peers: &mut [Peer], shared: &mut Shared) -> Result<bool, AllocError>
        ensures { AreServed (lanes_in hub_steps self.old.server.value) (lanes_in hub_steps self.new.server.value) }
    {
        rounds_join();
        'rounds: for _ in 0..PATIENCE {
            self.step()?;
            if others_closed(self.room.pipes) && ask(peers, self.room.pipes, shared) {
                return Ok(true);
            }
        }
        Ok(false)
    }

    // One round of the server.
    fn step(&mut self) -> Result<(), AllocError>
        ensures { AreServed (lanes_in hub_steps self.old.server.value) (lanes_in hub_steps self.new.server.value) }
    {
        let millis = self.room.millis;
        millis.set(millis.get().saturating_add(ROUND));
        match step(&mut self.server, &mut self.ends) {
            Ok(()) => Ok(()),
            Err(_) => Err(AllocError),
        }
    }
}

// A line of standard output: growths are refused between an odd one and the next.
fn print_mark<R: Print>(rt: &R, is_scarce: bool) {
    if is_scarce {
        let _ = println!(rt; "round");
    }
}

// One round of each peer.
fn play_round(peers: &mut [Peer], pipes: &[RefCell<Pipe>], shared: &mut Shared) {
    'each: for (peer, cell) in peers.iter_mut().zip(pipes.iter()) {
        if let Ok(mut pipe) = cell.try_borrow_mut() {
            peer.round(&mut pipe, shared);
        }
    }
}

fn quit_all(peers: &mut [Peer], pipes: &[RefCell<Pipe>]) {
    'each: for (peer, cell) in peers.iter_mut().zip(pipes.iter()) {
        if let Ok(mut pipe) = cell.try_borrow_mut() {
            peer.quit(&mut pipe);
        }
    }
}

// One round of the last one, and whether its reply came.
fn ask(peers: &mut [Peer], pipes: &[RefCell<Pipe>], shared: &mut Shared) -> bool {
    let Some(last) = peers.last_mut() else {
        return false;
    };
    match borrow(pipes, pipes.len().saturating_sub(1)) {
        Some(mut pipe) => last.end(&mut pipe, shared),
        None => false,
    }
}

// Whether each pipe but the last one is closed.
fn others_closed(pipes: &[RefCell<Pipe>]) -> bool {
    'pipes: for place in 0..pipes.len().saturating_sub(1) {
        if let Some(pipe) = borrow(pipes, place) {
            if !pipe.is_closed {
                return false;
            }
        }
    }
    true
}

fn calls_of(pipes: &[RefCell<Pipe>]) -> u64 {
    let mut sum = 0u64;
    'pipes: for place in 0..pipes.len() {
        if let Some(pipe) = borrow(pipes, place) {
            sum = sum.saturating_add(pipe.calls);
        }
    }
    sum
}

// The rounds in which a reply has come. Where memory is not ample, those that hold it and do not go on do so for --frame-time at most. They are
// the deaf, and of the silent and the dripping ones the half that sends a long text: one in twelve, and by chance one in eight.
fn patience(limits: &Limits, peers: usize) -> u64 {
    if limits.memory >= AMPLE {
        return SWIFT;
    }
    let holders = (peers / 8) as u64;
    let seconds = limits.frame_time.saturating_add(2);
    holders
        .saturating_add(2)
        .saturating_mul(seconds)
        .saturating_mul(SECOND)
}

// The limits of a run of so many peers: ample ones, or often less connections than peers, and the least memory or a little more.
fn any_limits(chance: &mut Chance, peers: usize) -> Limits {
    let (kind, fewer) = (chance.below(6), peers.saturating_sub(peers / 4).max(1));
    Limits {
        connections: if kind > 3 { fewer } else { peers },
        memory: match kind {
            0 | 1 | 2 => AMPLE,
            3 | 4 => LEAST_MEMORY,
            _ => LEAST_MEMORY.saturating_add(8_000_000),
        },
        idle: if chance.once_in(2) {
            Some(chance.below(20).saturating_add(20))
        } else {
            None
        },
        stall: chance.below(6).saturating_add(5),
        frame_time: chance.below(20).saturating_add(10),
        spare: chance.below(6).saturating_add(5),
    }
}

// A server over these pipes.
fn staged<'w>(
    alloc: Global,
    room: Room<'w>,
    words: &Words,
    limits: &Limits,
) -> Result<Stage<'w>, AllocError> {
    let Some(hub) = hub(alloc) else {
        return Err(AllocError);
    };
    match server(alloc, room, words.seed, limits, hub) {
        Some(server) => Ok(Stage {
            server: Box::new(alloc, server)?,
            ends: Ends {
                pipes: room.pipes,
                is_scarce: words.is_scarce,
            },
            room,
        }),
        None => Err(AllocError),
    }
}

fn server<'w>(
    alloc: Global,
    room: Room<'w>,
    seed: u64,
    limits: &Limits,
    hub: Hub,
) -> Option<Server<Pipes<'w>, MeasuredHub, Watch<'w>>> {
    let mut reports = Vec::new(alloc);
    reports.reserve(REPORTS).ok()?;
    let system = Pipes {
        alloc,
        pipes: room.pipes,
        chance: Chance(seed.wrapping_add(1)),
        millis: room.millis,
        watched: 0,
        waits_from: 0,
        accepts_from: 0,
        has_tried: false,
        reports,
    };
    let watch = Watch {
        millis: room.millis,
        looks: room.looks,
    };
    let core = MeasuredHub::new(HubCore::new(alloc, hub, FACTOR));
    Server::over(alloc, system, watch, watch, core, *limits).ok()
}

// A hub in which each tenant has its key.
fn hub(alloc: Global) -> Option<Hub> {
    let mut keys = [[0; 16]; TENANTS];
    'keys: for (place, key) in keys.iter_mut().enumerate() {
        *key = key_of(place);
    }
    Hub::new(alloc, &keys).ok()
}
