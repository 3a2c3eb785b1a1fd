//! What a round does for the administration address.
ghost use Rattle.std.specs.Prelude.{◌≡◌, ◌-◌, is_some, IsTrue, IsFalse};
ghost use Rattle.slab.specs.Slab.{get};
ghost use Rattle.admin_connections.specs.Desks.{BeginsAt};
ghost use Rattle.admin_pages.specs.Standings.{takes_in};
ghost use Rattle.event_loop.specs.Gauging.{TellsOf, figure_of, usage_in};
ghost use Rattle.open_connections.specs.Opened.{connected_in};
ghost use Rattle.open_connections.specs.Shares.{left_of, limit_of};

use crate::rounds::Rounds;
use admin_connections::PLACES;
use admin_pages::Gauges;
use open_connections::{Journal, LoopCore};
use socket_poll::{Accepted, System, Time};
use tenant_map::{TENANT_LIMIT, Usage};

/// What the tenants hold, in the order of their keys.
#[derive(Clone, Copy)]
struct Held {
    collections: [u64; TENANT_LIMIT],
    documents: [u64; TENANT_LIMIT],
    texts: [u64; TENANT_LIMIT],
    memory: [u64; TENANT_LIMIT],
}

impl<S: System + Drop, C: LoopCore, T: Time + Drop> Rounds<S, C, T> {
    /// Does a step of each connection of the address, accepts new ones, and begins a drain that was asked for.
    pub fn administer<J: Journal>(&mut self, journal: &J)
        ensures opened { self.new.opened ≡ self.old.opened }
        ensures drains { IsTrue (is_some self.new.desk.standing.grace) → IsFalse self.new.acceptor.listens }
    {
        'places: for place in 0..PLACES {
            self.serve_caller(place, journal);
        }
        self.receive();
        self.heed_drain();
    }

    // One step of a connection. A page tells what is so as it begins.
    fn serve_caller<J: Journal>(&mut self, place: usize, journal: &J)
        ensures { self.new.opened ≡ self.old.opened }
    {
        if self.desk.wants_page(place) {
            self.begin_page(place, journal.dropped(), journal.lost());
        }
        self.desk.step(place, self.seconds.last());
    }

    fn begin_page(&mut self, place: usize, dropped: u64, lost: u64)
        ensures opened { self.new.opened ≡ self.old.opened }
        ensures page { (gauges : Gauges) × BeginsAt (C.counted self.old.opened.core) gauges (get self.old.desk.callers place) (get self.new.desk.callers place) }
    {
        let gauges = self.gauges(dropped, lost);
        self.desk.begin_page(place, self.opened.metrics(), &gauges);
    }

    // Accepts connections of the address, as long as there is room.
    fn receive(&mut self)
        ensures { self.new.opened ≡ self.old.opened }
    {
        'callers: for _ in 0..PLACES {
            if !self.receive_one() {
                return;
            }
        }
    }

    // Accepts one, and tells whether another one may wait. Once the server has nothing more to do, it accepts none.
    fn receive_one(&mut self) -> bool
        ensures { self.new.opened ≡ self.old.opened }
    {
        if !self.acceptor.listens && self.opened.count() == 0 {
            return false;
        }
        let Some(key) = self.desk.vacant() else {
            return false;
        };
        match self.system.accept_caller() {
            Accepted::Stream(stream, _) => {
                self.take_caller(key, stream);
                true
            }
            Accepted::Aborted => true,
            Accepted::Blocked | Accepted::Refused => false,
        }
    }

    fn take_caller(&mut self, key: usize, mut stream: S::Stream)
        ensures { self.new.opened ≡ self.old.opened }
    {
        if self.system.watch(&mut stream, key) {
            self.desk.take_in(stream, self.seconds.last());
        }
    }

    // What is so at the moment.
    fn gauges(&self, dropped: u64, lost: u64) -> Gauges
        ensures ready { result.is_ready ≡ takes_in self.now.desk.standing }
        ensures open_ones { result.open ≡ connected_in self.now.opened }
        ensures accepted { result.connections ≡ self.now.acceptor.taken }
        ensures buffered { result.buffered ≡ limit_of self.now.opened.budgets - left_of self.now.opened.budgets }
        ensures most { result.limit ≡ limit_of self.now.opened.budgets }
        ensures bytes_read { result.read ≡ self.now.opened.read }
        ensures bytes_written { result.written ≡ self.now.opened.written }
        ensures collections { TellsOf (λ usage. usage.collections) (usage_in C.held self.now.keys.items self.now.opened.core) 256 result.collections }
        ensures documents { TellsOf (λ usage. usage.documents) (usage_in C.held self.now.keys.items self.now.opened.core) 256 result.documents }
        ensures texts { TellsOf (λ usage. usage.bytes) (usage_in C.held self.now.keys.items self.now.opened.core) 256 result.texts }
    {
        let (buffered, limit) = self.opened.memory();
        let waiting = self.opened.waiting();
        let (read, written) = self.opened.bytes();
        let held = self.held_by_tenants();
        let collections = held.collections;
        let documents = held.documents;
        let texts = held.texts;
        let memory = held.memory;
        let waiting_of = waiting.by_tenant;
        Gauges {
            uptime: self.seconds.last(),
            is_ready: self.desk.standing().takes_in(),
            open: self.opened.count() as u64,
            open_limit: self.limits.connections as u64,
            is_refused: self.acceptor.is_refused,
            waiting: waiting.all,
            buffered: buffered as u64,
            limit: limit as u64,
            connections: self.acceptor.taken,
            read,
            written,
            dropped,
            lost,
            tenants: self.keys.len().min(TENANT_LIMIT),
            collections,
            documents,
            texts,
            memory,
            waiting_of,
        }
    }

    // What each tenant holds, in the order of their keys.
    fn held_by_tenants(&self) -> Held
        ensures collections { TellsOf (λ usage. usage.collections) (usage_in C.held self.now.keys.items self.now.opened.core) 256 result.collections }
        ensures documents { TellsOf (λ usage. usage.documents) (usage_in C.held self.now.keys.items self.now.opened.core) 256 result.documents }
        ensures texts { TellsOf (λ usage. usage.bytes) (usage_in C.held self.now.keys.items self.now.opened.core) 256 result.texts }
    {
        let mut collections = [0u64; TENANT_LIMIT];
        let mut documents = [0u64; TENANT_LIMIT];
        let mut texts = [0u64; TENANT_LIMIT];
        let mut memory = [0u64; TENANT_LIMIT];
        'places: for place in 0..TENANT_LIMIT {
            let (in_collections, in_documents, in_texts) = figures(self.usage_at(place));
            collections[place] = in_collections;
            documents[place] = in_documents;
            texts[place] = in_texts;
            memory[place] = self.memory_at(place);
        }
        Held {
            collections,
            documents,
            texts,
            memory,
        }
    }

    // What the tenant holds whose key is at a place.
    fn usage_at(&self, place: usize) -> Option<Usage>
        ensures { result ≡ usage_in C.held self.now.keys.items self.now.opened.core place }
    {
        self.opened.usage(self.keys.get(place)?)
    }

    // The bytes of memory that its documents take.
    fn memory_at(&self, place: usize) -> u64 {
        match self.keys.get(place) {
            Some(key) => self.opened.memory_of(key),
            None => 0,
        }
    }
}

// The collections, the documents and the bytes of texts of a tenant, and 0 where there is none.
fn figures(usage: Option<Usage>) -> (u64, u64, u64)
    ensures collections { result.0 ≡ figure_of (λ usage. usage.collections) usage }
    ensures documents { result.1 ≡ figure_of (λ usage. usage.documents) usage }
    ensures texts { result.2 ≡ figure_of (λ usage. usage.bytes) usage }
{
    match usage {
        Some(usage) => (
            u64::from(usage.collections),
            u64::from(usage.documents),
            u64::from(usage.bytes),
        ),
        None => (0, 0, 0),
    }
}
