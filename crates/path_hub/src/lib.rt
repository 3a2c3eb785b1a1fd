//! A server in memory: the sessions of many connections, all tenants, and one request at a time. [`run`] has the main theorem.
#![tactic(auto)]

mod event;
mod fault;
mod hub;
mod laws;
mod memory_wire;
mod sending;
mod serving;
mod sharing;
mod step;
mod tasks;
mod wire;

pub use event::{Event, Reply};
pub use fault::{ConnectFault, HubFault, RunFault, TakeFault};
pub use hub::{Hub, run};
pub use laws::{
    cuts_do_not_matter, runs_apart, served_bytes, sessions_stand_in_streams, work_is_left,
};
pub use memory_wire::{Call, MemoryWire, Moved};
pub use serving::serve_connection;
pub use sharing::place_asked;
pub use tasks::{Advance, READINGS, Reading, Tasks};
pub use wire::{ConnEnd, Wire, WireFault, write_all};
