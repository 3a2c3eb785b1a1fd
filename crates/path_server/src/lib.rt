//! What the program's subcommands do: a query on one text, a script of events on a server in memory, and requests over a wire. Each works from
//! bytes to bytes, and from a reader to a writer.
#![tactic(auto)]

mod call;
mod call_fault;
mod call_streams;
mod exchange;
mod fault;
mod found;
mod frame_lines;
mod keys;
mod laws;
mod lines;
mod pieces;
mod replay;
mod request_lines;
mod script;
mod script_streams;
mod streams;
mod text_lines;
mod texts;

pub use call::call_over;
pub use call_fault::CallFault;
pub use call_streams::{CallStreamFault, call_stream, read_call};
pub use fault::QueryTextFault;
pub use json_tape::TEXT_LIMIT;
pub use keys::{KeysFault, read_keys};
pub use laws::{hits_lead_back, paths_are_answered};
pub use replay::{SCRIPT_LIMIT, ScriptFault, replay_script};
pub use script_streams::{ReplayStreamFault, replay_stream};
pub use streams::{QueryStreamFault, query_stream, query_to};
pub use texts::query_text;
