//! Lines from a source to a service, and the service's replies to a sink.
#![tactic(auto)]

mod clock;
mod line;
mod list_clock;
mod mem_sink;
mod mem_source;
mod part;
mod replies;
mod serve;
mod service;
mod sink;
mod source;

pub use clock::Clock;
pub use line::Line;
pub use list_clock::ListClock;
pub use mem_sink::MemSink;
pub use mem_source::MemSource;
pub use serve::{LoopEnd, serve_client};
pub use service::Service;
pub use sink::Sink;
pub use source::Source;
