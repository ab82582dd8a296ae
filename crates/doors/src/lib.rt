//! A file server that asks an agent who its users are: what it asks of the agent, through a port, what its fids name, and what
//! each request of a connection is answered by the history of frames and of the port's answers; and the door, which answers
//! each frame so.
#![tactic(auto)]

mod asking;
mod connection;
mod door;
mod fid;
mod fids;
mod file;
mod file_requests;
mod laws;
mod port;
mod port_requests;
mod reading;
mod refusal;
mod serve;
mod tests;

pub use door::Door;
pub use fid::{AuthFid, FileFid, Held, Names};
pub use file::DoorFile;
pub use laws::attaches_are_vouched_for;
pub use port::{Port, PortOpen, PortSaid};
