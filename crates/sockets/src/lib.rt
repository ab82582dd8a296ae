//! The edge to the system: a dialer that asks one of the authentication servers over TCP or a Unix socket, where the end of
//! an answer is a function of what was asked and of the bytes that came; a listener that accepts connections over
//! TCP or a Unix socket, which only the agent's own user can open; and a spawner that runs each job in a thread of
//! its own.
#![tactic(auto)]

mod accepting;
mod connection;
mod ending;
mod failures;
mod hearing;
mod job;
mod kept;
mod line;
mod listening_socket;
mod sending;
mod servers;
mod socket;
mod spawner;
mod unix;

pub use accepting::SocketListener;
pub use connection::{SocketSink, SocketSource};
pub use ending::answer_length;
pub use failures::{Failures, FailuresOf, Recalls, SharedFailures};
pub use hearing::read_answer;
pub use job::Job;
pub use kept::{Keeps, LinesOf, OwnLines, SharedLines};
pub use line::Line;
pub use sending::send_request;
pub use servers::{AddressFault, MOST_SERVERS, Servers, check_addresses};
pub use socket::TcpDialer;
pub use spawner::{ThreadSpawner, Unstarted};
pub use unix::OpenFault;
