//! An agent that serves many connections: each connection that comes is a job for a spawner, which hands on what is sent
//! to the agent and writes what it replies. Further jobs ask the authentication server, and one answers what the agent
//! asks its user. All of them share one agent, and one history. Beside it the program as a library: its command words,
//! each job as a task of a thread, and what it ends with.
#![tactic(auto)]

mod accept;
mod ending;
mod job;
mod keeping;
mod prompts;
mod spawner;
mod task;
mod waits;
mod words;

pub use accept::{ServeEnd, serve};
pub use agent_hub::{Agent, Hub, HubSeat};
pub use ending::{end_number, print_end};
pub use job::{Job, JobEnd, run_job};
pub use keeping::{Tells, keep_prompting};
pub use prompts::{PromptsEnd, serve_prompts};
pub use spawner::HubSpawner;
pub use task::{Again, Task, Tools};
pub use waits::LineWaits;
pub use words::{ServeWords, read_serve_words};
