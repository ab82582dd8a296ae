//! Tests of what needs threads, real sockets or jobs: the turn lock and its bells, the hub and its loops, a file server that
//! asks its agent, the jobs of an agent that serves, an authentication server that holds its answer or notes what it answers,
//! the dialer and the listener over sockets.
#![tactic(auto)]

#[cfg(test)]
mod accepted;
#[cfg(test)]
mod bell_counts;
#[cfg(test)]
mod chains;
#[cfg(test)]
mod clients;
#[cfg(test)]
mod dialed;
#[cfg(test)]
mod expect;
#[cfg(test)]
mod heard;
#[cfg(test)]
mod held_answers;
#[cfg(test)]
mod hub;
#[cfg(test)]
mod jobs;
#[cfg(test)]
mod lengths;
#[cfg(test)]
mod limited;
#[cfg(test)]
mod listened;
#[cfg(test)]
mod noted;
#[cfg(test)]
mod serve_tasks;
#[cfg(test)]
mod spawned;
#[cfg(test)]
mod threads;
#[cfg(test)]
mod turns;
