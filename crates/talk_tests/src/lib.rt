//! Tests of conversations: their searches and requests, the questions that they ask, what the log tells, and the replies.
#![tactic(auto)]

#[cfg(test)]
mod asked;
#[cfg(test)]
mod connections;
#[cfg(test)]
mod expect;
#[cfg(test)]
mod logged;
#[cfg(test)]
mod questions;
#[cfg(test)]
mod reads;
#[cfg(test)]
mod replies;
#[cfg(test)]
mod requests;
#[cfg(test)]
mod rings;
#[cfg(test)]
mod searches;
