// A port that answers what rows say, in their order, and notes what it is asked.
use doors::{Port, PortOpen, PortSaid};
use std::alloc::Global;
use std::collections::VecDeque;
use wire_base::{Bytes, NoMemory};

/// What the port answers: to an open, or to a request.
#[derive(Drop)]
pub(crate) enum PortAnswer {
    Open(u64),
    Refused,
    Said(Bytes),
    Gone,
    Roomless,
}

/// The answers that it has left, and what it was asked since that was looked at.
#[derive(Drop)]
pub(crate) struct ListPort {
    alloc: Global,
    answers: VecDeque<PortAnswer>,
    asked: Bytes,
    // Memory ran out for a note.
    is_torn: bool,
}

impl ListPort {
    /// No answers, and nothing was asked.
    pub(crate) fn new(alloc: Global) -> ListPort {
        ListPort {
            alloc,
            answers: VecDeque::new(alloc),
            asked: Bytes::new(alloc),
            is_torn: false,
        }
    }

    /// One answer more that it will give, behind the others.
    pub(crate) fn prepare(&mut self, answer: PortAnswer) -> Result<(), NoMemory> {
        self.answers.push_back(answer).map_err(NoMemory::from)
    }

    /// What it was asked since the last look: `open`, `close N` and `ask N TEXT`, each with a `;` behind it.
    pub(crate) fn take_asked(&mut self) -> Result<Bytes, NoMemory> {
        if self.is_torn {
            return Err(NoMemory);
        }
        Ok(std::mem::replace(&mut self.asked, Bytes::new(self.alloc)))
    }

    fn put_note(&mut self, verb: &str, text: &[u8]) -> Result<(), NoMemory> {
        self.asked.append(verb.as_bytes())?;
        if !text.is_empty() {
            self.asked.push(b' ')?;
            self.asked.append(text)?;
        }
        self.asked.push(b';')
    }

    fn note(&mut self, verb: &str, text: &[u8]) {
        if self.put_note(verb, text).is_err() {
            self.is_torn = true;
        }
    }

    // Notes what is asked of a conversation.
    fn note_of(&mut self, verb: &str, conv: u64, text: &[u8]) {
        match format!(in self.alloc; "{verb} {conv}") {
            Ok(verb) => self.note(verb.as_str(), text),
            Err(_) => self.is_torn = true,
        }
    }
}

impl Port for ListPort {
    // It isn't a port of an agent, so that no calls are told of it.
    ghost Setting = { Unit {0} };

    ghost stands = { λ _ _ _. ⊥ };

    fn open(&mut self) -> PortOpen {
        self.note("open", b"");
        match self.answers.pop_front() {
            Some(PortAnswer::Open(conv)) => PortOpen::Open(conv),
            Some(PortAnswer::Refused) => PortOpen::Refused,
            _ => PortOpen::NoMemory,
        }
    }

    fn close(&mut self, conv: u64) {
        self.note_of("close", conv, b"");
    }

    fn rpc(&mut self, conv: u64, request: &[u8], out: &mut Bytes) -> PortSaid {
        self.note_of("ask", conv, request);
        match self.answers.pop_front() {
            Some(PortAnswer::Said(answer)) => {
                *out = answer;
                PortSaid::Said
            }
            Some(PortAnswer::Gone) => PortSaid::Gone,
            _ => PortSaid::NoMemory,
        }
    }
}
