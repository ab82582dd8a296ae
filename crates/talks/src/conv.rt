// A conversation of any of the protocols.
ghost use Rattle.std.specs.Prelude.{◌≡◌};
ghost use Rattle.talks.specs.Standing.{KeepsOffered, KeepsPicked, TellsOffered, TellsPicked};
ghost use Rattle.talks.specs.ConvMeanings.{meant};
ghost use Rattle.talks.specs.Protocols.{protocol_of};

use attr_tuples::Tuple;
use conv_challenge::ChConv;
use conv_p9any::AnyConv;
use conv_p9sk1::SkConv;
use roles::{Gave, Machine, Need, Outcome, SkKey, StartFault, says};
use std::alloc::Global;
use wire_base::{Bytes, Text};

/// A conversation of any of the protocols. It has no Debug, which would print keys.
#[derive(Drop)]
pub enum Conv {
    P9sk1(SkConv),
    /// A domain of p9sk1 is chosen, and then that is spoken.
    P9any(AnyConv<SkConv>),
    /// APOP or CRAM.
    Mail(ChConv),
}

// The protocols that a template may name.
#[derive(Clone, Copy)]
enum Protocol {
    P9sk1,
    P9any,
    Mail,
}

// The protocol of a template.
#[tactic(auto, unfolding(crate::specs::Protocols::protocol_of))]
fn find_protocol(template: &Tuple) -> Protocol
    ensures { meant result ≡ protocol_of template.now }
{
    let proto = b"proto".as_slice();
    if says(template, proto, b"p9any".as_slice()) {
        Protocol::P9any
    } else if says(template, proto, b"apop".as_slice())
        || says(template, proto, b"cram".as_slice())
    {
        Protocol::Mail
    } else {
        Protocol::P9sk1
    }
}

impl Conv {
    /// The list of what keys offer came, where it is needed; it is empty where no key serves. It takes no memory.
    pub fn with_offers(&mut self, list: Bytes) -> Gave
        ensures told { TellsOffered self.old result list }
        ensures kept { KeepsOffered self.old self.new list }
    {
        match self {
            Conv::P9any(machine) => machine.with_offers(list),
            Conv::P9sk1(_) | Conv::Mail(_) => Gave::Wait,
        }
    }

    /// The place of a template was picked, where a pick is needed. It takes no memory.
    pub fn with_pick(&mut self, place: u32) -> Gave
        ensures told { TellsPicked self.old result place }
        ensures kept { KeepsPicked self.old self.new place }
    {
        match self {
            Conv::P9any(machine) => machine.with_pick(place),
            Conv::P9sk1(_) | Conv::Mail(_) => Gave::Wait,
        }
    }
}

impl Machine for Conv {
    ghost use Rattle.talks.specs.Protocols.{answers, ends, has_ended, needs, puts, refuses};
    ghost use Rattle.talks.specs.Standing.{Stands};

    ghost refuses = { refuses };

    ghost answers = { answers };

    ghost puts = { puts };

    ghost needs = { needs };

    ghost ends = { ends };

    ghost ended = { has_ended };

    ghost stands = { Stands };

    fn start(alloc: Global, template: &Tuple, word: [u8; 8]) -> Result<Conv, StartFault> {
        match find_protocol(template) {
            Protocol::P9sk1 => Ok(Conv::P9sk1(SkConv::start(alloc, template, word)?)),
            Protocol::Mail => Ok(Conv::Mail(ChConv::start(alloc, template, word)?)),
            Protocol::P9any => Ok(Conv::P9any(AnyConv::start(alloc, template, word)?)),
        }
    }

    fn give(&mut self, alloc: Global, bytes: &[u8]) -> Gave {
        match self {
            Conv::P9sk1(machine) => machine.give(alloc, bytes),
            Conv::P9any(machine) => machine.give(alloc, bytes),
            Conv::Mail(machine) => machine.give(alloc, bytes),
        }
    }

    fn get(&mut self, out: &mut Bytes) -> Gave {
        match self {
            Conv::P9sk1(machine) => machine.get(out),
            Conv::P9any(machine) => machine.get(out),
            Conv::Mail(machine) => machine.get(out),
        }
    }

    fn need(&self) -> &Need {
        match self {
            Conv::P9sk1(machine) => machine.need(),
            Conv::P9any(machine) => machine.need(),
            Conv::Mail(machine) => machine.need(),
        }
    }

    fn with_key(&mut self, alloc: Global, key: &SkKey, password: Option<&Text>) -> Gave {
        match self {
            Conv::P9sk1(machine) => machine.with_key(alloc, key, password),
            Conv::P9any(machine) => machine.with_key(alloc, key, password),
            Conv::Mail(machine) => machine.with_key(alloc, key, password),
        }
    }

    fn with_answer(&mut self, alloc: Global, answer: &[u8]) -> Gave {
        match self {
            Conv::P9sk1(machine) => machine.with_answer(alloc, answer),
            Conv::P9any(machine) => machine.with_answer(alloc, answer),
            Conv::Mail(machine) => machine.with_answer(alloc, answer),
        }
    }

    fn without_answer(&mut self) -> Gave {
        match self {
            Conv::P9sk1(machine) => machine.without_answer(),
            Conv::P9any(machine) => machine.without_answer(),
            Conv::Mail(machine) => machine.without_answer(),
        }
    }

    fn without_room(&mut self) -> Gave {
        match self {
            Conv::P9sk1(machine) => machine.without_room(),
            Conv::P9any(machine) => machine.without_room(),
            Conv::Mail(machine) => machine.without_room(),
        }
    }

    fn undo_need(&mut self) {
        match self {
            Conv::P9sk1(machine) => machine.undo_need(),
            Conv::P9any(machine) => machine.undo_need(),
            Conv::Mail(machine) => machine.undo_need(),
        }
    }

    fn outcome(&self) -> Outcome {
        match self {
            Conv::P9sk1(machine) => machine.outcome(),
            Conv::P9any(machine) => machine.outcome(),
            Conv::Mail(machine) => machine.outcome(),
        }
    }

    fn has_ended(&self) -> bool {
        match self {
            Conv::P9sk1(machine) => machine.has_ended(),
            Conv::P9any(machine) => machine.has_ended(),
            Conv::Mail(machine) => machine.has_ended(),
        }
    }
}
