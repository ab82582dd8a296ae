// A machine that stands for the inner role: it needs nothing, each call is answered Ok, and what is got is the word of
// the start.

use attr_tuples::Tuple;
use roles::{Gave, Machine, Need, Offered, Outcome, SkKey, StartFault};
use std::alloc::Global;
use wire_base::{Bytes, Text};

#[derive(Drop)]
pub(crate) struct Probe {
    word: [u8; 8],
    need: Need,
}

impl Machine for Probe {
    ghost use Rattle.std.specs.Prelude.{◌≡◌, None, false};
    ghost use Rattle.roles.specs.declared.answer.Gave.TheVariants as g;
    ghost use Rattle.roles.specs.declared.need.Need.TheVariants.{Nothing};
    ghost use Rattle.roles.specs.declared.need.Outcome.TheVariants.{Running};

    ghost refuses = { λ template. None };

    ghost answers = { λ start talk call. g.Ok };

    ghost puts = { λ start talk call. start.word };

    ghost needs = { λ start talk. Nothing };

    ghost ends = { λ start talk. Running };

    ghost ended = { λ start talk. false };

    ghost stands = { λ probe start talk. (probe.word ≡ start.word) × (probe.need ≡ Nothing) };

    fn start(alloc: Global, template: &Tuple, word: [u8; 8]) -> Result<Probe, StartFault> {
        Ok(Probe {
            word,
            need: Need::Nothing,
        })
    }

    fn give(&mut self, alloc: Global, bytes: &[u8]) -> Gave {
        Gave::Ok
    }

    fn get(&mut self, out: &mut Bytes) -> Gave {
        match out.append(&self.word) {
            Ok(()) => Gave::Ok,
            Err(_) => Gave::NoMemory,
        }
    }

    fn need(&self) -> &Need {
        &self.need
    }

    fn with_key(&mut self, alloc: Global, key: &SkKey, password: Option<&Text>) -> Gave {
        Gave::Ok
    }

    fn with_answer(&mut self, alloc: Global, answer: &[u8]) -> Gave {
        Gave::Ok
    }

    fn without_answer(&mut self) -> Gave {
        Gave::Ok
    }

    fn without_room(&mut self) -> Gave {
        Gave::Ok
    }

    fn undo_need(&mut self) {}

    fn outcome(&self) -> Outcome {
        Outcome::Running
    }

    fn has_ended(&self) -> bool {
        false
    }
}

impl Offered for Probe {
    ghost use Rattle.std.specs.Prelude.{codes, refl};
    ghost use Rattle.roles.proofs.ValueLemmas.{protocol_is_value};

    ghost protocol = { codes "p9sk1" };

    fn protocol_name() -> &'static [u8] {
        b"p9sk1".as_slice()
    }

    ghost valid = { protocol_is_value };

    ghost starts = { λ template meets. refl };

    ghost seeks = { record {
      never_offers = λ start talk wants. wants;
      never_picks = λ start talk wants. wants;
      undone_needs = λ start talk call none sought. refl;
      found_needs = λ start talk key password wants. refl;
      heard_needs = λ start talk bytes exchange. refl;
      unheard_needs = λ start talk exchange. refl;
      roomless_needs = λ start talk exchange. refl;
      unheard_tells = λ start talk exchange. absurd exchange;
      roomless_tells = λ start talk exchange. absurd exchange;
    } };
}
