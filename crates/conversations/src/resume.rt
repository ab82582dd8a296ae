// A request goes on behind its user's answer.
ghost use Rattle.std.specs.Prelude.{◌≡◌, [], false, true, IfOk, OnErr, OnOk};
ghost use Rattle.roles.specs.Answers.{IsKey};
ghost use Rattle.talks.specs.Calls as c;
ghost use Rattle.talks.specs.Searches.{offered_by};
ghost use Rattle.talks.specs.Standings.{Standing, in_phase, need_in, role_name, says_of, template_of, Seeking};
ghost use Rattle.conversations.specs.Asking.{Answers, IsReady, SameAsks};
ghost use Rattle.conversations.specs.Fits.{Carries, Fits, Resumes, UsesList, searched};

use crate::asks::Asks;
use crate::conversation::Conversation;
use crate::{Phase, phase};
use key_ring::KeyRing;
use std::alloc::Global;
use std::mem;
use talks::{Asking, Said};
use wire_base::{Bytes, List, NoMemory};

impl Conversation {
    /// The user was asked whether a key may be used, and answered: what the request needs of the keys of a ring is searched
    /// for again, where these files are open.
    pub fn consented(
        &mut self,
        alloc: Global,
        agrees: bool,
        ring: &KeyRing,
        asking: Asking,
        asks: &mut Asks,
    ) -> Result<(), NoMemory>
        ensures kept { OnOk result (Resumes self.old self.new (c.Consented agrees)
            asking ring.now) }
        ensures ready { OnOk result (Answers self.old (c.Consented agrees)
            asking ring.now asks.new) }
        ensures asks { SameAsks asks.old asks.new }
        ensures unchanged { OnErr result (self.new ≡ self.old) }
    {
        let Some(serial) = phase::asked_serial(&self.phase) else {
            return Ok(());
        };
        let said = note_answer(alloc, &self.said, serial, agrees)?;
        let before = mem::replace(&mut self.said, said);
        match self.go_on(alloc, ring, asking, asks) {
            Ok(()) => Ok(()),
            Err(NoMemory) => {
                self.said = before;
                Err(NoMemory)
            }
        }
    }

    /// The user was asked for a key, and answered: what the request needs of the keys of a ring is searched for again, where
    /// these files are open.
    pub fn key_told(
        &mut self,
        alloc: Global,
        ring: &KeyRing,
        asking: Asking,
        asks: &mut Asks,
    ) -> Result<(), NoMemory>
        ensures kept { OnOk result (Resumes self.old self.new c.KeyTold asking ring.now) }
        ensures ready { OnOk result (Answers self.old c.KeyTold asking ring.now asks.new) }
        ensures asks { SameAsks asks.old asks.new }
        ensures unchanged { OnErr result (self.new ≡ self.old) }
    {
        if !phase::asks_for_key(&self.phase) {
            return Ok(());
        }
        self.go_on(alloc, ring, asking, asks)
    }

    // What a paused request needs is searched for.
    fn go_on(
        &mut self,
        alloc: Global,
        ring: &KeyRing,
        asking: Asking,
        asks: &mut Asks,
    ) -> Result<(), NoMemory>
        ensures met { OnOk result ((s : Standing) → Carries self.old s → IsKey (need_in s.begun)
            → Fits self.new (searched asking ring.now (in_phase s Seeking))) }
        ensures ready { OnOk result ((s : Standing) → Carries self.old s → IsKey (need_in s.begun)
            → IsReady asking ring.now (searched asking ring.now (in_phase s Seeking)) asks.new) }
        ensures asks { SameAsks asks.old asks.new }
        ensures unchanged { OnErr result (self.new ≡ self.old) }
    {
        let list = self.list_ahead(alloc, ring)?;
        let paused = mem::replace(&mut self.phase, Phase::Seeking);
        match self.search_once(alloc, ring, asking, asks) {
            Ok(()) => {
                self.use_list(list);
                Ok(())
            }
            Err(NoMemory) => {
                self.phase = paused;
                Err(NoMemory)
            }
        }
    }

    // What the keys offer that serve, which a start may need once it has found one. It is made before the role is told of
    // that key, so that nothing has to be taken back.
    fn list_ahead(&self, alloc: Global, ring: &KeyRing) -> Result<Bytes, NoMemory>
        ensures once { IfOk result (λ list. self.now.starting ≡ false → list ≡ []) }
        ensures start { IfOk result (λ list. self.now.starting ≡ true → (s : Standing)
            → Carries self.now s → IsKey (need_in s.begun)
            → list ≡ offered_by (template_of s.begun) (role_name s.begun) ring.now) }
    {
        match &self.begun {
            Some(begun) if self.starting => begun.list_offers(alloc, ring),
            Some(_) | None => Ok(Bytes::new(alloc)),
        }
    }

    // The list is used where offers are needed. Where it is empty a key is needed again for the sake of the offers, the same
    // is found again, and the conversation is where it was.
    fn use_list(&mut self, list: Bytes)
        ensures { UsesList self.old self.new list }
    {
        if list.len() == 0 || !phase::is_seeking(&self.phase) {
            return;
        }
        if let Some(begun) = &mut self.begun {
            self.phase = begun.use_offers(list);
        }
    }
}

// What is known of the user when he has answered: he agrees to the use of a key, or denies it.
fn note_answer(alloc: Global, said: &Said, serial: u64, agrees: bool) -> Result<Said, NoMemory>
    ensures { IfOk result (λ new. new ≡ says_of serial agrees said.now) }
{
    let mut agreed = copy_serials(alloc, &said.agreed)?;
    let mut denied = copy_serials(alloc, &said.denied)?;
    if agrees {
        agreed.push(serial)?;
    } else {
        denied.push(serial)?;
    }
    Ok(Said {
        agreed,
        denied,
        asked: said.asked,
    })
}

fn copy_serials(alloc: Global, serials: &List<u64>) -> Result<List<u64>, NoMemory>
    ensures { IfOk result (λ copy. copy ≡ serials.now) }
{
    let mut copy = List::new(alloc);
    for serial in serials.as_slice() {
        copy.push(*serial)?;
    }
    Ok(copy)
}
