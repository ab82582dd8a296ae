// A conversation that was started: the machine of its role, its template, and its key once it has one.
ghost use Rattle.std.specs.Prelude.{◌≡◌, ◌∷◌, [], codes, IfOk, IfSome, OnErr, Some, option_map, length, nat_le, true, if◌then◌else◌};
ghost use Rattle.attr_tuples.specs.Forms.{is_dom, is_user};
ghost use Rattle.attr_tuples.specs.Matching.{value_of};
ghost use Rattle.attr_tuples.specs.Merging.{merged};
ghost use Rattle.roles.specs.declared.need.Need.TheVariants.{Nothing};
ghost use Rattle.roles.specs.Answers.{IsKey, IsOffers, IsPick};
ghost use Rattle.roles.specs.Talks.{Call as Move, get, give, heard, offered, picked, roomless, undone, unheard};
ghost use Rattle.talks.specs.Answers.{attributes, info_answer, key_attrs, move_answer, text_or_none, told_key};
ghost use Rattle.talks.specs.Protocols.{answers, ends, has_ended, needs, puts};
ghost use Rattle.talks.specs.Standings.{Begun as Beginning, chosen_for, kept_key, role_in, template_in, told_of_key, with_move};
ghost use Rattle.conversations.specs.Begins.{Becomes, IsBegun, IsOfferedBy, IsPickedBy, MoveTo, Moves};
ghost use Rattle.conversations.specs.Shown.{asked_in, exchange_in, wanted_in};

use crate::answer::{answer_info, answer_move};
use crate::machine::{get_message, give_answer, give_key, give_message};
use crate::phase::{Phase, choose_phase};
use attr_tuples::{MergeFault, Tuple, merge, value_of};
use key_ring::{Key, KeyRing};
use roles::{Gave, Machine, Need, Outcome, SkKey};
use std::alloc::Global;
use talks::{Conv, RpcAnswer, pick_template};
use wire_base::{Bytes, Name, NoMemory, Shape, Text};

/// A conversation that was started. It has no Debug, which would print its key.
#[derive(Drop)]
pub struct Begun {
    pub machine: Conv,
    pub template: Tuple,
    /// The key that was chosen.
    pub key: Option<Key>,
}

/// What is needed of those things that are searched for among keys.
#[derive(Clone, Copy, Debug, PartialEq, Eq)]
pub enum Wanted {
    Nothing,
    Key,
    Offers,
    Pick,
}

impl Begun {
    // The phase behind a move that was answered so. A key that opens nothing is shown so.
    fn phase_behind(&self, done: RpcAnswer, gave: Gave, shown: Tuple) -> Phase
        requires { shown ≡ key_attrs self.now.key }
        ensures { (b : Beginning) → IsBegun self.now b
            → MoveTo result b (move_answer done b.key gave) }
    {
        choose_phase(self.machine.need(), answer_move(done, gave, shown))
    }

    // A copy of the attributes of the key that was chosen, which are shown where it opens nothing.
    fn copy_shown(&self, alloc: Global) -> Result<Tuple, NoMemory>
        ensures { IfOk result (λ shown. shown ≡ key_attrs self.now.key) }
    {
        match &self.key {
            Some(key) => key.tuple().copy(),
            None => Ok(Tuple::new(alloc)),
        }
    }

    /// The phase behind a start.
    pub fn begin(&self) -> Phase
        ensures { (b : Beginning) → IsBegun self.now b → MoveTo result b RpcAnswer.Ok }
    {
        choose_phase(self.machine.need(), RpcAnswer::Ok)
    }

    /// A message is given.
    pub fn write(&mut self, alloc: Global, message: &[u8]) -> Result<Phase, NoMemory>
        ensures moves { IfOk result (λ phase. Moves self.old self.new phase (give message.now)) }
        ensures unchanged { OnErr result (self.new ≡ self.old) }
    {
        let shown = self.copy_shown(alloc)?;
        let gave = give_message(&mut self.machine, alloc, message)?;
        Ok(self.phase_behind(RpcAnswer::Ok, gave, shown))
    }

    /// A message is got.
    pub fn read(&mut self, alloc: Global) -> Result<Phase, NoMemory>
        ensures moves { IfOk result (λ phase. (b : Beginning) → IsBegun self.old b
            → Becomes self.new phase (with_move b get)
            (move_answer (RpcAnswer.Got (puts b.start b.moves get)) b.key
            (answers b.start b.moves get))) }
        ensures unchanged { OnErr result (self.new ≡ self.old) }
    {
        let shown = self.copy_shown(alloc)?;
        let mut out = Bytes::new(alloc);
        let gave = get_message(&mut self.machine, &mut out)?;
        Ok(self.phase_behind(RpcAnswer::Got(out), gave, shown))
    }

    /// The key that is needed was found.
    pub fn use_key(&mut self, alloc: Global, key: &Key) -> Result<Phase, NoMemory>
        ensures moves { IfOk result (λ phase. (b : Beginning) → IsBegun self.old b
            → Becomes self.new phase (chosen_for key.now b)
            (move_answer RpcAnswer.Ok (Some key.now) (answers b.start b.moves
            (told_of_key key.now)))) }
        ensures unchanged { OnErr result (self.new ≡ self.old) }
    {
        let copy = key.copy()?;
        let shown = key.tuple().copy()?;
        let told = tell_key(key);
        let gave = give_key(&mut self.machine, alloc, &told, key.password())?;
        let answer = answer_move(RpcAnswer::Ok, gave, shown);
        let need = self.machine.need();
        self.key = keep_key(copy, need);
        Ok(choose_phase(need, answer))
    }

    /// The list of offers that is needed came. It takes no memory.
    pub fn use_offers(&mut self, list: Bytes) -> Phase
        ensures { (b : Beginning) → IsBegun self.old b → IsOffers (needs b.start b.moves)
            → Becomes self.new result (with_move b (offered list)) (move_answer RpcAnswer.Ok b.key
            (answers b.start b.moves (offered list))) }
    {
        self.machine.with_offers(list);
        choose_phase(self.machine.need(), RpcAnswer::Ok)
    }

    /// A place was picked. It takes no memory.
    pub fn use_pick(&mut self, place: u32) -> Phase
        ensures { (b : Beginning) → IsBegun self.old b → IsPick (needs b.start b.moves)
            → Becomes self.new result (with_move b (picked place)) (move_answer RpcAnswer.Ok b.key
            (answers b.start b.moves (picked place))) }
    {
        self.machine.with_pick(place);
        choose_phase(self.machine.need(), RpcAnswer::Ok)
    }

    /// The authentication server answered.
    pub fn hear(&mut self, alloc: Global, bytes: &[u8]) -> Result<Phase, NoMemory>
        ensures moves { IfOk result (λ phase. Moves self.old self.new phase (heard bytes.now)) }
        ensures unchanged { OnErr result (self.new ≡ self.old) }
    {
        let shown = self.copy_shown(alloc)?;
        let gave = give_answer(&mut self.machine, alloc, bytes)?;
        Ok(self.phase_behind(RpcAnswer::Ok, gave, shown))
    }

    /// The authentication server wasn't reached. It takes no memory.
    pub fn hear_nothing(&mut self)
        ensures { (b : Beginning) → IsBegun self.old b → IsBegun self.new (with_move b unheard) }
    {
        self.machine.without_answer();
    }

    /// There was no memory for the authentication server's answer. It takes no memory.
    pub fn lack_room(&mut self)
        ensures { (b : Beginning) → IsBegun self.old b → IsBegun self.new (with_move b roomless) }
    {
        self.machine.without_room();
    }

    /// The move that needed a key is taken back. It takes no memory.
    pub fn undo(&mut self)
        ensures met { (b : Beginning) → IsBegun self.old b → IsBegun self.new (with_move b undone) }
        ensures back { (b : Beginning) (move : Move) → needs b.start b.moves ≡ Nothing
            → IsKey (needs b.start (move ∷ b.moves)) → IsBegun self.old (with_move b move)
            → IsBegun self.new b }
    {
        self.machine.undo_need();
    }

    /// What is needed of those things that are searched for.
    pub fn wanted(&self) -> Wanted
        ensures { (b : Beginning) → IsBegun self.now b
            → result ≡ wanted_in (needs b.start b.moves) }
    {
        match self.machine.need() {
            Need::Key(_) => Wanted::Key,
            Need::Offers(_) => Wanted::Offers,
            Need::Pick(_) => Wanted::Pick,
            Need::Nothing | Need::Exchange { .. } => Wanted::Nothing,
        }
    }

    /// A list of what the keys of a ring offer that serve, where offers are needed, or a key.
    pub fn list_offers(&self, alloc: Global, ring: &KeyRing) -> Result<Bytes, NoMemory>
        ensures { IfOk result (λ list. (b : Beginning) → IsBegun self.now b
            → IsOfferedBy list (needs b.start b.moves) (role_in b.start.template) ring.now) }
    {
        let mut list = Bytes::new(alloc);
        match self.machine.need() {
            Need::Offers(template) | Need::Key(template) => {
                ring.offers(template, self.role_name(), &mut list)?;
            }
            Need::Nothing | Need::Pick(_) | Need::Exchange { .. } => {}
        }
        Ok(list)
    }

    /// The place of the first template that a key of a ring serves, where one is to be picked. It takes no memory.
    pub fn find_pick(&self, ring: &KeyRing) -> u32
        ensures { (b : Beginning) → IsBegun self.now b
            → IsPickedBy result (needs b.start b.moves) (role_in b.start.template) ring.now }
    {
        match self.machine.need() {
            Need::Pick(templates) => pick_template(ring, templates, self.role_name()),
            Need::Nothing | Need::Key(_) | Need::Offers(_) | Need::Exchange { .. } => 0,
        }
    }

    /// The template that is asked of a key, where one is needed.
    pub fn asked(&self) -> Option<&Tuple>
        ensures { (b : Beginning) → IsBegun self.now b
            → option_map (λ t. t.now) result ≡ asked_in (needs b.start b.moves) }
    {
        match self.machine.need() {
            Need::Key(template) => Some(template),
            Need::Nothing | Need::Offers(_) | Need::Pick(_) | Need::Exchange { .. } => None,
        }
    }

    /// A copy of that template; where no key is needed, of none.
    pub fn copy_asked(&self, alloc: Global) -> Result<Tuple, NoMemory>
        ensures { IfOk result (λ t. (b : Beginning) → IsBegun self.now b
            → t ≡ template_in (needs b.start b.moves)) }
    {
        match self.machine.need() {
            Need::Key(template) => template.copy(),
            Need::Nothing | Need::Offers(_) | Need::Pick(_) | Need::Exchange { .. } => {
                Ok(Tuple::new(alloc))
            }
        }
    }

    /// The question for the authentication server, and where its answer ends, if there is one.
    pub fn question(&self) -> Option<(&[u8], Shape)>
        ensures { (b : Beginning) → IsBegun self.now b
            → option_map (λ asked. (asked.0.now, asked.1)) result
            ≡ exchange_in (needs b.start b.moves) }
    {
        match self.machine.need() {
            Need::Exchange { request, shape } => Some((request.as_slice(), *shape)),
            Need::Nothing | Need::Key(_) | Need::Offers(_) | Need::Pick(_) => None,
        }
    }

    /// The role that the template names.
    pub fn role_name(&self) -> &[u8]
        ensures { result.now ≡ role_in self.now.template }
    {
        match value_of(&self.template, b"role".as_slice()) {
            Some(role) => role.as_slice(),
            None => &[],
        }
    }

    /// Who was accepted.
    pub fn info(&self) -> RpcAnswer
        ensures { (b : Beginning) → IsBegun self.now b
            → result ≡ info_answer (has_ended b.start b.moves) (ends b.start b.moves) }
    {
        answer_info(self.machine.has_ended(), self.machine.outcome())
    }

    /// How it stands as to its end.
    pub fn outcome(&self) -> Outcome
        ensures { (b : Beginning) → IsBegun self.now b → result ≡ ends b.start b.moves }
    {
        self.machine.outcome()
    }

    /// The attributes of the template together with those of the key.
    pub fn attributes(&self) -> Result<Tuple, NoMemory>
        ensures { IfOk result (λ t. t ≡ attributes self.now.template self.now.key) }
    {
        match &self.key {
            Some(key) => join_attributes(&self.template, key.tuple()),
            None => self.template.copy(),
        }
    }
}

// A key isn't kept that was found for the sake of the offers, which are needed again.
fn keep_key(key: Key, need: &Need) -> Option<Key>
    ensures { result ≡ kept_key key need.now }
{
    match need {
        Need::Offers(_) => None,
        Need::Nothing | Need::Key(_) | Need::Pick(_) | Need::Exchange { .. } => Some(key),
    }
}

fn join_attributes(template: &Tuple, key: &Tuple) -> Result<Tuple, NoMemory>
    ensures { IfOk result (λ t. t ≡ (if nat_le (length (merged template.now key.now)) 36
        then merged template.now key.now else template.now)) }
{
    match merge(template, key) {
        Ok(both) => Ok(both),
        Err(MergeFault::TooMany) => template.copy(),
        Err(MergeFault::NoMemory) => Err(NoMemory),
    }
}

// What a role is told of a key.
fn tell_key(key: &Key) -> SkKey
    ensures { result ≡ told_key key.now }
{
    SkKey {
        des: key.des(),
        user: name_user(key.user()),
        dom: name_dom(key.dom()),
    }
}

#[tactic(auto, using(crate::proofs::NameLemmas::user_is_name))]
fn name_user(user: &Text) -> Name<28>
    requires { is_user user.now ≡ true }
    ensures { result ≡ user.now }
{
    match Name::from_text(user.as_slice()) {
        Some(name) => name,
        None => unreachable!(),
    }
}

fn name_dom(dom: Option<&Text>) -> Name<48>
    requires { IfSome dom (λ dom. is_dom dom.now ≡ true) }
    ensures { result ≡ text_or_none (option_map (λ dom. dom.now) dom.entry) }
{
    match dom {
        Some(dom) => name_some_dom(dom),
        None => name_no_dom(),
    }
}

#[tactic(auto, using(crate::proofs::NameLemmas::dom_is_name))]
fn name_some_dom(dom: &Text) -> Name<48>
    requires { is_dom dom.now ≡ true }
    ensures { result ≡ dom.now }
{
    match Name::from_text(dom.as_slice()) {
        Some(name) => name,
        None => unreachable!(),
    }
}

#[tactic(auto, using(crate::proofs::NameLemmas::nothing_is_name))]
fn name_no_dom() -> Name<48>
    ensures { result ≡ [] }
{
    match Name::from_text(b"".as_slice()) {
        Some(name) => name,
        None => unreachable!(),
    }
}
