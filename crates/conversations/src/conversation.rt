// A conversation.
ghost use Rattle.std.specs.Prelude.{◌≡◌, ◌++◌, ◌∷◌, [], ℕ, false, true, IfOk, List, OnErr, OnOk, Option, Some, option_copied, option_map, None};
ghost use Rattle.key_lists.specs.CtlLines.{few_of};
ghost use Rattle.roles.specs.declared.need.Need.TheVariants.{Nothing};
ghost use Rattle.roles.specs.Answers.{IsKey, IsOffers, IsPick};
ghost use Rattle.roles.specs.Starts.{fits_start};
ghost use Rattle.roles.specs.Talks.{Call as Move};
ghost use Rattle.talks.specs.Requests.{RpcRequest, asks_attributes, asks_info, meant as request_meant, reads, writes};
ghost use Rattle.talks.specs.Calls as c;
ghost use Rattle.talks.specs.Meanings.{meant};
ghost use Rattle.talks.specs.Protocols.{needs, refuses};
ghost use Rattle.talks.specs.Standings.{Begun as Beginning, Standing, Waiting, answered, begin_once, carried_out, finds, key_of, moved, nothing_said, outcome_of, found_for, need_in, question_of, refused, role_name, sought, start_by, started, taken_back, template_of, then_stands, with_key, with_move};
ghost use Rattle.conversations.specs.Begins.{IsBegun};
ghost use Rattle.attr_tuples.specs.Printing.{public_text};
ghost use Rattle.roles.specs.Templates.{shown_text};
ghost use Rattle.conversations.specs.Asking.{FindsReady, IsMade, IsReady, MeetsReady, Readies, SameAsks, TurnsReady};
ghost use Rattle.conversations.specs.Fits.{answer_held, BothBegun, Carries, Fits, Holds, IsIdle, Keeps, Lacks, Meets, Performs, PutsBack, Shaken, Shows, Stays, Turns, searched, searched_once, with_request};
ghost use Rattle.conversations.specs.Meanings.{phase_of, request_of};
ghost use Rattle.conversations.specs.Shown.{answer_in, asked_in, exchange_in, has_answer, has_request, is_resting, is_seeking, waits_for_server, wanted_in};

use crate::asks::Asks;
use crate::{
    Begun, Opening, Phase, Stored as Request, Wanted, open, phase, read_template, store_request,
};
use attr_tuples::Tuple;
use key_ring::{Key, KeyRing};
use roles::Outcome;
use std::alloc::Global;
use std::mem;
use talks::{Asking, Found, Request as Written, RpcAnswer, Said, search_keys};
use wire_base::{List, NoMemory, Shape};

/// A conversation of rpc. It has no Debug, which would print secrets.
#[derive(Drop)]
pub struct Conversation {
    pub(crate) begun: Option<Begun>,
    pub(crate) phase: Phase,
    pub(crate) starting: bool,
    pub(crate) said: Said,
}

// ---- what stands

impl Conversation {
    /// A conversation that met nothing. It takes no memory.
    pub fn new(alloc: Global) -> Conversation
        ensures { Holds result [] }
    {
        Conversation {
            begun: None,
            phase: Phase::Resting,
            starting: false,
            said: say_nothing(alloc),
        }
    }

    /// Whether it has neither a request nor an answer. It takes no memory.
    pub fn is_resting(&self) -> bool
        ensures { Shows self.now (λ s. is_resting s.phase) result }
    {
        phase::is_resting(&self.phase)
    }

    /// Whether it has a request that isn't carried out yet. It takes no memory.
    pub fn has_request(&self) -> bool
        ensures { Shows self.now (λ s. has_request s.phase) result }
    {
        phase::has_request(&self.phase)
    }

    /// Whether a key is to be searched for. It takes no memory.
    pub fn seeks(&self) -> bool
        ensures { Shows self.now (λ s. is_seeking s.phase) result }
    {
        phase::is_seeking(&self.phase)
    }

    /// Whether the authentication server is asked. It takes no memory.
    pub fn waits_for_server(&self) -> bool
        ensures { Shows self.now (λ s. waits_for_server s.phase) result }
    {
        phase::waits_for_server(&self.phase)
    }

    /// Whether it has an answer that wasn't read yet. It takes no memory.
    pub fn has_answer(&self) -> bool
        ensures { Shows self.now (λ s. has_answer s.phase) result }
    {
        phase::has_answer(&self.phase)
    }

    /// The template that is asked of a key, where one is needed. It takes no memory.
    pub fn template(&self) -> Option<&Tuple>
        ensures { Shows self.now (λ s. asked_in (question_of s))
            (option_map (λ t. t.now) result) }
    {
        match &self.begun {
            Some(begun) => begun.asked(),
            None => None,
        }
    }

    /// The question for the authentication server, and where its answer ends, if there is one. It takes no memory.
    pub fn question(&self) -> Option<(&[u8], Shape)>
        ensures { Shows self.now (λ s. exchange_in (question_of s))
            (option_map (λ asked. (asked.0.now, asked.1)) result) }
    {
        match &self.begun {
            Some(begun) => begun.question(),
            None => None,
        }
    }

    /// How it stands as to its end; None where it hasn't started. It takes no memory.
    pub fn outcome(&self) -> Option<Outcome>
        ensures { Shows self.now outcome_of result }
    {
        if self.starting && phase::waits_for_user(&self.phase) {
            return None;
        }
        match &self.begun {
            Some(begun) => Some(begun.outcome()),
            None => None,
        }
    }

    /// The key that was chosen, if one was. It takes no memory.
    pub fn chosen(&self) -> Option<&Key>
        ensures { Shows self.now key_of (option_copied result) }
    {
        match &self.begun {
            Some(begun) => begun.key.as_ref(),
            None => None,
        }
    }

    /// The answer that is there, which wasn't read yet. It takes no memory.
    pub fn answer(&self) -> Option<&RpcAnswer>
        ensures shown { Shows self.now (λ s. answer_in s.phase) (option_copied result) }
        ensures held { option_copied result ≡ answer_held self.now }
    {
        phase::kept_answer(&self.phase)
    }
}

// ---- what it meets

impl Conversation {
    /// A request is written, which a copy is kept of.
    pub fn store(&mut self, alloc: Global, request: Written<'_>) -> Result<(), NoMemory>
        ensures kept { OnOk result (Keeps self.old self.new
            (c.Stored (request_meant request.entry))) }
        ensures unchanged { OnErr result (self.new ≡ self.old) }
    {
        if !phase::is_resting(&self.phase) {
            return Ok(());
        }
        let request = store_request(alloc, request)?;
        self.phase = Phase::Waiting(request);
        self.starting = false;
        self.said = say_nothing(alloc);
        Ok(())
    }

    /// The request, if it has one, is carried out by a read for which this word was drawn; what it needs of the keys of a
    /// ring is searched for, where these files are open; a question to its user that this comes to is made.
    pub fn perform(
        &mut self,
        alloc: Global,
        word: [u8; 8],
        ring: &KeyRing,
        asking: Asking,
        asks: &mut Asks,
    ) -> Result<(), NoMemory>
        ensures kept { OnOk result (Performs self.old self.new word asking ring.now) }
        ensures ready { OnOk result (Readies self.old
            (with_request word asking ring.now) asking ring.now asks.old asks.new) }
        ensures asks { SameAsks asks.old asks.new }
        ensures back { OnErr result (Stays self.old self.new) }
    {
        match mem::replace(&mut self.phase, Phase::Resting) {
            Phase::Waiting(request) => {
                self.perform_request(alloc, request, word, ring, asking, asks)
            }
            other => {
                self.phase = other;
                Ok(())
            }
        }
    }

    /// The file by which the user was asked was closed. It takes no memory.
    pub fn shut(&mut self)
        ensures { Keeps self.old self.new c.Shut }
    {
        match mem::replace(&mut self.phase, Phase::Resting) {
            Phase::OnConfirm(_) => self.refuse(RpcAnswer::Denied),
            Phase::OnNeedkey(template) => self.refuse(RpcAnswer::NeedKey(template)),
            other => self.phase = other,
        }
    }

    /// The authentication server answered.
    pub fn heard(&mut self, alloc: Global, bytes: &[u8]) -> Result<(), NoMemory>
        ensures kept { OnOk result (Keeps self.old self.new (c.Heard bytes.now)) }
        ensures unchanged { OnErr result (self.new ≡ self.old) }
    {
        if !phase::waits_for_server(&self.phase) {
            return Ok(());
        }
        if let Some(begun) = &mut self.begun {
            self.phase = begun.hear(alloc, bytes)?;
        }
        Ok(())
    }

    /// The authentication server wasn't reached. It takes no memory.
    pub fn unheard(&mut self)
        ensures { Keeps self.old self.new c.Unheard }
    {
        if phase::waits_for_server(&self.phase) {
            if let Some(begun) = &mut self.begun {
                begun.hear_nothing();
                self.phase = Phase::Kept(RpcAnswer::NoServer);
            }
        }
    }

    /// There was no memory for the authentication server's answer. It takes no memory itself.
    pub fn roomless(&mut self)
        ensures { Keeps self.old self.new c.Roomless }
    {
        if phase::waits_for_server(&self.phase) {
            if let Some(begun) = &mut self.begun {
                begun.lack_room();
                self.phase = Phase::Kept(RpcAnswer::NoRoom);
            }
        }
    }

    /// The answer that is there was read: it is handed out, and there is none any more. It takes no memory.
    pub fn take_answer(&mut self) -> Option<RpcAnswer>
        ensures kept { Keeps self.old self.new c.Took }
        ensures told { Shows self.old (λ s. answer_in s.phase) result }
        ensures held { result ≡ answer_held self.old }
    {
        match mem::replace(&mut self.phase, Phase::Resting) {
            Phase::Kept(answer) => Some(answer),
            other => {
                self.phase = other;
                None
            }
        }
    }
}

// ---- a request is carried out

impl Conversation {
    fn perform_request(
        &mut self,
        alloc: Global,
        request: Request,
        word: [u8; 8],
        ring: &KeyRing,
        asking: Asking,
        asks: &mut Asks,
    ) -> Result<(), NoMemory>
        ensures met { OnOk result (Meets self.old self.new
            (λ s. searched asking ring.now (carried_out s word (request_of request)))) }
        ensures ready { OnOk result (MeetsReady self.old
            (λ s. searched asking ring.now (carried_out s word (request_of request)))
            asking ring.now asks.new) }
        ensures asks { SameAsks asks.old asks.new }
        ensures back { OnErr result ((s : Standing) → Carries self.old s → IsIdle s
            → s.phase ≡ Waiting (request_of request) → Fits self.new s) }
    {
        let done = self.answer_and_search(alloc, &request, word, ring, asking, asks);
        if done.is_err() {
            self.phase = Phase::Waiting(request);
        }
        done
    }

    // Its phase is lost where there is no memory.
    fn answer_and_search(
        &mut self,
        alloc: Global,
        request: &Request,
        word: [u8; 8],
        ring: &KeyRing,
        asking: Asking,
        asks: &mut Asks,
    ) -> Result<(), NoMemory>
        ensures met { OnOk result (Meets self.old self.new
            (λ s. searched asking ring.now (carried_out s word (request_of request.now)))) }
        ensures ready { OnOk result (MeetsReady self.old
            (λ s. searched asking ring.now (carried_out s word (request_of request.now)))
            asking ring.now asks.new) }
        ensures asks { SameAsks asks.old asks.new }
        ensures back { OnErr result (PutsBack self.old self.new) }
    {
        self.answer_request(alloc, request, word)?;
        let done = self.search(alloc, ring, asking, asks);
        if done.is_err() {
            self.unmake_request();
        }
        done
    }

    // The request, for which something is sought, is taken back without an answer.
    fn unmake_request(&mut self)
        ensures made { (s : Standing) (word : List ℕ) (request : RpcRequest)
            → Fits self.old (carried_out s word request)
            → Lacks (carried_out s word request) → IsIdle s → Carries self.new s }
        ensures begun { self.old.starting ≡ true → self.new.begun ≡ None }
        ensures starting { self.new.starting ≡ false }
        ensures said { self.new.said ≡ self.old.said }
    {
        let starting = self.starting;
        self.starting = false;
        take_back(starting, &mut self.begun);
    }

    fn answer_request(
        &mut self,
        alloc: Global,
        request: &Request,
        word: [u8; 8],
    ) -> Result<(), NoMemory>
        ensures met { OnOk result (Meets self.old self.new
            (λ s. carried_out s word (request_of request.now))) }
        ensures unchanged { OnErr result (self.new ≡ self.old) }
    {
        match request {
            Request::Start(text) => self.start(alloc, text.as_slice(), word),
            Request::Read => self.read(alloc),
            Request::Write(message) => self.write(alloc, message.as_slice()),
            Request::AuthInfo => self.tell_info(),
            Request::Attr => self.tell_attributes(),
        }
    }

    fn keep(&mut self, answer: RpcAnswer)
        ensures met { Meets self.old self.new (λ s. answered s answer) }
        ensures same { self.new.begun ≡ self.old.begun }
    {
        self.phase = Phase::Kept(answer);
    }

    fn start(&mut self, alloc: Global, text: &[u8], word: [u8; 8]) -> Result<(), NoMemory>
        ensures met { OnOk result (Meets self.old self.new
            (λ s. begin_once s word text.now s.begun)) }
        ensures unchanged { OnErr result (self.new ≡ self.old) }
    {
        match &self.begun {
            Some(_) => {
                self.keep(RpcAnswer::AlreadyStarted);
                Ok(())
            }
            None => self.start_new(alloc, text, word),
        }
    }

    fn start_new(&mut self, alloc: Global, text: &[u8], word: [u8; 8]) -> Result<(), NoMemory>
        ensures met { OnOk result (Meets self.old self.new
            (λ s. start_by s word (few_of text.now))) }
        ensures unchanged { OnErr result (self.new ≡ self.old) }
    {
        match read_template(alloc, text)? {
            Some(template) => self.start_with(alloc, template, word),
            None => {
                self.keep(RpcAnswer::BadTemplate);
                Ok(())
            }
        }
    }

    fn start_with(&mut self, alloc: Global, template: Tuple, word: [u8; 8]) -> Result<(), NoMemory>
        requires { fits_start template ≡ true }
        ensures met { OnOk result (Meets self.old self.new
            (λ s. started s word template (refuses template))) }
        ensures unchanged { OnErr result (self.new ≡ self.old) }
    {
        match open(alloc, template, word)? {
            Opening::Refused(answer) => self.keep(answer),
            Opening::Started(begun) => self.begin(begun),
        }
        Ok(())
    }

    fn begin(&mut self, begun: Begun)
        ensures { (b : Beginning) → IsBegun begun b → Meets self.old self.new
            (λ s. moved (record s { starting = true }) b RpcAnswer.Ok) }
    {
        self.phase = begun.begin();
        self.begun = Some(begun);
        self.starting = true;
    }

    fn read(&mut self, alloc: Global) -> Result<(), NoMemory>
        ensures met { OnOk result (Meets self.old self.new (λ s. carried_out s [] reads)) }
        ensures unchanged { OnErr result (self.new ≡ self.old) }
    {
        match &mut self.begun {
            Some(begun) => self.phase = begun.read(alloc)?,
            None => self.phase = Phase::Kept(RpcAnswer::NotStarted),
        }
        Ok(())
    }

    fn write(&mut self, alloc: Global, message: &[u8]) -> Result<(), NoMemory>
        ensures met { OnOk result (Meets self.old self.new
            (λ s. carried_out s [] (writes message.now))) }
        ensures unchanged { OnErr result (self.new ≡ self.old) }
    {
        match &mut self.begun {
            Some(begun) => self.phase = begun.write(alloc, message)?,
            None => self.phase = Phase::Kept(RpcAnswer::NotStarted),
        }
        Ok(())
    }

    fn tell_info(&mut self) -> Result<(), NoMemory>
        ensures met { OnOk result (Meets self.old self.new (λ s. carried_out s [] asks_info)) }
        ensures unchanged { OnErr result (self.new ≡ self.old) }
    {
        let answer = match &self.begun {
            Some(begun) => begun.info(),
            None => RpcAnswer::NoInfo,
        };
        self.phase = Phase::Kept(answer);
        Ok(())
    }

    fn tell_attributes(&mut self) -> Result<(), NoMemory>
        ensures met { OnOk result (Meets self.old self.new
            (λ s. carried_out s [] asks_attributes)) }
        ensures unchanged { OnErr result (self.new ≡ self.old) }
    {
        let answer = match &self.begun {
            Some(begun) => RpcAnswer::Attributes(begun.attributes()?),
            None => RpcAnswer::NotStarted,
        };
        self.phase = Phase::Kept(answer);
        Ok(())
    }
}

// ---- what is needed is searched for

impl Conversation {
    fn search(
        &mut self,
        alloc: Global,
        ring: &KeyRing,
        asking: Asking,
        asks: &mut Asks,
    ) -> Result<(), NoMemory>
        ensures met { OnOk result (Turns self.old self.new (searched asking ring.now)) }
        ensures ready { OnOk result (TurnsReady self.old (searched asking ring.now)
            asking ring.now asks.old asks.new) }
        ensures asks { SameAsks asks.old asks.new }
        ensures shaken { OnErr result (Shaken self.old self.new) }
        ensures lacks { OnErr result (self.old.starting ≡ false
            → (s : Standing) → Fits self.old s → Lacks s) }
    {
        if self.starting {
            self.search_start(alloc, ring, asking, asks)
        } else {
            self.search_once(alloc, ring, asking, asks)
        }
    }

    // As often as one search may lead to another.
    fn search_start(
        &mut self,
        alloc: Global,
        ring: &KeyRing,
        asking: Asking,
        asks: &mut Asks,
    ) -> Result<(), NoMemory>
        requires { self.old.starting ≡ true }
        ensures met { OnOk result (Turns self.old self.new (searched asking ring.now)) }
        ensures ready { OnOk result (TurnsReady self.old (searched asking ring.now)
            asking ring.now asks.old asks.new) }
        ensures asks { SameAsks asks.old asks.new }
        ensures starting { self.new.starting ≡ self.old.starting }
        ensures said { OnErr result (self.new.said ≡ self.old.said) }
    {
        self.search_once(alloc, ring, asking, asks)?;
        self.search_once(alloc, ring, asking, asks)?;
        self.search_once(alloc, ring, asking, asks)
    }

    pub(crate) fn search_once(
        &mut self,
        alloc: Global,
        ring: &KeyRing,
        asking: Asking,
        asks: &mut Asks,
    ) -> Result<(), NoMemory>
        ensures met { OnOk result (Turns self.old self.new (searched_once asking ring.now)) }
        ensures ready { OnOk result (TurnsReady self.old (searched_once asking ring.now)
            asking ring.now asks.old asks.new) }
        ensures asks { SameAsks asks.old asks.new }
        ensures starting { self.new.starting ≡ self.old.starting }
        ensures said { OnOk result (is_seeking (phase_of self.new.phase) ≡ true
            → self.new.said ≡ self.old.said) }
        ensures still { OnOk result (is_seeking (phase_of self.new.phase) ≡ true
            → is_seeking (phase_of self.old.phase) ≡ true) }
        ensures unchanged { OnErr result (self.new ≡ self.old) }
        ensures seeks { OnErr result (is_seeking (phase_of self.old.phase) ≡ true) }
        ensures lacks { OnErr result ((s : Standing) → Fits self.old s → Lacks s) }
    {
        if !phase::is_seeking(&self.phase) {
            return Ok(());
        }
        match self.wanted() {
            Wanted::Key => self.search_key(alloc, ring, asking, asks),
            Wanted::Offers => self.search_offers(alloc, ring),
            Wanted::Pick => {
                self.search_pick(ring);
                Ok(())
            }
            Wanted::Nothing => Ok(()),
        }
    }

    fn wanted(&self) -> Wanted
        ensures { (s : Standing) → Carries self.now s → result ≡ wanted_in (need_in s.begun) }
    {
        match &self.begun {
            Some(begun) => begun.wanted(),
            None => Wanted::Nothing,
        }
    }

    fn search_offers(&mut self, alloc: Global, ring: &KeyRing) -> Result<(), NoMemory>
        ensures met { OnOk result ((s : Standing) (asking : Asking) → Fits self.old s
            → IsOffers (need_in s.begun) → Fits self.new (sought s (finds s asking ring.now))) }
        ensures starting { self.new.starting ≡ self.old.starting }
        ensures said { self.new.said ≡ self.old.said }
        ensures unchanged { OnErr result (self.new ≡ self.old) }
    {
        if let Some(begun) = &mut self.begun {
            let list = begun.list_offers(alloc, ring)?;
            self.phase = begun.use_offers(list);
        }
        Ok(())
    }

    fn search_pick(&mut self, ring: &KeyRing)
        ensures met { (s : Standing) (asking : Asking) → Fits self.old s
            → IsPick (need_in s.begun) → Fits self.new (sought s (finds s asking ring.now)) }
        ensures starting { self.new.starting ≡ self.old.starting }
        ensures said { self.new.said ≡ self.old.said }
    {
        if let Some(begun) = &mut self.begun {
            let place = begun.find_pick(ring);
            self.phase = begun.use_pick(place);
        }
    }

    fn search_key(
        &mut self,
        alloc: Global,
        ring: &KeyRing,
        asking: Asking,
        asks: &mut Asks,
    ) -> Result<(), NoMemory>
        ensures met { OnOk result ((s : Standing) → Fits self.old s → IsKey (need_in s.begun)
            → Fits self.new (sought s (finds s asking ring.now))) }
        ensures ready { OnOk result ((s : Standing) → Fits self.old s → IsKey (need_in s.begun)
            → IsReady asking ring.now (sought s (finds s asking ring.now)) asks.new) }
        ensures asks { SameAsks asks.old asks.new }
        ensures starting { self.new.starting ≡ self.old.starting }
        ensures said { OnOk result (is_seeking (phase_of self.new.phase) ≡ true
            → self.new.said ≡ self.old.said) }
        ensures unchanged { OnErr result (self.new ≡ self.old) }
    {
        let found = self.find(ring, asking);
        self.take_found(alloc, found, asks)
    }

    fn find<'a>(&self, ring: &'a KeyRing, asking: Asking) -> Found<'a>
        ensures { (s : Standing) → Carries self.now s → IsKey (need_in s.begun)
            → meant result ≡ finds s asking ring.now }
    {
        match &self.begun {
            Some(begun) => find_for(ring, begun, &self.said, asking),
            None => Found::NoneServes,
        }
    }

    fn take_found(
        &mut self,
        alloc: Global,
        found: Found<'_>,
        asks: &mut Asks,
    ) -> Result<(), NoMemory>
        ensures met { OnOk result (Turns self.old self.new (λ s. sought s (meant found.entry))) }
        ensures ready { OnOk result (FindsReady self.old (meant found.entry) asks.new) }
        ensures asks { SameAsks asks.old asks.new }
        ensures starting { self.new.starting ≡ self.old.starting }
        ensures said { OnOk result (is_seeking (phase_of self.new.phase) ≡ true
            → self.new.said ≡ self.old.said) }
        ensures unchanged { OnErr result (self.new ≡ self.old) }
    {
        match found {
            Found::Chosen(key) => self.use_key(alloc, key),
            Found::AsksConsent(key) => self.ask_consent(alloc, key, asks),
            Found::AsksKey => self.ask_key(alloc, asks),
            Found::Denied => self.deny(),
            Found::NoneServes => self.want_key(alloc),
        }
    }

    fn use_key(&mut self, alloc: Global, key: &Key) -> Result<(), NoMemory>
        ensures met { OnOk result (Turns self.old self.new (λ s. with_key s key.now s.begun)) }
        ensures starting { self.new.starting ≡ self.old.starting }
        ensures said { self.new.said ≡ self.old.said }
        ensures unchanged { OnErr result (self.new ≡ self.old) }
    {
        if let Some(begun) = &mut self.begun {
            self.phase = begun.use_key(alloc, key)?;
        }
        Ok(())
    }

    fn ask_consent(&mut self, alloc: Global, key: &Key, asks: &mut Asks) -> Result<(), NoMemory>
        ensures met { OnOk result (Meets self.old self.new
            (λ s. sought s (c.AsksConsent key.now))) }
        ensures ready { OnOk result (IsMade asks.new.confirm (public_text key.now.tuple)) }
        ensures asks { SameAsks asks.old asks.new }
        ensures starting { self.new.starting ≡ self.old.starting }
        ensures said { self.new.said ≡ self.old.said }
        ensures unchanged { OnErr result (self.new ≡ self.old) }
    {
        asks.make_confirm(alloc, key)?;
        self.phase = Phase::OnConfirm(key.serial());
        Ok(())
    }

    fn ask_key(&mut self, alloc: Global, asks: &mut Asks) -> Result<(), NoMemory>
        ensures met { OnOk result (Meets self.old self.new (λ s. sought s c.AsksKey)) }
        ensures ready { OnOk result ((s : Standing) → Carries self.old s
            → IsMade asks.new.needkey (shown_text (template_of s.begun))) }
        ensures asks { SameAsks asks.old asks.new }
        ensures starting { self.new.starting ≡ self.old.starting }
        ensures phase { OnOk result (is_seeking (phase_of self.new.phase) ≡ false) }
        ensures unchanged { OnErr result (self.new ≡ self.old) }
    {
        let template = self.copy_template(alloc)?;
        asks.make_needkey(alloc, &template)?;
        self.phase = Phase::OnNeedkey(template);
        self.said.asked = true;
        Ok(())
    }

    fn deny(&mut self) -> Result<(), NoMemory>
        ensures met { OnOk result (Meets self.old self.new (λ s. sought s c.Denied)) }
        ensures starting { self.new.starting ≡ self.old.starting }
        ensures said { self.new.said ≡ self.old.said }
        ensures unchanged { OnErr result (self.new ≡ self.old) }
    {
        self.refuse(RpcAnswer::Denied);
        Ok(())
    }

    fn want_key(&mut self, alloc: Global) -> Result<(), NoMemory>
        ensures met { OnOk result (Meets self.old self.new (λ s. sought s c.NoneServes)) }
        ensures starting { self.new.starting ≡ self.old.starting }
        ensures said { self.new.said ≡ self.old.said }
        ensures unchanged { OnErr result (self.new ≡ self.old) }
    {
        let template = self.copy_template(alloc)?;
        self.refuse(RpcAnswer::NeedKey(template));
        Ok(())
    }

    // A copy of the template that is asked of a key.
    fn copy_template(&self, alloc: Global) -> Result<Tuple, NoMemory>
        ensures { IfOk result (λ t. (b : Option Beginning) → BothBegun self.now.begun b
            → t ≡ template_of b) }
    {
        match &self.begun {
            Some(begun) => begun.copy_asked(alloc),
            None => Ok(Tuple::new(alloc)),
        }
    }

    // The request that needed a key is taken back with this answer.
    fn refuse(&mut self, answer: RpcAnswer)
        ensures met { Meets self.old self.new (λ s. refused s answer) }
        ensures starting { self.new.starting ≡ self.old.starting }
        ensures said { self.new.said ≡ self.old.said }
    {
        take_back(self.starting, &mut self.begun);
        self.phase = Phase::Kept(answer);
    }
}

// A start that is taken back is none, and another move wasn't made.
fn take_back(starting: bool, begun: &mut Option<Begun>)
    ensures taken { (b : Option Beginning) → BothBegun begun.old b
        → BothBegun begun.new (taken_back starting b) }
    ensures dropped { starting ≡ true → begun.new ≡ None }
    ensures back { starting ≡ false → (b : Beginning) (move : Move)
        → needs b.start b.moves ≡ Nothing → IsKey (needs b.start (move ∷ b.moves))
        → BothBegun begun.old (Some (with_move b move)) → BothBegun begun.new (Some b) }
{
    if starting {
        *begun = None;
    } else if let Some(begun) = begun {
        begun.undo();
    }
}

fn say_nothing(alloc: Global) -> Said
    ensures { result ≡ nothing_said }
{
    Said {
        agreed: List::new(alloc),
        denied: List::new(alloc),
        asked: false,
    }
}

// The key that is found for what was begun, where it needs one.
fn find_for<'a>(ring: &'a KeyRing, begun: &Begun, said: &Said, asking: Asking) -> Found<'a>
    ensures { (b : Beginning) → IsBegun begun.now b → IsKey (needs b.start b.moves)
        → meant result ≡ found_for (needs b.start b.moves) (role_name (Some b)) said.now
        asking ring.now }
{
    match begun.asked() {
        Some(template) => search_keys(ring, template, begun.role_name(), said, asking),
        None => Found::NoneServes,
    }
}
