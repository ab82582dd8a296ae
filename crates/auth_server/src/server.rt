// The server as a function of a session's requests, without the outside.
use crate::log::{Notice, Outcome};
use crate::records::{
    give_challenge, refuse, word_key, write_challenge, write_tickets, write_vouch,
};
use crate::session::{AsStep, Challenge, Session, Verdict, digits_for};
use auth_tables::{KeyTable, SpeaksTable};
use sealing::{AUTH_APOP, AUTH_CRAM, AUTH_TREQ, Key7, TicketReq, read_req};
use std::marker::Model;
use wire_base::{Bytes, NoMemory, Text};

/// How many bytes a request has, without the digits that answer a challenge.
const REQUEST_BYTES: usize = 141;

/// How many digits answer a challenge.
const DIGITS: usize = 32;

/// What the server knows. It has no Debug, which would print secrets.
#[derive(Drop)]
pub struct AuthCore {
    dom: Text,
    keys: KeyTable,
    speaks: SpeaksTable,
}

impl Model for AuthCore {
    ghost use Rattle.std.specs.Prelude.{◌≡◌, true};
    ghost use Rattle.attr_tuples.specs.Forms.{is_dom};
    ghost use Rattle.auth_server.specs.Standing.{Server};

    ghost Value = { Server };

    ghost view = { λ c. record { dom = c.dom; keys = c.keys; speaks = c.speaks } };

    ghost invariant = { λ c. is_dom c.dom ≡ true };
}

impl AuthCore {
    ghost use Rattle.std.specs.Prelude.{◌≡◌, ◌<◌, ◌≤◌, ◌↔◌, ◌∷◌, ◌++◌, ℕ, List, Some, true, length, IfOk, OnErr, OnOk};
    ghost use Rattle.attr_tuples.specs.Forms.{is_dom};
    ghost use Rattle.auth_tables.specs.Keys.{key_of};
    ghost use Rattle.auth_server.specs.Requests.{asked_so, kind_of, needed};
    ghost use Rattle.auth_server.specs.Answers.{Posed, answer_in, answer_to, are_digits, grant, granted_key, is_over_in, judged, mail_answer, most_wrong, password_of, posed, vouch};
    ghost use Rattle.sealing.specs.Request.{request_of};
    ghost use Rattle.auth_server.specs.Notices.{is_granted, notice_of, outcome_of};
    ghost use Rattle.auth_server.specs.Standing.{Stands, knowledge};
    ghost use Rattle.auth_server.specs.Steps.{MailMoves, Moves};

    /// The server of a domain, with what it knows of users and hosts. It takes no memory.
    pub fn new(dom: Text, keys: KeyTable, speaks: SpeaksTable) -> AuthCore
        requires { is_dom dom ≡ true }
        ensures { result ≡ record { dom = dom; keys = keys; speaks = speaks } }
    {
        AuthCore { dom, keys, speaks }
    }

    /// Puts other tables in force, for all requests that follow: sessions and their challenges stay, and each is answered
    /// by these from now on. It takes no memory.
    pub fn reload(&mut self, keys: KeyTable, speaks: SpeaksTable)
        ensures { self.new ≡ record { dom = self.old.dom; keys = keys; speaks = speaks } }
    {
        self.keys = keys;
        self.speaks = speaks;
    }

    /// How many bytes a request of a session has that begins with this byte; None exactly where no request of that kind
    /// is served. It takes no memory.
    pub fn need(&self, session: &Session, kind: u8) -> Option<usize>
        ensures { result ≡ needed session.now.held kind }
    {
        match kind {
            AUTH_TREQ => Some(REQUEST_BYTES),
            AUTH_APOP | AUTH_CRAM if session.holds(kind) => Some(REQUEST_BYTES + DIGITS),
            AUTH_APOP | AUTH_CRAM => Some(REQUEST_BYTES),
            _ => None,
        }
    }

    /// What an observer is told of the next request of a session. It takes no memory.
    pub fn notice(&self, session: &Session, request: &[u8]) -> Notice
        requires { 0 < length request.now }
        ensures { (words : List (List ℕ)) → result ≡ notice_of (knowledge self.now)
            (asked_so request.now words) session.now.held (request_of request.now) }
    {
        match read_req(request) {
            Ok(asked) => Notice::Judged {
                asked,
                outcome: self.outcome(session, &asked, request),
            },
            Err(_) => Notice::Bad { kind: request[0] },
        }
    }

    // What comes of a request.
    fn outcome(&self, session: &Session, asked: &TicketReq, request: &[u8]) -> Outcome
        requires { 141 ≤ length request.now }
        ensures { (words : List (List ℕ)) → result ≡ outcome_of (knowledge self.now)
            (asked_so request.now words) session.now.held asked.now }
    {
        if asked.kind == AUTH_TREQ {
            return if self.is_granted(asked) {
                Outcome::Granted
            } else {
                Outcome::Refused
            };
        }
        match self.judge(session, asked, request) {
            Verdict::First => Outcome::Challenged,
            Verdict::Right => Outcome::Vouched,
            Verdict::Wrong => Outcome::Wrong,
        }
    }

    // Whether no key of the tickets is made up.
    fn is_granted(&self, asked: &TicketReq) -> bool
        ensures { result ≡ is_granted (knowledge self.now) asked.now }
    {
        self.speaks
            .speaks_for(asked.hostid.text(), asked.uid.text())
            && self.keys.find(asked.hostid.text()).is_some()
            && self.keys.find(asked.authid.text()).is_some()
    }

    /// Appends the answer to the next request of a session, for which three words were drawn. Where memory runs out,
    /// session and output are as before.
    pub fn step(
        &self,
        session: &mut Session,
        request: &[u8],
        words: &[[u8; 8]; 3],
        out: &mut Bytes,
    ) -> Result<AsStep, NoMemory>
        requires whole { needed session.old.held (kind_of request.now) ≡ Some (length request.now) }
        requires goes_on { session.old.wrong < most_wrong }

        // Whatever requests the session stands for, each with what was known when it came: the answer is that to the next
        // one, by what is known now, and it stands for it too.
        ensures answer { OnOk result ((before : List Posed) → Stands before session.old
            → out.new ≡ out.old ++ answer_in before
            (posed (knowledge self.now) (asked_so request.now words.now))) }
        ensures stands { OnOk result ((before : List Posed) → Stands before session.old
            → Stands (posed (knowledge self.now) (asked_so request.now words.now)
            ∷ before) session.new) }
        ensures over { IfOk result (λ step. (before : List Posed) → Stands before session.old
            → step ≡ AsStep.TooManyWrong
            ↔ is_over_in (posed (knowledge self.now) (asked_so request.now words.now)
            ∷ before) ≡ true) }
        ensures replied { IfOk result (λ step. step ≡ AsStep.Replied
            → session.new.wrong < most_wrong) }

        ensures err { OnErr result (out.new ≡ out.old) }
        ensures unchanged { OnErr result (session.new ≡ session.old) }
    {
        self.answer_next(session, request, words, out)?;
        Ok(session.last_step())
    }

    // Appends the answer to the next request.
    fn answer_next(
        &self,
        session: &mut Session,
        request: &[u8],
        words: &[[u8; 8]; 3],
        out: &mut Bytes,
    ) -> Result<(), NoMemory>
        requires whole { needed session.old.held (kind_of request.now) ≡ Some (length request.now) }
        requires goes_on { session.old.wrong < most_wrong }
        ensures answer { OnOk result (out.new ≡ out.old ++ answer_to (knowledge self.now)
            (asked_so request.now words.now) session.old.held (request_of request.now)) }
        ensures moves { OnOk result (Moves (knowledge self.now) (asked_so request.now words.now)
            session.old session.new (request_of request.now)) }
        ensures err { OnErr result (out.new ≡ out.old) }
        ensures unchanged { OnErr result (session.new ≡ session.old) }
    {
        match read_req(request) {
            Ok(asked) if asked.kind == AUTH_TREQ => out.append(&self.grant(&asked, words)),
            Ok(asked) => self.answer_mail(session, &asked, request, words, out),
            Err(_) => out.append(&refuse(b"bad request")),
        }
    }

    // Appends the answer to a request of a mail server.
    fn answer_mail(
        &self,
        session: &mut Session,
        asked: &TicketReq,
        request: &[u8],
        words: &[[u8; 8]; 3],
        out: &mut Bytes,
    ) -> Result<(), NoMemory>
        requires whole { 141 ≤ length request.now }
        requires goes_on { session.old.wrong < most_wrong }
        ensures answer { OnOk result (out.new ≡ out.old ++ mail_answer (knowledge self.now)
            (asked_so request.now words.now) asked.now (judged (knowledge self.now)
            (asked_so request.now words.now) asked.now session.old.held)) }
        ensures moves { OnOk result (MailMoves (knowledge self.now) (asked_so request.now words.now)
            asked.now session.old session.new) }
        ensures err { OnErr result (out.new ≡ out.old) }
        ensures unchanged { OnErr result (session.new ≡ session.old) }
    {
        match self.judge(session, asked, request) {
            Verdict::First => {
                let text = write_challenge(&words[0], self.dom.as_slice());
                out.append(give_challenge(text.written()).written())?;
                session.hold(Challenge {
                    kind: asked.kind,
                    text,
                });
            }
            Verdict::Right => {
                out.append(&self.vouch(asked, words))?;
                session.give_up();
            }
            Verdict::Wrong => {
                out.append(&refuse(b"bad response"))?;
                session.count_wrong();
            }
        }
        Ok(())
    }

    // What a request of a mail server is to the challenge that its session holds.
    fn judge(&self, session: &Session, asked: &TicketReq, request: &[u8]) -> Verdict
        requires { 141 ≤ length request.now }
        ensures { (words : List (List ℕ)) → result ≡ judged (knowledge self.now)
            (asked_so request.now words) asked.now session.now.held }
    {
        match &session.held {
            None => Verdict::First,
            Some(challenge) if challenge.kind != asked.kind => Verdict::First,
            Some(challenge) => {
                let (_, digits) = request.split_at(REQUEST_BYTES);
                if self.are_digits(asked, challenge.text.written(), digits) {
                    Verdict::Right
                } else {
                    Verdict::Wrong
                }
            }
        }
    }

    // Whether digits answer a challenge under the password of the user that a request names, if he has one.
    fn are_digits(&self, asked: &TicketReq, challenge: &[u8], digits: &[u8]) -> bool
        ensures { result ≡ are_digits asked.now.kind challenge.now digits.now
            (password_of (key_of asked.now.uid self.now.keys)) }
    {
        let Some(key) = self.keys.find(asked.uid.text()) else {
            return false;
        };
        match key.password() {
            None => false,
            Some(password) => {
                digits == digits_for(asked.kind, challenge, password.as_slice()).as_slice()
            }
        }
    }

    // The vouch that a right answer is answered with.
    fn vouch(&self, asked: &TicketReq, words: &[[u8; 8]; 3]) -> [u8; 86]
        ensures { result ≡ vouch (knowledge self.now) words.now asked.now }
    {
        let servers = self.granted_key(true, asked.authid.text(), &words[1]);
        write_vouch(asked, word_key(&words[0]), &servers)
    }

    // The grant that a ticket request is answered with.
    fn grant(&self, asked: &TicketReq, words: &[[u8; 8]; 3]) -> [u8; 145]
        ensures { result ≡ grant (knowledge self.now) words.now asked.now }
    {
        let shared = word_key(&words[0]);
        let may = self
            .speaks
            .speaks_for(asked.hostid.text(), asked.uid.text());
        let servers = self.granted_key(may, asked.authid.text(), &words[1]);
        let hosts = self.granted_key(may, asked.hostid.text(), &words[2]);
        write_tickets(asked, shared, &hosts, &servers)
    }

    // The key of a name where its host may speak for the user, or the one that a word stands for.
    fn granted_key(&self, may: bool, name: &[u8], word: &[u8; 8]) -> Key7
        ensures { result.0 ≡ granted_key may (key_of name.now self.now.keys) word.now }
    {
        match self.keys.find(name) {
            Some(key) if may => key.des(),
            _ => word_key(word),
        }
    }
}
