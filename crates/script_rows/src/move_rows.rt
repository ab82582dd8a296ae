// Rows of what conversations do in labelled records: the move that each act is, whether what came last has its form, whether
// a request has the form of what is answered to it, and what conversations that stand by their names give.
use crate::came::Came;
use crate::spelled_terms::term_of;
use crate::texts::{Texts, argument, number_at};
use anyhow::bail;
use row_files::{Report, Row};
use std::alloc::Global;
use symbolic_runs::{MacKind, Reading, Term};
use trace_runs::{
    Act, Conversation, Conversations, Deed, Granted, Move, Own, Role, Used, is_answered, is_formed,
};
use wire_base::{Bytes, Text};
use wire_histories::{Protocol, Role as Part};

static DOMAIN: &[u8] = b"dom";

// The request that is answered, and the one at which a challenge was given before.
const ANSWERED: u32 = 3;

const FIRST: u32 = 2;

fn role_of(word: &[u8]) -> anyhow::Result<Role> {
    match word {
        b"client" => Ok(Role::Client),
        b"server" => Ok(Role::Server),
        b"apop_client" => Ok(Role::MailClient(MacKind::Apop)),
        b"cram_client" => Ok(Role::MailClient(MacKind::Cram)),
        b"apop_server" => Ok(Role::MailServer(MacKind::Apop)),
        b"cram_server" => Ok(Role::MailServer(MacKind::Cram)),
        _ => bail!("no such role"),
    }
}

fn text_of(alloc: Global, name: &[u8]) -> anyhow::Result<Text> {
    match Text::from_slice(alloc, name)? {
        Some(name) => Ok(name),
        None => bail!("a name is no text"),
    }
}

// A conversation whose key and password are those of a name, with the random word of a number.
fn conversation_of(
    alloc: Global,
    role: Role,
    name: &[u8],
    number: u32,
) -> anyhow::Result<Conversation> {
    let own = Own {
        word: Term::Nonce(number),
        key: Term::LKey(text_of(alloc, name)?),
        password: Term::Pw(text_of(alloc, name)?),
    };
    Ok(Conversation::new(alloc, own, role))
}

fn protocol_of(word: &[u8]) -> anyhow::Result<Protocol> {
    match word {
        b"p9any" => Ok(Protocol::P9any),
        b"p9sk1" => Ok(Protocol::P9sk1),
        b"apop" => Ok(Protocol::Apop),
        b"cram" => Ok(Protocol::Cram),
        _ => bail!("no such protocol"),
    }
}

fn part_of(word: &[u8]) -> anyhow::Result<Part> {
    match word {
        b"client" => Ok(Part::Client),
        b"server" => Ok(Part::Server),
        b"speakfor" => Ok(Part::Speakfor),
        _ => bail!("no such part"),
    }
}

// The act of a word, with these bytes and this label where it has them.
fn act_of<'a>(word: &[u8], bytes: &'a [u8], label: Option<&'a Term>) -> anyhow::Result<Act<'a>> {
    match (word, label) {
        (b"started", _) => Ok(Act::Started(protocol_of(bytes)?)),
        (b"gave", _) => Ok(Act::Gave(bytes)),
        (b"took", Some(label)) => Ok(Act::Took { bytes, label }),
        (b"asked", _) => Ok(Act::Asked(bytes)),
        (b"answered", Some(label)) => Ok(Act::Answered(label)),
        (b"unanswered", _) => Ok(Act::Unanswered),
        (b"accepted", _) => Ok(Act::Accepted),
        (b"failed", _) => Ok(Act::Failed),
        _ => bail!("no such row"),
    }
}

fn word_of(made: &Move) -> &'static [u8] {
    match made {
        Move::Takes(_) => b"takes".as_slice(),
        Move::Hears(_) => b"hears".as_slice(),
        Move::Gives(_) => b"gives".as_slice(),
        Move::Asks(_) => b"asks".as_slice(),
        Move::Accepts(_) => b"accepts".as_slice(),
        Move::Fails => b"fails".as_slice(),
    }
}

// The term of a move, if the move is of this word.
fn term_in<'a>(made: &'a Move, word: &[u8]) -> Option<&'a Term> {
    match word {
        b"takes" => made.taken(),
        b"hears" => made.heard(),
        b"gives" => made.given(),
        b"asks" => made.asked(),
        _ => None,
    }
}

fn challenge_deed(alloc: Global, kind: MacKind) -> Deed {
    Deed::GivesChallenge {
        kind,
        number: ANSWERED,
        head: Bytes::new(alloc),
    }
}

fn vouch_deed(kind: MacKind) -> Deed {
    Deed::GivesVouch {
        kind,
        number: ANSWERED,
        first: FIRST,
    }
}

fn deed_of(alloc: Global, word: &[u8]) -> anyhow::Result<Deed> {
    match word {
        b"tickets" => Ok(Deed::GivesTickets(ANSWERED)),
        b"apop" => Ok(challenge_deed(alloc, MacKind::Apop)),
        b"cram" => Ok(challenge_deed(alloc, MacKind::Cram)),
        b"apop_vouch" => Ok(vouch_deed(MacKind::Apop)),
        b"cram_vouch" => Ok(vouch_deed(MacKind::Cram)),
        b"refusal" => Ok(Deed::Refuses {
            number: ANSWERED,
            bytes: Bytes::new(alloc),
        }),
        _ => bail!("no such deed"),
    }
}

// What was used: the password of a name, or for `-` keys that were made up.
fn used_of(alloc: Global, name: &[u8]) -> anyhow::Result<Used> {
    match name {
        b"-" => Ok(Used::Keys {
            sealer: None,
            host: None,
        }),
        _ => Ok(Used::KeyAndPassword {
            sealer: None,
            name: text_of(alloc, name)?,
        }),
    }
}

/// A term under a name.
#[derive(Drop)]
struct Named {
    name: Bytes,
    term: Term,
}

fn find<'a>(named: &'a [Named], name: Option<&[u8]>) -> Option<&'a Term> {
    let name = name?;
    for named in named.iter().rev() {
        if named.name.as_slice() == name {
            return Some(&named.term);
        }
    }
    None
}

// The name of a term.
fn name_of<'a>(named: &'a [Named], term: &Term) -> Option<&'a [u8]> {
    for named in named.iter().rev() {
        if named.term.same(term) {
            return Some(named.name.as_slice());
        }
    }
    None
}

// How many moves there are, and what each is.
fn put_moves(moves: &[Move], came: &mut Came) -> anyhow::Result<()> {
    came.put_number(moves.len() as u64)?;
    for made in moves {
        came.put(word_of(made))?;
    }
    Ok(())
}

// The last field of a row.
fn last_field(row: &Row) -> Option<&[u8]> {
    match row.given.last() {
        Some(field) => Some(field.as_slice()),
        None => None,
    }
}

/// What the rows that follow are over: texts and terms under names, the bytes of atoms, a conversation by itself, and those
/// that stand by their names.
#[derive(Drop)]
struct Talk {
    texts: Texts,
    terms: Vec<Named>,
    reading: Reading,
    conversation: Conversation,
    conversations: Conversations,
}

impl Talk {
    fn new(alloc: Global) -> anyhow::Result<Talk> {
        Ok(Talk {
            texts: Texts::new(alloc),
            terms: Vec::new(alloc),
            reading: Reading::new(alloc),
            conversation: conversation_of(alloc, Role::Client, b"", 0)?,
            conversations: Conversations::new(alloc),
        })
    }

    // `term NAME TERM`: a term under a name.
    fn keep(&mut self, alloc: Global, row: &Row) -> anyhow::Result<()> {
        let name = Bytes::from_slice(alloc, argument(row, 1)?)?;
        let term = term_of(alloc, row, 2)?;
        self.terms.push(Named { name, term })?;
        Ok(())
    }

    fn find(&self, row: &Row) -> anyhow::Result<&Term> {
        match find(&self.terms, last_field(row)) {
            Some(term) => Ok(term),
            None => bail!("a term has no such name"),
        }
    }

    // `set BYTES TERM`: the bytes of an atom.
    fn set(&mut self, alloc: Global, row: &Row, came: &mut Came) -> anyhow::Result<()> {
        let bytes = Bytes::from_slice(alloc, argument(row, 1)?)?;
        let term = term_of(alloc, row, 2)?;
        let taken = self.reading.set(term, bytes)?;
        came.put_yes(taken)
    }

    // `begin ROLE NAME NUMBER`: a conversation, and whether it has that role.
    fn begin(&mut self, alloc: Global, row: &Row, came: &mut Came) -> anyhow::Result<()> {
        let role = role_of(argument(row, 1)?)?;
        let number = u32::try_from(number_at(row, 3)?)?;
        self.conversation = conversation_of(alloc, role, argument(row, 2)?, number)?;
        came.put_yes(self.conversation.role() == role)
    }

    // `own WHAT NAME`: whether the term of a name is what the conversation has of its own.
    fn put_own(&self, row: &Row, came: &mut Came) -> anyhow::Result<()> {
        let own = self.conversation.own();
        let term = self.find(row)?;
        match argument(row, 1)? {
            b"word" => came.put_yes(own.word.same(term)),
            b"key" => came.put_yes(own.key.same(term)),
            b"password" => came.put_yes(own.password.same(term)),
            _ => bail!("nothing of its own"),
        }
    }

    // The bytes of an act, which stand at a place.
    fn bytes_at(&self, rt: &HostRuntime, row: &Row, at: usize) -> anyhow::Result<Bytes> {
        match row.field(at) {
            Some(field) => self.texts.bytes_of(rt, field),
            None => Ok(Bytes::new(rt.alloc())),
        }
    }

    // An act of the conversation.
    fn act(&mut self, rt: &HostRuntime, row: &Row) -> anyhow::Result<()> {
        let bytes = self.bytes_at(rt, row, 1)?;
        let label = find(&self.terms, last_field(row));
        let act = act_of(row.word(), bytes.as_slice(), label)?;
        self.conversation.act(&act)?;
        Ok(())
    }

    // `start CONVERSATION PROTOCOL PART HOLDER`: whether a conversation of a name starts.
    fn start(&mut self, alloc: Global, row: &Row, came: &mut Came) -> anyhow::Result<()> {
        let protocol = protocol_of(argument(row, 2)?)?;
        let part = part_of(argument(row, 3)?)?;
        let holder = text_of(alloc, argument(row, 4)?)?;
        let conversations = &mut self.conversations;
        came.put_yes(conversations.start(argument(row, 1)?, protocol, part, &holder)?)
    }

    // `of CONVERSATION ACT`: the name of the term that a conversation gives by an act.
    fn put_gift(&mut self, rt: &HostRuntime, row: &Row, came: &mut Came) -> anyhow::Result<()> {
        let bytes = self.bytes_at(rt, row, 3)?;
        let label = find(&self.terms, last_field(row));
        let act = act_of(argument(row, 2)?, bytes.as_slice(), label)?;
        let Some(given) = self.conversations.act(argument(row, 1)?, &act)? else {
            return Ok(came.put(b"-")?);
        };
        match name_of(&self.terms, &given) {
            Some(name) => Ok(came.put(name)?),
            None => bail!("a term without a name is given"),
        }
    }

    // `talk CONVERSATION`: its moves.
    fn put_talk(&self, row: &Row, came: &mut Came) -> anyhow::Result<()> {
        match self.conversations.find(argument(row, 1)?) {
            Some(talk) => put_moves(talk.moves(), came),
            None => came.put_yes(false),
        }
    }

    // `made WORD NAME`: whether the newest move is so, with the term of a name.
    fn put_made(&self, row: &Row, came: &mut Came) -> anyhow::Result<()> {
        let Some(newest) = self.conversation.moves().last() else {
            return came.put_yes(false);
        };
        let term = self.find(row)?;
        match term_in(newest, argument(row, 1)?) {
            Some(made) => came.put_yes(made.same(term)),
            None => came.put_yes(false),
        }
    }

    // `user`: the field of the user whom the newest move accepts.
    fn put_user(&self, came: &mut Came) -> anyhow::Result<()> {
        let Some(newest) = self.conversation.moves().last() else {
            return came.put_yes(false);
        };
        match newest.accepted() {
            Some(user) => Ok(came.put(user)?),
            None => came.put_yes(false),
        }
    }

    // `formed`: whether what came last has its form.
    fn put_formed(&self, came: &mut Came) -> anyhow::Result<()> {
        let talk = &self.conversation;
        came.put_yes(is_formed(&self.reading, talk.own(), talk.role(), talk.moves())?)
    }

    // `answers DEED USED NAME`: whether the request of a name has the form of what is answered.
    fn put_answered(&self, alloc: Global, row: &Row, came: &mut Came) -> anyhow::Result<()> {
        let deed = deed_of(alloc, argument(row, 1)?)?;
        let granted = Granted {
            used: used_of(alloc, argument(row, 2)?)?,
            challenge: Term::Nonce(0),
            host: Bytes::new(alloc),
            user: Bytes::new(alloc),
        };
        came.put_yes(is_answered(alloc, DOMAIN, &granted, self.find(row)?, &deed)?)
    }

    fn play(&mut self, rt: &HostRuntime, row: &Row, came: &mut Came) -> anyhow::Result<()> {
        let alloc = rt.alloc();
        match row.word() {
            b"text" => self.texts.keep(rt, row),
            b"term" => self.keep(alloc, row),
            b"set" => self.set(alloc, row, came),
            b"begin" => self.begin(alloc, row, came),
            b"own" => self.put_own(row, came),
            b"start" => self.start(alloc, row, came),
            b"of" => self.put_gift(rt, row, came),
            b"talk" => self.put_talk(row, came),
            b"moves" => put_moves(self.conversation.moves(), came),
            b"made" => self.put_made(row, came),
            b"user" => self.put_user(came),
            b"formed" => self.put_formed(came),
            b"answers" => self.put_answered(alloc, row, came),
            _ => self.act(rt, row),
        }
    }
}

/// Plays rows of conversations.
pub(crate) fn play(
    rt: &HostRuntime,
    file: &str,
    rows: &[Row],
    report: &mut Report,
) -> anyhow::Result<()> {
    let mut talk = Talk::new(rt.alloc())?;
    for row in rows {
        let mut came = Came::new(rt.alloc());
        let played = talk.play(rt, row, &mut came);
        came.tell(file, row, played, report)?;
    }
    Ok(())
}
