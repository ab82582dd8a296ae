// One line of a script.
ghost use Rattle.std.specs.Prelude.{◌≡◌, option_map, IfOk};
ghost use Rattle.world_scripts.specs.Lines.{IsWritten, Node, Restart, Read, Write, Answer, NoAnswer, Close};
ghost use Rattle.world_scripts.specs.Reading.{asgive_of, ctl_of, dom_of, line_behind, line_of, name_of, open_of, start_of, verb_of, with_pieces, word_alone};
ghost use Rattle.world_scripts.specs.Said.{read_as, said_line};

use crate::pieces::Pieces;
use crate::words::{check_domain, cut_at, name_before, random_before, read_name, read_random};

/// A text isn't a line of a script.
#[derive(Clone, Copy, Debug, PartialEq, Eq)]
pub struct BadForm;

/// What a line says.
#[derive(Debug, Drop)]
pub enum Line<'a> {
    /// The domain of the authentication server.
    Dom {
        dom: &'a [u8],
    },
    /// A line of the server's keys.
    AsKey {
        tuple: &'a [u8],
    },
    /// A line of who speaks for whom.
    AsSpeak {
        tuple: &'a [u8],
    },
    /// Its tables are read again: new ones, of which the lines behind tell.
    Reload,
    /// A new agent.
    Node {
        node: &'a [u8],
    },
    /// The agent of a node is made anew.
    Restart {
        node: &'a [u8],
    },
    /// A line of an agent's ctl.
    Ctl {
        node: &'a [u8],
        line: &'a [u8],
    },
    /// A new conversation on an agent.
    Open {
        node: &'a [u8],
        conv: &'a [u8],
    },
    /// The start of a conversation, and the random bytes that it draws.
    Start {
        conv: &'a [u8],
        random: [u8; 8],
        tuple: &'a [u8],
    },
    /// A read of a conversation.
    Read {
        conv: &'a [u8],
    },
    /// A write of a conversation.
    Write {
        conv: &'a [u8],
        pieces: Pieces<'a>,
    },
    /// The server's answer to a conversation's question.
    Answer {
        conv: &'a [u8],
        pieces: Pieces<'a>,
    },
    /// A conversation's question is answered by nobody.
    NoAnswer {
        conv: &'a [u8],
    },
    /// A request to a session of the server, and the random bytes that it draws.
    AsGive {
        session: &'a [u8],
        pieces: Pieces<'a>,
        first: [u8; 8],
        second: [u8; 8],
        third: [u8; 8],
    },
    /// The end of a conversation.
    Close {
        conv: &'a [u8],
    },
}

/// The first word of a line that has more than one.
#[derive(Clone, Copy)]
enum Verb {
    Dom,
    AsKey,
    AsSpeak,
    Node,
    Restart,
    Ctl,
    Open,
    Start,
    Read,
    Write,
    Answer,
    NoAnswer,
    AsGive,
    Close,
}

/// The line that a text is. Each byte is looked at a few times at most.
pub fn parse_line(text: &[u8]) -> Result<Line<'_>, BadForm>
    ensures read { read_as result ≡ line_of text.now }
    ensures written { IfOk result (λ line. IsWritten text.now (said_line line)) }
{
    match read_line(text) {
        Some(line) => Ok(line),
        None => Err(BadForm),
    }
}

#[tactic(auto, unfolding(crate::specs::Reading::line_of))]
fn read_line(text: &[u8]) -> Option<Line<'_>>
    ensures { option_map said_line result ≡ line_of text.now }
{
    match cut_at(b' ', text) {
        Some((verb, rest)) => read_behind(read_verb(verb)?, rest),
        None => read_word(text),
    }
}

fn read_word(text: &[u8]) -> Option<Line<'_>>
    ensures { option_map said_line result ≡ word_alone text.now }
{
    if text == b"reload".as_slice() {
        return Some(Line::Reload);
    }
    None
}

fn read_verb(text: &[u8]) -> Option<Verb>
    ensures { result ≡ verb_of text.now }
{
    if text == b"dom".as_slice() {
        return Some(Verb::Dom);
    }
    if text == b"askey".as_slice() {
        return Some(Verb::AsKey);
    }
    if text == b"asspeak".as_slice() {
        return Some(Verb::AsSpeak);
    }
    if text == b"node".as_slice() {
        return Some(Verb::Node);
    }
    if text == b"restart".as_slice() {
        return Some(Verb::Restart);
    }
    if text == b"ctl".as_slice() {
        return Some(Verb::Ctl);
    }
    if text == b"open".as_slice() {
        return Some(Verb::Open);
    }
    if text == b"start".as_slice() {
        return Some(Verb::Start);
    }
    if text == b"read".as_slice() {
        return Some(Verb::Read);
    }
    if text == b"write".as_slice() {
        return Some(Verb::Write);
    }
    if text == b"answer".as_slice() {
        return Some(Verb::Answer);
    }
    if text == b"noanswer".as_slice() {
        return Some(Verb::NoAnswer);
    }
    if text == b"asgive".as_slice() {
        return Some(Verb::AsGive);
    }
    if text == b"close".as_slice() {
        return Some(Verb::Close);
    }
    None
}

fn read_behind(verb: Verb, text: &[u8]) -> Option<Line<'_>>
    ensures { option_map said_line result ≡ line_behind verb text.now }
{
    match verb {
        Verb::Dom => read_dom(text),
        Verb::AsKey => Some(Line::AsKey { tuple: text }),
        Verb::AsSpeak => Some(Line::AsSpeak { tuple: text }),
        Verb::Node => read_node(text),
        Verb::Restart => read_restart(text),
        Verb::Ctl => read_ctl(text),
        Verb::Open => read_open(text),
        Verb::Start => read_start(text),
        Verb::Read => read_read(text),
        Verb::Write => read_write(text),
        Verb::Answer => read_answer(text),
        Verb::NoAnswer => read_noanswer(text),
        Verb::AsGive => read_asgive(text),
        Verb::Close => read_close(text),
    }
}

fn read_dom(text: &[u8]) -> Option<Line<'_>>
    ensures { option_map said_line result ≡ dom_of text.now }
{
    if check_domain(text) {
        Some(Line::Dom { dom: text })
    } else {
        None
    }
}

fn read_node(text: &[u8]) -> Option<Line<'_>>
    ensures { option_map said_line result ≡ option_map Node (name_of text.now) }
{
    let node = read_name(text)?;
    Some(Line::Node { node })
}

fn read_restart(text: &[u8]) -> Option<Line<'_>>
    ensures { option_map said_line result ≡ option_map Restart (name_of text.now) }
{
    let node = read_name(text)?;
    Some(Line::Restart { node })
}

fn read_ctl(text: &[u8]) -> Option<Line<'_>>
    ensures { option_map said_line result ≡ ctl_of text.now }
{
    let (node, line) = name_before(text)?;
    Some(Line::Ctl { node, line })
}

fn read_open(text: &[u8]) -> Option<Line<'_>>
    ensures { option_map said_line result ≡ open_of text.now }
{
    let (node, rest) = name_before(text)?;
    let conv = read_name(rest)?;
    Some(Line::Open { node, conv })
}

fn read_start(text: &[u8]) -> Option<Line<'_>>
    ensures { option_map said_line result ≡ start_of text.now }
{
    let (conv, rest) = name_before(text)?;
    let (random, tuple) = random_before(rest)?;
    Some(Line::Start {
        conv,
        random,
        tuple,
    })
}

fn read_read(text: &[u8]) -> Option<Line<'_>>
    ensures { option_map said_line result ≡ option_map Read (name_of text.now) }
{
    let conv = read_name(text)?;
    Some(Line::Read { conv })
}

fn read_write(text: &[u8]) -> Option<Line<'_>>
    ensures { option_map said_line result ≡ with_pieces Write text.now }
{
    let (conv, rest) = name_before(text)?;
    let pieces = Pieces::read(rest)?;
    Some(Line::Write { conv, pieces })
}

fn read_answer(text: &[u8]) -> Option<Line<'_>>
    ensures { option_map said_line result ≡ with_pieces Answer text.now }
{
    let (conv, rest) = name_before(text)?;
    let pieces = Pieces::read(rest)?;
    Some(Line::Answer { conv, pieces })
}

fn read_noanswer(text: &[u8]) -> Option<Line<'_>>
    ensures { option_map said_line result ≡ option_map NoAnswer (name_of text.now) }
{
    let conv = read_name(text)?;
    Some(Line::NoAnswer { conv })
}

fn read_asgive(text: &[u8]) -> Option<Line<'_>>
    ensures { option_map said_line result ≡ asgive_of text.now }
{
    let (session, rest) = name_before(text)?;
    let (front, rest) = cut_at(b' ', rest)?;
    let pieces = Pieces::read(front)?;
    let (first, rest) = random_before(rest)?;
    let (second, rest) = random_before(rest)?;
    let third = read_random(rest)?;
    Some(Line::AsGive {
        session,
        pieces,
        first,
        second,
        third,
    })
}

fn read_close(text: &[u8]) -> Option<Line<'_>>
    ensures { option_map said_line result ≡ option_map Close (name_of text.now) }
{
    let conv = read_name(text)?;
    Some(Line::Close { conv })
}
