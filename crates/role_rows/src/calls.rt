// The calls of a conversation, as rows have them.
use crate::messages::Messages;
use crate::play_fault::PlayFault;
use attr_tuples::{Tuple, parse_tuple};
use conv_challenge::ChConv;
use conv_p9any::AnyConv;
use conv_p9sk1::SkConv;
use roles::{Gave, Machine, Offered, SkKey, StartFault, fits_start};
use row_files::Row;
use sealing::Key7;
use std::alloc::Global;
use talks::Conv;
use wire_base::{Bytes, Name, Text};

/// A conversation that may choose a domain.
pub(crate) trait Conversation: Machine {
    /// The list of what keys offer came; none where nothing is ever chosen.
    fn offer(&mut self, list: Bytes) -> Option<Gave>;

    /// The place of a template was picked; none where nothing is ever chosen.
    fn pick(&mut self, place: u32) -> Option<Gave>;
}

impl Conversation for SkConv {
    fn offer(&mut self, list: Bytes) -> Option<Gave> {
        None
    }

    fn pick(&mut self, place: u32) -> Option<Gave> {
        None
    }
}

impl Conversation for ChConv {
    fn offer(&mut self, list: Bytes) -> Option<Gave> {
        None
    }

    fn pick(&mut self, place: u32) -> Option<Gave> {
        None
    }
}

impl<M: Offered + Drop> Conversation for AnyConv<M> {
    fn offer(&mut self, list: Bytes) -> Option<Gave> {
        Some(self.with_offers(list))
    }

    fn pick(&mut self, place: u32) -> Option<Gave> {
        Some(self.with_pick(place))
    }
}

impl Conversation for Conv {
    fn offer(&mut self, list: Bytes) -> Option<Gave> {
        Some(self.with_offers(list))
    }

    fn pick(&mut self, place: u32) -> Option<Gave> {
        Some(self.with_pick(place))
    }
}

/// Bytes as an array, where there are so many.
pub(crate) fn array_of<const N: usize>(bytes: &[u8]) -> Option<[u8; N]> {
    if bytes.len() != N {
        return None;
    }
    let mut array = [0; N];
    array.copy_from_slice(bytes);
    Some(array)
}

// The key that the fields from a place on say: its DES key, its user and its domain.
fn key_of(row: &Row, at: usize) -> Option<SkKey> {
    let des = array_of::<7>(row.field(at)?)?;
    let user = Name::from_text(row.field(at.checked_add(1)?)?)?;
    let dom = Name::from_text(row.field(at.checked_add(2)?)?)?;
    let des = Key7(des);
    Some(SkKey { des, user, dom })
}

// The password behind the key, if one stands there.
fn password_of(alloc: Global, row: &Row, at: usize) -> Result<Option<Text>, PlayFault> {
    let Some(password) = row.field(at.saturating_add(3)) else {
        return Ok(None);
    };
    match Text::from_slice(alloc, password)? {
        Some(text) => Ok(Some(text)),
        None => Err(PlayFault::Row("the password is no text")),
    }
}

// The key comes that the fields from a place on say.
fn bring_key<M: Machine>(
    alloc: Global,
    conv: &mut M,
    row: &Row,
    at: usize,
) -> Result<Gave, PlayFault> {
    let Some(key) = key_of(row, at) else {
        return Err(PlayFault::Row("no key"));
    };
    match password_of(alloc, row, at)? {
        Some(password) => Ok(conv.with_key(alloc, &key, Some(&password))),
        None => Ok(conv.with_key(alloc, &key, None)),
    }
}

/// The template that a field says.
pub(crate) fn template_of(alloc: Global, row: &Row, at: usize) -> Result<Tuple, PlayFault> {
    let Some(text) = row.field(at) else {
        return Err(PlayFault::Row("no template"));
    };
    match parse_tuple(alloc, text) {
        Ok(template) => Ok(template),
        Err(_) => Err(PlayFault::Row("the template is no tuple")),
    }
}

/// Starts a conversation by the template and the word that the fields from a place on say.
pub(crate) fn start<M: Machine>(
    alloc: Global,
    messages: &Messages,
    row: &Row,
    at: usize,
) -> Result<Result<M, StartFault>, PlayFault> {
    let template = template_of(alloc, row, at)?;
    let word = messages.join(row, at.saturating_add(1))?;
    let Some(word) = array_of::<8>(word.as_slice()) else {
        return Err(PlayFault::Row("no word of eight bytes"));
    };
    if !fits_start(&template) {
        return Err(PlayFault::Row("too many attributes"));
    }
    Ok(M::start(alloc, &template, word))
}

/// Whether a word is that of a call.
pub(crate) fn is_call(word: &[u8]) -> bool {
    match word {
        b"get" | b"give" | b"heard" | b"unheard" | b"roomless" => true,
        b"key" | b"offers" | b"pick" | b"undo" => true,
        _ => false,
    }
}

// A call with bytes.
fn bring<M: Conversation>(
    alloc: Global,
    conv: &mut M,
    word: &[u8],
    bytes: Bytes,
) -> Result<Gave, PlayFault> {
    match word {
        b"give" => Ok(conv.give(alloc, bytes.as_slice())),
        b"heard" => Ok(conv.with_answer(alloc, bytes.as_slice())),
        _ => match conv.offer(bytes) {
            Some(gave) => Ok(gave),
            None => Err(PlayFault::Row("nothing is chosen here")),
        },
    }
}

// A place is picked.
fn pick<M: Conversation>(conv: &mut M, place: Option<u64>) -> Result<Gave, PlayFault> {
    let Some(place) = place else {
        return Err(PlayFault::Row("no place"));
    };
    let Ok(place) = u32::try_from(place) else {
        return Err(PlayFault::Row("no place"));
    };
    match conv.pick(place) {
        Some(gave) => Ok(gave),
        None => Err(PlayFault::Row("nothing is chosen here")),
    }
}

/// Makes the call that the fields from a place on say. What is taken back is answered Ok.
pub(crate) fn make_call<M: Conversation>(
    alloc: Global,
    messages: &Messages,
    conv: &mut M,
    row: &Row,
    at: usize,
    out: &mut Bytes,
) -> Result<Gave, PlayFault> {
    let Some(word) = row.field(at) else {
        return Err(PlayFault::Row("no call"));
    };
    let behind = at.saturating_add(1);
    match word {
        b"get" => Ok(conv.get(out)),
        b"unheard" => Ok(conv.without_answer()),
        b"roomless" => Ok(conv.without_room()),
        b"undo" => {
            conv.undo_need();
            Ok(Gave::Ok)
        }
        b"key" => bring_key(alloc, conv, row, behind),
        b"pick" => pick(conv, row.number(behind)),
        b"give" | b"heard" | b"offers" => bring(alloc, conv, word, messages.join(row, behind)?),
        _ => Err(PlayFault::Row("no such call")),
    }
}
