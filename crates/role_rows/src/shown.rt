// The words by which what a conversation answers stands in rows.
use crate::came::Came;
use crate::messages::Messages;
use attr_tuples::{Tuple, print_tuple};
use roles::{Cause, Gave, Need, Outcome, PhaseWord, StartFault};
use std::alloc::Global;
use wire_base::{Bytes, NoMemory, Shape};

/// Why nothing was started.
pub(crate) fn fault_word(fault: StartFault) -> &'static [u8] {
    match fault {
        StartFault::SecretValue => b"secret-value",
        StartFault::UnknownProto => b"unknown-proto",
        StartFault::UnknownRole => b"unknown-role",
        StartFault::BadUser => b"bad-user",
        StartFault::NoMemory => b"no-memory",
    }
}

fn phase_word(phase: PhaseWord) -> &'static [u8] {
    match phase {
        PhaseWord::AwaitsRead => b"awaits-read",
        PhaseWord::AwaitsWrite => b"awaits-write",
        PhaseWord::Broken => b"is-broken",
    }
}

fn cause_word(cause: Cause) -> &'static [u8] {
    match cause {
        Cause::WrongKind => b"wrong-kind",
        Cause::WrongChallenge => b"wrong-challenge",
        Cause::WrongUser => b"wrong-user",
        Cause::NotOffered => b"not-offered",
        Cause::ServerSaidNo => b"server-said-no",
        Cause::NoServer => b"no-server",
        Cause::NoRoom => b"no-room",
        Cause::BadKey => b"bad-key",
    }
}

fn gave_word(gave: Gave) -> &'static [u8] {
    match gave {
        Gave::Ok => b"ok",
        Gave::Wait => b"wait",
        Gave::Phase(phase) => phase_word(phase),
        Gave::TooSmall(_) => b"too-small",
        Gave::TooLong => b"too-long",
        Gave::Done { haveai: true } => b"done-with-info",
        Gave::Done { haveai: false } => b"done-without-info",
        Gave::BadKey => b"bad-key",
        Gave::Refused(_) => b"refused",
        Gave::NoMemory => b"no-memory",
    }
}

/// What a call is answered: a word, and how many bytes or which cause.
pub(crate) fn put_gave(gave: Gave, came: &mut Came) -> Result<(), NoMemory> {
    came.put(gave_word(gave))?;
    match gave {
        Gave::TooSmall(size) => came.put_number(u64::from(size)),
        Gave::Refused(cause) => came.put(cause_word(cause)),
        Gave::Ok | Gave::Wait | Gave::Phase(_) | Gave::TooLong => Ok(()),
        Gave::Done { .. } | Gave::BadKey | Gave::NoMemory => Ok(()),
    }
}

/// A template, as it is printed.
pub(crate) fn put_template(
    alloc: Global,
    template: &Tuple,
    came: &mut Came,
) -> Result<(), NoMemory> {
    let mut text = Bytes::new(alloc);
    print_tuple(template, &mut text)?;
    came.put(text.as_slice())
}

fn put_templates(alloc: Global, templates: &[Tuple], came: &mut Came) -> Result<(), NoMemory> {
    for template in templates {
        put_template(alloc, template, came)?;
    }
    Ok(())
}

fn need_word(need: &Need) -> &'static [u8] {
    match need {
        Need::Nothing => b"nothing",
        Need::Key(_) => b"key",
        Need::Offers(_) => b"offers",
        Need::Pick(_) => b"pick",
        Need::Exchange { .. } => b"exchange",
    }
}

/// What is needed: a word, and the templates or the request.
pub(crate) fn put_need(
    alloc: Global,
    messages: &Messages,
    need: &Need,
    came: &mut Came,
) -> Result<(), NoMemory> {
    came.put(need_word(need))?;
    match need {
        Need::Nothing => Ok(()),
        Need::Key(template) | Need::Offers(template) => put_template(alloc, template, came),
        Need::Pick(templates) => put_templates(alloc, templates.as_slice(), came),
        Need::Exchange { request, .. } => messages.tell(request.as_slice(), came),
    }
}

/// How the answer ends that is needed, if one is.
pub(crate) fn shape_word(need: &Need) -> &'static [u8] {
    match need {
        Need::Exchange { shape, .. } => match shape {
            Shape::Tickets => b"tickets",
            Shape::Challenge => b"challenge",
            Shape::Vouch => b"vouch",
        },
        Need::Nothing | Need::Key(_) | Need::Offers(_) | Need::Pick(_) => b"none",
    }
}

/// How a conversation stands: a word, and the users and the secret of an authinfo.
pub(crate) fn put_outcome(
    messages: &Messages,
    outcome: &Outcome,
    came: &mut Came,
) -> Result<(), NoMemory> {
    match outcome {
        Outcome::Running => came.put(b"running"),
        Outcome::Finished => came.put(b"finished"),
        Outcome::Broken(_) => came.put(b"broken"),
        Outcome::Accepted(info) => {
            came.put(b"accepted")?;
            came.put(info.cuid.text())?;
            came.put(info.suid.text())?;
            messages.tell(&info.secret, came)
        }
    }
}
