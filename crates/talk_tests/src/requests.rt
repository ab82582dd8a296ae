// Logins, and each refusal of a request by a short talk. The messages are those of a login of ann at srv in the domain x,
// made by bench/vectors over OpenSSL's DES.
use crate::expect::expect;
use crate::rings::ring_of;
use attr_tuples::print_tuple;
use conversations::{Asks, Conversation};
use key_ring::KeyRing;
use roles::Outcome;
use std::alloc::Global;
use std::process::Abort;
use std::test::Fail;
use talks::{Asking, Request, print_answer};
use wire_base::{Bytes, NoMemory, Shape};

const WORD: [u8; 8] = *b"\x01#Eg\x89\xab\xcd\xef";

const CHAL: [u8; 8] = *b"\x10\x11\x12\x13\x14\x15\x16\x17";

const REQUEST: &[u8] = b"\x01srv\0\0\0\0\0\0\0\0\0\0\0\0\0\0\0\0\0\0\0\0\
    \0\0\0\0\0x\0\0\0\0\0\0\0\0\0\0\0\0\0\0\0\0\0\0\
    \0\0\0\0\0\0\0\0\0\0\0\0\0\0\0\0\0\0\0\0\0\0\0\0\
    \0\0\0\0\0\x10\x11\x12\x13\x14\x15\x16\x17\0\0\0\0\0\0\0\0\0\0\0\
    \0\0\0\0\0\0\0\0\0\0\0\0\0\0\0\0\0\0\0\0\0\0\0\0\
    \0\0\0\0\0\0\0\0\0\0\0\0\0\0\0\0\0\0\0\0\0";

const QUESTION: &[u8] = b"\x01srv\0\0\0\0\0\0\0\0\0\0\0\0\0\0\0\0\0\0\0\0\
    \0\0\0\0\0x\0\0\0\0\0\0\0\0\0\0\0\0\0\0\0\0\0\0\
    \0\0\0\0\0\0\0\0\0\0\0\0\0\0\0\0\0\0\0\0\0\0\0\0\
    \0\0\0\0\0\x10\x11\x12\x13\x14\x15\x16\x17ann\0\0\0\0\0\0\0\0\
    \0\0\0\0\0\0\0\0\0\0\0\0\0\0\0\0\0ann\0\0\0\0\
    \0\0\0\0\0\0\0\0\0\0\0\0\0\0\0\0\0\0\0\0\0";

const ANSWER: &[u8] = b"\x04q\x82\xe8[4L\x132\xe4/\xcd\xdbU\xe78\xe1|F\xe1\xec#4\xfa\
    \xc9X\xc7\xc1@\x0f\xdc\x01\xd1=\xf6\xf9\xb9Hc\x9ec\x0c\x1dZ\x85\x97m=\
    \x0b\xc5#'\x0eOdw4bu\xa1\x07\xbf\xc2\x8ai\xd8\xf3S\x90s(\xf9\
    2\xe24\x17\xa9\xbbi\xf5\xf6F\xba\x03OO\x9b\xd2oJ\xd9(\xf4\x98\xe4\x95\
    Y\x9c:<n-\x04\xbeD\x86fHw\xae\x0c\x14T\xf9s\x8e~\xc4\xbe\xe7\
    \xd5\xd5\xb3V\xbbL\x10=\xb7Zu\x1f\xcb\xe0u\xb1\xc2\xf6.8J\xac\xbe\x1c\
    \xc7";

const SHOWN: &[u8] = b"\xe24\x17\xa9\xbbi\xf5\xf6F\xba\x03OO\x9b\xd2oJ\xd9(\xf4\x98\xe4\x95Y\
    \x9c:<n-\x04\xbeD\x86fHw\xae\x0c\x14T\xf9s\x8e~\xc4\xbe\xe7\xd5\
    \xd5\xb3V\xbbL\x10=\xb7Zu\x1f\xcb\xe0u\xb1\xc2\xf6.8J\xac\xbe\x1c\xc7\
    \xbcX\xa9\x88\xed'b\xed\x14H-\x0f\x94";

const PROOF: &[u8] = b"\x7fM\x16\xf8\xc9\x11\x1d\xf5\x19\xe7\x81\xa6\x7f";

const ANN: &[u8] = b"proto=p9sk1 dom=x user=ann !hex=31323334353637";

const SRV: &[u8] = b"proto=p9sk1 dom=x user=srv !hex=41424344454647";

const ANN_ASKED: &[u8] = b"proto=p9sk1 dom=x user=ann confirm !hex=31323334353637";

const CLOSED: Asking = Asking {
    confirm: false,
    needkey: false,
};

const OPEN: Asking = Asking {
    confirm: true,
    needkey: true,
};

// A request, how its answer begins, and what stands behind that.
type Row = (Request<'static>, &'static [u8], &'static [u8]);

const INFO: &[u8] = b"\x03\x00ann\x03\x00ann\x00\x00\x08\x00Q\xa8\x94kE\xabX\xae";

static CLIENT: [Row; 9] = [
    (Request::Start(b"proto=p9sk1 role=client"), b"ok", b""),
    (Request::Read, b"ok ", &WORD),
    (Request::AuthInfo, b"error no authinfo available", b""),
    (Request::Write(REQUEST), b"ok", b""),
    (Request::Read, b"ok ", SHOWN),
    (Request::Write(PROOF), b"ok", b""),
    (Request::Read, b"done haveai", b""),
    (Request::AuthInfo, b"ok ", INFO),
    (
        Request::Attr,
        b"ok ",
        b"proto=p9sk1 role=client dom=x user=ann !hex?",
    ),
];

static SERVER: [Row; 6] = [
    (Request::Start(b"proto=p9sk1 role=server"), b"ok", b""),
    (Request::Write(&WORD), b"ok", b""),
    (Request::Read, b"ok ", REQUEST),
    (Request::Write(SHOWN), b"ok", b""),
    (Request::Read, b"ok ", PROOF),
    (Request::AuthInfo, b"ok ", INFO),
];

static ANY_CLIENT: [Row; 10] = [
    (Request::Start(b"proto=p9any role=client"), b"ok", b""),
    (Request::Write(b"v.2 p9sk1@y p9sk1@x\0"), b"ok", b""),
    (Request::Read, b"ok ", b"p9sk1 x\0"),
    (Request::Write(b"OK\0"), b"ok", b""),
    (Request::Read, b"ok ", &WORD),
    (Request::Write(REQUEST), b"ok", b""),
    (Request::Read, b"ok ", SHOWN),
    (Request::Write(PROOF), b"ok", b""),
    (Request::AuthInfo, b"ok ", INFO),
    (
        Request::Attr,
        b"ok ",
        b"proto=p9any role=client dom=x user=ann !hex?",
    ),
];

static ANY_SERVER: [Row; 9] = [
    (Request::Start(b"proto=p9any role=server"), b"ok", b""),
    (Request::Attr, b"ok ", b"proto=p9any role=server"),
    (Request::Read, b"ok ", b"p9sk1@x\0"),
    (Request::Write(b"p9sk1 x\0"), b"ok", b""),
    (Request::Write(&WORD), b"ok", b""),
    (Request::Read, b"ok ", REQUEST),
    (Request::Write(SHOWN), b"ok", b""),
    (Request::Read, b"ok ", PROOF),
    (Request::AuthInfo, b"ok ", INFO),
];

// A server without a key, and then a client for whose choice there is none.
static ANY_REFUSED: [Row; 9] = [
    (
        Request::Start(b"proto=p9any role=server"),
        b"needkey proto=p9sk1 user? dom? !password?",
        b"",
    ),
    (Request::Read, b"protocol not started", b""),
    (Request::Start(b"proto=p9any role=client"), b"ok", b""),
    (Request::Read, b"phase awaits write", b""),
    (Request::Write(b"p9sk1@x"), b"toosmall 8", b""),
    (Request::Write(b"p9sk1@x p9sk1@y\0"), b"ok", b""),
    (Request::Read, b"ok ", b"p9sk1 x\0"),
    (Request::Read, b"ok ", &WORD),
    (
        Request::Write(REQUEST),
        b"needkey proto=p9sk1 dom=x user? !password?",
        b"",
    ),
];

static REFUSED: [Row; 16] = [
    (Request::Read, b"protocol not started", b""),
    (Request::Write(b""), b"protocol not started", b""),
    (Request::Attr, b"protocol not started", b""),
    (Request::AuthInfo, b"error no authinfo available", b""),
    (Request::Start(b"proto='"), b"error bad template", b""),
    (
        Request::Start(b"proto=p9sk1 role=client !password=a"),
        b"error secret in template",
        b"",
    ),
    (
        Request::Start(b"proto=p9sk2 role=client"),
        b"error unknown proto",
        b"",
    ),
    (
        Request::Start(b"proto=p9sk1 role=guest"),
        b"error unknown role",
        b"",
    ),
    (
        Request::Start(b"proto=p9sk1 role=speakfor"),
        b"error bad user",
        b"",
    ),
    (
        Request::Start(b"proto=p9sk1 role=server"),
        b"needkey proto=p9sk1 user? dom? !password?",
        b"",
    ),
    (Request::Read, b"protocol not started", b""),
    (Request::Start(b"proto=p9sk1 role=client"), b"ok", b""),
    (Request::Start(b"proto='"), b"phase already started", b""),
    (Request::Write(b""), b"phase awaits read", b""),
    (Request::Read, b"ok ", &WORD),
    (
        Request::Write(REQUEST),
        b"needkey proto=p9sk1 dom=x user? !password?",
        b"",
    ),
];

// What becomes of a conversation.
#[derive(Clone, Copy)]
enum Course {
    /// A login by these rows, with this word.
    Login([u8; 8], &'static [Row]),
    /// These rows, behind which no key is chosen.
    Refused(&'static [Row]),
    /// A client's user agrees to the use of a key.
    Consent,
    /// The file by which he is asked is closed, and this is answered.
    Shut(&'static [u8]),
    /// The authentication server isn't reached.
    Unheard,
    /// There is no memory for its answer.
    Roomless,
}

fn perform(
    alloc: Global,
    conversation: &mut Conversation,
    ring: &KeyRing,
    word: [u8; 8],
) -> Result<(), NoMemory> {
    let mut asks = Asks::new(alloc);
    conversation.perform(alloc, word, ring, CLOSED, &mut asks)
}

// Writes a request and carries it out, as far as keys and the authentication server's answer bring it.
fn carry(
    alloc: Global,
    conversation: &mut Conversation,
    ring: &KeyRing,
    word: [u8; 8],
    request: Request<'_>,
) -> Result<(), NoMemory> {
    conversation.store(alloc, request)?;
    perform(alloc, conversation, ring, word)?;
    if conversation.waits_for_server() {
        conversation.heard(alloc, ANSWER)?;
    }
    Ok(())
}

fn check_rows(
    rt: &impl Abort,
    alloc: Global,
    conversation: &mut Conversation,
    ring: &KeyRing,
    word: [u8; 8],
    rows: &[Row],
) -> Result<(), NoMemory> {
    for (request, title, rest) in rows {
        carry(alloc, conversation, ring, word, *request)?;
        check_answer(rt, alloc, conversation, title, rest)?;
    }
    Ok(())
}

fn put_answer(conversation: &Conversation, out: &mut Bytes) -> Result<(), NoMemory> {
    match conversation.answer() {
        Some(answer) => print_answer(answer, out),
        None => Ok(()),
    }
}

fn check_text(rt: &impl Abort, text: &[u8], title: &[u8], rest: &[u8]) {
    match text.strip_prefix(title) {
        Some(behind) => expect(rt, &behind, &rest),
        None => panic!(rt; "another answer"),
    }
}

// The answer is read.
fn check_taken(rt: &impl Abort, conversation: &mut Conversation) {
    assert!(rt; conversation.take_answer().is_some());
    assert!(rt; conversation.is_resting());
}

// The answer is there, and then it was read.
fn check_answer(
    rt: &impl Abort,
    alloc: Global,
    conversation: &mut Conversation,
    title: &[u8],
    rest: &[u8],
) -> Result<(), NoMemory> {
    assert!(rt; conversation.has_answer());
    let mut out = Bytes::new(alloc);
    put_answer(conversation, &mut out)?;
    check_text(rt, out.as_slice(), title, rest);
    check_taken(rt, conversation);
    Ok(())
}

fn check_login(
    rt: &impl Abort,
    alloc: Global,
    conversation: &mut Conversation,
    ring: &KeyRing,
    word: [u8; 8],
    rows: &[Row],
) -> Result<(), NoMemory> {
    check_rows(rt, alloc, conversation, ring, word, rows)?;
    assert!(rt; matches!(conversation.outcome(), Some(Outcome::Accepted(_))));
    assert!(rt; matches!(conversation.chosen(), Some(key) if key.serial() == 1));
    Ok(())
}

fn check_refused(
    rt: &impl Abort,
    alloc: Global,
    conversation: &mut Conversation,
    ring: &KeyRing,
    rows: &[Row],
) -> Result<(), NoMemory> {
    check_rows(rt, alloc, conversation, ring, WORD, rows)?;
    assert!(rt; conversation.chosen().is_none());
    Ok(())
}

fn write(
    alloc: Global,
    client: &mut Conversation,
    ring: &KeyRing,
    asks: &mut Asks,
    request: Request<'_>,
) -> Result<(), NoMemory> {
    client.store(alloc, request)?;
    client.perform(alloc, WORD, ring, OPEN, asks)
}

// A client whose request for a key was carried out, where its user can be asked.
fn seek_with(
    alloc: Global,
    client: &mut Conversation,
    ring: &KeyRing,
    asks: &mut Asks,
) -> Result<(), NoMemory> {
    let start = Request::Start(b"proto=p9sk1 role=client");
    write(alloc, client, ring, asks, start)?;
    client.take_answer();
    write(alloc, client, ring, asks, Request::Read)?;
    client.take_answer();
    write(alloc, client, ring, asks, Request::Write(REQUEST))
}

fn seek(alloc: Global, client: &mut Conversation, ring: &KeyRing) -> Result<(), NoMemory> {
    let mut asks = Asks::new(alloc);
    seek_with(alloc, client, ring, &mut asks)
}

fn put_template(client: &Conversation, out: &mut Bytes) -> Result<(), NoMemory> {
    match client.template() {
        Some(template) => print_tuple(template, out),
        None => Ok(()),
    }
}

fn check_asked(rt: &impl Abort, alloc: Global, client: &Conversation) -> Result<(), NoMemory> {
    let mut out = Bytes::new(alloc);
    put_template(client, &mut out)?;
    expect(rt, &out.as_slice(), &b"proto=p9sk1 dom=x user?".as_slice());
    Ok(())
}

fn consent(
    rt: &impl Abort,
    alloc: Global,
    client: &mut Conversation,
    ring: &KeyRing,
    asks: &mut Asks,
) -> Result<(), NoMemory> {
    seek_with(alloc, client, ring, asks)?;
    assert!(rt; !client.seeks());
    check_asked(rt, alloc, client)?;
    client.consented(alloc, true, ring, OPEN, asks)
}

fn check_consent(
    rt: &impl Abort,
    alloc: Global,
    client: &mut Conversation,
    ring: &KeyRing,
) -> Result<(), NoMemory> {
    let mut asks = Asks::new(alloc);
    consent(rt, alloc, client, ring, &mut asks)?;
    assert!(rt; client.waits_for_server());
    Ok(())
}

// The file by which the user is asked is closed.
fn check_shut(
    rt: &impl Abort,
    alloc: Global,
    client: &mut Conversation,
    ring: &KeyRing,
    wanted: &[u8],
) -> Result<(), NoMemory> {
    seek(alloc, client, ring)?;
    client.shut();
    check_answer(rt, alloc, client, wanted, b"")
}

// The authentication server isn't reached.
fn check_unheard(
    rt: &impl Abort,
    alloc: Global,
    client: &mut Conversation,
    ring: &KeyRing,
) -> Result<(), NoMemory> {
    seek(alloc, client, ring)?;
    assert!(rt; matches!(client.question(), Some((asked, Shape::Tickets)) if asked == QUESTION));
    client.unheard();
    check_answer(rt, alloc, client, b"error no server", b"")
}

// There is no memory for its answer.
fn check_roomless(
    rt: &impl Abort,
    alloc: Global,
    client: &mut Conversation,
    ring: &KeyRing,
) -> Result<(), NoMemory> {
    seek(alloc, client, ring)?;
    client.roomless();
    check_answer(rt, alloc, client, b"error out of memory", b"")
}

fn follow(
    rt: &impl Abort,
    alloc: Global,
    conversation: &mut Conversation,
    ring: &KeyRing,
    course: Course,
) -> Result<(), NoMemory> {
    match course {
        Course::Login(word, rows) => check_login(rt, alloc, conversation, ring, word, rows),
        Course::Refused(rows) => check_refused(rt, alloc, conversation, ring, rows),
        Course::Consent => check_consent(rt, alloc, conversation, ring),
        Course::Shut(wanted) => check_shut(rt, alloc, conversation, ring, wanted),
        Course::Unheard => check_unheard(rt, alloc, conversation, ring),
        Course::Roomless => check_roomless(rt, alloc, conversation, ring),
    }
}

// A conversation that has just begun takes this course.
fn check(rt: &impl Abort, alloc: Global, ring: &KeyRing, course: Course) -> Result<(), NoMemory> {
    let mut conversation = Conversation::new(alloc);
    follow(rt, alloc, &mut conversation, ring, course)
}

fn check_with(rt: &impl Abort, alloc: Global, key: &[u8], courses: &[Course]) -> Result<(), Fail> {
    let ring = ring_of(alloc, key)?;
    check_each(rt, alloc, &ring, courses)
}

fn check_each(
    rt: &impl Abort,
    alloc: Global,
    ring: &KeyRing,
    courses: &[Course],
) -> Result<(), Fail> {
    for course in courses {
        check(rt, alloc, ring, *course)?;
    }
    Ok(())
}

#[test]
fn clients_log_in(rt: HostRuntime) -> Result<(), Fail> {
    let courses = [
        Course::Login(WORD, &CLIENT),
        Course::Login(WORD, &ANY_CLIENT),
        Course::Unheard,
        Course::Roomless,
    ];
    check_with(&rt, rt.alloc(), ANN, &courses)
}

#[test]
fn servers_log_in(rt: HostRuntime) -> Result<(), Fail> {
    let courses = [
        Course::Login(CHAL, &SERVER),
        Course::Login(CHAL, &ANY_SERVER),
    ];
    check_with(&rt, rt.alloc(), SRV, &courses)
}

#[test]
fn requests_are_refused_without_keys(rt: HostRuntime) -> Result<(), Fail> {
    let ring = KeyRing::new(rt.alloc());
    let courses = [
        Course::Refused(&REFUSED),
        Course::Refused(&ANY_REFUSED),
        Course::Shut(b"needkey proto=p9sk1 dom=x user? !password?"),
    ];
    check_each(&rt, rt.alloc(), &ring, &courses)
}

#[test]
fn a_user_is_asked(rt: HostRuntime) -> Result<(), Fail> {
    let courses = [Course::Consent, Course::Shut(b"error confirmation denied")];
    check_with(&rt, rt.alloc(), ANN_ASKED, &courses)
}
