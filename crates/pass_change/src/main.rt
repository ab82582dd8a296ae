//! pass_change: one client's change of its password, on standard input and output. All that it says and asks is in a library;
//! here the table of keys is opened, and the new one made beside it and put in its place.
#![tactic(auto)]

use auth_program::read_keys_words;
use host_edge::{
    Form, Guard, Opt, Program, Value, WordsFault, command_words, find_asked, hold_standard, open,
    open_table, tell as tell_line, tell_asked, tell_usage,
};
use pass_program::{Event, Log, PassStatus, print_event, print_status, run_pass_noting};
use std::fs::{self, File, OpenOptions, TryLockError};
use std::io::{self, ErrorKind, Read, Write};
use std::net::TcpStream;
use std::os::fd::AsFd;
use std::os::unix::fs::OpenOptionsExt;
use std::path::Path;
use std::process::ExitCode;
use std::thread;
use std::time::{Duration, Instant};
use wire_base::{Bytes, Name, Text};
use wire_streams::{ReadSource, ReadWords, WriteSink, write_all};

/// Where words are drawn from.
const RANDOM: &str = "/dev/urandom";

/// How many times the new table is tried to be made.
const TRIES: u32 = 100;

/// The pause between two tries, in milliseconds: ten seconds in all.
const PAUSE: u64 = 100;

/// How many seconds a client at a socket has for its whole session, so that one that says nothing holds up no other.
const PATIENCE: u64 = 60;

/// The program's name.
const NAME: &str = "pass_change";

/// What the program tells of itself.
const PROGRAM: Program = Program {
    name: NAME,
    usage: "    pass_change --keys PATH
    pass_change --help | --version
",
    forms: &[Form {
        command: "",
        options: &[Opt {
            name: "--keys",
            value: Value::Any,
            is_needed: true,
        }],
    }],
};

/// How the program ends.
#[derive(Clone, Copy)]
enum Ending {
    /// With a client.
    Status(PassStatus),
    /// Another change is under way, for longer than is waited.
    Held,
    /// The new table of one that has gone is still there.
    LeftBehind,
    /// The new table was written, and couldn't be put in the place of the old one, or it isn't known to be kept there.
    NotPlaced,
}

impl Ending {
    /// The number that the process ends with.
    fn number(self) -> u8 {
        match self {
            Ending::Status(status) => status.number(),
            Ending::Held | Ending::LeftBehind => 14,
            Ending::NotPlaced => 15,
        }
    }
}

/// Standard input. Where it is a socket, no read of it waits longer than to a moment, and behind that each fails.
#[derive(Drop)]
struct Client<'a> {
    rt: &'a HostRuntime,
    line: Option<TcpStream>,
    until: Option<Instant>,
}

impl<'a> Client<'a> {
    // The client, who begins now.
    fn new(rt: &'a HostRuntime) -> Client<'a> {
        let patience = Duration::from_secs(PATIENCE);
        let line = match rt.stdin().as_fd().try_clone_to_owned() {
            Ok(descriptor) => Some(TcpStream::from(descriptor)),
            Err(_) => None,
        };
        if let Some(line) = &line {
            let _ = line.set_write_timeout(Some(patience));
        }
        let until = match Instant::now(rt) {
            Ok(now) => now.checked_add(patience),
            Err(_) => None,
        };
        Client { rt, line, until }
    }

    // Has the next read wait no longer than there is time.
    fn set_limit(&self) -> io::Result<()> {
        let (Some(line), Some(until)) = (&self.line, self.until) else {
            return Ok(());
        };
        let left = until.duration_since(Instant::now(self.rt)?);
        if left.is_zero() {
            return Err(ErrorKind::TimedOut.into());
        }
        // What is no socket has no limit.
        let _ = line.set_read_timeout(Some(left));
        Ok(())
    }
}

impl Read for Client<'_> {
    fn read(&mut self, buf: &mut [u8]) -> io::Result<usize> {
        self.set_limit()?;
        self.rt.stdin().read(buf)
    }
}

/// A table that is written; each write to one that couldn't be made fails.
#[derive(Drop)]
enum NewTable<'a> {
    File(&'a File),
    Shut,
}

impl Write for NewTable<'_> {
    fn write(&mut self, buf: &[u8]) -> io::Result<usize> {
        match self {
            NewTable::File(file) => (*file).write(buf),
            NewTable::Shut => Err(ErrorKind::NotFound.into()),
        }
    }

    fn flush(&mut self) -> io::Result<()> {
        Ok(())
    }
}

/// Refusals are told on standard error as they come, and a change once the new table is in its place.
#[derive(Drop)]
struct HostLog {
    rt: HostRuntime,
    changed: Option<Name<28>>,
}

impl Log for HostLog {
    ghost use Rattle.std.specs.Prelude.{None};

    ghost noted = { λ _. None };

    fn note(&mut self, user: &Name<28>, event: Event) {
        match event {
            Event::Refused(_) => tell_event(&self.rt, user, event),
            Event::Changed => self.changed = Some(*user),
        }
    }
}

// Writes bytes to standard error.
fn tell(rt: &HostRuntime, text: &[u8]) {
    let _ = write_all(text, &mut WriteSink::new(rt.stderr()));
}

// Writes the line of an event to standard error.
fn tell_event(rt: &HostRuntime, user: &Name<28>, event: Event) {
    let mut line = Bytes::new(rt.alloc());
    if print_event(user, event, &mut line).is_ok() {
        tell(rt, line.as_slice());
    }
}

// Makes the new table, for its owner alone, and holds it against others. None where it can't be made. Where it is there,
// another change is waited for.
fn make(rt: &HostRuntime, path: &str) -> Result<Option<File>, Ending> {
    for _ in 0..TRIES {
        let made = OpenOptions::new()
            .write(true)
            .create_new(true)
            .mode(0o600)
            .open(rt, path);
        match made {
            Ok(file) => {
                let _ = file.try_lock();
                return Ok(Some(file));
            }
            Err(error) if error.kind() == ErrorKind::AlreadyExists => {
                thread::sleep(rt, Duration::from_millis(PAUSE));
            }
            Err(_) => {
                tell_line(rt, NAME, "can't make", path);
                return Ok(None);
            }
        }
    }
    Err(who_holds(rt, path))
}

// Whether the process that made a new table is still there: then it holds the file's lock.
fn who_holds(rt: &HostRuntime, path: &str) -> Ending {
    let Ok(file) = File::open(rt, path) else {
        return Ending::Held;
    };
    match file.try_lock() {
        Ok(()) => Ending::LeftBehind,
        Err(TryLockError::WouldBlock | TryLockError::Error(_)) => Ending::Held,
    }
}

// Keeps what was written to a folder.
fn sync_folder(rt: &HostRuntime, path: &str) -> io::Result<()> {
    let folder = match Path::new(path).parent() {
        Some(folder) if !folder.as_str().is_empty() => folder.as_str(),
        _ => ".",
    };
    File::open(rt, folder)?.sync_all()
}

// Puts the new table in the place of the old one.
fn place(rt: &HostRuntime, file: &File, new: &str, path: &str) -> io::Result<()> {
    file.sync_all()?;
    fs::rename(rt, new, path)?;
    sync_folder(rt, path)
}

// Serves the client by a table, of which the new one was made or not.
fn serve(
    rt: &HostRuntime,
    words: &[Text],
    path: &str,
    made: Option<&File>,
    log: &mut HostLog,
) -> PassStatus {
    let table = match made {
        Some(file) => NewTable::File(file),
        None => NewTable::Shut,
    };
    run_pass_noting(
        rt.alloc(),
        words,
        &mut ReadSource::new(Client::new(rt)),
        &mut ReadSource::new(open_table(rt, NAME, path, Guard::Secret)),
        &mut WriteSink::new(rt.stdout()),
        &mut WriteSink::new(table),
        &mut ReadWords::new(ReadSource::new(open(rt, NAME, RANDOM))),
        log,
    )
}

// Changes a password of the table at a path.
fn change(rt: &HostRuntime, words: &[Text], path: &str) -> Ending {
    let Ok(new) = format!(in rt.alloc(); "{path}.new") else {
        return Ending::Status(PassStatus::NoMemory);
    };
    let made = match make(rt, new.as_str()) {
        Ok(made) => made,
        Err(ending) => return ending,
    };
    let mut log = HostLog {
        rt: *rt,
        changed: None,
    };
    let status = serve(rt, words, path, made.as_ref(), &mut log);
    let Some(file) = made else {
        return Ending::Status(status);
    };
    if status != (PassStatus::Fine { changed: true }) {
        let _ = fs::remove_file(rt, new.as_str());
        return Ending::Status(status);
    }
    if place(rt, &file, new.as_str(), path).is_err() {
        let _ = fs::remove_file(rt, new.as_str());
        return Ending::NotPlaced;
    }
    if let Some(user) = log.changed {
        tell_event(rt, &user, Event::Changed);
    }
    Ending::Status(status)
}

// Does what the words say.
fn run(rt: &HostRuntime, words: &[Text]) -> Ending {
    if let Some(asked) = find_asked(words) {
        return if tell_asked(rt, PROGRAM, asked) {
            Ending::Status(PassStatus::Fine { changed: false })
        } else {
            Ending::Status(PassStatus::WriteFault)
        };
    }
    let Some(path) = read_keys_words(words) else {
        return Ending::Status(PassStatus::Usage);
    };
    match std::str::from_utf8(path.as_slice()) {
        Ok(path) => change(rt, words, path),
        Err(_) => Ending::Status(PassStatus::Usage),
    }
}

// Writes the line of an ending to standard error, and behind that of a faulty command line the word that isn't taken and the
// option.
fn tell_ending(rt: &HostRuntime, ending: Ending, words: &[Text]) {
    match ending {
        Ending::Status(status) => {
            let mut line = Bytes::new(rt.alloc());
            if print_status(rt.alloc(), status, &mut line).is_ok() {
                tell(rt, line.as_slice());
            }
            if status == PassStatus::Usage {
                tell_usage(rt, PROGRAM, words);
            }
        }
        Ending::Held => tell(rt, b"pass_change: another change is under way\n"),
        Ending::LeftBehind => tell(
            rt,
            b"pass_change: the new table of a change that has gone is in the way: remove it\n",
        ),
        Ending::NotPlaced => tell(rt, b"pass_change: the new table isn't in its place\n"),
    }
}

fn main(rt: HostRuntime) -> ExitCode {
    let _held = hold_standard(&rt);
    let words = match command_words(&rt) {
        Ok(words) => words,
        Err(fault) => {
            let ending = match fault {
                WordsFault::NoText => Ending::Status(PassStatus::Usage),
                WordsFault::NoMemory => Ending::Status(PassStatus::NoMemory),
            };
            tell_ending(&rt, ending, &[]);
            return ExitCode::from(ending.number());
        }
    };
    let ending = run(&rt, words.as_slice());
    tell_ending(&rt, ending, words.as_slice());
    ExitCode::from(ending.number())
}
