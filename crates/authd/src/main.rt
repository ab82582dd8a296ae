//! authd: the authentication server for many clients. All that it does is in libraries; here its files are opened, a socket
//! listens, and the process ends with the ending's number.
#![tactic(auto)]

ghost use Rattle.std.specs.Prelude.{◌≡◌, IfErr, true};
ghost use Rattle.attr_tuples.specs.Forms.{is_dom};
ghost use Rattle.auth_program.specs.Statuses.{is_printable};
ghost use Rattle.auth_program.specs.Endings.{is_told};

mod path_tables;

use crate::path_tables::PathTables;
use auth_program::{
    AuthdNumbers, AuthdWords, AuthsrvWords, ClientSpawner, Ending, FileTables, Random,
    SharedTables, Status, as_str, read_authd_words, read_core,
};
use auth_server::{AuthCore, accept_clients};
use client_doors::{LimitedListener, SharedLimits};
use host_edge::{
    Form, Opened, Opt, Program, Value, WordsFault, command_words, find_asked, hold_standard, open,
    tell as tell_line, tell_asked, tell_usage, tell_why,
};
use sockets::{SocketListener, ThreadSpawner, Unstarted};
use std::alloc::Global;
use std::process::ExitCode;
use std::sync::Arc;
use std::time::Duration;
use wire_base::{Bytes, NoMemory, Text};
use wire_streams::{WriteSink, write_all};

/// The program's name.
const NAME: &str = "authd";

/// Where words are drawn from.
const RANDOM: &str = "/dev/urandom";

/// How many clients are served at once, and how many of one address, at most, and how many seconds of silence.
const MOST_CLIENTS: u64 = 4096;

const MOST_IDLE: u64 = 86_400;

// Opens the file that the words of all clients are drawn from; where it can't be opened that is told on standard error.
fn open_random(rt: &HostRuntime) -> Result<Random, NoMemory> {
    match open(rt, NAME, RANDOM) {
        Opened::File(file) => Random::new(rt.alloc(), Some(file)),
        Opened::Shut => Random::new(rt.alloc(), None),
    }
}

/// What the server knows when it begins, and its tables, which are read again where they change.
type Known = (Arc<AuthCore, Global>, SharedTables<PathTables>);

// What the server knows, by the files that its words name.
fn open_core(rt: &HostRuntime, given: AuthsrvWords) -> Result<Known, Status>
    requires { is_dom given.dom ≡ true }
    ensures { IfErr result (λ status. is_printable status ≡ true) }
{
    let alloc = rt.alloc();
    let AuthsrvWords { dom, keys, speaks } = given;
    let Ok(own) = dom.copy() else {
        return Err(Status::NoMemory);
    };
    let mut files = PathTables::new(*rt, keys, speaks);
    let (mut keys, mut speaks) = files.open();
    let core = match read_core(alloc, own, &mut keys, &mut speaks) {
        Ok(core) => core,
        Err(status) => return Err(status),
    };
    let Ok(core) = Arc::new(alloc, core) else {
        return Err(Status::NoMemory);
    };
    let Ok(shared) = Arc::try_clone(&core) else {
        return Err(Status::NoMemory);
    };
    match SharedTables::new(alloc, FileTables::new(alloc, dom, shared, files)) {
        Ok(tables) => Ok((core, tables)),
        Err(NoMemory) => Err(Status::NoMemory),
    }
}

/// The address at which it listens, how many it serves, and what it knows.
type Begun = (Text, AuthdNumbers, Known);

// What the words have it begin with.
fn begin(rt: &HostRuntime, words: &[Text]) -> Result<Begun, Status>
    ensures { IfErr result (λ status. is_printable status ≡ true) }
{
    let AuthdWords {
        listen,
        numbers,
        given,
    } = match read_authd_words(rt.alloc(), words) {
        Ok(words) => words,
        Err(status) => return Err(status),
    };
    match open_core(rt, given) {
        Ok(known) => Ok((listen, numbers, known)),
        Err(status) => Err(status),
    }
}

/// Where clients are accepted, within limits.
type Limited = LimitedListener<HostRuntime, SocketListener<HostRuntime>, SharedLimits<HostRuntime>>;

// Listens at an address, within limits.
fn listen_within(rt: &HostRuntime, address: &Text, numbers: AuthdNumbers) -> Result<Limited, Ending>
    ensures { IfErr result (λ ending. is_told ending ≡ true) }
{
    let Some(door) = SharedLimits::new(*rt, rt.alloc(), numbers.limits) else {
        return Err(Ending::Status(Status::NoMemory));
    };
    let Ok(name) = String::from_str(rt.alloc(), NAME) else {
        return Err(Ending::Status(Status::NoMemory));
    };
    match listen(rt, address) {
        Some(listener) => {
            let listener = listener.with_idle(Duration::from_secs(u64::from(numbers.idle)));
            Ok(LimitedListener::new(*rt, rt.alloc(), name, listener, door))
        }
        None => Err(Ending::ListenFault),
    }
}

// Listens at an address. Where nobody can, that is told on standard error, with the reason.
fn listen(rt: &HostRuntime, address: &Text) -> Option<SocketListener<HostRuntime>> {
    match SocketListener::open(*rt, rt.alloc(), address, None) {
        Ok(listener) => {
            match listener.local_addr() {
                Some(place) => tell_line(rt, NAME, "listening on", place),
                None => tell_line(rt, NAME, "listening on", as_str(address)),
            }
            Some(listener)
        }
        Err(fault) => {
            tell_why(rt, NAME, "can't listen on", as_str(address), fault);
            None
        }
    }
}

/// The options, which stand behind the line of a faulty command line.
const OPTIONS: &str =
    "    authd --listen ADDR --dom D --keys PATH --speaks PATH [--idle S] [--clients N] [--per-address N]
    authd --help | --version
";

/// The same as a form, by which the word is found that isn't taken.
const FORMS: &[Form] = &[Form {
    command: "",
    options: &[
        Opt {
            name: "--listen",
            value: Value::Any,
            is_needed: true,
        },
        Opt {
            name: "--dom",
            value: Value::Dom,
            is_needed: true,
        },
        Opt {
            name: "--keys",
            value: Value::Any,
            is_needed: true,
        },
        Opt {
            name: "--speaks",
            value: Value::Any,
            is_needed: true,
        },
        Opt {
            name: "--idle",
            value: Value::Number {
                least: 1,
                most: MOST_IDLE,
            },
            is_needed: false,
        },
        Opt {
            name: "--clients",
            value: Value::Number {
                least: 1,
                most: MOST_CLIENTS,
            },
            is_needed: false,
        },
        Opt {
            name: "--per-address",
            value: Value::Number {
                least: 1,
                most: MOST_CLIENTS,
            },
            is_needed: false,
        },
    ],
}];

/// What the program tells of itself.
const PROGRAM: Program = Program {
    name: NAME,
    usage: OPTIONS,
    forms: FORMS,
};

// Writes the line of an ending to standard error, and behind that of a faulty command line the word that isn't taken and the
// options.
fn tell(rt: &HostRuntime, ending: Ending, words: &[Text])
    requires { is_told ending ≡ true }
{
    let mut line = Bytes::new(rt.alloc());
    if ending.print(rt.alloc(), &mut line).is_ok() {
        let mut errors = WriteSink::new(rt.stderr());
        let _ = write_all(line.as_slice(), &mut errors);
        if matches!(ending, Ending::Status(Status::Usage)) {
            tell_usage(rt, PROGRAM, words);
        }
    }
}

// What there is to do before clients are served: the program tells of itself, or reads its tables.
fn prepare(rt: &HostRuntime, words: &[Text]) -> Result<Begun, Ending>
    ensures { IfErr result (λ ending. is_told ending ≡ true) }
{
    if let Some(asked) = find_asked(words) {
        return if tell_asked(rt, PROGRAM, asked) {
            Err(Ending::Status(Status::Fine))
        } else {
            Err(Ending::Status(Status::WriteFault))
        };
    }
    match begin(rt, words) {
        Ok(begun) => Ok(begun),
        Err(status) => Err(Ending::Status(status)),
    }
}

fn main(rt: HostRuntime) -> ExitCode {
    let _held = hold_standard(&rt);
    let words = match command_words(&rt) {
        Ok(words) => words,
        Err(fault) => {
            let ending = match fault {
                WordsFault::NoText => Ending::Status(Status::Usage),
                WordsFault::NoMemory => Ending::Status(Status::NoMemory),
            };
            tell(&rt, ending, &[]);
            return ExitCode::from(ending.number());
        }
    };
    let words = words.as_slice();
    let ending = match prepare(&rt, words) {
        Ok((address, numbers, (core, tables))) => match (
            open_random(&rt),
            ThreadSpawner::new(rt, rt.alloc(), NAME, Unstarted::Dropped),
        ) {
            (Ok(random), Ok(threads)) => match listen_within(&rt, &address, numbers) {
                Ok(mut listener) => {
                    let mut spawner = ClientSpawner::new(threads, random, tables);
                    Ending::from(accept_clients(&rt, &core, &mut listener, &mut spawner))
                }
                Err(ending) => ending,
            },
            (Err(_), Ok(_)) => Ending::Status(Status::NoMemory),
            (_, Err(_)) => Ending::NoThread,
        },
        Err(ending) => ending,
    };
    tell(&rt, ending, words);
    ExitCode::from(ending.number())
}
