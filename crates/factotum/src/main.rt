//! factotum: the agent that holds a user's keys and speaks authentication protocols, the authentication server, and runs of
//! scripts of both. All that they do is in the libraries; here the real input, output and files are opened, sockets listen, an authentication
//! server is dialed, and the process ends with the status's number.
#![tactic(auto)]

ghost use Rattle.std.specs.Prelude.{◌≡◌, IfErr, IfOk, true};
ghost use Rattle.std.specs.Arc.{arc_value};
ghost use Rattle.auth_program.specs.Statuses.{is_printable};
ghost use Rattle.agent_serving.specs.Submits.{IsSeatOf};
ghost use Rattle.agent_serving.specs.Words.{IsWithin};

use agent_serving::{
    Again, Agent, Hub, HubSeat, HubSpawner, ServeEnd, ServeWords, Task as JobTask, Tools,
    end_number, print_end, read_serve_words, serve,
};
use auth_program::{Status, as_str, print_status};
use factotum_program::{Task, read_words, run_command};
use host_edge::{
    Asked, Form, Guard, Opened, Opt, Program, Value, WordsFault, command_words, find_asked,
    find_untaken, hold_standard, open, open_table, tell as tell_line, tell_asked, tell_usage,
    tell_why,
};
use sockets::{
    Failures, FailuresOf, Line, LinesOf, OwnLines, Servers, SharedFailures, SharedLines,
    SocketListener, TcpDialer, ThreadSpawner, Unstarted,
};
use std::alloc::Global;
use std::io::{self, ErrorKind, Read};
use std::net::{Net, TcpStream};
use std::process::ExitCode;
use std::sync::{Arc, Wait};
use std::time::{Clock, Duration};
use wire_base::{Bytes, Text};
use wire_streams::{ReadAhead, ReadSource, ReadWords, WriteSink, write_all};

/// Where words are drawn from.
const RANDOM: &str = "/dev/urandom";

/// How many bytes of it one read asks for: 64 words.
const MANY: usize = 512;

/// The authentication server that is asked where the words name none: this machine's, at Plan 9's port of tickets, on which
/// its units listen.
const AUTH_SERVER: &[u8] = b"127.0.0.1:567";

/// How many seconds an exchange with it may take.
const PATIENCE: u64 = 30;

/// How many milliseconds replies wait for room at a client before something else is looked at.
const ROOM: u64 = 1;

/// The program's name.
const NAME: &str = "factotum";

/// The commands and their options, which stand behind the line of a faulty command line.
const COMMANDS: &str = "    factotum pipe [--auth ADDR]
    factotum serve --listen ADDR [--auth ADDR] [--consent N] [--asks N]
    factotum authsrv --dom D --keys PATH --speaks PATH
    factotum world
    factotum gen --number N --rounds K
    factotum --help | --version
";

/// The option that names the authentication server.
const AUTH: Opt = Opt {
    name: "--auth",
    value: Value::Addresses,
    is_needed: false,
};

/// The same as forms, by which the word is found that isn't taken.
const FORMS: &[Form] = &[
    Form {
        command: "pipe",
        options: &[AUTH],
    },
    Form {
        command: "serve",
        options: &[
            Opt {
                name: "--listen",
                value: Value::Any,
                is_needed: true,
            },
            AUTH,
            Opt {
                name: "--consent",
                value: Value::Number {
                    least: 0,
                    most: 0xffff_ffff,
                },
                is_needed: false,
            },
            Opt {
                name: "--asks",
                value: Value::Number { least: 1, most: 64 },
                is_needed: false,
            },
        ],
    },
    Form {
        command: "authsrv",
        options: &[
            Opt {
                name: "--dom",
                value: Value::Dom,
                is_needed: true,
            },
            Opt {
                name: "--keys",
                value: Value::Any,
                is_needed: true,
            },
            Opt {
                name: "--speaks",
                value: Value::Any,
                is_needed: true,
            },
        ],
    },
    Form {
        command: "world",
        options: &[],
    },
    Form {
        command: "gen",
        options: &[
            Opt {
                name: "--number",
                value: Value::Number {
                    least: 0,
                    most: u64::MAX,
                },
                is_needed: true,
            },
            Opt {
                name: "--rounds",
                value: Value::Number {
                    least: 1,
                    most: 1000,
                },
                is_needed: true,
            },
        ],
    },
];

/// What the program tells of itself.
const PROGRAM: Program = Program {
    name: NAME,
    usage: COMMANDS,
    forms: FORMS,
};

/// A file that many read from. It is opened once.
#[derive(Drop)]
struct Shared(Arc<Opened, Global>);

impl Read for Shared {
    fn read(&mut self, buf: &mut [u8]) -> io::Result<usize> {
        match &*self.0 {
            Opened::File(file) => {
                let mut file = file;
                file.read(buf)
            }
            Opened::Shut => Err(ErrorKind::NotFound.into()),
        }
    }
}

/// Words of a file, many of which are read at once.
type HostWords<F> = ReadWords<ReadAhead<ReadSource<F>>>;

// The authentication servers: those that are given, if any are. Addresses at fault are a faulty command line.
fn servers(rt: &HostRuntime, given: Option<&Text>) -> Result<Servers, Status>
    ensures { IfErr result (λ status. is_printable status ≡ true) }
{
    let addresses = match given {
        Some(addresses) => addresses.as_slice(),
        None => AUTH_SERVER,
    };
    match Servers::parse(rt.alloc(), addresses) {
        Ok(Ok(servers)) => Ok(servers),
        Ok(Err(_)) => Err(Status::Usage),
        Err(_) => Err(Status::NoMemory),
    }
}

// Opens what the words name, and carries out their command.
fn run(rt: &HostRuntime, words: &[Text]) -> Status
    ensures { is_printable result ≡ true }
{
    let (keys, speaks, rand, auth) = match read_words(rt.alloc(), words) {
        Ok(Task::Authsrv(given)) => (
            open_table(rt, NAME, as_str(&given.keys), Guard::Secret),
            open_table(rt, NAME, as_str(&given.speaks), Guard::Unchanged),
            open(rt, NAME, RANDOM),
            None,
        ),
        Ok(Task::Pipe { auth }) => (Opened::Shut, Opened::Shut, open(rt, NAME, RANDOM), auth),
        Err(Status::NoMemory) => return Status::NoMemory,
        Ok(Task::World | Task::Gen(_)) | Err(_) => {
            (Opened::Shut, Opened::Shut, Opened::Shut, None)
        }
    };
    let servers = match servers(rt, auth.as_ref()) {
        Ok(servers) => servers,
        Err(status) => return status,
    };
    let Ok(ahead) = ReadAhead::new(rt.alloc(), MANY, ReadSource::new(rand)) else {
        return Status::NoMemory;
    };
    let limit = Duration::from_secs(PATIENCE);
    let lines = OwnLines::new(rt.alloc());
    run_command(
        rt.alloc(),
        words,
        &mut ReadSource::new(rt.stdin()),
        &mut ReadSource::new(keys),
        &mut ReadSource::new(speaks),
        &mut WriteSink::new(rt.stdout()),
        &mut TcpDialer::new(*rt, rt.alloc(), servers, limit, lines, Failures::new()),
        &mut ReadWords::new(ahead),
    )
}

// What the tools of each job of an agent at a socket are made from: the authentication servers, what all jobs found of
// them and the connections to them that all keep, where all jobs draw words from and the words of this one, and how many questions are
// answered by yes for the user.
#[derive(Drop)]
struct HostTools {
    alloc: Global,
    servers: Servers,
    failures: SharedFailures,
    lines: SharedLines<Line<TcpStream>>,
    random: Shared,
    words: HostWords<Shared>,
    consents: u32,
}

impl HostTools {
    // None where there is no memory.
    fn new(
        alloc: Global,
        servers: Servers,
        failures: SharedFailures,
        lines: SharedLines<Line<TcpStream>>,
        random: Shared,
        consents: u32,
    ) -> Option<HostTools> {
        let theirs = Shared(Arc::try_clone(&random.0).ok()?);
        let ahead = ReadAhead::new(alloc, MANY, ReadSource::new(theirs)).ok()?;
        Some(HostTools {
            alloc,
            servers,
            failures,
            lines,
            random,
            words: ReadWords::new(ahead),
            consents,
        })
    }
}

impl Again for HostTools {
    fn again(&self) -> Option<Self> {
        let servers = self.servers.copy().ok()?;
        let random = Shared(Arc::try_clone(&self.random.0).ok()?);
        let failures = self.failures.share()?;
        let lines = self.lines.share()?;
        HostTools::new(self.alloc, servers, failures, lines, random, self.consents)
    }
}

impl<R: Net<Stream = TcpStream> + Clock + Wait + AllocGlobal + Copy + Drop> Tools<R> for HostTools {
    type Dial = TcpDialer<R, LinesOf<R, Line<TcpStream>>, FailuresOf<R>>;

    type Rand = HostWords<Shared>;

    fn tools(self, rt: &R) -> (Self::Dial, Self::Rand) {
        let HostTools {
            servers,
            failures,
            lines,
            words,
            ..
        } = self;
        let limit = Duration::from_secs(PATIENCE);
        let (lines, failures) = (lines.of(*rt), failures.of(*rt));
        let dialer = TcpDialer::new(*rt, rt.alloc(), servers, limit, lines, failures);
        (dialer, words)
    }

    fn consents(&self) -> u32 {
        self.consents
    }
}

// Listens at an address. Where nobody can, that is told on standard error, with the reason.
fn listen(rt: &HostRuntime, address: &Text) -> Result<SocketListener<HostRuntime>, ServeEnd> {
    match SocketListener::open(*rt, rt.alloc(), address, Some(Duration::from_millis(ROOM))) {
        Ok(listener) => {
            match listener.local_addr() {
                Some(place) => tell_line(rt, NAME, "listening on", place),
                None => tell_line(rt, NAME, "listening on", as_str(address)),
            }
            Ok(listener)
        }
        Err(fault) => {
            tell_why(rt, NAME, "can't listen on", as_str(address), fault);
            Err(ServeEnd::ListenFault)
        }
    }
}

// A hub round a new agent, and its first seat.
fn new_hub(rt: &HostRuntime) -> Result<(Arc<Hub, Global>, HubSeat), ServeEnd>
    ensures { IfOk result (λ made. IsSeatOf (arc_value made.0) made.1) }
{
    let Ok(agent) = Agent::new(rt.alloc()) else {
        return Err(ServeEnd::NoMemory);
    };
    let Ok((hub, seat)) = Hub::new(rt.alloc(), agent) else {
        return Err(ServeEnd::NoMemory);
    };
    match Arc::new(rt.alloc(), hub) {
        Ok(hub) => Ok((hub, seat)),
        Err(_) => Err(ServeEnd::NoMemory),
    }
}

// Where the jobs of an agent at a socket draw their words from. None where there is no memory for it.
fn open_random(rt: &HostRuntime) -> Option<Shared> {
    Some(Shared(Arc::new(rt.alloc(), open(rt, NAME, RANDOM)).ok()?))
}

// The tools of all jobs, by what the words give. None where there is no memory for them.
fn tools(rt: &HostRuntime, servers: Servers, consents: u32) -> Option<HostTools> {
    let failures = SharedFailures::new(rt.alloc())?;
    let lines = SharedLines::new(rt.alloc())?;
    HostTools::new(
        rt.alloc(),
        servers,
        failures,
        lines,
        open_random(rt)?,
        consents,
    )
}

// The servers that the words of serving name, or the usual one.
fn named_servers(rt: &HostRuntime, words: &[Text], given: ServeWords) -> Result<Servers, Status>
    requires { IsWithin given.auth words.now }
    ensures { IfErr result (λ status. is_printable status ≡ true) }
{
    match given.auth {
        Some(place) => servers(rt, Some(&words[place])),
        None => servers(rt, None),
    }
}

// Writes the line of an end of serving to standard error.
fn tell_end(rt: &HostRuntime, end: ServeEnd) {
    let mut line = Bytes::new(rt.alloc());
    if print_end(end, &mut line).is_ok() {
        let mut errors = WriteSink::new(rt.stderr());
        let _ = write_all(line.as_slice(), &mut errors);
    }
}

// Writes a status's line to standard error, and behind that of a faulty command line the word that isn't taken and the commands.
fn tell(rt: &HostRuntime, status: &Status, words: &[Text])
    requires { is_printable status.now ≡ true }
{
    let mut line = Bytes::new(rt.alloc());
    if print_status(rt.alloc(), status, &mut line).is_ok() {
        let mut errors = WriteSink::new(rt.stderr());
        let _ = write_all(line.as_slice(), &mut errors);
        if matches!(status, Status::Usage) {
            tell_usage(rt, PROGRAM, words);
        }
    }
}

// Tells of the program what is asked for, and how that ended.
fn run_asked(rt: &HostRuntime, asked: Asked) -> Status
    ensures { is_printable result ≡ true }
{
    if tell_asked(rt, PROGRAM, asked) {
        Status::Fine
    } else {
        Status::WriteFault
    }
}

// Does what words say that aren't those of `serve`. No command takes an address that can't be dialed.
fn run_words(rt: &HostRuntime, words: &[Text]) -> Status
    ensures { is_printable result ≡ true }
{
    if let Some(asked) = find_asked(words) {
        run_asked(rt, asked)
    } else if find_untaken(words, FORMS).is_some() {
        Status::Usage
    } else {
        run(rt, words)
    }
}

fn main(rt: HostRuntime) -> ExitCode {
    let _held = hold_standard(&rt);
    let words = match command_words(&rt) {
        Ok(words) => words,
        Err(fault) => {
            let status = match fault {
                WordsFault::NoText => Status::Usage,
                WordsFault::NoMemory => Status::NoMemory,
            };
            tell(&rt, &status, &[]);
            return ExitCode::from(status.number());
        }
    };
    let words = words.as_slice();
    if find_untaken(words, FORMS).is_none()
        && let Some(given) = read_serve_words(words)
    {
        let servers = match named_servers(&rt, words, given) {
            Ok(servers) => servers,
            Err(status) => {
                tell(&rt, &status, words);
                return ExitCode::from(status.number());
            }
        };
        let tools = tools(&rt, servers, given.consents);
        let end = match (
            tools,
            new_hub(&rt),
            ThreadSpawner::new(rt, rt.alloc(), NAME, Unstarted::Told),
        ) {
            (Some(tools), Ok((hub, seat)), Ok(threads)) => match Arc::try_clone(&hub) {
                Ok(shared) => match listen(&rt, &words[given.listen]) {
                    Ok(mut listener) => {
                        let mut spawner = HubSpawner::new(shared, tools, threads);
                        let alloc = rt.alloc();
                        serve(
                            &rt,
                            alloc,
                            &hub,
                            seat,
                            given.asks,
                            &mut listener,
                            &mut spawner,
                        )
                        .1
                    }
                    Err(end) => end,
                },
                Err(_) => ServeEnd::NoMemory,
            },
            (Some(_), Ok(_), Err(_)) => ServeEnd::NoThread,
            (_, _, _) => ServeEnd::NoMemory,
        };
        tell_end(&rt, end);
        return ExitCode::from(end_number(end));
    }
    let status = run_words(&rt, words);
    tell(&rt, &status, words);
    ExitCode::from(status.number())
}
