// Each client as a job of a thread.
ghost use Rattle.std.specs.Prelude.{◌≡◌, true};
ghost use Rattle.auth_program.specs.Statuses.{is_printable};

use crate::authsrv::status_of_end;
use crate::log::{print_client_end, print_notice};
use crate::random::{Random, RandomWords};
use crate::shared_tables::{ClientTables, SharedTables};
use crate::status::Status;
use crate::table_files::TableFiles;
use auth_server::{AuthEnd, AuthJob, Log, Notice, Outcome, serve_auth_noting};
use client_doors::{Address, Admitted, HasAddress, Place};
use sockets::Job;
use std::alloc::Global;
use std::io::Eprint;
use std::marker::Model;
use std::sync::Wait;
use std::thread;
use std::time::{Clock, Duration};
use wire_base::{Bytes, Name, NoMemory};
use wire_streams::{NoStart, Sink, Source, Spawner};

/// How many seconds the answer to a client waits behind a wrong one.
const PAUSE: u64 = 1;

/// A client of whose requests, and of whose end, unless that is fine, standard error is told. Each request is answered by the
/// tables that are in force when it has come.
#[derive(Drop)]
pub struct ClientTask<I, O, F> {
    job: AuthJob<I, O>,
    random: Option<Random>,
    tables: Option<SharedTables<F>>,
}

impl<I, O, F> Model for ClientTask<I, O, F> {
    ghost use Rattle.auth_server.specs.Clients.{Client};

    ghost Value = { Client I O };

    ghost view = { λ task. task.job };
}

impl<R, I, O, F> Job<R> for ClientTask<Admitted<I, Place<R>>, O, F>
where
    R: Wait + Clock + Eprint + AllocGlobal + Drop,
    I: Source + HasAddress + Drop,
    O: Sink + Drop,
    F: TableFiles + Drop,
{
    fn run(self, rt: &R) {
        let ClientTask {
            job,
            random,
            tables,
        } = self;
        let (core, source, mut sink) = job.into_parts();
        let (mut source, place) = source.into_parts();
        let alloc = rt.alloc();
        let address = address_text(alloc, source.address());
        let mut log = ClientLog {
            rt,
            place: &place,
            address: &address,
            was_wrong: false,
        };
        let end = match (words_of(alloc, random), tables) {
            (Ok(mut words), Some(shared)) => serve_auth_noting(
                alloc,
                &mut ClientTables { rt, shared, core },
                &mut source,
                &mut sink,
                &mut words,
                &mut log,
            ),
            (Err(NoMemory), _) | (_, None) => AuthEnd::NoMemory,
        };
        tell_end(rt, alloc, &address, &status_of_end(end));
    }
}

// The words that a client's answers are made with.
fn words_of(alloc: Global, random: Option<Random>) -> Result<RandomWords, NoMemory> {
    match random {
        Some(random) => random.words(alloc),
        None => Err(NoMemory),
    }
}

// An address as a line shows it: `unix` where there is none, and `?` where there is no memory for its text.
fn address_text(alloc: Global, address: Option<Address>) -> Name<48> {
    let text = match address {
        Some(address) => match format!(in alloc; "{}", address.ip()) {
            Ok(text) => Name::from_text(text.as_bytes()),
            Err(_) => None,
        },
        None => Name::from_text(b"unix"),
    };
    match text {
        Some(text) => text,
        None => unknown(),
    }
}

// An address that isn't known.
fn unknown() -> Name<48> {
    let Some(name) = Name::from_text(b"?") else {
        unreachable!();
    };
    name
}

/// Tells standard error what came of each request, and has a client that guesses wait.
#[derive(Drop)]
struct ClientLog<'a, R: Wait + Drop> {
    rt: &'a R,
    place: &'a Place<R>,
    address: &'a Name<48>,
    was_wrong: bool,
}

impl<R: Wait + Clock + Eprint + AllocGlobal + Drop> ClientLog<'_, R> {
    // How long the answer to a client waits that has answered a challenge: for as long as its address does, and behind a wrong
    // answer for a second at least. A wrong one is remembered.
    fn pause(&mut self, is_wrong: bool) -> Duration {
        let others = self.place.wait();
        if is_wrong {
            self.place.note_wrong();
        }
        let own = Duration::from_secs(if self.was_wrong { PAUSE } else { 0 });
        self.was_wrong = is_wrong;
        others.max(own)
    }
}

impl<R: Wait + Clock + Eprint + AllocGlobal + Drop> Log for ClientLog<'_, R> {
    ghost use Rattle.std.specs.Prelude.{None};

    ghost noted = { λ _. None };

    fn note(&mut self, notice: &Notice) {
        let mut line = Bytes::new(self.rt.alloc());
        if print_notice(self.address, notice, &mut line).is_ok() {
            tell(self.rt, &line);
        }
        if let Notice::Judged {
            outcome: outcome @ (Outcome::Vouched | Outcome::Wrong),
            ..
        } = notice
        {
            let pause = self.pause(*outcome == Outcome::Wrong);
            thread::sleep(self.rt, pause);
        }
    }
}

// Writes the line of a client's end to standard error.
fn tell_end<R: Eprint>(rt: &R, alloc: Global, address: &Name<48>, status: &Status)
    requires { is_printable status.now ≡ true }
{
    let mut line = Bytes::new(alloc);
    if print_client_end(alloc, address, status, &mut line).is_ok() {
        tell(rt, &line);
    }
}

// Writes a line to standard error, by one write. Where that is closed, or fails, nothing is lost but the line.
fn tell<R: Eprint>(rt: &R, line: &Bytes) {
    if let Ok(text) = std::str::from_utf8(line.as_slice()) {
        let _ = rt.eprint(text);
    }
}

/// A spawner of clients over one of their tasks: it takes, tells and counts what that one does.
#[derive(Drop)]
pub struct ClientSpawner<P, F> {
    inner: P,
    random: Random,
    tables: SharedTables<F>,
}

impl<P, F> ClientSpawner<P, F> {
    /// A spawner that hands each client on as its task. The words of all are drawn from one file, and their requests are
    /// answered by the same tables.
    pub fn new(inner: P, random: Random, tables: SharedTables<F>) -> ClientSpawner<P, F>
        ensures { result.inner ≡ inner }
    {
        ClientSpawner {
            inner,
            random,
            tables,
        }
    }
}

impl<I, O, F, P: Spawner<ClientTask<I, O, F>>> Spawner<AuthJob<I, O>> for ClientSpawner<P, F> {
    ghost takes = { λ spawner job. P.takes spawner.inner job };

    ghost taken = { λ spawner. P.taken spawner.inner };

    ghost faults = { λ spawner. P.faults spawner.inner };

    fn spawn(&mut self, job: AuthJob<I, O>) -> Result<(), NoStart> {
        let random = self.random.share();
        let tables = self.tables.share();
        self.inner.spawn(ClientTask {
            job,
            random,
            tables,
        })
    }
}
