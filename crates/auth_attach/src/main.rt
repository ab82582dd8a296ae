//! auth_attach: a file server that asks an agent of its own who its users are, for one client, on standard input and output. All
//! that it says and asks is in a library; here the keys file is opened.
#![tactic(auto)]

use attach_program::{AttachStatus, Log, print_attach, print_status, run_attach_noting};
use auth_program::read_keys_words;
use host_edge::{
    Form, Guard, Opt, Program, Value, WordsFault, command_words, find_asked, hold_standard, open,
    open_table, tell_asked, tell_usage,
};
use std::process::ExitCode;
use wire_base::{Bytes, Text};
use wire_streams::{ReadAhead, ReadSource, ReadWords, WriteSink, write_all};

/// Where words are drawn from.
const RANDOM: &str = "/dev/urandom";

/// How many bytes of it one read asks for: 64 words.
const MANY: usize = 512;

/// The program's name.
const NAME: &str = "auth_attach";

/// What the program tells of itself.
const PROGRAM: Program = Program {
    name: NAME,
    usage: "    auth_attach --keys PATH
    auth_attach --help | --version
",
    forms: &[Form {
        command: "",
        options: &[Opt {
            name: "--keys",
            value: Value::Any,
            is_needed: true,
        }],
    }],
};

/// What becomes of attaches is told on standard error as it comes.
#[derive(Drop)]
struct HostLog {
    rt: HostRuntime,
}

impl Log for HostLog {
    ghost use Rattle.std.specs.Prelude.{None};

    ghost noted = { λ _. None };

    fn note(&mut self, uname: &[u8], refusal: Option<&[u8]>) {
        let mut line = Bytes::new(self.rt.alloc());
        if print_attach(uname, refusal, &mut line).is_ok() {
            tell(&self.rt, line.as_slice());
        }
    }
}

// Writes bytes to standard error.
fn tell(rt: &HostRuntime, text: &[u8]) {
    let _ = write_all(text, &mut WriteSink::new(rt.stderr()));
}

// Serves the client by the keys of a file.
fn serve(rt: &HostRuntime, words: &[Text], path: &str) -> AttachStatus {
    let random = ReadSource::new(open(rt, NAME, RANDOM));
    let Ok(random) = ReadAhead::new(rt.alloc(), MANY, random) else {
        return AttachStatus::NoMemory;
    };
    run_attach_noting(
        rt.alloc(),
        words,
        &mut ReadSource::new(rt.stdin()),
        &mut ReadSource::new(open_table(rt, NAME, path, Guard::Secret)),
        &mut WriteSink::new(rt.stdout()),
        &mut ReadWords::new(random),
        &mut HostLog { rt: *rt },
    )
}

// Does what the words say.
fn run(rt: &HostRuntime, words: &[Text]) -> AttachStatus {
    if let Some(asked) = find_asked(words) {
        return if tell_asked(rt, PROGRAM, asked) {
            AttachStatus::Fine
        } else {
            AttachStatus::WriteFault
        };
    }
    let Some(path) = read_keys_words(words) else {
        return AttachStatus::Usage;
    };
    match std::str::from_utf8(path.as_slice()) {
        Ok(path) => serve(rt, words, path),
        Err(_) => AttachStatus::Usage,
    }
}

// Writes the line of a status to standard error, and behind that of a faulty command line the word that isn't taken and the
// option.
fn tell_status(rt: &HostRuntime, status: AttachStatus, words: &[Text]) {
    let mut line = Bytes::new(rt.alloc());
    if print_status(rt.alloc(), status, &mut line).is_ok() {
        tell(rt, line.as_slice());
    }
    if status == AttachStatus::Usage {
        tell_usage(rt, PROGRAM, words);
    }
}

fn main(rt: HostRuntime) -> ExitCode {
    let _held = hold_standard(&rt);
    let words = match command_words(&rt) {
        Ok(words) => words,
        Err(fault) => {
            let status = match fault {
                WordsFault::NoText => AttachStatus::Usage,
                WordsFault::NoMemory => AttachStatus::NoMemory,
            };
            tell_status(&rt, status, &[]);
            return ExitCode::from(status.number());
        }
    };
    let status = run(&rt, words.as_slice());
    tell_status(&rt, status, words.as_slice());
    ExitCode::from(status.number())
}
