//! nine_show: reads 9P frames of both directions on standard input, and prints a line a message. All that it does is in
//! the library; here the real input and output are opened, and the process ends with the number of how it ended.
#![tactic(auto)]

use host_edge::{
    Form, Program, WordsFault, command_words, find_asked, hold_standard, tell_asked, tell_usage,
};
use nine_print::{ShowEnd, show};
use std::io::Eprint;
use std::process::ExitCode;
use wire_base::Text;
use wire_streams::{ReadSource, WriteSink};

/// What the program tells of itself.
const PROGRAM: Program = Program {
    name: "nine_show",
    usage: "    nine_show [--secrets]
    nine_show --help | --version
",
    forms: &[Form {
        command: "",
        options: &[],
    }],
};

/// The number of a faulty command line.
const USAGE: u8 = 1;

// Tells how the program is used; the number that it ends with then.
fn refuse(rt: &HostRuntime, words: &[Text]) -> u8 {
    let _ = rt.eprint("nine_show: usage\n");
    tell_usage(rt, PROGRAM, words);
    USAGE
}

// Does what the words say, and gives the number that the process ends with.
fn run(rt: &HostRuntime, words: &[Text]) -> u8 {
    if let Some(asked) = find_asked(words) {
        return if tell_asked(rt, PROGRAM, asked) {
            ShowEnd::Fine.number()
        } else {
            ShowEnd::WriteFault.number()
        };
    }
    let secrets = match words {
        [] => false,
        [word] if word.as_slice() == b"--secrets".as_slice() => true,
        _ => return refuse(rt, words),
    };
    let mut input = ReadSource::new(rt.stdin());
    let mut output = WriteSink::new(rt.stdout());
    show(rt.alloc(), secrets, &mut input, &mut output).number()
}

fn main(rt: HostRuntime) -> ExitCode {
    let _held = hold_standard(&rt);
    match command_words(&rt) {
        Ok(words) => ExitCode::from(run(&rt, words.as_slice())),
        Err(WordsFault::NoText) => ExitCode::from(refuse(&rt, &[])),
        Err(WordsFault::NoMemory) => ExitCode::from(ShowEnd::NoMemory.number()),
    }
}
