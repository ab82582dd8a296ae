// What a program tells of itself.
use crate::forms::Form;
use crate::untaken::{Untaken, find_untaken};
use crate::version::{COMMIT, KIT};
use std::fmt::{self, Display, Formatter};
use std::io::{Eprint, Print};
use wire_base::Text;

/// A program, by its own text.
#[derive(Clone, Copy, Drop)]
pub struct Program {
    pub name: &'static str,
    /// Its command lines, one a line behind four blanks.
    pub usage: &'static str,
    pub forms: &'static [Form],
}

/// What a program is asked to tell of itself.
#[derive(Clone, Copy, Debug, PartialEq, Eq)]
pub enum Asked {
    /// How it is used.
    Help,
    /// What it was built of.
    Version,
}

/// What words ask a program to tell of itself: the first of `--help`, `-h` and `--version` among them, none of which may be an
/// option's value.
pub fn find_asked(words: &[Text]) -> Option<Asked> {
    for word in words {
        match word.as_slice() {
            b"--help" | b"-h" => return Some(Asked::Help),
            b"--version" => return Some(Asked::Version),
            _ => {}
        }
    }
    None
}

// The line of a program's version.
#[derive(Drop)]
struct VersionLine {
    name: &'static str,
}

impl Display for VersionLine {
    fn fmt<W: fmt::Write>(&self, f: &mut Formatter<W>) -> fmt::Result {
        let VersionLine { name } = self;
        write!(f, "{name}: commit {COMMIT}, kit {KIT}\n")
    }
}

// What is wrong with words, where something is, and how the program is used.
#[derive(Drop)]
struct Usage<'a> {
    program: Program,
    untaken: Option<Untaken<'a>>,
}

impl Display for Usage<'_> {
    fn fmt<W: fmt::Write>(&self, f: &mut Formatter<W>) -> fmt::Result {
        if let Some(untaken) = &self.untaken {
            let name = self.program.name;
            write!(f, "{name}: {untaken}\n")?;
        }
        f.write_str(self.program.usage)
    }
}

/// Writes to standard output what is asked for; whether that took it.
pub fn tell_asked<R: Print>(rt: &R, program: Program, asked: Asked) -> bool {
    let name = program.name;
    let written = match asked {
        Asked::Help => rt.print(program.usage),
        Asked::Version => rt.print(VersionLine { name }),
    };
    written.is_ok()
}

/// Writes to standard error, behind the line of a faulty command line, what is wrong with it, and how the program is used.
pub fn tell_usage<R: Eprint>(rt: &R, program: Program, words: &[Text]) {
    let untaken = find_untaken(words, program.forms);
    let _ = rt.eprint(Usage { program, untaken });
}
