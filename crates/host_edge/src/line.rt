// Lines for standard error.
use std::fmt::{self, Display, Formatter};
use std::io::Eprint;

// A line: the program's name, what it tells, and what that is about.
#[derive(Drop)]
struct Line<'a, N> {
    program: &'a str,
    what: &'a str,
    name: N,
}

impl<N: Display> Display for Line<'_, N> {
    fn fmt<W: fmt::Write>(&self, f: &mut Formatter<W>) -> fmt::Result {
        write!(f, "{}: {} {}\n", self.program, self.what, self.name)
    }
}

// A name, and what is said of it besides.
#[derive(Drop)]
struct Because<'a, D> {
    name: &'a str,
    why: D,
}

impl<D: Display> Display for Because<'_, D> {
    fn fmt<W: fmt::Write>(&self, f: &mut Formatter<W>) -> fmt::Result {
        write!(f, "{}: {}", self.name, self.why)
    }
}

/// Writes a line to standard error: a program's name, what it tells, and what that is about.
pub fn tell<R: Eprint, N: Display + Drop>(rt: &R, program: &str, what: &str, name: N) {
    let _ = rt.eprint(Line {
        program,
        what,
        name,
    });
}

/// The same, and behind it the reason.
pub fn tell_why<R: Eprint, D: Display + Drop>(
    rt: &R,
    program: &str,
    what: &str,
    name: &str,
    why: D,
) {
    tell(rt, program, what, Because { name, why });
}
