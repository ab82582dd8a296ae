// A script, cut into its numbered lines.
ghost use Rattle.std.specs.Prelude.{◌≡◌, true};
ghost use Rattle.world_scripts.specs.Scripts.{are_whole, is_skipped, script_lines};

use attr_tuples::cut_line;
use std::marker::Model;

/// A line of a script and its number, from 1 on.
#[derive(Clone, Copy, Debug, PartialEq, Eq)]
pub struct NumberedLine<'a> {
    pub number: u64,
    pub text: &'a [u8],
}

/// Goes over the lines of a script; those that are empty or begin with `#` aren't among them.
#[derive(Debug, Drop)]
pub struct ScriptLines<'a> {
    next: u64,
    left: Option<&'a [u8]>,
}

impl<'a> Model for ScriptLines<'a> {
    ghost use Rattle.std.specs.Prelude.{List, ◌+◌, ◌<◌, ◌^◌};
    ghost use Rattle.attr_tuples.specs.Cutting.{lines_left, turns_left};
    ghost use Rattle.world_scripts.specs.Scripts.{Numbered, numbered};

    ghost Value = { List Numbered };

    ghost view = { λ l. numbered l.next (lines_left l.left) };

    ghost invariant = { λ l. l.next + turns_left l.left < 2 ^ 64 };
}

impl<'a> ScriptLines<'a> {
    /// All lines of a script.
    pub fn new(script: &'a [u8]) -> ScriptLines<'a>
        ensures { result ≡ script_lines script.now }
    {
        ScriptLines {
            next: 1,
            left: Some(script),
        }
    }

    /// The lines that are left, which stay where they are.
    pub fn rest(&self) -> ScriptLines<'a>
        ensures same { result ≡ self.now }
        ensures whole { are_whole self.now ≡ true }
    {
        ScriptLines {
            next: self.next,
            left: self.left,
        }
    }
}

impl<'a> Iterator for ScriptLines<'a> {
    type Item = NumberedLine<'a>;

    ghost use Rattle.std.specs.Iterator.{YieldsFirstBy, item_count};
    ghost use Rattle.world_scripts.specs.Given.{said_number};

    ghost next_gives = { YieldsFirstBy said_number (λ lines. lines) };

    ghost remaining = { item_count (λ lines. lines) };

    fn next(&mut self) -> Option<NumberedLine<'a>> {
        while let Some(text) = self.left {
            let (text, rest) = cut_line(text);
            let number = self.next;
            self.next += 1;
            self.left = rest;
            if !check_skipped(text) {
                return Some(NumberedLine { number, text });
            }
        }
        None
    }
}

fn check_skipped(line: &[u8]) -> bool
    ensures { result ≡ is_skipped line.now }
{
    match line {
        [] => true,
        [first, ..] => *first == b'#',
    }
}
