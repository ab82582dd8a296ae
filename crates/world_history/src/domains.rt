// The domain of a script's server, as its lines tell it.
ghost use Rattle.std.specs.Prelude.{◌≡◌, true, IfOk};
ghost use Rattle.world_scripts.specs.Lines.{is_domain};
ghost use Rattle.world_history.specs.Told.{told_dom};

use std::alloc::Global;
use std::marker::Model;
use wire_base::{NoMemory, Text};
use world_scripts::{BadForm, Line, ScriptLines, parse_line};

/// The domain that was told last.
#[derive(Drop)]
pub(crate) struct ToldDomain {
    pub(crate) dom: Text,
}

impl Model for ToldDomain {
    ghost use Rattle.std.specs.Prelude.{◌≡◌, ℕ, List, true};
    ghost use Rattle.attr_tuples.specs.Forms.{is_dom};

    ghost Value = { List ℕ };

    ghost view = { λ d. d.dom };

    ghost invariant = { λ d. is_dom d.dom ≡ true };
}

// A domain that was read off a line.
fn copy_domain(alloc: Global, dom: &[u8]) -> Result<Text, NoMemory>
    requires { is_domain dom.now ≡ true }
    ensures { IfOk result (λ text. text ≡ dom.now) }
{
    match Text::from_slice(alloc, dom)? {
        Some(text) => Ok(text),
        None => unreachable!(),
    }
}

impl ToldDomain {
    ghost use Rattle.std.specs.Prelude.{◌≡◌, [], List, Some, codes, true, IfOk, if◌then◌else◌};
    ghost use Rattle.world_scripts.specs.Lines.{ScriptLine, is_formed};
    ghost use Rattle.world_scripts.specs.Reading.{line_of};
    ghost use Rattle.world_scripts.specs.Said.{said_line};
    ghost use Rattle.world_history.specs.Told.{dom_behind, ends_domain, told_on};

    // The domain that a server has by itself.
    fn new(alloc: Global) -> Result<ToldDomain, NoMemory>
        ensures { IfOk result (λ told. told ≡ codes "x") }
    {
        Ok(ToldDomain {
            dom: copy_domain(alloc, b"x".as_slice())?,
        })
    }

    // A line is taken. Whether those behind it are, too.
    fn take_line(&mut self, alloc: Global, line: Line<'_>) -> Result<bool, NoMemory>
        requires { is_formed (said_line line) ≡ true }
        ensures { IfOk result (λ goes_on. (more : List ScriptLine)
            → dom_behind self.old (told_on ends_domain (Some (said_line line.entry)) more)
            ≡ dom_behind self.new (if goes_on then more else [])) }
    {
        match line {
            Line::Dom { dom } => self.dom = copy_domain(alloc, dom)?,
            Line::AsGive { .. } => return Ok(false),
            Line::AsKey { .. }
            | Line::AsSpeak { .. }
            | Line::Reload
            | Line::Node { .. }
            | Line::Restart { .. }
            | Line::Ctl { .. }
            | Line::Open { .. }
            | Line::Start { .. }
            | Line::Read { .. }
            | Line::Write { .. }
            | Line::Answer { .. }
            | Line::NoAnswer { .. }
            | Line::Close { .. } => {}
        }
        Ok(true)
    }

    // The same of a text, which may be no line.
    fn take_text(&mut self, alloc: Global, text: &[u8]) -> Result<bool, NoMemory>
        ensures { IfOk result (λ goes_on. (more : List ScriptLine)
            → dom_behind self.old (told_on ends_domain (line_of text.now) more)
            ≡ dom_behind self.new (if goes_on then more else [])) }
    {
        match parse_line(text) {
            Ok(line) => self.take_line(alloc, line),
            Err(BadForm) => Ok(false),
        }
    }
}

/// The domain that lines tell, and else the one that a server has by itself.
pub(crate) fn find_domain(alloc: Global, mut lines: ScriptLines<'_>) -> Result<ToldDomain, NoMemory>
    ensures { IfOk result (λ told. told ≡ told_dom lines.entry) }
{
    let mut told = ToldDomain::new(alloc)?;
    while let Some(line) = lines.next() {
        if !told.take_text(alloc, line.text)? {
            return Ok(told);
        }
    }
    Ok(told)
}
