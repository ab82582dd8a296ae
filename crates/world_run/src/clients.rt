// Sessions of the authentication server by their names.
ghost use Rattle.std.specs.Prelude.{◌≡◌, List, Some, length};
ghost use Rattle.auth_server.specs.Answers.{Posed};
ghost use Rattle.auth_server.specs.Requests.{kind_of, needed};
ghost use Rattle.auth_server.specs.Standing.{Stands};
ghost use Rattle.world_run.specs.Sessions.{FitsSo};

use crate::live::{Client, Live};
use auth_server::{AsStep, AuthCore, Session};
use std::alloc::Global;
use std::collections::BTreeMap;
use std::marker::Model;
use std::mem::replace;
use wire_base::{Bytes, NoMemory};

/// What became of a request.
#[derive(Clone, Copy, Debug, PartialEq, Eq)]
pub enum Served {
    /// The session has ended, or the bytes are no request of its.
    Refused,
    /// It was answered, and whether that ended the session.
    Answered { ends: bool },
    /// It is of a kind that isn't served, and ended the session.
    Ended,
}

// What a request is to a session: none, one that is answered, or one of a kind that isn't served.
#[derive(Clone, Copy)]
enum Fit {
    Unfit,
    Served,
    Unserved,
}

fn judge(core: &AuthCore, session: &Session, request: &[u8]) -> Fit
    ensures whole { result ≡ Fit.Served
        → needed session.now.held (kind_of request.now) ≡ Some (length request.now) }
    ensures fits { (requests : List Posed) → Stands requests session.now
        → FitsSo requests request.now result }
{
    let Some(kind) = request.first() else {
        return Fit::Unfit;
    };
    match core.need(session, *kind) {
        None => Fit::Unserved,
        Some(size) => {
            if size == request.len() {
                Fit::Served
            } else {
                Fit::Unfit
            }
        }
    }
}

impl Client {
    ghost use Rattle.std.specs.Prelude.{◌≡◌, List, Bool, IfOk, OnErr};
    ghost use Rattle.auth_server.specs.Requests.{asked_so};
    ghost use Rattle.auth_server.specs.Standing.{knowledge};
    ghost use Rattle.auth_server.specs.Answers.{Posed, posed};
    ghost use Rattle.world_run.specs.Sessions.{IsClient, IsNew, OneServes};

    // A session without requests.
    fn new() -> Client
        ensures { (requests : List Posed) (misasked : Bool)
            → IsNew requests misasked → IsClient requests misasked result }
    {
        let session = Session::new();
        Client::Goes(Live { session })
    }

    // A request to it.
    fn serve(
        &mut self,
        core: &AuthCore,
        request: &[u8],
        words: &[[u8; 8]; 3],
        answer: &mut Bytes,
    ) -> Result<Served, NoMemory>
        ensures { IfOk result (λ served. (requests : List Posed) (misasked : Bool)
            → IsClient requests misasked self.old
            → OneServes requests misasked
            (posed (knowledge core.now) (asked_so request.now words.now))
            served answer.old answer.new self.new) }
    {
        let Client::Goes(live) = replace(self, Client::Ended) else {
            return Ok(Served::Refused);
        };
        let Live { mut session } = live;
        match judge(core, &session, request) {
            Fit::Unserved => Ok(Served::Ended),
            Fit::Unfit => {
                *self = Client::Goes(Live { session });
                Ok(Served::Refused)
            }
            Fit::Served => match core.step(&mut session, request, words, answer)? {
                AsStep::TooManyWrong => Ok(Served::Answered { ends: true }),
                AsStep::Replied => {
                    *self = Client::Goes(Live { session });
                    Ok(Served::Answered { ends: false })
                }
            },
        }
    }
}

/// The sessions of the authentication server.
#[derive(Drop)]
pub struct Clients {
    alloc: Global,
    table: BTreeMap<Vec<u8>, Client>,
}

impl Model for Clients {
    ghost use Rattle.std.specs.Prelude.{ℕ, List, map};
    ghost use Rattle.world_run.specs.declared.live.Client.{Client};

    ghost Value = { List (List ℕ × Client) };

    ghost view = { λ c. map (λ entry. (entry.0.items, entry.1)) c.table.entries };
}

impl Clients {
    ghost use Rattle.std.specs.Prelude.{◌≡◌, [], true, false, is_some, option_copied, IfOk, OnOk};
    ghost use Rattle.std.specs.Map.{lookup};
    ghost use Rattle.std.specs.Str.{bytes_eq};
    ghost use Rattle.auth_server.specs.Answers.{posed};
    ghost use Rattle.auth_server.specs.Requests.{asked_so};
    ghost use Rattle.auth_server.specs.Standing.{knowledge};
    ghost use Rattle.world_run.specs.Sessions.{ClientsAre, ServesSo, View};

    /// No sessions.
    pub fn new(alloc: Global) -> Clients
        ensures { result ≡ [] }
    {
        Clients {
            alloc,
            table: BTreeMap::new(alloc),
        }
    }

    // What stands under a name.
    fn look(&self, name: &[u8]) -> Option<&Client>
        ensures { option_copied result ≡ lookup (bytes_eq name.now) self.now }
    {
        self.table.get(name)
    }

    // One more session.
    fn add(&mut self, name: &[u8]) -> Result<(), NoMemory>
        requires { is_some (lookup (bytes_eq name.now) self.old) ≡ false }
        ensures added { OnOk result (is_some (lookup (bytes_eq name.now) self.new) ≡ true) }
        ensures clients { OnOk result ((v : View)
            → ClientsAre v self.old → ClientsAre v self.new) }
    {
        let client = Client::new();
        self.table
            .insert(Vec::from_slice(self.alloc, name)?, client)?;
        Ok(())
    }

    // A session of this name, which its first use makes.
    fn enter(&mut self, name: &[u8]) -> Result<(), NoMemory>
        ensures entered { OnOk result (is_some (lookup (bytes_eq name.now) self.new) ≡ true) }
        ensures clients { OnOk result ((v : View)
            → ClientsAre v self.old → ClientsAre v self.new) }
    {
        if self.look(name).is_some() {
            return Ok(());
        }
        self.add(name)
    }

    /// A request to the session of a name, for which three words were drawn. Its answer is put behind what was given. Where
    /// memory runs out, nothing is promised of the session any more.
    pub fn serve(
        &mut self,
        core: &AuthCore,
        name: &[u8],
        request: &[u8],
        words: &[[u8; 8]; 3],
        answer: &mut Bytes,
    ) -> Result<Served, NoMemory>
        ensures { IfOk result (λ served. (v : View)
            → ClientsAre v self.old
            → ServesSo v name.now (posed (knowledge core.now) (asked_so request.now words.now))
            served answer.old answer.new self.new) }
    {
        self.enter(name)?;
        let Some(client) = self.table.get_mut(name) else {
            return Ok(Served::Refused);
        };
        client.serve(core, request, words, answer)
    }
}
