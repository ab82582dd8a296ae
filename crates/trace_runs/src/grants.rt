// What the authentication server used and granted at a request.
ghost use Rattle.std.specs.Prelude.{◌≡◌, ◌<◌, length, map, take, IfOk};
ghost use Rattle.auth_tables.specs.Speaks.{may_speak, names_of};
ghost use Rattle.clean_runs.specs.Runs.{grant_by, nothing_granted};
ghost use Rattle.sealing.specs.Request.{request_of};
ghost use Rattle.symbolic_runs.specs.Views.{tree};
ghost use Rattle.trace_runs.specs.Grants.{IsGrant, grant_in, known_in, name_if, name_in, tickets_in, vouch_in};
ghost use Rattle.wire_base.specs.Names.{name_field};
ghost use Rattle.wire_histories.specs.Legal as legal;
ghost use Rattle.wire_histories.specs.Noted.{IsNotedOf};

use crate::deeds::{Granted, Used};
use crate::makers::copy_part;
use crate::parts::{inner_part, part};
use crate::tables::{count_before, key_name};
use auth_tables::{KeyTable, SpeaksTable};
use sealing::{AUTH_TREQ, RecordWriter, TicketReq, read_req};
use std::alloc::Global;
use symbolic_runs::Term;
use wire_base::{Bytes, Name, NoMemory, Text};
use wire_histories::Setting;

/// What the authentication server used and granted at a request, which came while its tables of a number were in force.
/// The label is that of the request. Nothing is granted by a request that can't be read, or where there are no such tables.
pub fn grant_of(
    alloc: Global,
    setting: &Setting,
    tables: u32,
    request: &[u8],
    label: &Term,
) -> Result<Granted, NoMemory>
    ensures { IfOk result (λ granted. (z : legal.Setting) → IsNotedOf z setting.now
        → tables < length z.tables
        → IsGrant granted (grant_by z tables (request_of request.now) (tree label.now))) }
{
    let Some((keys, speaks)) = setting.tables(tables) else {
        return Ok(nothing_granted(alloc));
    };
    let before = keys_before(alloc, setting, tables)?;
    let in_force = InForce {
        keys,
        speaks,
        before: &before,
    };
    in_force.grant(alloc, request, label)
}

// The keys in the tables of all numbers below one.
fn keys_before(alloc: Global, setting: &Setting, below: u32) -> Result<Vec<&KeyTable>, NoMemory>
    ensures { IfOk result (λ list. map (λ t. t.now) list.items
        ≡ map (λ t. t.keys) (take below setting.now.tables)) }
{
    let mut before = Vec::new(alloc);
    for number in 0..below {
        let Some((keys, _)) = setting.tables(number) else {
            return Ok(before);
        };
        before.push(keys)?;
    }
    Ok(before)
}

// What a request is granted that can't be read.
fn nothing_granted(alloc: Global) -> Granted
    ensures { IsGrant result nothing_granted }
{
    Granted {
        used: Used::Keys {
            sealer: None,
            host: None,
        },
        challenge: Term::Pub(Bytes::new(alloc)),
        host: Bytes::new(alloc),
        user: Bytes::new(alloc),
    }
}

// The tables that are in force at a request, and the keys of those before them.
#[derive(Clone, Copy)]
struct InForce<'a> {
    keys: &'a KeyTable,
    speaks: &'a SpeaksTable,
    before: &'a [&'a KeyTable],
}

impl InForce<'_> {
    fn grant(&self, alloc: Global, request: &[u8], label: &Term) -> Result<Granted, NoMemory>
        ensures { IfOk result (λ granted. IsGrant granted
            (grant_in (map (λ t. t.now) self.now.before.now) self.now.keys.now self.now.speaks.now
            (request_of request.now) (tree label.now))) }
    {
        match read_req(request) {
            Ok(asked) if asked.kind == AUTH_TREQ => self.tickets_for(alloc, &asked, label),
            Ok(asked) => self.vouch_for(alloc, &asked, label),
            Err(_) => Ok(nothing_granted(alloc)),
        }
    }

    fn tickets_for(
        &self,
        alloc: Global,
        asked: &TicketReq,
        label: &Term,
    ) -> Result<Granted, NoMemory>
        ensures { IfOk result (λ granted. IsGrant granted
            (tickets_in (map (λ t. t.now) self.now.before.now) self.now.keys.now self.now.speaks.now
            asked.now (tree label.now))) }
    {
        let may = self.may_speak(asked);
        Ok(Granted {
            used: Used::Keys {
                sealer: self.name_if(alloc, may, &asked.authid)?,
                host: self.name_if(alloc, may, &asked.hostid)?,
            },
            challenge: copy_part(alloc, part(label, 3))?,
            host: name_field(alloc, &asked.hostid)?,
            user: name_field(alloc, &asked.uid)?,
        })
    }

    fn vouch_for(&self, alloc: Global, asked: &TicketReq, label: &Term) -> Result<Granted, NoMemory>
        ensures { IfOk result (λ granted. IsGrant granted
            (vouch_in (map (λ t. t.now) self.now.before.now) self.now.keys.now asked.now
            (tree label.now))) }
    {
        Ok(Granted {
            used: Used::KeyAndPassword {
                sealer: self.known_name(alloc, &asked.authid)?,
                name: self.key_name(alloc, &asked.uid)?,
            },
            challenge: copy_part(alloc, inner_part(part(label, 0), 3))?,
            host: name_field(alloc, &asked.uid)?,
            user: name_field(alloc, &asked.uid)?,
        })
    }

    fn may_speak(&self, asked: &TicketReq) -> bool
        ensures { result ≡ may_speak (names_of asked.now.hostid self.now.speaks.now)
            asked.now.hostid asked.now.uid }
    {
        self.speaks
            .speaks_for(asked.hostid.text(), asked.uid.text())
    }

    // The key name of a user, whether he is known or not.
    fn key_name(&self, alloc: Global, user: &Name<28>) -> Result<Text, NoMemory>
        ensures { IfOk result (λ name. name
            ≡ name_in (map (λ t. t.now) self.now.before.now) self.now.keys.now user.now) }
    {
        let text = name_text(alloc, user)?;
        match self.keys.find(user.text()) {
            Some(key) => {
                let first = count_before(self.before, user.text(), key);
                key_name(alloc, &text, first)
            }
            None => Ok(text),
        }
    }

    // The key name of a user who is known.
    fn known_name(&self, alloc: Global, user: &Name<28>) -> Result<Option<Text>, NoMemory>
        ensures { IfOk result (λ name. name
            ≡ known_in (map (λ t. t.now) self.now.before.now) self.now.keys.now user.now) }
    {
        if self.keys.find(user.text()).is_none() {
            return Ok(None);
        }
        Ok(Some(self.key_name(alloc, user)?))
    }

    // The same where it is used.
    fn name_if(&self, alloc: Global, may: bool, user: &Name<28>) -> Result<Option<Text>, NoMemory>
        ensures { IfOk result (λ name. name
            ≡ name_if may (map (λ t. t.now) self.now.before.now) self.now.keys.now user.now) }
    {
        if !may {
            return Ok(None);
        }
        self.known_name(alloc, user)
    }
}

fn name_text(alloc: Global, name: &Name<28>) -> Result<Text, NoMemory>
    ensures { IfOk result (λ text. text ≡ name.now) }
{
    let Some(text) = Text::from_slice(alloc, name.text())? else {
        unreachable!();
    };
    Ok(text)
}

// A name as it is written into a ticket.
fn name_field(alloc: Global, name: &Name<28>) -> Result<Bytes, NoMemory>
    ensures { IfOk result (λ field. field ≡ name_field 28 name.now) }
{
    let mut out = RecordWriter::<28>::new();
    out.put_name(name);
    Bytes::from_slice(alloc, &out.finish())
}
