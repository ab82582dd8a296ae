// The public calls of `auth_server`.
ghost use Rattle.std.specs.Arc.{arc_value};
ghost use Rattle.std.specs.Prelude.{◌≡◌, ◌≤◌, ◌⊎◌, ◌<◌, ◌↔◌, ◌∷◌, ◌++◌, List, Some, true, length, IfOk, OnErr, OnOk};
ghost use Rattle.auth_server.specs.Answers.{Posed, answer_in, is_over_in, most_wrong, posed};
ghost use Rattle.auth_server.specs.Clients.{Client, Listens};
ghost use Rattle.auth_server.specs.Requests.{needed, asked_so, kind_of};
ghost use Rattle.auth_server.specs.Serving.{EndsSo, moment, IsServable, IsSpent};
ghost use Rattle.auth_server.specs.Standing.{knowledge, Stands};
ghost use Rattle.wire_streams.specs.Causes.{Rose};

use auth_server::{AsStep, AuthCore, AuthEnd, AuthJob, ListenEnd, Session};
use auth_tables::{KeyTable, SpeaksTable};
use std::alloc::Global;
use std::sync::{Arc, Wait};
use wire_base::{Bytes, NoMemory};
use wire_streams::{Listener, Sink, Source, Spawner, WordFault, Words, WriteFault};

/// As `AuthJob::serve`.
pub fn auth_job_serve<I: Source, O: Sink, G: Words>(
    auth_job: &mut AuthJob<I, O>,
    alloc: Global,
    words: &mut G,
) -> AuthEnd
    ensures core { auth_job.new.core ≡ auth_job.old.core }
    ensures ends { EndsSo (knowledge auth_job.old.core) result
        (moment (I.left auth_job.old.source) (G.to_come words.old) (O.holds auth_job.old.sink))
        (moment (I.left auth_job.new.source) (G.to_come words.new) (O.holds auth_job.new.sink)) }
    ensures read_fault { result ≡ AuthEnd.ReadFault
        → Rose (I.faults auth_job.old.source) (I.faults auth_job.new.source) }
    ensures write_fault { result ≡ AuthEnd.WriteFault
        → Rose (O.faults auth_job.old.sink) (O.faults auth_job.new.sink) }
    ensures word_fault { result ≡ AuthEnd.WordFault
        → Rose (G.faults words.old) (G.faults words.new) }
{
    auth_job.serve(alloc, words)
}

/// As `accept_clients`.
pub fn accept_clients<L: Listener, P: Spawner<AuthJob<L::In, L::Out>>>(
    rt: &impl Wait,
    core: &Arc<AuthCore, Global>,
    listener: &mut L,
    spawner: &mut P,
) -> ListenEnd
    requires { (job : Client L.In L.Out) → job.core ≡ arc_value core.now
        → P.takes spawner.old job }

    ensures jobs { Listens (arc_value core.now) result (L.to_come listener.old)
        (L.to_come listener.new) (P.taken spawner.old) (P.taken spawner.new) }

    ensures listen_fault { result ≡ ListenEnd.ListenFault
        → Rose (L.faults listener.old) (L.faults listener.new) }
    ensures no_thread { result ≡ ListenEnd.NoThread
        → Rose (P.faults spawner.old) (P.faults spawner.new) }
    ensures counted_accepts { L.faults listener.old ≤ L.faults listener.new }
    ensures counted_jobs { P.faults spawner.old ≤ P.faults spawner.new }
{
    auth_server::accept_clients(rt, core, listener, spawner)
}

/// As `serve_auth`.
pub fn serve_auth<R: Source, W: Sink, G: Words>(
    alloc: Global,
    core: &AuthCore,
    source: &mut R,
    sink: &mut W,
    words: &mut G,
) -> AuthEnd
    ensures ends { EndsSo (knowledge core.now) result
        (moment (R.left source.old) (G.to_come words.old) (W.holds sink.old))
        (moment (R.left source.new) (G.to_come words.new) (W.holds sink.new)) }

    ensures read_fault { result ≡ AuthEnd.ReadFault
        → Rose (R.faults source.old) (R.faults source.new) }
    ensures write_fault { result ≡ AuthEnd.WriteFault
        → Rose (W.faults sink.old) (W.faults sink.new) }
    ensures word_fault { result ≡ AuthEnd.WordFault
        → Rose (G.faults words.old) (G.faults words.new) }
    ensures counted_reads { R.faults source.old ≤ R.faults source.new }
    ensures counted_writes { W.faults sink.old ≤ W.faults sink.new }
    ensures counted_words { G.faults words.old ≤ G.faults words.new }

    ensures complete { IsServable (knowledge core.now)
        (moment (R.left source.old) (G.to_come words.old) (W.holds sink.old))
        → (Rose (R.faults source.old) (R.faults source.new) → ⊥)
        → (Rose (W.faults sink.old) (W.faults sink.new) → ⊥)
        → (Rose (G.faults words.old) (G.faults words.new) → ⊥)
        → (result ≡ AuthEnd.End) ⊎ (result ≡ AuthEnd.NoMemory) }

    ensures spent { IsSpent (knowledge core.now)
        (moment (R.left source.old) (G.to_come words.old) (W.holds sink.old))
        → (Rose (R.faults source.old) (R.faults source.new) → ⊥)
        → (Rose (W.faults sink.old) (W.faults sink.new) → ⊥)
        → (Rose (G.faults words.old) (G.faults words.new) → ⊥)
        → (result ≡ AuthEnd.TooManyWrong) ⊎ (result ≡ AuthEnd.NoMemory) }
{
    auth_server::serve_auth(alloc, core, source, sink, words)
}

/// As `AuthCore::need`.
pub fn core_need(core: &AuthCore, session: &Session, kind: u8) -> Option<usize>
    ensures { result ≡ needed session.now.held kind }
{
    core.need(session, kind)
}

/// As `AuthCore::step`.
pub fn core_step(
    core: &AuthCore,
    session: &mut Session,
    request: &[u8],
    words: &[[u8; 8]; 3],
    out: &mut Bytes,
) -> Result<AsStep, NoMemory>
    requires whole { needed session.old.held (kind_of request.now) ≡ Some (length request.now) }
    requires goes_on { session.old.wrong < most_wrong }

    ensures answer { OnOk result ((before : List Posed) → Stands before session.old
        → out.new ≡ out.old ++ answer_in before
        (posed (knowledge core.now) (asked_so request.now words.now))) }
    ensures stands { OnOk result ((before : List Posed) → Stands before session.old
        → Stands (posed (knowledge core.now) (asked_so request.now words.now)
        ∷ before) session.new) }
    ensures over { IfOk result (λ step. (before : List Posed) → Stands before session.old
        → step ≡ AsStep.TooManyWrong
        ↔ is_over_in (posed (knowledge core.now) (asked_so request.now words.now)
        ∷ before) ≡ true) }
    ensures replied { IfOk result (λ step. step ≡ AsStep.Replied
        → session.new.wrong < most_wrong) }

    ensures err { OnErr result (out.new ≡ out.old) }
    ensures unchanged { OnErr result (session.new ≡ session.old) }
{
    core.step(session, request, words, out)
}

/// As `AuthCore::reload`.
pub fn core_reload(core: &mut AuthCore, keys: KeyTable, speaks: SpeaksTable)
    ensures { core.new ≡ record { dom = core.old.dom; keys = keys; speaks = speaks } }
{
    core.reload(keys, speaks)
}
