// Clients accepted, each of which is a job.
ghost use Rattle.std.specs.Prelude.{◌≡◌, ◌≤◌, Err, IfErr, List, OnOk, Option};
ghost use Rattle.std.specs.Arc.{arc_value};
ghost use Rattle.auth_server.specs.Clients.{Client, Going, Listens};
ghost use Rattle.wire_streams.specs.Causes.{Rose};

use crate::client::AuthJob;
use crate::server::AuthCore;
use std::alloc::Global;
use std::sync::{Arc, Wait};
use wire_streams::{Listener, Spawner};

/// Why no more clients are accepted.
#[derive(Clone, Copy, Debug, PartialEq, Eq)]
pub enum ListenEnd {
    /// A client that was accepted couldn't be given to a thread, and was hung up.
    NoThread,
    /// Accepting failed.
    ListenFault,
    /// Memory ran out.
    NoMemory,
}

/// Accepts clients and has each served by a job of its own, over one core, until that fails.
pub fn accept_clients<L: Listener, P: Spawner<AuthJob<L::In, L::Out>>>(
    rt: &impl Wait,
    core: &Arc<AuthCore, Global>,
    listener: &mut L,
    spawner: &mut P,
) -> ListenEnd
    // The spawner takes every client of this core.
    requires { (job : Client L.In L.Out) → job.core ≡ arc_value core.now
        → P.takes spawner.old job }

    // The jobs taken are the clients accepted, in order, but for one where the end is NoThread.
    ensures jobs { Listens (arc_value core.now) result (L.to_come listener.old)
        (L.to_come listener.new) (P.taken spawner.old) (P.taken spawner.new) }

    // A fault comes only where the count of its object rose, and no count falls.
    ensures listen_fault { result ≡ ListenEnd.ListenFault
        → Rose (L.faults listener.old) (L.faults listener.new) }
    ensures no_thread { result ≡ ListenEnd.NoThread
        → Rose (P.faults spawner.old) (P.faults spawner.new) }
    ensures counted_accepts { L.faults listener.old ≤ L.faults listener.new }
    ensures counted_jobs { P.faults spawner.old ≤ P.faults spawner.new }
{
    for _ in rt.forever() {
        if let Err(end) = accept_one(core, listener, spawner) {
            return end;
        }
    }
    unreachable!()
}

// Accepts the next client and has it served.
fn accept_one<L: Listener, P: Spawner<AuthJob<L::In, L::Out>>>(
    core: &Arc<AuthCore, Global>,
    listener: &mut L,
    spawner: &mut P,
) -> Result<(), ListenEnd>
    requires { (job : Client L.In L.Out) → job.core ≡ arc_value core.now
        → P.takes spawner.old job }
    ensures takes { (job : Client L.In L.Out) → job.core ≡ arc_value core.now
        → P.takes spawner.new job }
    ensures going { OnOk result ((came : Option (List (L.In × L.Out)))
        (taken : Option (List (Client L.In L.Out)))
        → Going (arc_value core.now) came (L.to_come listener.old) taken (P.taken spawner.old)
        → Going (arc_value core.now) came (L.to_come listener.new) taken (P.taken spawner.new)) }
    ensures ends { IfErr result (λ end. (came : Option (List (L.In × L.Out)))
        (taken : Option (List (Client L.In L.Out)))
        → Going (arc_value core.now) came (L.to_come listener.old) taken (P.taken spawner.old)
        → Listens (arc_value core.now) end came (L.to_come listener.new)
        taken (P.taken spawner.new)) }
    ensures listen_fault { result ≡ Err ListenEnd.ListenFault
        → Rose (L.faults listener.old) (L.faults listener.new) }
    ensures no_thread { result ≡ Err ListenEnd.NoThread
        → Rose (P.faults spawner.old) (P.faults spawner.new) }
    ensures counted_accepts { L.faults listener.old ≤ L.faults listener.new }
    ensures counted_jobs { P.faults spawner.old ≤ P.faults spawner.new }
{
    let Ok(core) = Arc::try_clone(core) else {
        return Err(ListenEnd::NoMemory);
    };
    let Ok((source, sink)) = listener.accept() else {
        return Err(ListenEnd::ListenFault);
    };
    match spawner.spawn(AuthJob::new(core, source, sink)) {
        Ok(()) => Ok(()),
        Err(_) => Err(ListenEnd::NoThread),
    }
}
