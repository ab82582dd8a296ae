// The public calls of `agent_requests`.
ghost use Rattle.std.specs.Prelude.{◌≡◌, List, ℕ, true, ◌<◌, ◌≤◌, ◌+◌, ◌-◌, ◌^◌, OnOk, OnErr};
ghost use Rattle.agent_history.specs.Deeds.{Deed};
ghost use Rattle.agent_history.specs.Requests.{answered};
ghost use Rattle.agent_requests.specs.Connections.{is_opened, Keeps, SameKept, asked};
ghost use Rattle.agent_requests.specs.Sharing.{SameShared, Shares};
ghost use Rattle.nine.specs.Decoding.{IsFrame};

use agent_requests::{Call, Connection, Shared};
use wire_base::NoMemory;

/// As `Connection::is_open`.
pub fn connection_is_open(connection: &Connection) -> bool
    ensures { result ≡ is_opened connection.now.phase }
{
    connection.is_open()
}

/// As `Connection::enter`.
pub fn connection_enter(connection: &mut Connection)
    ensures opened { is_opened connection.new.phase ≡ true }
    ensures keeps { (done : List Deed) (conn : ℕ) → Keeps done conn connection.old
        → Keeps done conn connection.new }
{
    connection.enter()
}

/// As `Connection::serve`.
pub fn connection_serve(
    connection: &mut Connection,
    call: Call,
    shared: &mut Shared,
    frame: &[u8],
) -> Result<(), NoMemory>
    requires whole { IsFrame frame.now }
    requires room { shared.old.ring.ever_added + 8216 < 2 ^ 64 - 1 }
    ensures keeps { OnOk result ((done : List Deed) → Keeps done call.conn connection.old
        → Shares done shared.old
        → Keeps (answered done (asked call) frame.now) call.conn connection.new) }
    ensures shares { OnOk result ((done : List Deed) → Keeps done call.conn connection.old
        → Shares done shared.old → Shares (answered done (asked call) frame.now) shared.new) }
    ensures few { shared.new.ring.ever_added ≤ shared.old.ring.ever_added + 8216 }
    ensures kept { OnErr result (SameKept connection.old connection.new) }
    ensures same { OnErr result (SameShared shared.old shared.new) }
{
    connection.serve(call, shared, frame)
}
