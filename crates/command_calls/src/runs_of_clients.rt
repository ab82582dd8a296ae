// The public calls of `world_run`.
ghost use Rattle.std.specs.Prelude.{IfOk};
ghost use Rattle.auth_server.specs.Answers.{posed};
ghost use Rattle.auth_server.specs.Requests.{asked_so};
ghost use Rattle.auth_server.specs.Standing.{knowledge};
ghost use Rattle.world_run.specs.Sessions.{ClientsAre, ServesSo, View};

use auth_server::AuthCore;
use wire_base::{Bytes, NoMemory};
use world_run::{Clients, Served};

/// As `Clients::serve`.
pub fn clients_serve(
    clients: &mut Clients,
    core: &AuthCore,
    name: &[u8],
    request: &[u8],
    words: &[[u8; 8]; 3],
    answer: &mut Bytes,
) -> Result<Served, NoMemory>
    ensures { IfOk result (λ served. (v : View)
        → ClientsAre v clients.old
        → ServesSo v name.now (posed (knowledge core.now) (asked_so request.now words.now))
        served answer.old answer.new clients.new) }
{
    clients.serve(core, name, request, words, answer)
}
