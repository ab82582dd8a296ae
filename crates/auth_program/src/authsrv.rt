// The authentication server's command: what it knows is read of its two tables, and then one client is served.
ghost use Rattle.std.specs.Prelude.{◌≡◌, ◌⊎◌, ◌≤◌, true};
ghost use Rattle.attr_tuples.specs.Forms.{is_dom};
ghost use Rattle.wire_streams.specs.Causes.{Rose};
ghost use Rattle.auth_program.specs.Serving.{ServesSo, outside};
ghost use Rattle.auth_program.specs.Statuses.{is_printable};
ghost use Rattle.auth_program.specs.Tabling.{status_of_end};

use crate::status::Status;
use crate::tables::read_core;
use auth_server::{AuthEnd, serve_auth};
use std::alloc::Global;
use wire_base::Text;
use wire_streams::{Sink, Source, Words};

/// How many bytes of a client are taken.
const MOST_CLIENT: u64 = 1 << 40;

/// The status of an end of serving.
pub fn status_of_end(end: AuthEnd) -> Status
    ensures same { result ≡ status_of_end end }
    ensures printable { is_printable result ≡ true }
{
    match end {
        AuthEnd::End => Status::Fine,
        AuthEnd::UnknownType { .. } | AuthEnd::TooManyWrong => Status::AsEnded(end),
        AuthEnd::Torn { at } => Status::Torn { at },
        AuthEnd::ReadFault => Status::ReadFault,
        AuthEnd::WriteFault => Status::WriteFault,
        AuthEnd::WordFault => Status::WordFault,
        AuthEnd::Flood => Status::Flood { limit: MOST_CLIENT },
        AuthEnd::NoMemory => Status::NoMemory,
    }
}

/// Serves one client by the tables of two files.
pub fn serve<R: Source, F: Source, W: Sink, G: Words>(
    alloc: Global,
    dom: Text,
    input: &mut R,
    keys: &mut F,
    speaks: &mut F,
    output: &mut W,
    rand: &mut G,
) -> Status
    requires { is_dom dom ≡ true }
    ensures ends { ServesSo dom result
        (outside (F.left keys.old) (F.left speaks.old)
        (R.left input.old) (G.to_come rand.old) (W.holds output.old))
        (outside (F.left keys.new) (F.left speaks.new)
        (R.left input.new) (G.to_come rand.new) (W.holds output.new)) }
    ensures read_fault { result ≡ Status.ReadFault → Rose (R.faults input.old) (R.faults input.new)
        ⊎ (Rose (F.faults keys.old) (F.faults keys.new)
        ⊎ Rose (F.faults speaks.old) (F.faults speaks.new)) }
    ensures write_fault { result ≡ Status.WriteFault
        → Rose (W.faults output.old) (W.faults output.new) }
    ensures word_fault { result ≡ Status.WordFault → Rose (G.faults rand.old) (G.faults rand.new) }
    ensures counted_reads { R.faults input.old ≤ R.faults input.new }
    ensures counted_keys { F.faults keys.old ≤ F.faults keys.new }
    ensures counted_speaks { F.faults speaks.old ≤ F.faults speaks.new }
    ensures counted_writes { W.faults output.old ≤ W.faults output.new }
    ensures counted_words { G.faults rand.old ≤ G.faults rand.new }
{
    match read_core(alloc, dom, keys, speaks) {
        Ok(core) => status_of_end(serve_auth(alloc, &core, input, output, rand)),
        Err(status) => status,
    }
}
