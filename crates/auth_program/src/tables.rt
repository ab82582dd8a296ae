// What the server knows: its two tables are read whole, the keys first, and then both are parsed, in this order.
ghost use Rattle.std.specs.Prelude.{◌≡◌, ◌⊎◌, ◌≤◌, ◌<◌, ◌+◌, ◌^◌, IfOk, IfErr, true, Err, length};
ghost use Rattle.attr_tuples.specs.Forms.{is_dom};
ghost use Rattle.auth_server.specs.Serving.{Moment};
ghost use Rattle.wire_streams.specs.Causes.{Rose};
ghost use Rattle.auth_program.specs.Cores.{HasCore, StopsEarly};
ghost use Rattle.auth_program.specs.Statuses.{is_printable};
ghost use Rattle.auth_program.specs.Tabling.{HasParsed, HasRead, IsBadTable, IsTableEnd};

use crate::files::read_file;
use crate::status::Status;
use auth_server::AuthCore;
use auth_tables::{KeyTable, SpeaksTable, TableFault, parse_keys, parse_speaks};
use std::alloc::Global;
use wire_base::Text;
use wire_streams::Source;

/// What the server's administrator says of users and hosts.
#[derive(Drop)]
struct Tables {
    keys: KeyTable,
    speaks: SpeaksTable,
}

// The status of a bad table.
fn bad_table(speaks: bool, fault: TableFault) -> Status
    ensures { IsBadTable speaks fault result }
{
    match fault {
        TableFault::Line { line } => Status::BadTables { speaks, line },
        TableFault::NoMemory => Status::NoMemory,
    }
}

// Parses both tables, the keys first.
fn parse_tables(alloc: Global, keys: &[u8], speaks: &[u8]) -> Result<Tables, Status>
    requires few_keys { length keys.now + 1 < 2 ^ 32 }
    requires few_speaks { length speaks.now + 1 < 2 ^ 32 }
    ensures ok { IfOk result (λ tables. HasParsed keys.now speaks.now tables) }
    ensures err { IfErr result (λ status. IsTableEnd status keys.now speaks.now) }
{
    let keys = match parse_keys(alloc, keys) {
        Ok(table) => table,
        Err(fault) => return Err(bad_table(false, fault)),
    };
    let speaks = match parse_speaks(alloc, speaks) {
        Ok(table) => table,
        Err(fault) => return Err(bad_table(true, fault)),
    };
    Ok(Tables { keys, speaks })
}

// Reads both tables, the keys first, and then parses them.
fn read_tables<F: Source>(alloc: Global, keys: &mut F, speaks: &mut F) -> Result<Tables, Status>
    ensures ok { IfOk result (λ tables. HasRead (F.left keys.old) (F.left keys.new)
        (F.left speaks.old) (F.left speaks.new) tables) }
    ensures err { IfErr result (λ status. (client : Moment)
        → StopsEarly status
        (record { keys = F.left keys.old; speaks = F.left speaks.old; client = client })
        (record { keys = F.left keys.new; speaks = F.left speaks.new; client = client })) }
    ensures fault { result ≡ Err Status.ReadFault
        → Rose (F.faults keys.old) (F.faults keys.new)
        ⊎ Rose (F.faults speaks.old) (F.faults speaks.new) }
    ensures counted_keys { F.faults keys.old ≤ F.faults keys.new }
    ensures counted_speaks { F.faults speaks.old ≤ F.faults speaks.new }
{
    let key_text = read_file(alloc, keys)?;
    let speak_text = read_file(alloc, speaks)?;
    parse_tables(alloc, key_text.as_slice(), speak_text.as_slice())
}

/// What the server of a domain knows by the tables of two files. Both are read whole, the keys first, and then both are
/// parsed, in this order.
pub fn read_core<F: Source>(
    alloc: Global,
    dom: Text,
    keys: &mut F,
    speaks: &mut F,
) -> Result<AuthCore, Status>
    requires { is_dom dom ≡ true }
    ensures ok { IfOk result (λ core. HasCore dom (F.left keys.old) (F.left keys.new)
        (F.left speaks.old) (F.left speaks.new) core) }
    ensures err { IfErr result (λ status. (client : Moment)
        → StopsEarly status
        (record { keys = F.left keys.old; speaks = F.left speaks.old; client = client })
        (record { keys = F.left keys.new; speaks = F.left speaks.new; client = client })) }
    ensures printable { IfErr result (λ status. is_printable status ≡ true) }
    ensures fault { result ≡ Err Status.ReadFault
        → Rose (F.faults keys.old) (F.faults keys.new)
        ⊎ Rose (F.faults speaks.old) (F.faults speaks.new) }
    ensures counted_keys { F.faults keys.old ≤ F.faults keys.new }
    ensures counted_speaks { F.faults speaks.old ≤ F.faults speaks.new }
{
    match read_tables(alloc, keys, speaks) {
        Ok(tables) => Ok(AuthCore::new(dom, tables.keys, tables.speaks)),
        Err(status) => Err(status),
    }
}
