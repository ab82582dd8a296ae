// The public calls of `auth_tables`.
ghost use Rattle.std.specs.Prelude.{◌≡◌, ◌<◌, option_copied, option_map, ◌+◌, ◌^◌, ℕ, List, None, Some, length, IfErr, IfOk, OnOk};
ghost use Rattle.auth_tables.specs.Keys.{key_of, bad_key_line, table_keys, user_at};
ghost use Rattle.auth_tables.specs.Speaks.{names_of, may_speak, bad_speak_line, names_in, table_speaks};
ghost use Rattle.auth_tables.specs.declared.lines.TableFault.TheVariants.{Line};

use auth_tables::{AsKey, KeyTable, SpeaksTable, TableFault};
use std::alloc::Global;
use wire_base::Text;

/// As `KeyTable::find`.
pub fn key_table_find<'x>(key_table: &'x KeyTable, user: &[u8]) -> Option<&'x AsKey>
    ensures { option_copied result ≡ key_of user.now key_table.now }
{
    key_table.find(user)
}

/// As `KeyTable::user_at`.
pub fn key_table_user_at(key_table: &KeyTable, place: usize) -> Option<&Text>
    ensures { option_map (λ user. user.now) result ≡ user_at place key_table.now }
{
    key_table.user_at(place)
}

/// As `parse_keys`.
pub fn parse_keys(alloc: Global, file: &[u8]) -> Result<KeyTable, TableFault>
    requires { length file.now + 1 < 2 ^ 32 }
    ensures keys { IfOk result (λ table. (user : List ℕ)
        → key_of user table ≡ key_of user (table_keys file.now)) }
    ensures order { IfOk result (λ table. table ≡ table_keys file.now) }
    ensures good { OnOk result (bad_key_line file.now ≡ None) }
    ensures bad { IfErr result (λ fault. (line : ℕ) → fault ≡ Line line
        → bad_key_line file.now ≡ Some line) }
{
    auth_tables::parse_keys(alloc, file)
}

/// As `SpeaksTable::speaks_for`.
pub fn speaks_table_speaks_for(speaks_table: &SpeaksTable, host: &[u8], user: &[u8]) -> bool
    ensures { result ≡ may_speak (names_of host.now speaks_table.now) host.now user.now }
{
    speaks_table.speaks_for(host, user)
}

/// As `parse_speaks`.
pub fn parse_speaks(alloc: Global, file: &[u8]) -> Result<SpeaksTable, TableFault>
    requires { length file.now + 1 < 2 ^ 32 }
    ensures names { IfOk result (λ table. (host : List ℕ)
        → names_of host table ≡ names_in (table_speaks file.now) host) }
    ensures good { OnOk result (bad_speak_line file.now ≡ None) }
    ensures bad { IfErr result (λ fault. (line : ℕ) → fault ≡ Line line
        → bad_speak_line file.now ≡ Some line) }
{
    auth_tables::parse_speaks(alloc, file)
}
