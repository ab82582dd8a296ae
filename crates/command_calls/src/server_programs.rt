// The public calls of `auth_program`.
ghost use Rattle.std.specs.Prelude.{◌≡◌, IfErr, IfOk, true, ◌⊎◌, ◌≤◌, Err, ◌++◌, OnOk, OnErr, ◌<◌};
ghost use Rattle.attr_tuples.specs.Forms.{is_dom};
ghost use Rattle.auth_program.specs.AuthdWords.{IsAuthd, IsUnreadAuthd};
ghost use Rattle.auth_program.specs.Cores.{HasCore, StopsEarly};
ghost use Rattle.auth_program.specs.Files.{ReadsFile, StopsSo};
ghost use Rattle.auth_program.specs.Log.{IsLine, end_line, fault_line, notice_line};
ghost use Rattle.auth_program.specs.RenewalLines.{is_told, renewal_text};
ghost use Rattle.auth_program.specs.Renewals.{Renewed};
ghost use Rattle.auth_program.specs.Serving.{ServesSo, outside};
ghost use Rattle.auth_program.specs.Statuses.{is_printable, status_number, status_text};
ghost use Rattle.auth_program.specs.Words.{is_value, IsAuthsrv, IsUnreadAuthsrv};
ghost use Rattle.auth_program.specs.declared.status.Status.TheVariants.{NoMemory};
ghost use Rattle.auth_server.specs.Serving.{Moment};
ghost use Rattle.wire_streams.specs.Causes.{Rose};

use attr_tuples::is_dom;
use auth_program::{AuthdWords, AuthsrvWords, FileTables, Renewal, Status, TableFiles};
use auth_server::{AuthCore, Notice};
use std::alloc::Global;
use wire_base::{Bytes, Name, NoMemory, Text};
use wire_streams::{Sink, Source, Words};

/// As `read_authd_words`.
pub fn read_authd_words(alloc: Global, words: &[Text]) -> Result<AuthdWords, Status>
    ensures ok { IfOk result (IsAuthd words.now) }
    ensures dom { IfOk result (λ words. is_dom words.given.dom ≡ true) }
    ensures err { IfErr result (IsUnreadAuthd words.now) }
    ensures printable { IfErr result (λ status. is_printable status ≡ true) }
{
    auth_program::read_authd_words(alloc, words)
}

/// As `serve`.
pub fn serve<R: Source, F: Source, W: Sink, G: Words>(
    alloc: Global,
    dom: Text,
    input: &mut R,
    keys: &mut F,
    speaks: &mut F,
    output: &mut W,
    rand: &mut G,
) -> Status
    requires { is_dom dom ≡ true }
    ensures ends { ServesSo dom result
        (outside (F.left keys.old) (F.left speaks.old)
        (R.left input.old) (G.to_come rand.old) (W.holds output.old))
        (outside (F.left keys.new) (F.left speaks.new)
        (R.left input.new) (G.to_come rand.new) (W.holds output.new)) }
    ensures read_fault { result ≡ Status.ReadFault → Rose (R.faults input.old) (R.faults input.new)
        ⊎ (Rose (F.faults keys.old) (F.faults keys.new)
        ⊎ Rose (F.faults speaks.old) (F.faults speaks.new)) }
    ensures write_fault { result ≡ Status.WriteFault
        → Rose (W.faults output.old) (W.faults output.new) }
    ensures word_fault { result ≡ Status.WordFault → Rose (G.faults rand.old) (G.faults rand.new) }
    ensures counted_reads { R.faults input.old ≤ R.faults input.new }
    ensures counted_keys { F.faults keys.old ≤ F.faults keys.new }
    ensures counted_speaks { F.faults speaks.old ≤ F.faults speaks.new }
    ensures counted_writes { W.faults output.old ≤ W.faults output.new }
    ensures counted_words { G.faults rand.old ≤ G.faults rand.new }
{
    auth_program::serve(alloc, dom, input, keys, speaks, output, rand)
}

/// As `read_file`.
pub fn read_file<F: Source>(alloc: Global, file: &mut F) -> Result<Vec<u8>, Status>
    ensures ok { IfOk result (λ text. ReadsFile (F.left file.old) (F.left file.new) text.items) }
    ensures err { IfErr result (λ status. StopsSo status (F.left file.old) (F.left file.new)) }
    ensures fault { result ≡ Err Status.ReadFault → Rose (F.faults file.old) (F.faults file.new) }
    ensures counted { F.faults file.old ≤ F.faults file.new }
{
    auth_program::read_file(alloc, file)
}

/// As `Status::number`.
pub fn status_number(status: Status) -> u8
    ensures { result ≡ status_number status }
{
    status.number()
}

/// As `print_status`.
pub fn print_status(alloc: Global, status: &Status, out: &mut Bytes) -> Result<(), NoMemory>
    requires { is_printable status.now ≡ true }
    ensures ok { OnOk result (out.new ≡ out.old ++ status_text status.now) }
    ensures err { OnErr result (out.new ≡ out.old) }
{
    auth_program::print_status(alloc, status, out)
}

/// As `read_core`.
pub fn read_core<F: Source>(
    alloc: Global,
    dom: Text,
    keys: &mut F,
    speaks: &mut F,
) -> Result<AuthCore, Status>
    requires { is_dom dom ≡ true }
    ensures ok { IfOk result (λ core. HasCore dom (F.left keys.old) (F.left keys.new)
        (F.left speaks.old) (F.left speaks.new) core) }
    ensures err { IfErr result (λ status. (client : Moment)
        → StopsEarly status
        (record { keys = F.left keys.old; speaks = F.left speaks.old; client = client })
        (record { keys = F.left keys.new; speaks = F.left speaks.new; client = client })) }
    ensures printable { IfErr result (λ status. is_printable status ≡ true) }
    ensures fault { result ≡ Err Status.ReadFault
        → Rose (F.faults keys.old) (F.faults keys.new)
        ⊎ Rose (F.faults speaks.old) (F.faults speaks.new) }
    ensures counted_keys { F.faults keys.old ≤ F.faults keys.new }
    ensures counted_speaks { F.faults speaks.old ≤ F.faults speaks.new }
{
    auth_program::read_core(alloc, dom, keys, speaks)
}

/// As `is_value`.
pub fn is_value(word: &[u8]) -> bool
    ensures { result ≡ is_value word.now }
{
    auth_program::is_value(word)
}

/// As `read_authsrv_words`.
pub fn read_authsrv_words(alloc: Global, words: &[Text]) -> Result<AuthsrvWords, Status>
    ensures ok { IfOk result (IsAuthsrv words.now) }
    ensures dom { IfOk result (λ given. is_dom given.dom ≡ true) }
    ensures err { IfErr result (IsUnreadAuthsrv words.now) }
    ensures printable { IfErr result (λ status. is_printable status ≡ true) }
{
    auth_program::read_authsrv_words(alloc, words)
}

/// As `print_notice`.
pub fn print_notice(address: &Name<48>, notice: &Notice, out: &mut Bytes) -> Result<(), NoMemory>
    ensures ok { OnOk result (out.new ≡ out.old ++ notice_line address.now notice.now) }
    ensures line { OnOk result (IsLine (notice_line address.now notice.now)) }
    ensures err { OnErr result (out.new ≡ out.old) }
{
    auth_program::print_notice(address, notice, out)
}

/// As `print_fault`.
pub fn print_fault(alloc: Global, status: &Status, out: &mut Bytes) -> Result<(), NoMemory>
    requires { is_printable status.now ≡ true }
    ensures ok { OnOk result (out.new ≡ out.old ++ fault_line status.now) }
    ensures err { OnErr result (out.new ≡ out.old) }
{
    auth_program::print_fault(alloc, status, out)
}

/// As `print_client_end`.
pub fn print_client_end(
    alloc: Global,
    address: &Name<48>,
    status: &Status,
    out: &mut Bytes,
) -> Result<(), NoMemory>
    requires { is_printable status.now ≡ true }
    ensures ok { OnOk result (out.new ≡ out.old ++ end_line address.now status.now) }
    ensures err { OnErr result (out.new ≡ out.old) }
{
    auth_program::print_client_end(alloc, address, status, out)
}

/// As `FileTables::look`.
pub fn look_at_tables<F: TableFiles>(tables: &mut FileTables<F>) -> Renewal
    ensures dom { tables.new.dom ≡ tables.old.dom }
    ensures renewed { Renewed tables.old.dom result (F.finds tables.old.files)
        (F.finds tables.new.files) tables.old.core tables.new.core }
    ensures printable { is_told result ≡ true }
{
    tables.look()
}

/// As `print_renewal`.
pub fn print_renewal(alloc: Global, renewal: &Renewal, out: &mut Bytes) -> Result<(), NoMemory>
    requires { is_told renewal.now ≡ true }
    ensures ok { OnOk result (out.new ≡ out.old ++ renewal_text renewal.now) }
    ensures err { OnErr result (out.new ≡ out.old) }
{
    auth_program::print_renewal(alloc, renewal, out)
}
