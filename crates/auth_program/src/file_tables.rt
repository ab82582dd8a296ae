// A server by the tables of two files, which are read again where they have changed.
ghost use Rattle.std.specs.Prelude.{◌≡◌, ◌∷◌, [], IfErr, IfOk, IfSome, true};
ghost use Rattle.std.specs.Arc.{arc_value};
ghost use Rattle.attr_tuples.specs.Forms.{is_dom};
ghost use Rattle.auth_server.specs.Serving.{Moment};
ghost use Rattle.auth_program.specs.Cores.{HasCore, StopsEarly};
ghost use Rattle.auth_program.specs.Statuses.{is_printable};

use crate::renewal::Renewal;
use crate::status::Status;
use crate::table_files::TableFiles;
use crate::tables::read_core;
use auth_server::{AuthCore, LiveTables};
use std::alloc::Global;
use std::marker::Model;
use std::sync::Arc;
use wire_base::{NoMemory, Text};
use wire_streams::Source;

/// A server by the tables of two files, at which it looks before each request. Tables that aren't whole, or have a bad line,
/// change nothing. It has no Debug, as the server has none.
#[derive(Drop)]
pub struct FileTables<F> {
    alloc: Global,
    dom: Text,
    core: Arc<AuthCore, Global>,
    files: F,
}

impl<F> Model for FileTables<F> {
    ghost use Rattle.std.specs.Prelude.{◌≡◌, true};
    ghost use Rattle.std.specs.Arc.{arc_value};
    ghost use Rattle.attr_tuples.specs.Forms.{is_dom};
    ghost use Rattle.auth_program.specs.Renewals.{Tabled};

    ghost Value = { Tabled F };

    ghost view = { λ t. record { dom = t.dom; core = arc_value t.core; files = t.files } };

    ghost invariant = { λ t. is_dom t.dom ≡ true };
}

// What a server of a domain knows by the tables of two files, where many may share it.
fn read_shared<S: Source>(
    alloc: Global,
    dom: &Text,
    keys: &mut S,
    speaks: &mut S,
) -> Result<Arc<AuthCore, Global>, Status>
    requires { is_dom dom.now ≡ true }
    ensures ok { IfOk result (λ core. HasCore dom.now (S.left keys.old) (S.left keys.new)
        (S.left speaks.old) (S.left speaks.new) (arc_value core)) }
    ensures err { IfErr result (λ status. (client : Moment)
        → StopsEarly status
        (record { keys = S.left keys.old; speaks = S.left speaks.old; client = client })
        (record { keys = S.left keys.new; speaks = S.left speaks.new; client = client })) }
    ensures printable { IfErr result (λ status. is_printable status ≡ true) }
{
    let dom = match dom.copy() {
        Ok(dom) => dom,
        Err(NoMemory) => return Err(Status::NoMemory),
    };
    let core = match read_core(alloc, dom, keys, speaks) {
        Ok(core) => core,
        Err(status) => return Err(status),
    };
    match Arc::new(alloc, core) {
        Ok(core) => Ok(core),
        Err(_) => Err(Status::NoMemory),
    }
}

impl<F> FileTables<F> {
    /// A server of a domain, and the files at which it looks from now on. It takes no memory.
    pub fn new(alloc: Global, dom: Text, core: Arc<AuthCore, Global>, files: F) -> FileTables<F>
        requires { is_dom dom ≡ true }
        ensures dom { result.dom ≡ dom }
        ensures core { result.core ≡ arc_value core }
        ensures files { result.files ≡ files }
    {
        FileTables {
            alloc,
            dom,
            core,
            files,
        }
    }

    /// The server as it is now, for another owner; None where there can be no more of them.
    pub fn share(&self) -> Option<Arc<AuthCore, Global>>
        ensures { IfSome result (λ core. arc_value core ≡ self.now.core) }
    {
        Arc::try_clone(&self.core).ok()
    }
}

impl<F: TableFiles> FileTables<F> {
    ghost use Rattle.std.specs.Prelude.{◌≡◌, true};
    ghost use Rattle.auth_program.specs.Renewals.{Renewed};
    ghost use Rattle.auth_program.specs.RenewalLines.{is_told};

    /// Looks at the files, and puts their tables in force where they have changed and both are good.
    pub fn look(&mut self) -> Renewal
        ensures dom { self.new.dom ≡ self.old.dom }
        ensures renewed { Renewed self.old.dom result (F.finds self.old.files)
            (F.finds self.new.files) self.old.core self.new.core }
        ensures printable { is_told result ≡ true }
    {
        let Some((mut keys, mut speaks)) = self.files.look() else {
            return Renewal::Same;
        };
        match read_shared(self.alloc, &self.dom, &mut keys, &mut speaks) {
            Ok(core) => {
                self.core = core;
                Renewal::Read
            }
            Err(status) => Renewal::Refused(status),
        }
    }
}

impl<F: TableFiles> LiveTables for FileTables<F> {
    ghost use Rattle.auth_server.specs.Standing.{knowledge};
    ghost use Rattle.auth_program.specs.Renewals.{InForceAt};

    ghost server = { λ tables. tables.core };

    ghost in_force = { λ tables. InForceAt tables.dom (F.finds tables.files) (knowledge tables.core) };

    fn renew(&mut self) -> Result<(), NoMemory> {
        let _ = self.look();
        Ok(())
    }

    fn core(&self) -> &AuthCore {
        &self.core
    }
}
