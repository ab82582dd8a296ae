// A server's tables, which all clients share and which are read again while they are served.
ghost use Rattle.std.specs.Prelude.{◌≡◌, true};
ghost use Rattle.auth_program.specs.RenewalLines.{is_told};

use crate::file_tables::FileTables;
use crate::log::print_renewal;
use crate::renewal::Renewal;
use crate::table_files::TableFiles;
use auth_server::{AuthCore, LiveTables};
use std::alloc::Global;
use std::io::Eprint;
use std::sync::{Arc, Mutex, Wait};
use std::time::{Clock, Duration, Instant};
use wire_base::{Bytes, NoMemory};

/// How many seconds go by between two looks at the files, at least.
const LOOK: u64 = 1;

/// The tables, and when their files were looked at last.
#[derive(Drop)]
struct Kept<F> {
    tables: FileTables<F>,
    looked: Option<Instant>,
}

impl<F: TableFiles> Kept<F> {
    // Looks at the files, unless that was done within the second before: what came of it, and the server by its tables.
    fn renew(&mut self, now: Option<Instant>) -> (Renewal, Option<Arc<AuthCore, Global>>)
        ensures { is_told result.0 ≡ true }
    {
        let renewal = if self.is_due(now) {
            self.looked = now;
            self.tables.look()
        } else {
            Renewal::Same
        };
        (renewal, self.tables.share())
    }
}

impl<F> Kept<F> {
    // Whether the files are to be looked at: always where there is no clock.
    fn is_due(&self, now: Option<Instant>) -> bool {
        match (now, self.looked) {
            (Some(now), Some(looked)) => now.duration_since(looked) >= Duration::from_secs(LOOK),
            (None, _) | (_, None) => true,
        }
    }
}

/// A server whose tables are read again where their files have changed, looked at before a request, and once a second at
/// most. It tells no content. Who looks has all others wait whose requests come meanwhile.
#[derive(Drop)]
pub struct SharedTables<F> {
    kept: Arc<Mutex<Kept<F>>, Global>,
}

impl<F> SharedTables<F> {
    /// Tables that were read a moment ago.
    pub fn new(alloc: Global, tables: FileTables<F>) -> Result<SharedTables<F>, NoMemory>
    where
        F: Drop,
    {
        let kept = Kept {
            tables,
            looked: None,
        };
        match Arc::new(alloc, Mutex::new(kept)) {
            Ok(kept) => Ok(SharedTables { kept }),
            Err(_) => Err(NoMemory),
        }
    }

    /// The same, for another.
    pub(crate) fn share(&self) -> Option<SharedTables<F>> {
        let kept = Arc::try_clone(&self.kept).ok()?;
        Some(SharedTables { kept })
    }
}

/// The tables as one client's requests come.
#[derive(Drop)]
pub(crate) struct ClientTables<'a, R, F> {
    pub(crate) rt: &'a R,
    pub(crate) shared: SharedTables<F>,
    pub(crate) core: Arc<AuthCore, Global>,
}

impl<'a, R, F> LiveTables for ClientTables<'a, R, F>
where
    R: Wait + Clock + Eprint + AllocGlobal,
    F: TableFiles,
{
    ghost use Rattle.std.specs.Prelude.{⊤};
    ghost use Rattle.std.specs.Arc.{arc_value};

    ghost server = { λ tables. arc_value tables.core };

    ghost in_force = { λ _ _ _. ⊤ };

    fn renew(&mut self) -> Result<(), NoMemory> {
        let now = Instant::now(self.rt).ok();
        let (renewal, core) = self.shared.kept.lock(self.rt).renew(now);
        tell(self.rt, &renewal);
        match core {
            Some(core) => {
                self.core = core;
                Ok(())
            }
            None => Err(NoMemory),
        }
    }

    fn core(&self) -> &AuthCore {
        &self.core
    }
}

// Writes the line of a look to standard error, by one write.
fn tell<R: Eprint + AllocGlobal>(rt: &R, renewal: &Renewal)
    requires { is_told renewal.now ≡ true }
{
    let alloc = rt.alloc();
    let mut line = Bytes::new(alloc);
    if print_renewal(alloc, renewal, &mut line).is_ok()
        && let Ok(text) = std::str::from_utf8(line.as_slice())
        && !text.is_empty()
    {
        let _ = rt.eprint(text);
    }
}
