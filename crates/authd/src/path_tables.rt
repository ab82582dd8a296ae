// The files of the two tables, by their paths.
use crate::NAME;
use auth_program::{TableFiles, as_str};
use host_edge::{Guard, Opened, Stamp, look_at, open_table};
use wire_base::Text;
use wire_streams::ReadSource;

/// The files of the two tables, and what they were known by when they were opened last.
#[derive(Drop)]
pub(crate) struct PathTables {
    rt: HostRuntime,
    keys: Text,
    speaks: Text,
    seen: [Option<Stamp>; 2],
}

/// One that was opened.
type Table = ReadSource<Opened>;

impl PathTables {
    pub(crate) fn new(rt: HostRuntime, keys: Text, speaks: Text) -> PathTables {
        PathTables {
            rt,
            keys,
            speaks,
            seen: [None, None],
        }
    }

    // What they are known by now.
    fn stamps(&self) -> [Option<Stamp>; 2] {
        [
            look_at(&self.rt, as_str(&self.keys)),
            look_at(&self.rt, as_str(&self.speaks)),
        ]
    }

    /// Opens both. What they are known by is looked at before that, so that a change that comes meanwhile is seen later.
    pub(crate) fn open(&mut self) -> (Table, Table) {
        self.seen = self.stamps();
        let keys = open_table(&self.rt, NAME, as_str(&self.keys), Guard::Secret);
        let speaks = open_table(&self.rt, NAME, as_str(&self.speaks), Guard::Unchanged);
        (ReadSource::new(keys), ReadSource::new(speaks))
    }
}

impl TableFiles for PathTables {
    ghost use Rattle.std.specs.Prelude.{None};

    type File = Table;

    ghost finds = { λ _. None };

    fn look(&mut self) -> Option<(Table, Table)> {
        if self.seen == self.stamps() {
            return None;
        }
        Some(self.open())
    }
}
