//! Files of tables in memory, whose changes the caller plans.
use crate::table_files::TableFiles;
use std::collections::VecDeque;
use wire_streams::Source;

/// Two files that are found so at one look after the other: as they were, or these. Behind the last look they stay.
#[derive(Drop)]
pub struct MemTables<S> {
    looks: VecDeque<Option<(S, S)>>,
}

impl<S: Source + Drop> MemTables<S> {
    ghost use Rattle.std.specs.Prelude.{◌≡◌};
    ghost use Rattle.auth_program.specs.MemoryTables.{looks_left};

    /// The looks to come, the next one first.
    pub fn new(looks: Vec<Option<(S, S)>>) -> MemTables<S>
        ensures { looks_left result ≡ looks.items }
    {
        MemTables {
            looks: VecDeque::from(looks),
        }
    }
}

impl<S: Source + Drop> TableFiles for MemTables<S> {
    ghost use Rattle.std.specs.Prelude.{Some, map};
    ghost use Rattle.auth_program.specs.MemoryTables.{looks_left};
    ghost use Rattle.auth_program.specs.Renewals.{found_in};

    type File = S;

    ghost finds = { λ tables. Some (map (found_in S.left) (looks_left tables)) };

    fn look(&mut self) -> Option<(S, S)> {
        self.looks.pop_front()?
    }
}
