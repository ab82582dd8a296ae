// A network while its script is run.
ghost use Rattle.std.specs.Prelude.{[]};
ghost use Rattle.world_scripts.specs.Scripts.{Numbered};
ghost use Rattle.world_run.specs.Standing.{Stands};

use crate::clients::Clients;
use crate::named_talks::Talks;
use crate::nodes::Nodes;
use std::alloc::Global;
use world_history::{Record, Tables};

/// The network: the nodes, the conversations, the sessions of the authentication server, that server, what was recorded, and how
/// much was told of: how many nodes, how many lines of each of its newest tables, whether the server was asked, and whether it
/// was since these were begun.
#[derive(Drop)]
pub(crate) struct Run {
    pub(crate) alloc: Global,
    pub(crate) nodes: Nodes,
    pub(crate) talks: Talks,
    pub(crate) clients: Clients,
    pub(crate) tables: Tables,
    pub(crate) recorded: Record,
    pub(crate) made: usize,
    pub(crate) keys: u32,
    pub(crate) speaks: u32,
    pub(crate) asked: bool,
    pub(crate) used: bool,
}

impl Run {
    ghost use Rattle.std.specs.Prelude.{[], List};
    ghost use Rattle.world_scripts.specs.Scripts.{Numbered};
    ghost use Rattle.world_history.specs.Telling.{Tells};
    ghost use Rattle.world_run.specs.Standing.{Stands};

    /// A network without nodes, whose authentication server is this.
    pub(crate) fn new(alloc: Global, tables: Tables) -> Run
        ensures { (left : List Numbered) → Tells left [] tables → Stands left [] result }
    {
        Run {
            alloc,
            nodes: Nodes::new(alloc),
            talks: Talks::new(alloc),
            clients: Clients::new(alloc),
            tables,
            recorded: Record::new(alloc),
            made: 0,
            keys: 0,
            speaks: 0,
            asked: false,
            used: false,
        }
    }
}
