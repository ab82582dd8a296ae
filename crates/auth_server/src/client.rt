// One client, as a job.
ghost use Rattle.std.specs.Prelude.{◌≡◌, ◌≤◌};
ghost use Rattle.std.specs.Arc.{arc_value};
ghost use Rattle.auth_server.specs.Serving.{EndsSo, moment};
ghost use Rattle.auth_server.specs.Standing.{knowledge};
ghost use Rattle.auth_server.specs.Clients.{client};
ghost use Rattle.wire_streams.specs.Causes.{Rose};

use crate::serve::{AuthEnd, serve_auth};
use crate::server::AuthCore;
use std::alloc::Global;
use std::marker::Model;
use std::sync::Arc;
use wire_streams::{Sink, Source, Words};

/// A client that is to be served: what the server knows, what the client sends, and what is sent to it.
#[derive(Drop)]
pub struct AuthJob<I, O> {
    core: Arc<AuthCore, Global>,
    source: I,
    pub(crate) sink: O,
}

impl<I, O> Model for AuthJob<I, O> {
    ghost use Rattle.std.specs.Arc.{arc_value};
    ghost use Rattle.auth_server.specs.Clients.{Client, client};

    ghost Value = { Client I O };

    ghost view = { λ job. client (arc_value job.core) job.source job.sink };
}

impl<I, O> AuthJob<I, O> {
    /// A client of what the server knows. It takes no memory.
    pub fn new(core: Arc<AuthCore, Global>, source: I, sink: O) -> AuthJob<I, O>
        ensures { result ≡ client (arc_value core) source sink }
    {
        AuthJob { core, source, sink }
    }

    /// What the server knows, what the client sends, and what is sent to it.
    pub fn into_parts(self) -> (Arc<AuthCore, Global>, I, O)
        ensures { client (arc_value result.0) result.1 result.2 ≡ self }
    {
        let AuthJob { core, source, sink } = self;
        (core, source, sink)
    }
}

impl<I: Source, O: Sink> AuthJob<I, O> {
    /// Serves the client to its end.
    pub fn serve<G: Words>(&mut self, alloc: Global, words: &mut G) -> AuthEnd
        ensures core { self.new.core ≡ self.old.core }
        ensures ends { EndsSo (knowledge self.old.core) result
            (moment (I.left self.old.source) (G.to_come words.old) (O.holds self.old.sink))
            (moment (I.left self.new.source) (G.to_come words.new) (O.holds self.new.sink)) }
        ensures read_fault { result ≡ AuthEnd.ReadFault
            → Rose (I.faults self.old.source) (I.faults self.new.source) }
        ensures write_fault { result ≡ AuthEnd.WriteFault
            → Rose (O.faults self.old.sink) (O.faults self.new.sink) }
        ensures word_fault { result ≡ AuthEnd.WordFault
            → Rose (G.faults words.old) (G.faults words.new) }
    {
        serve_auth(alloc, &self.core, &mut self.source, &mut self.sink, words)
    }
}
