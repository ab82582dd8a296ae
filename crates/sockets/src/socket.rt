// The dialer over sockets.
ghost use Rattle.std.specs.List.{AllByRecursion};
ghost use Rattle.std.specs.Prelude.{◌≡◌, ◌≢◌, ◌∷◌, ◌<◌, ◌≤◌, IfOk, IfSome, is_some, length, ℕ};
ghost use Rattle.wire_streams.specs.Dials.{IsAnswer, exchanged, has_failed};
ghost use Rattle.wire_streams.specs.declared.dialer.Made.TheVariants.{Close};
ghost use Rattle.sockets.specs.Asking.{Asked, AskedAnew, AskedBy, IsOrderNow, SameBut};
ghost use Rattle.sockets.specs.Endings.{answer_length};
ghost use Rattle.sockets.specs.Hearing.{HoldsAnswer};
ghost use Rattle.sockets.specs.Kept.{Moves, dial_of, kept_after};
ghost use Rattle.sockets.specs.Kept.Standing.{Free};

use crate::ending::answer_length;
use crate::failures::Recalls;
use crate::kept::Keeps;
use crate::line::{Line, Places, ask, deadline, open_path, open_place, time_left};
use crate::servers::{MOST_SERVERS, Servers};
use std::alloc::Global;
use std::net::{Net, SocketAddr};
use std::time::{Clock, Duration, Instant};
use wire_base::{Bytes, NoMemory, Shape};
use wire_streams::{Dial, Dialer, MOST_ANSWER};

/// The part of the limit in which a server takes the connection where another is left to ask: five seconds of thirty.
const CONNECTS: u32 = 6;

/// The part in which it gives its whole answer: ten seconds of thirty.
const ANSWERS: u32 = 3;

/// A dialer that asks over TCP or a Unix socket. It tells no content. Each exchange that fails is counted, up to the
/// last value of the counter.
#[derive(Drop)]
pub struct TcpDialer<N, K, F> {
    net: N,
    alloc: Global,
    servers: Servers,
    limit: Duration,
    kept: K,
    failures: F,
    faults: u64,
}

/// A turn of one address: until when all have to be done, and whether no other is left to ask.
#[derive(Clone, Copy)]
struct Turn {
    until: Instant,
    is_last: bool,
}

impl Turn {
    // The moment that is such a part of the limit from now; where no other is left, that of all.
    fn part<N: Clock>(self, net: &N, limit: Duration, part: u32) -> Option<Instant>
        requires { 0 < part }
    {
        if self.is_last {
            return Some(self.until);
        }
        Some(deadline(net, limit / part)?.min(self.until))
    }
}

// The first of some servers, and the others.
#[tactic(auto, using(crate::proofs::AskingLemmas::first_and_rest))]
fn first_of(servers: &[usize]) -> Option<(usize, &[usize])>
    ensures { IfSome result (λ parts. servers.now ≡ parts.0 ∷ parts.1.now) }
{
    match servers {
        [first, rest @ ..] => Some((*first, rest)),
        [] => None,
    }
}

impl<N: Net + Clock, K: Keeps<Line<N::Stream>>, F: Recalls> TcpDialer<N, K, F> {
    /// A dialer of servers. An exchange that isn't over within `limit` fails, but for the time in which a host's name is
    /// looked up. The servers are tried in their order, and the addresses of a name too; those that failed within the last
    /// minute, as `failures` recalls, behind the others. Where another is left to ask, one that takes no connection within a
    /// sixth of `limit`, or hasn't given its whole answer within a third, is passed over. So a request may be sent to several
    /// servers. Connections are kept in `kept`.
    pub fn new(
        net: N,
        alloc: Global,
        servers: Servers,
        limit: Duration,
        kept: K,
        failures: F,
    ) -> TcpDialer<N, K, F>
        ensures kept { result.kept ≡ kept }
        ensures failures { result.failures ≡ failures }
        ensures servers { result.servers ≡ servers }
        ensures faults { result.faults ≡ 0 }
    {
        TcpDialer {
            net,
            alloc,
            servers,
            limit,
            kept,
            failures,
            faults: 0,
        }
    }

    // Asks over a new connection, and hands that out with the answer, where that is whole or no other server is left to ask.
    fn ask_over(
        &self,
        line: Line<N::Stream>,
        until: Instant,
        is_last: bool,
        request: &[u8],
        shape: Shape,
        room: &mut [u8],
    ) -> Option<(Line<N::Stream>, usize)>
        requires { length room.old ≡ MOST_ANSWER }
        ensures room { length room.new ≡ length room.old }
        ensures heard { IfSome result (λ heard. HoldsAnswer shape room.new heard.1) }
    {
        let mut line = line;
        let count = ask(&self.net, &mut line, until, request, shape, room)?;
        if !is_last && count < answer_length(shape, &room[..count]) {
            return None;
        }
        Some((line, count))
    }

    // Whether a server's address is the path of a Unix socket.
    fn is_at_path(&self, server: usize) -> bool
        requires { server < length self.now.servers }
    {
        matches!(self.servers.addresses()[server].as_slice(), [b'/', ..])
    }

    // The addresses of a server's name.
    fn find_places(&self, server: usize) -> Option<Places>
        requires { server < length self.now.servers }
    {
        Places::find(&self.net, self.servers.addresses()[server].as_slice())
    }

    // Asks a server at the path of its Unix socket.
    fn ask_path(
        &self,
        server: usize,
        turn: Turn,
        request: &[u8],
        shape: Shape,
        room: &mut [u8],
    ) -> Option<(Line<N::Stream>, usize)>
        requires server { server < length self.now.servers }
        requires room { length room.old ≡ MOST_ANSWER }
        ensures room { length room.new ≡ length room.old }
        ensures heard { IfSome result (λ heard. HoldsAnswer shape room.new heard.1) }
    {
        let answered = turn.part(&self.net, self.limit, ANSWERS)?;
        let connected = turn.part(&self.net, self.limit, CONNECTS)?;
        let path = self.servers.addresses()[server].as_slice();
        let line = open_path(&self.net, path, connected)?;
        self.ask_over(line, answered, turn.is_last, request, shape, room)
    }

    // Asks at an address of a name.
    fn ask_place(
        &self,
        place: SocketAddr,
        turn: Turn,
        request: &[u8],
        shape: Shape,
        room: &mut [u8],
    ) -> Option<(Line<N::Stream>, usize)>
        requires { length room.old ≡ MOST_ANSWER }
        ensures room { length room.new ≡ length room.old }
        ensures heard { IfSome result (λ heard. HoldsAnswer shape room.new heard.1) }
    {
        let answered = turn.part(&self.net, self.limit, ANSWERS)?;
        let connected = turn.part(&self.net, self.limit, CONNECTS)?;
        let line = open_place(&self.net, place, connected)?;
        self.ask_over(line, answered, turn.is_last, request, shape, room)
    }

    // Asks at the addresses of a name, one after the other, until one of them answers.
    fn ask_places(
        &mut self,
        places: &mut Places,
        turn: Turn,
        request: &[u8],
        shape: Shape,
        room: &mut [u8],
    ) -> Option<(Line<N::Stream>, usize)>
        requires { length room.old ≡ MOST_ANSWER }
        ensures room { length room.new ≡ length room.old }
        ensures heard { IfSome result (λ heard. HoldsAnswer shape room.new heard.1) }
        ensures others { SameBut self.old self.new }
        ensures failures { F.failed self.new.failures ≡ F.failed self.old.failures }
    {
        let now = Instant::now(&self.net).ok()?;
        let places = places.as_mut_slice();
        self.failures.order_places(places, now);
        let mut left = &*places;
        while let [place, rest @ ..] = left {
            let turn = Turn {
                until: turn.until,
                is_last: turn.is_last && rest.is_empty(),
            };
            let heard = self.ask_place(*place, turn, request, shape, room);
            if heard.is_some() {
                self.failures.note_place(*place, None);
                return heard;
            }
            let failed = Instant::now(&self.net).ok();
            self.failures.note_place(*place, failed);
            left = rest;
        }
        None
    }

    // Asks one server.
    fn ask_server(
        &mut self,
        server: usize,
        turn: Turn,
        request: &[u8],
        shape: Shape,
        room: &mut [u8],
    ) -> Option<(Line<N::Stream>, usize)>
        requires server { server < length self.old.servers }
        requires room { length room.old ≡ MOST_ANSWER }
        ensures room { length room.new ≡ length room.old }
        ensures heard { IfSome result (λ heard. HoldsAnswer shape room.new heard.1) }
        ensures others { SameBut self.old self.new }
        ensures failures { F.failed self.new.failures ≡ F.failed self.old.failures }
    {
        if self.is_at_path(server) {
            return self.ask_path(server, turn, request, shape, room);
        }
        let mut places = self.find_places(server)?;
        self.ask_places(&mut places, turn, request, shape, room)
    }

    // Asks the servers in an order until one of them answers, and hands out the connection with the answer. It notes who failed
    // and who answered.
    #[tactic(auto, using(crate::proofs::AskingLemmas::none_asked))]
    fn ask_in_order(
        &mut self,
        order: &[usize],
        request: &[u8],
        shape: Shape,
        room: &mut [u8],
    ) -> Option<(Line<N::Stream>, usize)>
        requires few { length self.old.servers ≤ MOST_SERVERS }
        requires order { AllByRecursion (λ i. i < length self.old.servers) order.now }
        requires room { length room.old ≡ MOST_ANSWER }
        ensures room { length room.new ≡ length room.old }
        ensures heard { IfSome result (λ heard. HoldsAnswer shape room.new heard.1) }
        ensures others { SameBut self.old self.new }
        ensures asked { Asked order.now (is_some result)
            (F.failed self.old.failures) (F.failed self.new.failures) }
    {
        let Some(until) = deadline(&self.net, self.limit) else {
            return None;
        };
        let mut left = order;
        while let Some((server, rest)) = first_of(left)
            && time_left(&self.net, until).is_ok()
        {
            let turn = Turn {
                until,
                is_last: rest.is_empty(),
            };
            if let Some(heard) = self.ask_server(server, turn, request, shape, room) {
                self.failures.note_answered(server);
                return Some(heard);
            }
            let Ok(now) = Instant::now(&self.net) else {
                return None;
            };
            self.failures.note_failed(server, now);
            left = rest;
        }
        None
    }

    // The order in which the servers are asked now; none of them where there is no clock.
    fn order(&mut self) -> Result<Vec<usize>, NoMemory>
        ensures each { IfOk result (λ order.
            AllByRecursion (λ i. i < length self.old.servers) order.items) }
        ensures named { IfOk result (λ order. IsOrderNow (F.failed self.old.failures)
            (length self.old.servers) order.items) }
        ensures few { length self.old.servers ≤ MOST_SERVERS }
        ensures others { SameBut self.old self.new }
        ensures failures { F.failed self.new.failures ≡ F.failed self.old.failures }
    {
        let count = self.servers.len();
        match Instant::now(&self.net) {
            Ok(now) => self.failures.order(self.alloc, count, now),
            Err(_) => Ok(Vec::new(self.alloc)),
        }
    }

    // Asks over a connection of its own.
    #[tactic(auto, using(crate::proofs::AskingLemmas::in_order_heard, crate::proofs::AskingLemmas::in_order_unheard))]
    fn ask_once(
        &mut self,
        request: &[u8],
        shape: Shape,
        room: &mut [u8],
    ) -> Result<Option<usize>, NoMemory>
        requires { length room.old ≡ MOST_ANSWER }
        ensures room { length room.new ≡ length room.old }
        ensures heard { IfOk result (λ heard. IfSome heard (HoldsAnswer shape room.new)) }
        ensures others { SameBut self.old self.new }
        ensures asked { AskedAnew (dial_of result) (length self.old.servers)
            (F.failed self.old.failures) (F.failed self.new.failures) }
    {
        let order = self.order()?;
        match self.ask_in_order(&order, request, shape, room) {
            Some((_line, count)) => Ok(Some(count)),
            None => Ok(None),
        }
    }

    // Asks for a challenge over a new connection, and keeps that under the number, for which a place is set aside before,
    // where there is an answer.
    #[tactic(auto, using(crate::proofs::AskingLemmas::in_order_heard, crate::proofs::AskingLemmas::in_order_unheard))]
    fn ask_and_keep(
        &mut self,
        conv: u64,
        request: &[u8],
        room: &mut [u8],
    ) -> Result<Option<usize>, NoMemory>
        requires { length room.old ≡ MOST_ANSWER }
        ensures room { length room.new ≡ length room.old }
        ensures heard { IfOk result (λ heard.
            IfSome heard (HoldsAnswer Shape.Challenge room.new)) }
        ensures kept { Moves (kept_after Shape.Challenge (dial_of result)) conv
            (K.standings self.old.kept) (K.standings self.new.kept) }
        ensures faults { self.new.faults ≡ self.old.faults }
        ensures asked { AskedAnew (dial_of result) (length self.old.servers)
            (F.failed self.old.failures) (F.failed self.new.failures) }
    {
        let order = self.order()?;
        self.kept.reserve(conv)?;
        let Some((line, count)) = self.ask_in_order(&order, request, Shape::Challenge, room) else {
            self.kept.take(conv);
            return Ok(None);
        };
        self.kept.keep(conv, line);
        Ok(Some(count))
    }

    // Asks over the connection that is kept under the number, which is then given up. No other server is asked.
    fn ask_kept(&mut self, conv: u64, request: &[u8], room: &mut [u8]) -> Option<usize>
        requires { length room.old ≡ MOST_ANSWER }
        ensures room { length room.new ≡ length room.old }
        ensures heard { IfSome result (HoldsAnswer Shape.Vouch room.new) }
        ensures kept { Moves (λ _. Free) conv
            (K.standings self.old.kept) (K.standings self.new.kept) }
        ensures faults { self.new.faults ≡ self.old.faults }
        ensures failures { self.new.failures ≡ self.old.failures }
    {
        let mut line = self.kept.take(conv)?;
        let until = deadline(&self.net, self.limit)?;
        ask(&self.net, &mut line, until, request, Shape::Vouch, room)
    }

    // Asks as the shape says.
    fn ask_by_shape(
        &mut self,
        conv: u64,
        request: &[u8],
        shape: Shape,
        room: &mut [u8],
    ) -> Result<Option<usize>, NoMemory>
        requires { length room.old ≡ MOST_ANSWER }
        ensures room { length room.new ≡ length room.old }
        ensures heard { IfOk result (λ heard. IfSome heard (HoldsAnswer shape room.new)) }
        ensures kept { Moves (kept_after shape (dial_of result)) conv
            (K.standings self.old.kept) (K.standings self.new.kept) }
        ensures faults { self.new.faults ≡ self.old.faults }
        ensures asked { AskedBy shape (dial_of result) (length self.old.servers)
            (F.failed self.old.failures) (F.failed self.new.failures) }
    {
        match shape {
            Shape::Tickets => self.ask_once(request, shape, room),
            Shape::Challenge => self.ask_and_keep(conv, request, room),
            Shape::Vouch => Ok(self.ask_kept(conv, request, room)),
        }
    }
}

impl<N: Net + Clock, K: Keeps<Line<N::Stream>>, F: Recalls> Dialer for TcpDialer<N, K, F> {
    ghost use Rattle.std.specs.Prelude.{None};
    ghost use Rattle.wire_streams.specs.Causes.{CountsOutcome};
    ghost use Rattle.wire_streams.specs.Dials.{Makes};

    ghost told = { λ _. None };

    ghost faults = { λ dialer. dialer.faults };

    fn exchange(&mut self, conv: u64, request: &[u8], shape: Shape, out: &mut Bytes) -> Dial
        ensures told { Makes None None (exchanged conv request.now shape result out.new) }
        ensures heard { result ≡ Dial.Heard → IsAnswer out.new }
        ensures kept { result ≢ Dial.Heard → out.new ≡ out.old }
        ensures counted { self.old.faults ≤ self.new.faults }
        ensures exact { CountsOutcome self.old.faults self.new.faults (has_failed result) }

        // What is heard is something, and no more than the answer has.
        ensures some { result ≡ Dial.Heard → 0 < length out.new }
        ensures ends { result ≡ Dial.Heard → length out.new ≤ answer_length shape out.new }

        // The connections that are kept: under this number as the shape says, all others as before.
        ensures stands { Moves (kept_after shape result) conv
            (K.standings self.old.kept) (K.standings self.new.kept) }

        // What is found of servers: new connections are asked for in order, until one is heard; for a vouch nobody else is.
        ensures asked { AskedBy shape result (length self.old.servers)
            (F.failed self.old.failures) (F.failed self.new.failures) }
    {
        let Ok(mut room) = vec![in self.alloc; 0u8; MOST_ANSWER] else {
            return Dial::NoMemory;
        };
        match self.ask_by_shape(conv, request, shape, &mut room) {
            Ok(Some(count)) => {
                room.truncate(count);
                *out = Bytes::from_vec(room);
                Dial::Heard
            }
            Ok(None) => {
                self.faults = self.faults.saturating_add(1);
                Dial::Failed
            }
            Err(NoMemory) => Dial::NoMemory,
        }
    }

    fn close(&mut self, conv: u64)
        ensures told { Makes None None (Close conv) }
        ensures exact { self.new.faults ≡ self.old.faults }
        ensures stands { Moves (λ _. Free) conv
            (K.standings self.old.kept) (K.standings self.new.kept) }
    {
        self.kept.take(conv);
    }
}
