// What is asked of the outside: each call of a source, a sink, one that may have no room, words, a dialer, a listener and a
// spawner.
ghost use Rattle.std.specs.Prelude.{◌≡◌, ◌≢◌, ◌<◌, ◌≤◌, length};
ghost use Rattle.std.specs.Result.{is_err};
ghost use Rattle.wire_streams.specs.Offers.{OffersSo, offer_failed};
ghost use Rattle.wire_streams.specs.Causes.{CountsOutcome};
ghost use Rattle.wire_streams.specs.Dials.{IsAnswer, Makes, exchanged, has_failed};
ghost use Rattle.wire_streams.specs.Listening.{Accepts};
ghost use Rattle.wire_streams.specs.Spawning.{Spawns};
ghost use Rattle.wire_streams.specs.Streams.{Reads, Writes, read_failed, write_failed};
ghost use Rattle.wire_streams.specs.Words.{Draws};
ghost use Rattle.wire_streams.specs.declared.dialer.Made.TheVariants.{Close};

use wire_base::{Bytes, Shape};
use wire_streams::{
    Dial, Dialer, Got, ListenFault, Listener, NoStart, Offer, Offers, Put, Sink, Source, Spawner,
    WordFault, Words,
};

/// As `Source::read`.
pub fn read<S: Source>(source: &mut S, out: &mut [u8]) -> Got
    requires { 0 < length out.old }
    ensures bytes { Reads (S.left source.old) (S.left source.new) result out.new }
    ensures counted { S.faults source.old ≤ S.faults source.new }
    ensures exact { CountsOutcome (S.faults source.old) (S.faults source.new)
        (read_failed result) }
{
    source.read(out)
}

/// As `Sink::write`.
pub fn write<W: Sink>(sink: &mut W, piece: &[u8]) -> Put
    requires { 0 < length piece.now }
    ensures bytes { Writes (W.holds sink.old) (W.holds sink.new) result piece.now }
    ensures counted { W.faults sink.old ≤ W.faults sink.new }
    ensures exact { CountsOutcome (W.faults sink.old) (W.faults sink.new) (write_failed result) }
{
    sink.write(piece)
}

/// As `Offers::offer`.
pub fn offer<W: Offers>(sink: &mut W, piece: &[u8]) -> Offer
    requires { 0 < length piece.now }
    ensures bytes { OffersSo (W.holds sink.old) (W.holds sink.new) result piece.now }
    ensures counted { W.faults sink.old ≤ W.faults sink.new }
    ensures exact { CountsOutcome (W.faults sink.old) (W.faults sink.new) (offer_failed result) }
{
    sink.offer(piece)
}

/// As `Words::word8`.
pub fn draw<G: Words>(words: &mut G) -> Result<[u8; 8], WordFault>
    ensures words { Draws (G.to_come words.old) (G.to_come words.new) result }
    ensures counted { G.faults words.old ≤ G.faults words.new }
    ensures exact { CountsOutcome (G.faults words.old) (G.faults words.new) (is_err result) }
{
    words.word8()
}

/// As `Dialer::exchange`.
pub fn exchange<D: Dialer>(
    dialer: &mut D,
    conv: u64,
    request: &[u8],
    shape: Shape,
    out: &mut Bytes,
) -> Dial
    ensures told { Makes (D.told dialer.old) (D.told dialer.new)
        (exchanged conv request.now shape result out.new) }
    ensures heard { result ≡ Dial.Heard → IsAnswer out.new }
    ensures kept { result ≢ Dial.Heard → out.new ≡ out.old }
    ensures counted { D.faults dialer.old ≤ D.faults dialer.new }
    ensures exact { CountsOutcome (D.faults dialer.old) (D.faults dialer.new) (has_failed result) }
{
    dialer.exchange(conv, request, shape, out)
}

/// As `Dialer::close`.
pub fn close<D: Dialer>(dialer: &mut D, conv: u64)
    ensures told { Makes (D.told dialer.old) (D.told dialer.new) (Close conv) }
    ensures exact { D.faults dialer.new ≡ D.faults dialer.old }
{
    dialer.close(conv)
}

/// As `Listener::accept`.
pub fn accept<L: Listener>(listener: &mut L) -> Result<(L::In, L::Out), ListenFault>
    ensures accepted { Accepts (L.to_come listener.old) (L.to_come listener.new) result }
    ensures counted { L.faults listener.old ≤ L.faults listener.new }
    ensures exact { CountsOutcome (L.faults listener.old) (L.faults listener.new)
        (is_err result) }
{
    listener.accept()
}

/// As `Spawner::spawn`.
pub fn spawn<J: Drop, P: Spawner<J>>(spawner: &mut P, job: J) -> Result<(), NoStart>
    requires { P.takes spawner.old job }
    ensures taken { Spawns (P.taken spawner.old) (P.taken spawner.new) result job }
    ensures counted { P.faults spawner.old ≤ P.faults spawner.new }
    ensures exact { CountsOutcome (P.faults spawner.old) (P.faults spawner.new) (is_err result) }
{
    spawner.spawn(job)
}
