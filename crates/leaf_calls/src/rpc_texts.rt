// The public calls of `talks`.
ghost use Rattle.std.specs.Prelude.{◌≡◌, ◌++◌, OnOk, OnErr, nat_le, length};
ghost use Rattle.talks.specs.RpcAnswers.{answer_text};
ghost use Rattle.talks.specs.Requests.{Reads};

use talks::{Request, RpcAnswer, RpcFault};
use wire_base::{Bytes, NoMemory};

/// As `print_answer`.
pub fn print_answer(answer: &RpcAnswer, out: &mut Bytes) -> Result<(), NoMemory>
    ensures ok { OnOk result (out.new ≡ out.old ++ answer_text answer.now) }
    ensures err { OnErr result (out.new ≡ out.old) }
{
    talks::print_answer(answer, out)
}

/// As `parse_request`.
pub fn parse_request(written: &[u8]) -> Result<Request<'_>, RpcFault>
    ensures { Reads result written.now }
{
    talks::parse_request(written)
}

/// As `answer_fits`.
pub fn answer_fits(answer: &RpcAnswer, most: u32) -> bool
    ensures { result ≡ nat_le (length (answer_text answer.now)) most }
{
    talks::answer_fits(answer, most)
}
