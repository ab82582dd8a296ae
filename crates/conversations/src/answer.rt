// What a conversation answers by what its role answers.
ghost use Rattle.std.specs.Prelude.{◌≡◌, Option};
ghost use Rattle.key_lists.specs.Lists.{KeyEntry};
ghost use Rattle.talks.specs.Answers.{cause_answer, info_answer, key_attrs, move_answer};

use attr_tuples::Tuple;
use roles::{Cause, Gave, Outcome, PhaseWord};
use talks::RpcAnswer;

/// What a move is answered, where `done` is the answer to one that is done. A key that opens nothing is shown so.
pub fn answer_move(done: RpcAnswer, gave: Gave, shown: Tuple) -> RpcAnswer
    ensures { (key : Option KeyEntry) → shown ≡ key_attrs key
        → result ≡ move_answer done key gave }
{
    match gave {
        Gave::Ok => done,
        Gave::Wait => done,
        Gave::Phase(PhaseWord::AwaitsRead) => RpcAnswer::AwaitsRead,
        Gave::Phase(PhaseWord::AwaitsWrite) => RpcAnswer::AwaitsWrite,
        Gave::Phase(PhaseWord::Broken) => RpcAnswer::Broken,
        Gave::TooSmall(size) => RpcAnswer::TooSmall(size),
        Gave::TooLong => RpcAnswer::TooLong,
        Gave::Done { haveai: true } => RpcAnswer::DoneHaveai,
        Gave::Done { haveai: false } => RpcAnswer::Done,
        Gave::BadKey => RpcAnswer::BadKey(shown),
        Gave::Refused(cause) => answer_cause(cause, shown),
        Gave::NoMemory => RpcAnswer::NoRoom,
    }
}

fn answer_cause(cause: Cause, shown: Tuple) -> RpcAnswer
    ensures { (key : Option KeyEntry) → shown ≡ key_attrs key → result ≡ cause_answer key cause }
{
    match cause {
        Cause::WrongKind => RpcAnswer::WrongKind,
        Cause::WrongChallenge => RpcAnswer::WrongChallenge,
        Cause::WrongUser => RpcAnswer::WrongUser,
        Cause::NotOffered => RpcAnswer::NotOffered,
        Cause::ServerSaidNo => RpcAnswer::ServerSaidNo,
        Cause::NoServer => RpcAnswer::NoServer,
        Cause::NoRoom => RpcAnswer::NoRoom,
        Cause::BadKey => RpcAnswer::BadKey(shown),
    }
}

/// Who was accepted, once the last move was made.
pub fn answer_info(has_ended: bool, outcome: Outcome) -> RpcAnswer
    ensures { result ≡ info_answer has_ended outcome }
{
    match outcome {
        Outcome::Accepted(info) if has_ended => RpcAnswer::Info(info),
        Outcome::Accepted(_) | Outcome::Running | Outcome::Finished | Outcome::Broken(_) => {
            RpcAnswer::NoInfo
        }
    }
}
