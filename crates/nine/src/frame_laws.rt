// Laws of the frames of a stream, each the contract of a function that does nothing.
ghost use Rattle.std.specs.Prelude.{◌≡◌, ℕ, List, [], ◌++◌, take};
ghost use Rattle.std.specs.List.{AllByRecursion, concat};
ghost use Rattle.nine.specs.Streams.{front, IsBad, IsFrames, frames};
ghost use Rattle.nine.specs.Framed.{Framing, passed};
ghost use Rattle.nine.specs.Framing.{HasHandedOut, IsWithin};
ghost use Rattle.nine.specs.Batches.{AreFrames};

/// The frames of a stream whose front was handed out are the rest of the frames; more of the stream changes none of
/// those that are whole already; and a bad size stays one.
pub fn frames_do_not_depend_on_pieces()
    ensures rest { (limit : ℕ) (handed : List (List ℕ)) (rest : List ℕ)
        → AllByRecursion (IsWithin limit) handed
        → frames limit (concat handed ++ rest) ≡ handed ++ frames limit rest }
    ensures more { (limit : ℕ) (stream more : List ℕ)
        → (others : List (List ℕ)) × (frames limit (stream ++ more)
        ≡ frames limit stream ++ others) }
    ensures bad { (limit size : ℕ) (stream more : List ℕ) → front limit stream ≡ IsBad size
        → front limit (stream ++ more) ≡ IsBad size }
{}

/// The frames of a stream are whole frames within the limit, they are its front, and no whole frame stands behind them.
pub fn frames_are_all_of_the_front()
    ensures each { (limit : ℕ) (stream : List ℕ)
        → AllByRecursion (IsWithin limit) (frames limit stream) }
    ensures all { (limit : ℕ) (stream : List ℕ)
        → (rest : List ℕ) × (stream ≡ concat (frames limit stream) ++ rest)
        × (frames limit rest ≡ []) }
{}

/// The frames at the front of what a framer holds are the frames that their bytes have, and where all before were handed out of a stream,
/// these are the next ones of it.
pub fn a_batch_is_the_next_frames()
    ensures whole { (limit : ℕ) (held : List ℕ) (count size : ℕ)
        → (a : AreFrames limit held count size)
        → IsFrames limit (take size held) × (frames limit (take size held) ≡ a.some) }
    ensures next { (f : Framing) (stream : List ℕ) (handed : List (List ℕ)) (count size : ℕ)
        → HasHandedOut f stream handed → AreFrames f.limit f.held count size
        → HasHandedOut (passed f size) stream
        (handed ++ frames f.limit (take size f.held)) }
{}
