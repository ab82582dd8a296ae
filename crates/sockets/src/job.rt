// What a thread does.

/// What is done once, in a thread of its own, by a runtime.
pub trait Job<R>: Drop {
    /// Does it. It may wait where the runtime may.
    fn run(self, rt: &R);
}
