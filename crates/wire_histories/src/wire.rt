// Records.
use crate::step::Step;
use wire_base::List;

/// A record: its steps, in order.
pub type Wire = List<Step>;
