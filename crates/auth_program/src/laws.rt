// Laws of the definitions, each the contract of a function that does nothing.
ghost use Rattle.auth_program.specs.AnyWords.{AreServedAnyhow, OneIsServable};

/// A client whose requests are servable whatever words are drawn for them is served to its end, unless a read, a write or a word
/// fails or memory runs out, though nothing is told of the words. One request of 141 bytes, of a kind that is served, is such a
/// client's.
pub fn clients_are_served_by_any_words()
    ensures served { AreServedAnyhow }
    ensures one { OneIsServable }
{}
