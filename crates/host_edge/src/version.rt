// What the programs are made of. scripts/programs writes both values into the copy of the sources that it proves and builds, so
// that a program says of itself what it was built of, wherever it is copied to.

/// The commit of the repository, in 40 hexadecimal digits; behind them `+` where files of crates/ had changes.
pub const COMMIT: &str = "not told";

/// The kit, as `rt version` prints it.
pub const KIT: &str = "not told";
