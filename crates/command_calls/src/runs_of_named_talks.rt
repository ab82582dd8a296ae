// The public calls of `world_run`.
ghost use Rattle.std.specs.Map.{lookup};
ghost use Rattle.std.specs.Prelude.{◌≡◌, option_copied, option_map, is_some, None, ℕ, List};
ghost use Rattle.std.specs.Str.{bytes_eq};
ghost use Rattle.world_run.specs.Names.{changed_under, left_behind, still_open};

use world_run::{Talk, Talks};

/// As `Talks::find`.
pub fn talks_find<'x>(talks: &'x Talks, name: &[u8]) -> Option<&'x Talk>
    ensures { option_copied result ≡ still_open (lookup (bytes_eq name.now) talks.now) }
{
    talks.find(name)
}

/// As `Talks::was_opened`.
pub fn talks_was_opened(talks: &Talks, name: &[u8]) -> bool
    ensures { result ≡ is_some (lookup (bytes_eq name.now) talks.now) }
{
    talks.was_opened(name)
}

/// As `Talks::close`.
pub fn talks_close(talks: &mut Talks, name: &[u8])
    ensures { (other : List ℕ) → lookup (bytes_eq other) talks.new
        ≡ changed_under name.now (λ _. None) talks.old other }
{
    talks.close(name)
}

/// As `Talks::leave`.
pub fn talks_leave(talks: &mut Talks, node: &[u8])
    ensures { (other : List ℕ) → lookup (bytes_eq other) talks.new
        ≡ option_map (left_behind node.now) (lookup (bytes_eq other) talks.old) }
{
    talks.leave(node)
}
