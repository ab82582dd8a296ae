// The public calls of `conversations`.
ghost use Rattle.std.specs.Prelude.{◌≡◌, ◌∷◌, option_map};
ghost use Rattle.conversations.specs.Begins.{IsBegun, IsPickedBy};
ghost use Rattle.conversations.specs.Shown.{exchange_in};
ghost use Rattle.roles.specs.Answers.{IsKey};
ghost use Rattle.roles.specs.Talks.{unheard, roomless, Call as Move, undone};
ghost use Rattle.roles.specs.declared.need.Need.TheVariants.{Nothing};
ghost use Rattle.talks.specs.Protocols.{needs};
ghost use Rattle.talks.specs.Standings.{Begun as Beginning, with_move, role_in};

use conversations::Begun;
use key_ring::KeyRing;
use wire_base::Shape;

/// As `Begun::hear_nothing`.
pub fn begun_hear_nothing(begun: &mut Begun)
    ensures { (b : Beginning) → IsBegun begun.old b → IsBegun begun.new (with_move b unheard) }
{
    begun.hear_nothing()
}

/// As `Begun::lack_room`.
pub fn begun_lack_room(begun: &mut Begun)
    ensures { (b : Beginning) → IsBegun begun.old b → IsBegun begun.new (with_move b roomless) }
{
    begun.lack_room()
}

/// As `Begun::undo`.
pub fn begun_undo(begun: &mut Begun)
    ensures met { (b : Beginning) → IsBegun begun.old b → IsBegun begun.new (with_move b undone) }
    ensures back { (b : Beginning) (move : Move) → needs b.start b.moves ≡ Nothing
        → IsKey (needs b.start (move ∷ b.moves)) → IsBegun begun.old (with_move b move)
        → IsBegun begun.new b }
{
    begun.undo()
}

/// As `Begun::find_pick`.
pub fn begun_find_pick(begun: &Begun, ring: &KeyRing) -> u32
    ensures { (b : Beginning) → IsBegun begun.now b
        → IsPickedBy result (needs b.start b.moves) (role_in b.start.template) ring.now }
{
    begun.find_pick(ring)
}

/// As `Begun::question`.
pub fn begun_question<'x>(begun: &'x Begun) -> Option<(&'x [u8], Shape)>
    ensures { (b : Beginning) → IsBegun begun.now b
        → option_map (λ asked. (asked.0.now, asked.1)) result
        ≡ exchange_in (needs b.start b.moves) }
{
    begun.question()
}
