// Laws of the definitions, each the contract of a function that does nothing.
ghost use Rattle.std.specs.Prelude.{◌≡◌, ◌<◌, ◌^◌, ◌↔◌, ℕ, List, Ok, All, length};
ghost use Rattle.nine.specs.declared.message.TMsg.{TMsg};
ghost use Rattle.nine.specs.declared.message.RMsg.{RMsg};
ghost use Rattle.nine.specs.Decoding.{IsFrame, t_reading, r_reading};
ghost use Rattle.nine.specs.Messages.{IsRequest, IsReply};

/// A whole frame is read as a request exactly where its bytes spell that request, and spells no other. What
/// spells a request, in fewer than 2^32 bytes, is a whole frame.
pub fn requests_are_read_as_they_are_spelled()
    ensures read { (bytes : List ℕ) (m : TMsg) → All (λ b. b < 256) bytes → IsFrame bytes
        → (t_reading bytes ≡ Ok m) ↔ IsRequest bytes m }
    ensures one { (bytes : List ℕ) (m n : TMsg) → IsRequest bytes m → IsRequest bytes n → m ≡ n }
    ensures whole { (bytes : List ℕ) (m : TMsg) → IsRequest bytes m → length bytes < 2 ^ 32
        → IsFrame bytes }
{}

/// A whole frame is read as a reply exactly where its bytes spell that reply, and spells no other. What spells a
/// reply, in fewer than 2^32 bytes, is a whole frame.
pub fn replies_are_read_as_they_are_spelled()
    ensures read { (bytes : List ℕ) (m : RMsg) → All (λ b. b < 256) bytes → IsFrame bytes
        → (r_reading bytes ≡ Ok m) ↔ IsReply bytes m }
    ensures one { (bytes : List ℕ) (m n : RMsg) → IsReply bytes m → IsReply bytes n → m ≡ n }
    ensures whole { (bytes : List ℕ) (m : RMsg) → IsReply bytes m → length bytes < 2 ^ 32
        → IsFrame bytes }
{}

/// No bytes are both a request and a reply.
pub fn a_frame_has_one_direction()
    ensures { (bytes : List ℕ) (m : TMsg) (n : RMsg) → IsRequest bytes m → ¬ IsReply bytes n }
{}
