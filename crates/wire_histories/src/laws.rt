// Laws of histories, each the contract of a function that does nothing.
ghost use Rattle.std.specs.Prelude.{◌≡◌, ℕ, List, is_some, length, nat_lt};
ghost use Rattle.sealing.specs.Fitting.{IsBlock};
ghost use Rattle.wire_histories.specs.Examples.{mail_history, mail_setting};
ghost use Rattle.wire_histories.specs.Legal.{IsLegal, Setting};
ghost use Rattle.wire_histories.specs.Noted.{IsNotedOf, Noted, kept_des, kept_secret, noted_des, noted_secret, noted_tables};

/// The record of a client of APOP that answers a challenge is legal.
pub fn a_mail_client_has_a_legal_history()
    ensures { (des : List ℕ) → IsBlock 7 des → IsLegal mail_history (mail_setting des) }
{}

/// What a program is told by what was noted of a setting is so of the setting: the key that each conversation keeps, its
/// secret, and how many tables the authentication server had.
pub fn what_is_noted_is_of_the_setting()
    ensures keys { (z : Setting) (n : Noted) → IsNotedOf z n → (conv : List ℕ)
        → noted_des n conv ≡ kept_des z conv }
    ensures secrets { (z : Setting) (n : Noted) → IsNotedOf z n → (conv : List ℕ)
        → noted_secret n conv ≡ kept_secret z conv }
    ensures tables { (z : Setting) (n : Noted) → IsNotedOf z n → (number : ℕ)
        → is_some (noted_tables n number) ≡ nat_lt number (length z.tables) }
{}
