// One field of a record that lies at a fixed place.
ghost use Rattle.std.specs.Prelude.{◌≡◌, ◌+◌, ◌<◌, ◌≤◌, ◌^◌, ◌==◌, length};
ghost use Rattle.std.specs.List.{position};
ghost use Rattle.sealing.specs.Fields.{field, name_in};

use crate::fault::FieldFault;
use wire_base::Name;

// Where the first NUL stands.
fn nul_in(field: &[u8]) -> Option<usize>
    ensures { result ≡ position (λ b. b == 0) field.now }
{
    field.iter().position(|byte| *byte == 0)
}

/// The name in the field of `N` bytes at an offset: what stands before the first NUL, whatever is behind it.
#[tactic(auto, unfolding(crate::specs::Fields::name_in, crate::specs::Fields::before_nul))]
pub(crate) fn name_in<const N: usize>(bytes: &[u8], at: usize) -> Result<Name<N>, FieldFault>
    requires inside { at + N ≤ length bytes.now }
    requires small { at < 2 ^ 32 }
    ensures { result ≡ name_in at N bytes.now }
{
    let field = &bytes[at..at + N];
    let Some(end) = nul_in(field) else {
        return Err(FieldFault::NoNul { field: at as u32 });
    };
    match Name::from_text(&field[..end]) {
        Some(name) => Ok(name),
        None => Err(FieldFault::NotText { field: at as u32 }),
    }
}

/// The `N` bytes at an offset.
pub(crate) fn bytes_in<const N: usize>(bytes: &[u8], at: usize) -> [u8; N]
    requires { at + N ≤ length bytes.now }
    ensures { result ≡ field at N bytes.now }
{
    let mut piece = [0; N];
    piece.copy_from_slice(&bytes[at..at + N]);
    piece
}
