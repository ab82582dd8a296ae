// The head of a message. The layout of each message:
//
//     size[4] type[1] tag[2] fields
ghost use Rattle.std.specs.Prelude.{◌≡◌, ◌-◌, ◌<◌, ◌^◌, ◌++◌, OnOk, OnErr};
ghost use Rattle.std.specs.Int.{w8, to_le_bytes};
ghost use Rattle.nine.specs.Encoded.{head};

use wire_base::{Bytes, NoMemory};

// The size, the type and the tag of a message whose fields have so many bytes.
#[tactic(auto, unfolding(crate::specs::Encoded::head))]
pub(crate) fn put_head(fields: usize, kind: u8, tag: u16, out: &mut Bytes) -> Result<(), NoMemory>
    requires { fields < 2 ^ 32 - 7 }
    ensures ok { OnOk result (out.new ≡ out.old ++ head fields kind tag) }
    ensures err { OnErr result (out.new ≡ out.old) }
{
    let size = (fields as u32 + 7).to_le_bytes();
    let tag = tag.to_le_bytes();
    out.append(&[size[0], size[1], size[2], size[3], kind, tag[0], tag[1]])
}

// One byte.
pub(crate) fn put_u8(value: u8, out: &mut Bytes) -> Result<(), NoMemory>
    ensures ok { OnOk result (out.new ≡ out.old ++ to_le_bytes w8 value) }
    ensures err { OnErr result (out.new ≡ out.old) }
{
    out.push(value)
}
