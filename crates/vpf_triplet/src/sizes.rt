//! How many bytes each part of a triplet id takes.

ghost use Rattle.std.specs.Prelude.{◌≡◌, ◌≤◌, length};
ghost use Rattle.std.specs.Prelude.{◌++◌, OnOk, OnErr};
ghost use Rattle.vpf_triplet.specs.Canonical.{least};
ghost use Rattle.vpf_triplet.specs.Sizes.{size_of, size_bytes, part_of};
ghost use Rattle.vpf_triplet.specs.Spelling.{bits_of, part};

use std::alloc::AllocError;
use vpf_base::Order;

/// How many bytes a part of a triplet id takes: what two bits of its type byte say.
#[derive(Clone, Copy, Debug, PartialEq, Eq)]
pub enum Size {
    Absent,
    One,
    Two,
    Four,
}

/// The size that two bits of the type byte name.
pub fn named_size(bits: u8) -> Size
    ensures { result ≡ size_of bits }
{
    match bits {
        0 => Size::Absent,
        1 => Size::One,
        2 => Size::Two,
        _ => Size::Four,
    }
}

/// The least size that holds a part.
pub fn least_size(part: Option<u32>) -> Size
    ensures { result ≡ least part }
{
    match part {
        None => Size::Absent,
        Some(n) if n < 0x100 => Size::One,
        Some(n) if n < 0x1_0000 => Size::Two,
        Some(_) => Size::Four,
    }
}

impl Size {
    /// The two bits that name the size in the type byte.
    pub fn bits(self) -> u8
        ensures { result ≡ bits_of self }
    {
        match self {
            Size::Absent => 0,
            Size::One => 1,
            Size::Two => 2,
            Size::Four => 3,
        }
    }

    /// The number of bytes.
    pub fn bytes(self) -> usize
        ensures { result ≡ size_bytes self }
    {
        match self {
            Size::Absent => 0,
            Size::One => 1,
            Size::Two => 2,
            Size::Four => 4,
        }
    }
}

/// The part of this size at the front of the bytes.
pub fn first_part(order: Order, size: Size, bytes: &[u8]) -> Option<u32>
    requires { size_bytes size ≤ length bytes.now }
    ensures { result ≡ part_of order size bytes.now }
{
    match size {
        Size::Absent => None,
        Size::One => Some(u32::from(bytes[0])),
        Size::Two => Some(u32::from(order.u16_from(bytes))),
        Size::Four => Some(order.u32_from(bytes)),
    }
}

/// Appends a part in the least size that holds it. After an error nothing is appended.
pub fn put_part(order: Order, value: Option<u32>, out: &mut Vec<u8>) -> Result<(), AllocError>
    ensures ok { OnOk result (out.new.items ≡ out.old.items ++ part order (least value) value) }
    ensures err { OnErr result (out.new.items ≡ out.old.items) }
{
    let Some(n) = value else {
        return Ok(());
    };
    if n < 0x100 {
        out.push(n as u8)?;
        return Ok(());
    }
    if n < 0x1_0000 {
        return order.put_u16(n as u16, out);
    }
    order.put_u32(n, out)
}
