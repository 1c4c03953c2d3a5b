//! The byte order of a table's numbers.

ghost use Rattle.std.specs.Prelude.{◌≡◌, ◌≤◌, ◌++◌, OnOk, OnErr, length};
ghost use Rattle.std.specs.Int.{w16, w32, w64};
ghost use Rattle.vpf_base.specs.Numbers.{number, number_of, order_text};

use std::alloc::AllocError;
use std::fmt;

/// Which byte of a number comes first in a file: `L` and `M` in a header.
#[derive(Clone, Copy, Debug, PartialEq, Eq)]
pub enum Order {
    /// The least significant byte first, `L`.
    Little,
    /// The most significant byte first, `M`.
    Big,
}

impl fmt::Display for Order {
    ghost use Rattle.std.specs.Prelude.{Some};
    ghost use Rattle.vpf_base.specs.Numbers.{order_text};

    ghost output = { λ order. Some (order_text order) };

    fn fmt<W: fmt::Write>(&self, f: &mut fmt::Formatter<W>) -> fmt::Result {
        f.write_str(self.letter())
    }
}

impl Order {
    /// The letter that stands for the order in a header.
    pub fn letter(self) -> &'static str
        ensures { result.now ≡ order_text self }
    {
        match self {
            Order::Little => "L",
            Order::Big => "M",
        }
    }

    /// The unsigned number that the first two bytes spell.
    #[inline]
    pub fn u16_from(self, bytes: &[u8]) -> u16
        requires { 2 ≤ length bytes.now }
        ensures { result ≡ number_of self w16 bytes.now }
    {
        let spelling = [bytes[0], bytes[1]];
        match self {
            Order::Little => u16::from_le_bytes(spelling),
            Order::Big => u16::from_be_bytes(spelling),
        }
    }

    /// The unsigned number that the first four bytes spell.
    #[inline]
    pub fn u32_from(self, bytes: &[u8]) -> u32
        requires { 4 ≤ length bytes.now }
        ensures { result ≡ number_of self w32 bytes.now }
    {
        let spelling = [bytes[0], bytes[1], bytes[2], bytes[3]];
        match self {
            Order::Little => u32::from_le_bytes(spelling),
            Order::Big => u32::from_be_bytes(spelling),
        }
    }

    /// The unsigned number that the first eight bytes spell.
    #[inline]
    pub fn u64_from(self, bytes: &[u8]) -> u64
        requires { 8 ≤ length bytes.now }
        ensures { result ≡ number_of self w64 bytes.now }
    {
        let spelling = [
            bytes[0], bytes[1], bytes[2], bytes[3], bytes[4], bytes[5], bytes[6], bytes[7],
        ];
        match self {
            Order::Little => u64::from_le_bytes(spelling),
            Order::Big => u64::from_be_bytes(spelling),
        }
    }

    /// Appends the two bytes that spell the unsigned number. After an error nothing is appended.
    #[inline]
    pub fn put_u16(self, n: u16, out: &mut Vec<u8>) -> Result<(), AllocError>
        ensures ok { OnOk result (out.new.items ≡ out.old.items ++ number self w16 n) }
        ensures err { OnErr result (out.new.items ≡ out.old.items) }
    {
        match self {
            Order::Little => out.extend_from_slice(&n.to_le_bytes()),
            Order::Big => out.extend_from_slice(&n.to_be_bytes()),
        }
    }

    /// Appends the four bytes that spell the unsigned number. After an error nothing is appended.
    #[inline]
    pub fn put_u32(self, n: u32, out: &mut Vec<u8>) -> Result<(), AllocError>
        ensures ok { OnOk result (out.new.items ≡ out.old.items ++ number self w32 n) }
        ensures err { OnErr result (out.new.items ≡ out.old.items) }
    {
        match self {
            Order::Little => out.extend_from_slice(&n.to_le_bytes()),
            Order::Big => out.extend_from_slice(&n.to_be_bytes()),
        }
    }

    /// Appends the eight bytes that spell the unsigned number. After an error nothing is appended.
    #[inline]
    pub fn put_u64(self, n: u64, out: &mut Vec<u8>) -> Result<(), AllocError>
        ensures ok { OnOk result (out.new.items ≡ out.old.items ++ number self w64 n) }
        ensures err { OnErr result (out.new.items ≡ out.old.items) }
    {
        match self {
            Order::Little => out.extend_from_slice(&n.to_le_bytes()),
            Order::Big => out.extend_from_slice(&n.to_be_bytes()),
        }
    }
}
