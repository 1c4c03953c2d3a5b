//! Bytes as printed text.

ghost use Rattle.std.specs.Prelude.{◌≡◌, ◌<◌, ◌++◌, IfSome, OnOk, string_bytes};
ghost use Rattle.std.specs.List.{list_all};
ghost use Rattle.vpf_findings.specs.Text.Bytes.{hex_digit, is_plain, printed, quoted};

use std::alloc::AllocError;
use std::fmt;

/// Whether a byte is printed as itself: 32 to 126, but for the quote and the backslash.
fn is_plain(b: u8) -> bool
    ensures { result ≡ is_plain b }
{
    b >= b' ' && b <= b'~' && b != b'"' && b != b'\\'
}

fn hex_digit(n: u8) -> u8
    requires { n < 16 }
    ensures small { result < 128 }
    ensures digit { result ≡ hex_digit n }
{
    if n < 10 { b'0' + n } else { b'a' - 10 + n }
}

/// A byte as two lower-case digits of base 16.
#[derive(Clone, Copy)]
struct HexByte(u8);

impl fmt::Display for HexByte {
    ghost use Rattle.std.specs.Prelude.{Some};
    ghost use Rattle.vpf_findings.specs.Text.Bytes.{hex_byte};

    ghost output = { λ b. Some (hex_byte b.0) };

    fn fmt<W: fmt::Write>(&self, f: &mut fmt::Formatter<W>) -> fmt::Result {
        f.write_char(hex_digit(self.0 / 16) as char)?;
        f.write_char(hex_digit(self.0 % 16) as char)
    }
}

/// Bytes as two digits each.
#[derive(Clone, Copy, Debug)]
pub struct Hex<'a>(pub &'a [u8]);

impl fmt::Display for Hex<'_> {
    ghost use Rattle.std.specs.Prelude.{Some};
    ghost use Rattle.vpf_findings.specs.Text.Bytes.{hex_bytes};

    ghost output = { λ h. Some (hex_bytes h.0.now) };

    fn fmt<W: fmt::Write>(&self, f: &mut fmt::Formatter<W>) -> fmt::Result {
        for b in self.0 {
            HexByte(*b).fmt(f)?;
        }
        Ok(())
    }
}

/// A byte of a name.
#[derive(Clone, Copy)]
struct PrintedByte(u8);

impl fmt::Display for PrintedByte {
    ghost use Rattle.std.specs.Prelude.{Some};
    ghost use Rattle.vpf_findings.specs.Text.Bytes.{printed_byte};

    ghost output = { λ b. Some (printed_byte b.0) };

    fn fmt<W: fmt::Write>(&self, f: &mut fmt::Formatter<W>) -> fmt::Result {
        if is_plain(self.0) {
            return f.write_char(self.0 as char);
        }
        let digits = HexByte(self.0);
        write!(f, "\\{digits}")
    }
}

/// Whether each of the bytes is printed as itself.
fn are_plain(bytes: &[u8]) -> bool
    ensures { result ≡ list_all is_plain bytes.now }
{
    bytes.iter().all(|b| is_plain(*b))
}

/// The bytes as a text, where each of them is printed as itself.
#[tactic(auto, using(crate::proofs::text::PlainLemmas::printed_plain))]
fn plain_text(bytes: &[u8]) -> Option<&str>
    ensures { IfSome result (λ text. text.now ≡ printed bytes.now) }
{
    if !are_plain(bytes) {
        return None;
    }
    match str::from_utf8(bytes) {
        Ok(text) => Some(text),
        Err(_) => None,
    }
}

/// A name or a description as it is printed: plain bytes as themselves, and each other byte as a backslash and its two
/// digits of base 16.
#[derive(Clone, Copy, Debug)]
pub struct Printed<'a>(pub &'a [u8]);

impl fmt::Display for Printed<'_> {
    ghost use Rattle.std.specs.Prelude.{Some};
    ghost use Rattle.vpf_findings.specs.Text.Bytes.{printed};

    ghost output = { λ p. Some (printed p.0.now) };

    fn fmt<W: fmt::Write>(&self, f: &mut fmt::Formatter<W>) -> fmt::Result {
        // Most texts are plain: one write serves for all of their bytes.
        if let Some(text) = plain_text(self.0) {
            return f.write_str(text);
        }
        for b in self.0 {
            PrintedByte(*b).fmt(f)?;
        }
        Ok(())
    }
}

/// The text of a cell as it is printed: its bytes as those of a name, in quotes.
#[derive(Clone, Copy, Debug)]
pub struct Quoted<'a>(pub &'a [u8]);

impl fmt::Display for Quoted<'_> {
    ghost use Rattle.std.specs.Prelude.{Some};
    ghost use Rattle.vpf_findings.specs.Text.Bytes.{quoted};

    ghost output = { λ q. Some (quoted q.0.now) };

    fn fmt<W: fmt::Write>(&self, f: &mut fmt::Formatter<W>) -> fmt::Result {
        let text = Printed(self.0);
        write!(f, "\"{text}\"")
    }
}

/// Puts a name or a description as it is printed. Fails only for want of memory, and then leaves a beginning of the text
/// behind what stood there.
pub fn put_printed(text: &mut String, bytes: &[u8]) -> Result<(), AllocError>
    ensures { OnOk result (string_bytes text.new ≡ string_bytes text.old ++ printed bytes.now) }
{
    let name = Printed(bytes);
    write!(text, "{name}")
}

/// Puts the text of a cell as it is printed.
pub fn put_quoted(text: &mut String, bytes: &[u8]) -> Result<(), AllocError>
    ensures { OnOk result (string_bytes text.new ≡ string_bytes text.old ++ quoted bytes.now) }
{
    let quoted = Quoted(bytes);
    write!(text, "{quoted}")
}
