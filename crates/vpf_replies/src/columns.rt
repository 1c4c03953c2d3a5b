//! The column that a word names.

ghost use Rattle.std.specs.Prelude.{◌≡◌, ◌<◌, IfSome, length};
ghost use Rattle.vpf_head.specs.Head.{place_of};
ghost use Rattle.vpf_replies.specs.Columns.{IsAt};

use vpf_head::Header;

/// The position of the column of this name, from 0, in any case.
pub fn place_of(header: &Header<'_>, name: &str) -> Option<usize>
    ensures value { result ≡ place_of name.now header.now.columns }
    ensures within { IfSome result (λ c. c < length header.now.columns) }
    ensures at { IfSome result (IsAt name.now header.now.columns) }
{
    let _columns = header.len();
    header.column(name.as_bytes())
}
