//! Writing a table in another order in the memory of its file.

ghost use Rattle.std.specs.Prelude.{◌≡◌, ◌<◌, ◌≤◌, ◌++◌, length, drop};
ghost use Rattle.vpf_write.specs.Inner.Turning.{fields_width, turned_rows};

use crate::turning::{Field, fields_of, turn_blocks};
use crate::writing::first_limit;
use std::alloc::{AllocError, Global};
use vpf_head::Header;
use vpf_source::Bytes;
use vpf_table::laws::fixed_rows_are_canonical;
use vpf_table::{FixedRows, TableView};
use vpf_triplet::Order;
use vpf_value::laws::{fitting_is_written, turned_is_other_order};

/// How the bytes of a file become its table in another order: a header as long as its own, and behind it rows of one width
/// with their words turned round.
#[derive(Drop)]
pub struct Turning {
    front: Vec<u8>,
    fields: Vec<Field>,
    width: usize,
    ghost some: { 0 < width },
    ghost whole: { fields_width fields.items ≡ width },
}

/// Writes the header over the first bytes, and turns round the words of the rows behind it.
fn turn_over(front: &[u8], fields: &[Field], width: usize, bytes: &mut [u8])
    requires room { length front.now ≤ length bytes.old }
    requires some { 0 < width }
    requires whole { fields_width fields.now ≡ width }
    ensures { bytes.new ≡ front.now ++ turned_rows fields.now width (drop (length front.now) bytes.old) }
{
    let start = front.len();
    bytes[..start].copy_from_slice(front);
    turn_blocks(fields, width, &mut bytes[start..]);
}

impl Turning {
    ghost use Rattle.std.specs.Prelude.{◌≡◌, ◌≢◌, ◌<◌, All, false, IfOk, IfSome, IsSome, Some};
    ghost use Rattle.vpf_head.specs.Head.{varies_in};
    ghost use Rattle.vpf_table.specs.Canonical.{FitsRow, in_order, rows_text};
    ghost use Rattle.vpf_table.specs.Spelling.{IsTable};
    ghost use Rattle.vpf_table.specs.Inner.Widths.{width_of};
    ghost use Rattle.vpf_write.specs.Inner.InPlace.{CanTurn, HasRoom, Turns, turned_file};

    /// How the bytes of a table's file become the table in this order, as `write_in` writes it. None where rows have no
    /// one width, are in this order already, or stand behind a header of another length; and where a limit is passed.
    pub fn new(
        alloc: Global,
        table: &TableView<'_>,
        bytes: &[u8],
        order: Order,
    ) -> Result<Option<Turning>, AllocError>
        requires { IsTable table.now bytes.now }
        ensures found { IfOk result (λ found. IfSome found (λ t. Turns t bytes.now (in_order order table.now))) }
        ensures known { CanTurn table.now bytes.now order → IfOk result (λ found. IsSome found) }
    {
        let Some(rows) = table.fixed_rows() else {
            return Ok(None);
        };
        if order == table.header().order() {
            return Ok(None);
        }
        let header = table.header().with_order(order)?;
        Turning::under(alloc, &header, table, rows, bytes)
    }

    /// How the bytes become the table under this header, which is its own in another order: see `new`.
    fn under(
        alloc: Global,
        header: &Header<'_>,
        table: &TableView<'_>,
        rows: FixedRows<'_>,
        bytes: &[u8],
    ) -> Result<Option<Turning>, AllocError>
        requires table { IsTable table.now bytes.now }
        requires head { header.now ≡ (in_order header.now.order table.now).head }
        requires other { table.now.head.order ≢ header.now.order }
        requires some { 0 < rows.width }
        requires width { width_of table.now.head.columns ≡ Some rows.width }
        requires alike { varies_in table.now.head.columns ≡ false }
        requires lie { rows.bytes.now ≡ rows_text table.now.head.order table.now.head.columns table.now.rows }
        requires fits { All (FitsRow table.now.head.columns) table.now.rows }
        ensures found { IfOk result (λ found. IfSome found (λ t. Turns t bytes.now (in_order header.now.order table.now))) }
        ensures known { CanTurn table.now bytes.now header.now.order → IfOk result (λ found. IsSome found) }
    {
        fitting_is_written();
        fixed_rows_are_canonical();
        turned_is_other_order();
        let rows_len = rows.bytes.len();
        if first_limit(header, table.len() as usize, rows_len as u64).is_some() {
            return Ok(None);
        }
        let mut front = Vec::new(alloc);
        header.write(&mut front)?;
        if front.len() + rows_len != bytes.len() {
            return Ok(None);
        }
        let fields = fields_of(alloc, header)?;
        Ok(Some(Turning {
            front,
            fields,
            width: rows.width,
        }))
    }

    /// The bytes turned, in their own memory.
    pub fn turn(self, mut bytes: Vec<u8>) -> Bytes
        requires { HasRoom self bytes.items }
        ensures { result ≡ turned_file self bytes.items }
    {
        turn_over(&self.front, &self.fields, self.width, &mut bytes);
        Bytes::new(bytes)
    }
}
