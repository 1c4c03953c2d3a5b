//! The header of a table.

ghost use Rattle.std.specs.Prelude.{◌≡◌, ◌+◌, ◌<◌, ◌≤◌, ◌++◌, not, IfOk, IfSome, OnOk, Some, map, length, position, take, vec_len};
ghost use Rattle.indexmap.specs.IndexMap.{values, index_map_len};
ghost use Rattle.vpf_base.specs.Limits.{longest_text};
ghost use Rattle.vpf_triplet.specs.Places.{Gives, Answers};
ghost use Rattle.vpf_head.specs.Canonical.{canonical_header, canonical_text};
ghost use Rattle.vpf_head.specs.Head.{with_kind};
ghost use Rattle.vpf_head.specs.Making.{new_of, read_as_given};
ghost use Rattle.vpf_head.specs.Reading.{end_at, close_at, after_mark, order_of, head_at, header_of};
ghost use Rattle.vpf_head.specs.Texts.{is_blank};
ghost use Rattle.vpf_head.specs.Inner.Views.{col, head_given, AreNamed};

use crate::columns::Column;
use crate::fields::present;
use crate::holding::{holds_data, varies};
use crate::items::{Form, name_at, text_at};
use crate::making::{Parts, columns_of, file_of, next_after_name, next_after_text, past_columns};
use crate::names::ColumnName;
use crate::reading::{Columns, column_of, columns_at};
use crate::writing::{columns_len, name_len, put_columns, put_item, put_start};
use std::alloc::{AllocError, Global};
use std::marker::Model;
use vpf_base::limits::LONGEST_TEXT;
use vpf_triplet::{Code, Kind, Order, Place, PlaceError};

/// How many bytes the length number has.
const NUMBER_BYTES: usize = 4;

/// How many bytes the mark of an order has.
const MARK_BYTES: usize = 2;

/// The header of a table: the order of its numbers, its description, the name of its narrative table and its columns.
#[derive(Drop)]
pub struct Header<'a> {
    order: Order,
    description: &'a [u8],
    narrative: Option<&'a [u8]>,
    columns: Columns<'a>,
}

impl<'a> Model for Header<'a> {
    ghost use Rattle.vpf_head.specs.Head.{Head};

    ghost Value = { Head };

    ghost use Rattle.vpf_head.specs.Inner.Views.{header_parts, IsHeaderInside};

    ghost view = { header_parts };

    ghost invariant = { IsHeaderInside };
}

fn is_blank(b: u8) -> bool
    ensures { result ≡ is_blank b }
{
    matches!(b, b' ' | b'\r' | b'\n')
}

fn first_other(rest: &[u8]) -> Option<usize>
    ensures value { result ≡ position (λ b. not (is_blank b)) rest.now }
    ensures within { IfSome result (λ n. n < length rest.now) }
{
    rest.iter().position(|b| !is_blank(*b))
}

/// The end of the text, where only blanks stand before it.
fn end_at(text: &[u8], at: usize) -> Result<usize, Place>
    requires { at ≤ length text.now }
    ensures exact { Gives (λ r. r) result (end_at text.now at) }
    ensures inside { IfOk result (λ r. r ≤ length text.now) }
{
    match first_other(&text[at..]) {
        None => Ok(text.len()),
        Some(n) => Err(Place::in_table(at + n, Code::AfterHeader)),
    }
}

/// The offset of the table's description, which begins after the length number, and after the mark of the order where there is one.
fn after_mark(text: &[u8]) -> usize
    requires { 4 ≤ length text.now }
    ensures value { result ≡ after_mark text.now }
    ensures inside { result ≤ length text.now }
{
    let rest = &text[NUMBER_BYTES..];
    if rest.starts_with(b"L;") || rest.starts_with(b"M;") {
        NUMBER_BYTES + MARK_BYTES
    } else {
        NUMBER_BYTES
    }
}

/// The order of a file's numbers.
fn order_of(bytes: &[u8]) -> Order
    requires { 4 ≤ length bytes.now }
    ensures { result ≡ order_of bytes.now }
{
    if bytes[NUMBER_BYTES..].starts_with(b"M;") {
        Order::Big
    } else {
        Order::Little
    }
}

/// The end of the text after these columns, whose `;` stands here.
#[tactic(auto, using(crate::proofs::Entries::any_data))]
fn close_at(columns: &Columns<'_>, text: &[u8], at: usize) -> Result<usize, Place>
    requires { at < length text.now }
    ensures exact { Gives (λ r. r) result (close_at (map col (values columns.now)) text.now at) }
    ensures inside { IfOk result (λ r. r ≤ length text.now) }
{
    if !holds_data(columns) {
        return Err(Place::in_table(at, Code::NoData));
    }
    end_at(text, at + 1)
}

/// The header whose text begins after the length number and ends with the bytes.
#[tactic(auto, unfolding(crate::specs::Reading::head_at))]
fn head_at<'a>(
    alloc: Global,
    order: Order,
    text: &'a [u8],
) -> Result<(Header<'a>, usize), PlaceError>
    requires framed { 4 ≤ length text.now }
    requires short { length text.now ≤ 4 + longest_text }
    ensures exact { Answers (λ r. r) result (head_at order text.now) }
    ensures inside { IfOk result (λ r. r.1 ≤ length text.now) }
{
    let description = text_at(Form::Heading, text, after_mark(text))?;
    let narrative = name_at(Form::Heading, text, description.past)?;
    let (columns, at) = columns_at(alloc, text, narrative.past)?;
    let end = close_at(&columns, text, at)?;
    let header = Header {
        order,
        description: description.text,
        narrative: present(narrative.text),
        columns,
    };
    Ok((header, end))
}

/// The header of a file.
#[tactic(auto, unfolding(crate::specs::Reading::header_of))]
fn header_at<'a>(alloc: Global, bytes: &'a [u8]) -> Result<(Header<'a>, usize), PlaceError>
    ensures exact { Answers (λ r. r) result (header_of bytes.now) }
    ensures inside { IfOk result (λ r. r.1 ≤ length bytes.now) }
{
    if bytes.len() < NUMBER_BYTES {
        return Err(Place::in_table(0, Code::NumberCut).into());
    }
    let order = order_of(bytes);
    let len = order.u32_from(bytes);
    if len > LONGEST_TEXT {
        return Err(Place::in_table(0, Code::LimitHeader(u64::from(len))).into());
    }
    let end = NUMBER_BYTES + len as usize;
    if bytes.len() < end {
        return Err(Place::in_table(NUMBER_BYTES, Code::HeaderCut).into());
    }
    head_at(alloc, order, &bytes[..end])
}

/// Refuses parts that were read as others.
#[tactic(auto, unfolding(crate::specs::Making::read_as_given))]
fn check_read(parts: &Parts<'_, '_>, read: &Header<'_>) -> Result<(), PlaceError>
    requires { length (canonical_text (head_given parts.now)) ≤ longest_text }
    ensures { Answers (λ _. head_given parts.now) result (read_as_given (head_given parts.now) read.now) }
{
    let narrative = next_after_text(
        NUMBER_BYTES + MARK_BYTES,
        parts.description,
        read.description,
    )?;
    let columns = next_after_name(narrative, parts.narrative, read.narrative)?;
    past_columns(columns, parts.columns, &read.columns)?;
    Ok(())
}

/// Refuses parts whose canonical text is refused, or read as other parts.
#[tactic(auto, unfolding(crate::specs::Making::new_of))]
fn check_parts(alloc: Global, parts: &Parts<'_, '_>) -> Result<(), PlaceError>
    ensures { Answers (λ _. head_given parts.now) result (new_of (head_given parts.now)) }
{
    let file = file_of(alloc, parts)?;
    let (read, _) = header_at(alloc, &file)?;
    check_read(parts, &read)
}

/// Appends the canonical text; after an error some of it may stand behind what stood there.
#[tactic(auto, unfolding(crate::specs::Canonical::canonical_text))]
fn put_text(header: &Header<'_>, out: &mut Vec<u8>) -> Result<(), AllocError>
    ensures ok { OnOk result (out.new.items ≡ out.old.items ++ canonical_text header.now) }
    ensures kept { take (vec_len out.old) out.new.items ≡ out.old.items }
{
    put_start(header.order, header.description, header.narrative, out)?;
    put_columns(&header.columns, out)?;
    put_item(b"", b";", out)
}

/// Appends the length number and the canonical text; after an error some of it may stand behind what stood there.
fn put_header(header: &Header<'_>, out: &mut Vec<u8>) -> Result<(), AllocError>
    requires { length (canonical_text header.now) ≤ longest_text }
    ensures ok { OnOk result (out.new.items ≡ out.old.items ++ canonical_header header.now) }
    ensures kept { take (vec_len out.old) out.new.items ≡ out.old.items }
{
    header.order.put_u32(header.text_len() as u32, out)?;
    put_text(header, out)
}

fn set_kind(columns: &mut Columns<'_>, c: usize, kind: Kind)
    requires within { c < index_map_len columns.old }
    requires named { AreNamed columns.old.entries }
    ensures columns { map col (values columns.new) ≡ with_kind c kind (map col (values columns.old)) }
    ensures named { AreNamed columns.new.entries }
{
    let (_, column) = columns.pair_mut(c);
    column.kind = kind;
}

impl<'a> Header<'a> {
    ghost use Rattle.std.specs.Prelude.{◌≡◌, ◌<◌, ◌≤◌, ◌++◌, ℕ, List, IfOk, IfErr, IfSome, IsTrue, OnOk, OnErr, slice_get, length, take, Some, Ok};
    ghost use Rattle.std.specs.Option.{option_copied};
    ghost use Rattle.vpf_triplet.specs.declared.kinds.Count.TheVariants.{Fixed};
    ghost use Rattle.vpf_triplet.specs.Places.{Answers, ForPlace};
    ghost use Rattle.vpf_head.specs.Canonical.{canonical_header, canonical_text};
    ghost use Rattle.vpf_head.specs.Inner.Deciding.{BeginsHeader};
    ghost use Rattle.vpf_head.specs.Faults.{FirstHeaderFault};
    ghost use Rattle.vpf_head.specs.Head.{Head, names_rows, place_of, varies_in, with_kind};
    ghost use Rattle.vpf_head.specs.Making.{new_of};
    ghost use Rattle.vpf_head.specs.Reading.{header_of};
    ghost use Rattle.vpf_head.specs.Inner.Soundness.{IsSound};
    ghost use Rattle.vpf_head.specs.Spelling.{IsHeader};
    ghost use Rattle.vpf_base.specs.Limits.{longest_text};
    ghost use Rattle.vpf_head.specs.Inner.Views.{col, head_of_parts};

    /// The header of a file, and the offset of its first row in bytes. Refused exactly where the file begins with no
    /// spelling of a header, at the first fault from left to right: the length number, then the text item by item
    /// (MIL-STD-2407, 5.4, table header).
    pub fn read(alloc: Global, bytes: &'a [u8]) -> Result<(Header<'a>, usize), PlaceError>
        // What is read is spelled so, up to the first row.
        ensures found { IfOk result (λ r. IsHeader r.0 (take r.1 bytes.now)) }
        // What is spelled so is read, whatever rows follow.
        ensures only { (h : Head) (text rest : List ℕ) → BeginsHeader bytes.now h text rest → Answers (λ r. r) result (Ok (h, length text)) }
        // The header and where it ends, or the first fault.
        ensures exact { Answers (λ r. r) result (header_of bytes.now) }
        // What is refused has this first fault.
        ensures refused { IfErr result (ForPlace (FirstHeaderFault bytes.now)) }
        // The first row begins inside the file or at its end.
        ensures inside { IfOk result (λ r. r.1 ≤ length bytes.now) }
    {
        header_at(alloc, bytes)
    }

    /// The header of these parts. Refused exactly where the file of their canonical text would be, at its place there, and
    /// where that text would be read as other parts: `item-separator` at the item of the first part that differs, as of a
    /// narrative `-`, which says that there is none. A text of more than 65,536 bytes is `limit-header` at 0.
    pub fn new(
        alloc: Global,
        order: Order,
        description: &'a [u8],
        narrative: Option<&'a [u8]>,
        columns: Vec<Column<'a>>,
    ) -> Result<Header<'a>, PlaceError>
        // The header has these parts.
        ensures made { IfOk result (λ h. h ≡ head_of_parts order description.now (option_copied narrative.entry) columns.entry.items) }
        // Its file spells it.
        ensures spelled { IfOk result (λ h. IsHeader h (canonical_header h)) }
        // Parts that their file spells are not refused.
        ensures only { let given = head_of_parts order description.now (option_copied narrative.entry) columns.entry.items in IsHeader given
            (canonical_header given) → Answers (λ h. h) result (Ok given) }
        // The header, or the fault of its file, or the first part that differs.
        ensures exact { Answers (λ h. h) result (new_of (head_of_parts order description.now (option_copied narrative.entry) columns.entry.items)) }
    {
        let parts = Parts {
            order,
            description,
            narrative,
            columns: &columns,
        };
        check_parts(alloc, &parts)?;
        let columns = columns_of(alloc, &columns)?;
        Ok(Header {
            order,
            description,
            narrative,
            columns,
        })
    }

    /// The order of the table's numbers.
    pub fn order(&self) -> Order
        ensures { result ≡ self.now.order }
    {
        self.order
    }

    /// What the table is, in words.
    pub fn description(&self) -> &'a [u8]
        ensures { result.now ≡ self.now.description }
    {
        self.description
    }

    /// The name of the table's narrative table.
    pub fn narrative(&self) -> Option<&'a [u8]>
        ensures { option_copied result ≡ self.now.narrative }
    {
        self.narrative
    }

    /// How many columns there are.
    pub fn len(&self) -> usize
        ensures value { result ≡ length self.now.columns }
        // What is true of each header.
        ensures sound { IsSound self.now }
    {
        self.columns.len()
    }

    /// The column at this position, from 0.
    pub fn at(&self, c: usize) -> &Column<'a>
        requires { c < length self.now.columns }
        ensures { slice_get self.now.columns c ≡ Some (col result.now) }
    {
        column_of(&self.columns, c)
    }

    /// The position of the column of this name, in any case.
    pub fn column(&self, name: &[u8]) -> Option<usize>
        ensures { result ≡ place_of name.now self.now.columns }
    {
        self.columns.get_index_of(&ColumnName { name })
    }

    /// Whether rows may differ in length: a column holds triplet ids, or as many values as each row says.
    pub fn varies(&self) -> bool
        ensures { result ≡ varies_in self.now.columns }
    {
        varies(&self.columns)
    }

    /// How many bytes the canonical text has: that of `write`, in either order.
    pub fn text_len(&self) -> u64
        ensures { result ≡ length (canonical_text self.now) }
    {
        // The mark of the order, the `;` of the description and the narrative, and that behind the columns.
        let start = self.description.len() + name_len(self.narrative) + 4;
        (start + columns_len(&self.columns) + 1) as u64
    }

    /// Appends the length number and the canonical text: each item as it is, `-` for an absent name, and a narrative for
    /// each column. After an error nothing is appended.
    pub fn write(&self, out: &mut Vec<u8>) -> Result<(), AllocError>
        // The text has at most 65,536 bytes.
        requires { length (canonical_text self.now) ≤ longest_text }
        ensures ok { OnOk result (out.new.items ≡ out.old.items ++ canonical_header self.now) }
        ensures err { OnErr result (out.new.items ≡ out.old.items) }
    {
        let before = out.len();
        if put_header(self, out).is_err() {
            out.truncate(before);
            return Err(AllocError);
        }
        Ok(())
    }

    /// Gives the column at this position, from 0, another kind: one that names rows, in a column of one value. Nothing
    /// else changes.
    pub fn set_kind(&mut self, c: usize, kind: Kind)
        requires within { c < length self.old.columns }
        requires one { IfSome (slice_get self.old.columns c) (λ column. column.count ≡ Fixed 1) }
        // S, I or K.
        requires kind { IsTrue (names_rows kind) }
        ensures { self.new ≡ record self.old { columns = with_kind c kind self.old.columns } }
    {
        set_kind(&mut self.columns, c, kind);
    }

    /// A header of its own that differs from this one in the order alone.
    pub fn with_order(&self, order: Order) -> Result<Header<'a>, AllocError>
        ensures { IfOk result (λ h. h ≡ record self.now { order = order }) }
    {
        let columns = self.columns.clone()?;
        Ok(Header {
            order,
            description: self.description,
            narrative: self.narrative,
            columns,
        })
    }
}
