//! What the header of a thematic index says, and where its entries stand.

ghost use Rattle.std.specs.Prelude.{◌≡◌, ◌+◌, ◌≤◌, ◌<◌, length, IfOk};
ghost use Rattle.vpf_theme.specs.Layouts.{HasValues, allowed_count, header_fields, form_in, header_bytes, indexed_kind_of, row_bytes, row_size_of, u32_at};

use vpf_base::limits::MOST_VALUES;
use vpf_triplet::{Code, Count, Kind, Order, Place};
use vpf_value::cell_width;

/// The bytes of the header.
pub const HEADER_BYTES: usize = 60;

/// Where the fields of the header stand, in bytes from its start.
const SIZE_AT: usize = 0;

const ENTRIES_AT: usize = 4;

const ROWS_AT: usize = 8;

const FORM_AT: usize = 12;

const KIND_AT: usize = 13;

const COUNT_AT: usize = 14;

const ROW_SIZE_AT: usize = 18;

const SORTED_AT: usize = 56;

/// The bytes of an entry behind its value: an offset and a count.
const EXTENT_BYTES: usize = 8;

/// How a thematic index lists the rows of a value.
#[derive(Clone, Copy, Debug, PartialEq, Eq)]
pub enum Form {
    /// The numbers of the rows, `T`.
    List,
    /// A bit for each row of the table, `B`.
    Bitmap,
}

/// How many bytes the row numbers of an inverted list have.
#[derive(Clone, Copy, Debug, PartialEq, Eq)]
pub enum RowSize {
    /// 2 bytes, `S`.
    Short,
    /// 4 bytes, `I`.
    Long,
}

impl RowSize {
    /// How many bytes a row number has.
    pub fn bytes(self) -> usize
        ensures value { result ≡ row_bytes self }
        ensures some { 0 < result }
        ensures few { result ≤ 4 }
    {
        match self {
            RowSize::Short => 2,
            RowSize::Long => 4,
        }
    }
}

/// What the header of a thematic index says, but for the names that it repeats.
#[derive(Clone, Copy)]
pub struct Layout {
    /// The order of all numbers of the file, which is the table's.
    pub order: Order,
    /// How the rows of a value are listed.
    pub form: Form,
    /// The kind of the column.
    pub kind: Kind,
    /// The count of the column.
    pub count: u32,
    /// The size of row numbers in lists.
    pub row_size: RowSize,
    /// How many rows the table has.
    pub rows: u32,
    /// How many entries the directory has.
    pub entries: u32,
    /// Whether the directory is marked as sorted.
    pub sorted: bool,
}

/// The form whose letter the byte is.
fn form_of(letter: u8) -> Option<Form>
    ensures { result ≡ form_in letter }
{
    match letter {
        b'T' => Some(Form::List),
        b'B' => Some(Form::Bitmap),
        _ => None,
    }
}

/// The kind that can be indexed whose letter the byte is.
fn indexed_kind_of(letter: u8) -> Option<Kind>
    ensures { result ≡ indexed_kind_of letter }
{
    match letter {
        b'T' => Some(Kind::T),
        b'L' => Some(Kind::L),
        b'M' => Some(Kind::M),
        b'N' => Some(Kind::N),
        b'F' => Some(Kind::F),
        b'R' => Some(Kind::R),
        b'S' => Some(Kind::S),
        b'I' => Some(Kind::I),
        b'D' => Some(Kind::D),
        _ => None,
    }
}

/// The type of row numbers whose letter the byte is.
fn row_size_of(letter: u8) -> Option<RowSize>
    ensures { result ≡ row_size_of letter }
{
    match letter {
        b'S' => Some(RowSize::Short),
        b'I' => Some(RowSize::Long),
        _ => None,
    }
}

/// The number, where it is a count of the kind.
fn count_of(kind: Kind, n: u32) -> Option<u32>
    ensures { result ≡ allowed_count kind n }
{
    (n >= 1 && n <= MOST_VALUES && kind.allows(Count::Fixed(n))).then_some(n)
}

/// The unsigned number of 4 bytes that stands at an offset.
pub fn u32_at(order: Order, bytes: &[u8], at: usize) -> u32
    requires { at + 4 ≤ length bytes.now }
    ensures { result ≡ u32_at order bytes.now at }
{
    order.u32_from(&bytes[at..])
}

/// What the fields of a header say, or the first that says nothing. The first field is looked at after them.
#[tactic(auto, unfolding(crate::specs::Layouts::header_fields))]
fn fields_of(order: Order, bytes: &[u8]) -> Result<Layout, Place>
    requires { header_bytes ≤ length bytes.now }
    ensures exact { result ≡ header_fields order bytes.now }
    ensures values { IfOk result HasValues }
{
    let form = form_of(bytes[FORM_AT]).ok_or(Place::in_theme(FORM_AT, Code::ThemeForm))?;
    let kind = indexed_kind_of(bytes[KIND_AT]).ok_or(Place::in_theme(KIND_AT, Code::ThemeKind))?;
    let count = count_of(kind, u32_at(order, bytes, COUNT_AT)).ok_or(Place::in_theme(
        COUNT_AT,
        Code::ThemeCount,
    ))?;
    let row_size = row_size_of(bytes[ROW_SIZE_AT]).ok_or(Place::in_theme(
        ROW_SIZE_AT,
        Code::ThemeRowtype,
    ))?;
    Ok(Layout {
        order,
        form,
        kind,
        count,
        row_size,
        rows: u32_at(order, bytes, ROWS_AT),
        entries: u32_at(order, bytes, ENTRIES_AT),
        sorted: bytes[SORTED_AT] == b'S',
    })
}

impl Layout {
    ghost use Rattle.std.specs.Prelude.{◌≡◌, ◌+◌, ◌≤◌, ◌<◌, ◌^◌, length, IfOk};
    ghost use Rattle.vpf_base.specs.declared.orders.Order.{Order};
    ghost use Rattle.vpf_theme.specs.Layouts.{HasValues, directory_end, entry_bytes, entry_start, layout_of, value_bytes};

    /// The header of an index, or the first fault in it.
    #[tactic(auto, unfolding(crate::specs::Layouts::layout_of))]
    pub fn read(order: Order, bytes: &[u8]) -> Result<Layout, Place>
        ensures exact { result ≡ layout_of order bytes.now }
        ensures values { IfOk result HasValues }
    {
        if bytes.len() < HEADER_BYTES {
            return Err(Place::in_theme(0, Code::ThemeCut));
        }
        let layout = fields_of(order, bytes)?;
        let size = u32_at(order, bytes, SIZE_AT) as usize;
        if size != HEADER_BYTES && size != layout.directory_end() {
            return Err(Place::in_theme(0, Code::ThemeSize));
        }
        Ok(layout)
    }

    /// How many bytes the value of an entry has.
    pub fn value_bytes(&self) -> usize
        requires { HasValues self.now }
        ensures value { result ≡ value_bytes self.now }
        ensures small { result < 2 ^ 31 }
    {
        let _count = self.count;
        cell_width(self.kind, Count::Fixed(self.count)).unwrap_or(0)
    }

    /// How many bytes an entry has: its value, an offset and a count.
    pub fn entry_bytes(&self) -> usize
        requires { HasValues self.now }
        ensures value { result ≡ entry_bytes self.now }
        ensures small { result < 2 ^ 31 + 8 }
    {
        self.value_bytes() + EXTENT_BYTES
    }

    /// Where entry `i`, counted from 0, begins.
    pub fn entry_start(&self, i: u32) -> usize
        requires { HasValues self.now }
        ensures value { result ≡ entry_start self.now i }
        ensures small { result < 2 ^ 63 + 2 ^ 36 }
    {
        HEADER_BYTES + i as usize * self.entry_bytes()
    }

    /// Where the directory ends.
    pub fn directory_end(&self) -> usize
        requires { HasValues self.now }
        ensures value { result ≡ directory_end self.now }
        ensures small { result < 2 ^ 63 + 2 ^ 36 }
    {
        self.entry_start(self.entries)
    }
}
