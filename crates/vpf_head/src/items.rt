//! Items of a header text, one after another.

ghost use Rattle.std.specs.Prelude.{◌≡◌, ◌<◌, ◌≤◌, IfOk, IfSome, length, position};
ghost use Rattle.vpf_triplet.specs.Places.{Gives};
ghost use Rattle.vpf_head.specs.Items.{item_at, text_at, name_at};
ghost use Rattle.vpf_head.specs.Forms.{is_stop, is_separator, holds_control};
ghost use Rattle.vpf_head.specs.Inner.Views.{item};

use vpf_base::limits::LONGEST_NAME;
use vpf_triplet::{Code, Place};

/// Which bytes end an item, and which of them may.
#[derive(Clone, Copy, Debug, PartialEq, Eq)]
pub enum Form {
    /// The table's description or narrative: at the first `;`.
    Heading,
    /// A column's name: at the first `=`, `,`, `:` or `;`, which has to be the `=`.
    Name,
    /// Another item of a column: at the first `,`, `:` or `;`, which has to be the `,`.
    Field,
    /// A column's thematic index or narrative: at the same, which may be the `,` or the `:`.
    Last,
}

impl Form {
    fn stops_at(self, b: u8) -> bool
        ensures { result ≡ is_stop self b }
    {
        match self {
            Form::Heading => b == b';',
            Form::Name => matches!(b, b'=' | b',' | b':' | b';'),
            Form::Field | Form::Last => matches!(b, b',' | b':' | b';'),
        }
    }

    fn may_end_with(self, b: u8) -> bool
        ensures { result ≡ is_separator self b }
    {
        match self {
            Form::Heading => b == b';',
            Form::Name => b == b'=',
            Form::Field => b == b',',
            Form::Last => matches!(b, b',' | b':'),
        }
    }
}

/// An item of a header text.
#[derive(Clone, Copy)]
pub struct Item<'a> {
    pub text: &'a [u8],
    /// The byte that ended it.
    pub stop: u8,
    /// The offset past that byte.
    pub past: usize,
}

fn holds_control(item: &[u8]) -> bool
    ensures { result ≡ holds_control item.now }
{
    item.iter().any(|b| b.is_ascii_control())
}

/// How many bytes the item at the front has.
fn end_of(form: Form, rest: &[u8]) -> Option<usize>
    ensures value { result ≡ position (is_stop form) rest.now }
    ensures within { IfSome result (λ n. n < length rest.now) }
{
    rest.iter().position(|b| form.stops_at(*b))
}

#[tactic(auto, unfolding(crate::specs::Items::item_at))]
fn item_at(form: Form, text: &[u8], at: usize) -> Result<Item<'_>, Place>
    requires { at ≤ length text.now }
    ensures exact { Gives item result (item_at form text.now at) }
    ensures inside { IfOk result (λ i. i.past ≤ length text.now) }
{
    let rest = &text[at..];
    let Some(n) = end_of(form, rest) else {
        return Err(Place::in_table(at, Code::ItemEnd));
    };
    let stop = rest[n];
    if !form.may_end_with(stop) {
        return Err(Place::in_table(at, Code::ItemSeparator));
    }
    Ok(Item {
        text: &rest[..n],
        stop,
        past: at + n + 1,
    })
}

/// The item that begins at `at` and is a text.
#[tactic(auto, unfolding(crate::specs::Items::text_at))]
pub fn text_at(form: Form, text: &[u8], at: usize) -> Result<Item<'_>, Place>
    requires { at ≤ length text.now }
    ensures exact { Gives item result (text_at form text.now at) }
    ensures inside { IfOk result (λ i. i.past ≤ length text.now) }
{
    let found = item_at(form, text, at)?;
    if holds_control(found.text) {
        return Err(Place::in_table(at, Code::ItemByte));
    }
    Ok(found)
}

/// The item that begins at `at` and is a name.
#[tactic(auto, unfolding(crate::specs::Items::name_at))]
pub fn name_at(form: Form, text: &[u8], at: usize) -> Result<Item<'_>, Place>
    requires { at ≤ length text.now }
    ensures exact { Gives item result (name_at form text.now at) }
    ensures inside { IfOk result (λ i. i.past ≤ length text.now) }
{
    let found = item_at(form, text, at)?;
    let len = found.text.len();
    if len > LONGEST_NAME {
        return Err(Place::in_table(at, Code::LimitName(len as u64)));
    }
    if holds_control(found.text) {
        return Err(Place::in_table(at, Code::ItemByte));
    }
    Ok(found)
}
