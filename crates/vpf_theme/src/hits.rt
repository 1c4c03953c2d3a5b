//! The rows of an entry.

ghost use Rattle.std.specs.Prelude.{◌≡◌, ◌<◌, ◌≤◌, ◌+◌, ◌/◌, ◌*◌, length};
ghost use Rattle.vpf_theme.specs.declared.layout.Form.{Form};
ghost use Rattle.vpf_theme.specs.Entries.{marked_rows, rows_by};
ghost use Rattle.vpf_theme.specs.Inner.Views.{HasData, StepsRow};

use crate::entries::{Extent, is_marked, number_at};
use crate::layout::{Form, Layout};
use std::marker::Model;

/// The rows of an entry that are left, whose numbers stay in the file. Contracts see them as a list, with the number of
/// rows that the entry lists in all.
#[derive(Drop)]
pub struct Hits<'a> {
    layout: Layout,
    bytes: &'a [u8],
    extent: Extent,
    next: u32,
}

impl<'a> Model for Hits<'a> {
    ghost use Rattle.vpf_theme.specs.Inner.Views.{Rows};

    ghost Value = { Rows };

    ghost use Rattle.vpf_theme.specs.Inner.Views.{HasHits, hits_view};

    ghost view = { hits_view };

    ghost invariant = { HasHits };
}

/// The next row of a list, from number `next` on, and the number behind it.
fn listed_step(layout: &Layout, bytes: &[u8], extent: Extent, next: u32) -> Option<(u32, u32)>
    requires { HasData Form.List layout.now bytes.now extent }
    ensures { StepsRow Form.List layout.now bytes.now extent next result }
{
    if extent.count == 0 && next == 0 {
        return Some((extent.offset, 1));
    }
    if next >= extent.count {
        return None;
    }
    Some((number_at(layout, bytes, extent.offset, next), next + 1))
}

/// The next row of a bitmap behind row `next`, and that row again.
fn marked_step(layout: &Layout, bytes: &[u8], extent: Extent, next: u32) -> Option<(u32, u32)>
    requires { HasData Form.Bitmap layout.now bytes.now extent }
    ensures { StepsRow Form.Bitmap layout.now bytes.now extent next result }
{
    for k in next..layout.rows {
        if is_marked(bytes, extent.offset, u64::from(k)) {
            return Some((k + 1, k + 1));
        }
    }
    None
}

fn step(layout: &Layout, bytes: &[u8], extent: Extent, next: u32) -> Option<(u32, u32)>
    requires { HasData layout.now.form layout.now bytes.now extent }
    ensures { StepsRow layout.now.form layout.now bytes.now extent next result }
{
    match layout.form {
        Form::List => listed_step(layout, bytes, extent, next),
        Form::Bitmap => marked_step(layout, bytes, extent, next),
    }
}

/// How many rows a bitmap marks.
fn count_marked(layout: &Layout, bytes: &[u8], extent: Extent) -> u32
    requires { HasData Form.Bitmap layout.now bytes.now extent }
    ensures { result ≡ length (marked_rows layout.now bytes.now extent) }
{
    let mut marked = 0;
    for k in 0..layout.rows {
        if is_marked(bytes, extent.offset, u64::from(k)) {
            marked += 1;
        }
    }
    marked
}

/// How many rows an entry lists.
fn count_listed(layout: &Layout, bytes: &[u8], extent: Extent) -> u32
    requires { HasData layout.now.form layout.now bytes.now extent }
    ensures { result ≡ length (rows_by layout.now.form layout.now bytes.now extent) }
{
    match layout.form {
        Form::List => extent.count.max(1),
        Form::Bitmap => count_marked(layout, bytes, extent),
    }
}

impl<'a> Hits<'a> {
    ghost use Rattle.std.specs.Prelude.{◌≡◌};
    ghost use Rattle.vpf_theme.specs.Entries.{rows_by};
    ghost use Rattle.vpf_theme.specs.Inner.Views.{HasData, all_rows};

    /// All rows of an entry whose data lie in the file.
    pub(crate) fn new(layout: Layout, bytes: &'a [u8], extent: Extent) -> Hits<'a>
        requires { HasData layout.form layout bytes.now extent }
        ensures { result ≡ all_rows (rows_by layout.form layout bytes.now extent) }
    {
        Hits {
            layout,
            bytes,
            extent,
            next: 0,
        }
    }

    /// How many rows the entry lists in all, also those that were given.
    pub fn listed(&self) -> u32
        ensures { result ≡ self.now.listed }
    {
        count_listed(&self.layout, self.bytes, self.extent)
    }
}

impl<'a> Iterator for Hits<'a> {
    ghost use Rattle.std.specs.Iterator.{item_count};
    ghost use Rattle.vpf_theme.specs.Inner.Views.{GivesRow, Rows};

    type Item = u32;

    ghost next_gives = { GivesRow };

    ghost remaining = { item_count (λ (rows : Rows). rows.left) };

    fn next(&mut self) -> Option<u32> {
        let (row, next) = step(&self.layout, self.bytes, self.extent, self.next)?;
        self.next = next;
        Some(row)
    }
}
