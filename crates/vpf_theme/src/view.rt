//! A thematic index, seen in its file.

ghost use Rattle.std.specs.Prelude.{◌≡◌, ◌<◌, None};
ghost use Rattle.vpf_theme.specs.Layouts.{HasValues};
ghost use Rattle.vpf_theme.specs.Entries.{entry_of, AreRows};
ghost use Rattle.vpf_theme.specs.Reading.{entries_line};
ghost use Rattle.vpf_theme.specs.Inner.Views.{all_rows};

use crate::checking::check_entries;
use crate::entries::extent_at;
use crate::hits::Hits;
use crate::laws::{read_is_spelled, refusals_are_first_faults, spelled_is_read};
use crate::layout::{Form, Layout};
use crate::searching::{find_place, sure_value};
use std::marker::Model;
use std::sync::ledger::Ledger;
use vpf_source::Steps;
use vpf_triplet::{Kind, Order, Place};
use vpf_value::Cell;
use vpf_value::laws::fixed_cells;

/// A thematic index whose entries stay in the file. Contracts see it as what its header says and the list of its entries.
#[derive(Drop)]
pub struct ThemeView<'a> {
    layout: Layout,
    bytes: &'a [u8],
}

impl<'a> Model for ThemeView<'a> {
    ghost use Rattle.vpf_theme.specs.Entries.{Theme, AreRows};

    ghost Value = { Theme };

    ghost use Rattle.vpf_theme.specs.Inner.Views.{IsOpenedTheme, theme_view};

    ghost view = { theme_view };

    ghost invariant = { IsOpenedTheme };
}

/// The rows of entry `i` of a directory without faults, counted from 0.
fn hits_at<'a>(layout: &Layout, bytes: &'a [u8], i: u32) -> Hits<'a>
    requires values { HasValues layout.now }
    requires faultless { entries_line layout.now bytes.now ≡ None }
    requires within { i < layout.now.entries }
    ensures rows { result ≡ all_rows (entry_of layout.now bytes.now i).rows }
    ensures inside { AreRows layout.now.rows (entry_of layout.now bytes.now i).rows }
{
    Hits::new(*layout, bytes, extent_at(layout, bytes, i))
}

impl<'a> ThemeView<'a> {
    ghost use Rattle.std.specs.Prelude.{◌≡◌, ◌≤◌, ◌+◌, ◌-◌, ◌*◌, ◌^◌, ◌<◌, true, false, IfOk, IfErr, IfSome, Ok, length, option_map};
    ghost use Rattle.vpf_triplet.specs.declared.kinds.Count.{Count};
    ghost use Rattle.vpf_value.specs.Values.{view};
    ghost use Rattle.vpf_value.specs.Inner.Fitting.{FitsCell};
    ghost use Rattle.vpf_theme.specs.Entries.{Theme, found_in};
    ghost use Rattle.vpf_theme.specs.Inner.Faults.{FirstThemeFault};
    ghost use Rattle.vpf_theme.specs.Findings.{entry_at};
    ghost use Rattle.vpf_theme.specs.Agreeing.{HaveRows};
    ghost use Rattle.vpf_theme.specs.Inner.Repeating.{HaveOneField};
    ghost use Rattle.vpf_theme.specs.Inner.Searching.{compared_for};
    ghost use Rattle.vpf_theme.specs.Inner.Views.{all_rows};
    ghost use Rattle.vpf_triplet.specs.Places.{Gives};
    ghost use Rattle.vpf_theme.specs.Reading.{theme_of};
    ghost use Rattle.vpf_theme.specs.Spelling.{IsThematicIndex};

    /// The index of a file, in the order of its table. Refused at the first fault: the header field by field, and then
    /// entry by entry.
    pub fn open(bytes: &'a [u8], order: Order) -> Result<ThemeView<'a>, Place>
        // What is opened is spelled so.
        ensures found { IfOk result (λ t. IsThematicIndex order t bytes.now) }
        // What is spelled as an index is opened as that index.
        ensures only { (t : Theme) → IsThematicIndex order t bytes.now → Gives (λ t. t) result (Ok t) }
        // The index, or the first fault.
        ensures exact { Gives (λ t. t) result (theme_of order bytes.now) }
        // What is refused has this first fault.
        ensures refused { IfErr result (λ p. FirstThemeFault order bytes.now p) }
    {
        spelled_is_read();
        read_is_spelled();
        refusals_are_first_faults();
        ThemeView::read(bytes, order)
    }

    /// The index that reading gives, or the first fault.
    #[tactic(auto, unfolding(crate::specs::Reading::theme_of))]
    fn read(bytes: &'a [u8], order: Order) -> Result<ThemeView<'a>, Place>
        ensures { Gives (λ t. t) result (theme_of order bytes.now) }
    {
        let layout = Layout::read(order, bytes)?;
        check_entries(&layout, bytes)?;
        Ok(ThemeView { layout, bytes })
    }

    /// The same view once more: nothing is read, and no memory is taken.
    pub fn again(&self) -> ThemeView<'a>
        ensures { result ≡ self.now }
    {
        ThemeView {
            layout: self.layout,
            bytes: self.bytes,
        }
    }

    /// The kind of the column.
    pub fn kind(&self) -> Kind
        ensures { result ≡ self.now.kind }
    {
        self.layout.kind
    }

    /// The count of the column.
    pub fn count(&self) -> u32
        ensures { result ≡ self.now.count }
    {
        self.layout.count
    }

    /// The number of rows of the table.
    pub fn rows(&self) -> u32
        ensures value { result ≡ self.now.rows }
        // Each entry lists rows of the table.
        ensures listed { HaveRows self.now }
    {
        self.layout.rows
    }

    /// The number of entries.
    pub fn entries(&self) -> u32
        ensures { result ≡ length self.now.entries }
    {
        self.layout.entries
    }

    /// Whether rows are listed or marked.
    pub fn form(&self) -> Form
        ensures { result ≡ self.now.form }
    {
        self.layout.form
    }

    /// Whether the directory is marked as sorted.
    pub fn is_sorted(&self) -> bool
        ensures { result ≡ self.now.sorted }
    {
        self.layout.sorted
    }

    /// The rows of the first entry that has the value, or none where no entry has it. Ticks once for each entry that is
    /// compared: in a directory that is marked as sorted at most as often as the number of entries has binary digits,
    /// and else at most once for each entry.
    pub fn find<L: Ledger>(&self, value: &Cell<'_>, steps: &mut Steps<L>) -> Option<Hits<'a>>
        requires { FitsCell self.now.kind (Count.Fixed self.now.count) (view value.now) }
        ensures value { result ≡ option_map all_rows (found_in (view value.now) self.now.entries) }
        // Each is the number of a row.
        ensures rows { IfSome result (λ hits. AreRows self.now.rows hits.left) }
        ensures more { steps.old ≤ steps.new }
        ensures sorted { self.now.sorted ≡ true → 2 ^ (steps.new - steps.old) ≤ 2 * length self.now.entries + 1 }
        ensures plain { self.now.sorted ≡ false → steps.new ≤ steps.old + length self.now.entries }
        ensures compared { steps.new ≡ steps.old + compared_for (view value.now) self.now }
    {
        let i = find_place(&self.layout, self.bytes, value, steps)?;
        Some(hits_at(&self.layout, self.bytes, i))
    }

    /// The value of entry `i`, counted from 0.
    pub(crate) fn value(&self, i: u32) -> Cell<'a>
        requires { i < length self.now.entries }
        ensures { view result ≡ (entry_at self.now.entries i).value }
    {
        sure_value(&self.layout, self.bytes, i)
    }

    /// The values of the entries are of one field, the column's.
    pub(crate) fn have_one_field(&self)
        ensures { HaveOneField self.now.entries }
    {
        let _layout = self.layout;
        fixed_cells();
    }

    /// The rows of entry `i`, counted from 0.
    pub(crate) fn hits(&self, i: u32) -> Hits<'a>
        requires { i < length self.now.entries }
        ensures rows { result ≡ all_rows (entry_at self.now.entries i).rows }
        // Each is the number of a row.
        ensures inside { AreRows self.now.rows result.left }
    {
        hits_at(&self.layout, self.bytes, i)
    }
}
