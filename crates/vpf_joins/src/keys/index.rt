//! The rows of each key.

use crate::keys::keyed::KeyedRow;
use crate::keys::ordering::{is_key, rows_of, sort};
use std::alloc::AllocError;
use std::marker::Model;
use vpf_value::Cell;

/// Rows by their keys. Contracts see it as a list of the rows, in which those of one key stand in the order in which they were put.
///
/// Takes no memory but that of the list that it is made of.
#[derive(Drop)]
pub struct KeyIndex<'a> {
    sorted: Vec<KeyedRow<'a>>,
}

impl<'a> Model for KeyIndex<'a> {
    ghost use Rattle.std.specs.Prelude.{List, map};
    ghost use Rattle.vpf_joins.specs.Keys.Keys.{AreByKey, Keyed, keyed_of};

    ghost Value = { List Keyed };

    ghost view = { λ i. map keyed_of i.sorted.items };

    ghost invariant = { λ i. AreByKey i.sorted.items };
}

impl<'a> KeyIndex<'a> {
    ghost use Rattle.std.specs.Prelude.{◌≡◌, IfOk, map};
    ghost use Rattle.vpf_value.specs.Values.{Value, view};
    ghost use Rattle.vpf_joins.specs.Keys.Keys.{keyed_of, rows_with};

    /// The index of these rows. Rows of one key keep their order. Takes a time of n log n for n rows, and as much memory again for
    /// the sort; fails only for want of it.
    pub fn of(mut keys: Vec<KeyedRow<'a>>) -> Result<KeyIndex<'a>, AllocError>
        ensures { IfOk result (λ index. (key : Value) → rows_with key index ≡ rows_with key (map keyed_of keys.entry.items)) }
    {
        sort(&mut keys)?;
        Ok(KeyIndex { sorted: keys })
    }

    /// The rows whose key this is, in the order in which they were put: those with an equal number, or with a text of the same bytes.
    /// A cell of another kind is no key, and has no rows. Two binary searches.
    pub fn rows(&self, key: &Cell<'_>) -> &[KeyedRow<'a>]
        ensures { map (λ row. row.at) result.now ≡ rows_with (view key.now) self.now }
    {
        if is_key(key) {
            rows_of(&self.sorted, key)
        } else {
            &[]
        }
    }
}
