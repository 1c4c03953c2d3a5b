//! Names in the cells of a schema table.

ghost use Rattle.std.specs.Prelude.{◌≡◌, fold};
ghost use Rattle.std.specs.Str.{bytes_eq};
ghost use Rattle.vpf_source.specs.Names.Items.{small};
ghost use Rattle.std.proofs.Common.{rules};
ghost use Rattle.std.specs.Cmp.Rules.{comparing, hashing};
ghost use Rattle.std.specs.Hash as fed;
ghost use Rattle.vpf_feature_files.specs.SchemaRows.Items.{is_feature_end, name_in, same_item};

use std::alloc::{AllocError, Global};
use std::hash::{Hash, Hasher};
use vpf_findings::TableName;
use vpf_source::Name;
use vpf_source::names::{file_beside, trimmed};

/// How many bytes the end of a name has that tells a table of features.
const END_BYTES: usize = 4;

/// A name in a cell of a schema table, or in a word, with what padding stands around it. Two are equal where they differ in their padding and in
/// the case of ASCII letters alone.
#[derive(Clone, Copy, Debug)]
pub struct ItemName<'a> {
    /// The bytes of the cell.
    pub text: &'a [u8],
}

/// Feeds a name to a hash, its ASCII letters made small.
fn hash_small<H: Hasher>(name: &[u8], state: &mut H)
    ensures { state.new ≡ fold H.write state.old (fed.slice fed.u8 (small name.now)) }
{
    state.write_usize(name.len());
    for b in name {
        state.write_u8(b.to_ascii_lowercase());
    }
}

impl PartialEq for ItemName<'_> {
    ghost eq = { λ a b. same_item a.text.now b.text.now };

    ghost laws = { Prim.search (comparing, rules) };

    fn eq(&self, other: &ItemName<'_>) -> bool {
        trimmed(self.text).eq_ignore_ascii_case(trimmed(other.text))
    }
}

impl Eq for ItemName<'_> {
    ghost laws = { Prim.search (comparing, rules) };
}

impl Hash for ItemName<'_> {
    ghost hash_input = { λ a. fed.slice fed.u8 (name_in a.text.now) };

    ghost respects_eq = { Prim.search (hashing, rules) };

    fn hash<H: Hasher>(&self, state: &mut H) {
        hash_small(trimmed(self.text), state);
    }
}

/// Whether a name is these bytes, in any case.
fn is_word(name: &[u8], word: &[u8]) -> bool
    ensures { result ≡ bytes_eq (small name.now) (small word.now) }
{
    name.eq_ignore_ascii_case(word)
}

/// Whether the end of a name is that of a table of features.
fn is_feature_end(end: &[u8]) -> bool
    ensures { result ≡ is_feature_end (small end.now) }
{
    is_word(end, b".pft") || is_word(end, b".lft") || is_word(end, b".aft")
}

impl<'a> ItemName<'a> {
    ghost use Rattle.std.specs.Prelude.{◌≡◌, IfOk};
    ghost use Rattle.vpf_feature_files.specs.SchemaRows.Items.{is_feature_table, name_in, own_file, primitive_named};

    /// Whether it names a table of features: of points, `.pft`, of lines, `.lft`, or of areas, `.aft`.
    pub fn is_feature_table(&self) -> bool
        ensures { result ≡ is_feature_table self.now.text.now }
    {
        let name = trimmed(self.text);
        is_feature_end(&name[name.len().saturating_sub(END_BYTES)..])
    }

    /// The table of primitives that it names, of those that features are joined to: `edg`, `fac`, `cnd` and `end`.
    pub fn primitive(&self) -> Option<TableName>
        ensures { result ≡ primitive_named self.now.text.now }
    {
        let name = trimmed(self.text);
        if is_word(name, b"edg") {
            Some(TableName::Edg)
        } else if is_word(name, b"fac") {
            Some(TableName::Fac)
        } else if is_word(name, b"cnd") {
            Some(TableName::Cnd)
        } else if is_word(name, b"end") {
            Some(TableName::End)
        } else {
            None
        }
    }

    /// The name without padding, its ASCII letters made small. Fails only for want of memory.
    pub fn name(&self, alloc: Global) -> Result<Vec<u8>, AllocError>
        ensures { IfOk result (λ name. name.items ≡ name_in self.now.text.now) }
    {
        trimmed(self.text).to_ascii_lowercase(alloc)
    }

    /// The name of the file that it names in the folder of the coverage: without padding, in small letters. Nothing where no file of a folder can
    /// have the name. Fails only for want of memory.
    pub fn file(&self, alloc: Global) -> Result<Option<Name>, AllocError>
        ensures { IfOk result (λ name. name ≡ own_file self.now.text.now) }
    {
        file_beside(alloc, "", self.text)
    }
}
