//! Names of columns, which don't tell capital letters from small ones.

ghost use Rattle.std.specs.Prelude.{◌≡◌, fold, nat_eq};
ghost use Rattle.std.proofs.Common.{rules};
ghost use Rattle.std.specs.Cmp.Rules.{comparing, hashing};
ghost use Rattle.std.specs.Hash as fed;
ghost use Rattle.vpf_head.specs.Folding.{lowercase, same_name};

use std::hash::{Hash, Hasher};

/// A column's name, as the file writes it. Two names are equal where they differ in the case of ASCII letters alone.
#[derive(Clone, Copy)]
pub struct ColumnName<'a> {
    pub name: &'a [u8],
}

fn hash_folded<H: Hasher>(name: &[u8], state: &mut H)
    ensures { state.new ≡ fold H.write state.old (fed.slice fed.u8 (lowercase name.now)) }
{
    state.write_usize(name.len());
    for b in name {
        state.write_u8(b.to_ascii_lowercase());
    }
}

impl PartialEq for ColumnName<'_> {
    ghost eq = { λ a b. same_name a.name.now b.name.now };

    ghost laws = { Prim.search (comparing, rules) };

    fn eq(&self, other: &ColumnName<'_>) -> bool {
        self.name.eq_ignore_ascii_case(other.name)
    }
}

impl Eq for ColumnName<'_> {
    ghost laws = { Prim.search (comparing, rules) };
}

impl Hash for ColumnName<'_> {
    ghost hash_input = { λ a. fed.slice fed.u8 (lowercase a.name.now) };

    ghost respects_eq = { Prim.search (hashing, rules) };

    fn hash<H: Hasher>(&self, state: &mut H) {
        hash_folded(self.name, state);
    }
}
