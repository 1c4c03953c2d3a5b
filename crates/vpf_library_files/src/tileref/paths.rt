//! The paths of the tiles of a library.

use indexmap::IndexSet;
use std::marker::Model;
use vpf_base::limits::MOST_TILES;

/// The paths of the tiles of a library, of which no two are the same. Tiles are numbered from 1. Contracts see the list of the
/// paths, each in one text.
#[derive(Drop)]
pub struct TilePaths {
    paths: IndexSet<String>,
}

impl Model for TilePaths {
    ghost use Rattle.std.specs.Prelude.{◌≤◌, ℕ, List, length};
    ghost use Rattle.vpf_library_files.specs.Tileref.Numbered.{most_tiles};
    ghost use Rattle.vpf_library_files.specs.Inner.Tileref.Texts.{texts_in};

    ghost Value = { List (List ℕ) };

    ghost view = { λ p. texts_in p.paths };

    ghost invariant = { λ p. length p.paths.keys ≤ most_tiles };
}

impl TilePaths {
    ghost use Rattle.std.specs.Prelude.{◌≡◌, ◌≤◌, ◌==◌, length};
    ghost use Rattle.std.specs.Option.{option_map};
    ghost use Rattle.vpf_prims.specs.Coverages.{numbered_path};
    ghost use Rattle.vpf_library_files.specs.Tileref.Numbered.{most_tiles};
    ghost use Rattle.vpf_library_files.specs.Inner.Tileref.Texts.{texts_in};

    /// These paths, of at most 65,535 tiles.
    pub(crate) fn new(paths: IndexSet<String>) -> TilePaths
        requires { length paths.keys ≤ most_tiles }
        ensures { result ≡ texts_in paths }
    {
        TilePaths { paths }
    }

    /// How many tiles there are: at most 65,535.
    pub fn len(&self) -> u32
        ensures value { result ≡ length self.now }
        ensures most { result ≤ most_tiles }
    {
        self.paths.len() as u32
    }

    /// Whether there are no tiles.
    pub fn is_empty(&self) -> bool
        ensures { result ≡ (length self.now == 0) }
    {
        self.len() == 0
    }

    /// The path of tile `t`, counted from 1, in small letters and with a slash between any two folders; nothing where there is no
    /// tile of this number.
    pub fn path(&self, t: u32) -> Option<&str>
        ensures { option_map (λ path. path.now) result ≡ numbered_path self.now t }
    {
        let place = (t as usize).checked_sub(1)?;
        let path = self.paths.get_index(place)?;
        Some(path.as_str())
    }
}
