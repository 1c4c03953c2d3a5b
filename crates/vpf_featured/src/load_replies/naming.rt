//! The names of files by their places.

ghost use Rattle.std.specs.Prelude.{◌≡◌};
ghost use Rattle.vpf_featured.specs.LoadReplies.Places.{place_name};

use vpf_source::File;

/// The name of the file at a place among those that were read, from 0; no name where there is none.
pub fn named(files: &[File], place: u32) -> &str
    ensures { result.now ≡ place_name files.now place }
{
    match files.get(place as usize) {
        Some(file) => file.name.as_str(),
        None => "",
    }
}
