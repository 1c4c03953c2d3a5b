//! What counting a table found, kept beside its bytes: so the table is opened again without counting it.

/// What counting the rows of a table found: where the first begins, how many there are, and how many bytes each has, where
/// that is one number. Counting alone makes one (`TableFile::counted`); `IsCountOf` says of which bytes.
#[derive(Clone, Copy)]
pub struct Counted {
    pub(crate) start: usize,
    pub(crate) rows: u32,
    pub(crate) width: Option<usize>,
}
