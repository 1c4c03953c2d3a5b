//! Where columns of ids and references stand.

ghost use Rattle.std.specs.Prelude.{◌≡◌, ℕ, List, codes};
ghost use Rattle.vpf_head.specs.Head.{Col};
ghost use Rattle.vpf_prims.specs.Roles.{edge_roles, ring_roles};
ghost use Rattle.vpf_prims.specs.Suiting.{HasRoles};
ghost use Rattle.vpf_primitive_tables.specs.TableForms.Forms.{edge_kinds_of, pair_kinds, ring_kinds};
ghost use Rattle.vpf_primitive_tables.specs.Inner.TableForms.Places.{AreEdgePlaces, ArePairPlaces, AreRingPlaces, NamesRows, IsColumnAt};

use vpf_head::Header;
use vpf_table::TableView;
use vpf_triplet::Kind;
use vpf_write::revise::NewKind;

/// Where the columns of edges stand, from 0.
#[derive(Clone, Copy)]
pub(crate) struct EdgePlaces {
    /// The ids.
    pub(crate) id: usize,
    /// The nodes where edges begin.
    pub(crate) start_node: usize,
    /// Those where they end.
    pub(crate) end_node: usize,
    /// The faces on their right.
    pub(crate) right_face: usize,
    /// Those on their left.
    pub(crate) left_face: usize,
    /// The wings at their ends.
    pub(crate) right_edge: usize,
    /// Those at their starts.
    pub(crate) left_edge: usize,
}

/// Where the columns of ids and of the references of one other column stand, from 0.
#[derive(Clone, Copy)]
pub(crate) struct PairPlaces {
    /// The ids.
    pub(crate) id: usize,
    /// What each row names.
    pub(crate) reference: usize,
}

/// Where the columns of rings stand, from 0.
#[derive(Clone, Copy)]
pub(crate) struct RingPlaces {
    /// The ids.
    pub(crate) id: usize,
    /// The faces that rings bound.
    pub(crate) face: usize,
    /// The edges where their walks start.
    pub(crate) start_edge: usize,
}

/// Where the column of this name stands, from 0, whose cells can name rows.
pub fn place_in(header: &Header<'_>, name: &[u8]) -> usize
    requires { NamesRows header.now.columns name.now }
    ensures { IsColumnAt header.now.columns name.now result }
{
    // What is so of each header: a column of such a kind has one value.
    let _columns = header.len();
    match header.column(name) {
        Some(place) => place,
        None => unreachable!(),
    }
}

/// A new kind for the column at this position, from 0.
pub fn new_kind(column: usize, kind: Kind) -> NewKind
    ensures { result ≡ record { column = column; kind = kind } }
{
    NewKind { column, kind }
}

impl EdgePlaces {
    /// Where they stand in this table.
    pub(crate) fn of(table: &TableView<'_>) -> EdgePlaces
        requires { HasRoles edge_roles table.now }
        ensures { AreEdgePlaces table.now.head.columns result }
    {
        let header = table.header();
        EdgePlaces {
            id: place_in(header, b"id"),
            start_node: place_in(header, b"start_node"),
            end_node: place_in(header, b"end_node"),
            right_face: place_in(header, b"right_face"),
            left_face: place_in(header, b"left_face"),
            right_edge: place_in(header, b"right_edge"),
            left_edge: place_in(header, b"left_edge"),
        }
    }

    /// Their new kinds: numbers for ids, and this one for references.
    pub(crate) fn kinds(self, references: Kind) -> [NewKind; 7]
        ensures { (columns : List Col) → AreEdgePlaces columns self → result ≡ edge_kinds_of references columns }
    {
        [
            new_kind(self.id, Kind::I),
            new_kind(self.start_node, references),
            new_kind(self.end_node, references),
            new_kind(self.right_face, references),
            new_kind(self.left_face, references),
            new_kind(self.right_edge, references),
            new_kind(self.left_edge, references),
        ]
    }
}

impl PairPlaces {
    /// Where they stand in this header.
    pub(crate) fn of(header: &Header<'_>, name: &[u8]) -> PairPlaces
        requires id { NamesRows header.now.columns (codes "id") }
        requires reference { NamesRows header.now.columns name.now }
        ensures { ArePairPlaces name.now header.now.columns result }
    {
        PairPlaces {
            id: place_in(header, b"id"),
            reference: place_in(header, name),
        }
    }

    /// Their new kinds, which are numbers.
    pub(crate) fn kinds(self) -> [NewKind; 2]
        ensures { (name : List ℕ) (columns : List Col) → ArePairPlaces name columns self → result ≡ pair_kinds name columns }
    {
        [
            new_kind(self.id, Kind::I),
            new_kind(self.reference, Kind::I),
        ]
    }
}

impl RingPlaces {
    /// Where they stand in this table.
    pub(crate) fn of(table: &TableView<'_>) -> RingPlaces
        requires { HasRoles ring_roles table.now }
        ensures { AreRingPlaces table.now.head.columns result }
    {
        let header = table.header();
        RingPlaces {
            id: place_in(header, b"id"),
            face: place_in(header, b"face_id"),
            start_edge: place_in(header, b"start_edge"),
        }
    }

    /// Their new kinds, which are numbers.
    pub(crate) fn kinds(self) -> [NewKind; 3]
        ensures { (columns : List Col) → AreRingPlaces columns self → result ≡ ring_kinds columns }
    {
        [
            new_kind(self.id, Kind::I),
            new_kind(self.face, Kind::I),
            new_kind(self.start_edge, Kind::I),
        ]
    }
}
