//! The roles of columns, a list for each table.

ghost use Rattle.std.specs.Prelude.{◌≡◌, map};
ghost use Rattle.vpf_prims.specs.Roles.{role_of, class_roles, edge_roles, entity_roles, face_roles, feature_roles, node_roles, plan_roles};
ghost use Rattle.vpf_prims.specs.Roles.{ring_roles, tileref_roles};

use vpf_table::findings::SeenWord;
use vpf_triplet::Kind;

/// What a role wants of its column.
#[derive(Clone, Copy, Debug, PartialEq, Eq)]
pub enum Wants {
    /// A number: kind S or I.
    Number,
    /// A reference to a primitive, a number or a triplet id: kind S, I or K.
    Reference,
    /// A mark: kind S.
    Mark,
    /// A text: kind T, L, M or N.
    Text,
}

impl Wants {
    ghost use Rattle.vpf_prims.specs.Roles.{suits, wanted_word};

    /// Whether the column may be of this kind.
    pub fn suits(self, kind: Kind) -> bool
        ensures { result ≡ suits self kind }
    {
        match self {
            Wants::Number => matches!(kind, Kind::S | Kind::I),
            Wants::Reference => matches!(kind, Kind::S | Kind::I | Kind::K),
            Wants::Mark => matches!(kind, Kind::S),
            Wants::Text => matches!(kind, Kind::T | Kind::L | Kind::M | Kind::N),
        }
    }

    /// The word for what is wanted.
    pub fn word(self) -> SeenWord
        ensures { result ≡ wanted_word self }
    {
        match self {
            Wants::Number => SeenWord::Number,
            Wants::Reference => SeenWord::Reference,
            Wants::Mark => SeenWord::Mark,
            Wants::Text => SeenWord::Text,
        }
    }
}

/// A role of a column.
#[derive(Clone, Copy)]
pub struct Role {
    /// The column's name, in any case.
    pub name: &'static [u8],
    /// What is wanted of the column.
    pub wants: Wants,
    /// Whether the column may be absent.
    pub optional: bool,
}

/// The role of ids, in each table of primitives.
pub const ID: Role = Role {
    name: b"id",
    wants: Wants::Number,
    optional: false,
};

/// The role of the first rings of faces.
pub const RING_PTR: Role = Role {
    name: b"ring_ptr",
    wants: Wants::Reference,
    optional: false,
};

/// The role of the faces of rings.
pub const FACE_ID: Role = Role {
    name: b"face_id",
    wants: Wants::Reference,
    optional: false,
};

/// The role of the edges where the walks of rings start.
pub const START_EDGE: Role = Role {
    name: b"start_edge",
    wants: Wants::Reference,
    optional: false,
};

/// The role of edges at nodes.
pub const FIRST_EDGE: Role = Role {
    name: b"first_edge",
    wants: Wants::Reference,
    optional: false,
};

/// The role of the faces that entity nodes lie in.
pub const CONTAINING_FACE: Role = Role {
    name: b"containing_face",
    wants: Wants::Reference,
    optional: false,
};

/// The roles of an edge table, `edg`.
const EDGE: [Role; 8] = [
    ID,
    Role {
        name: b"start_node",
        wants: Wants::Reference,
        optional: false,
    },
    Role {
        name: b"end_node",
        wants: Wants::Reference,
        optional: false,
    },
    Role {
        name: b"right_face",
        wants: Wants::Reference,
        optional: false,
    },
    Role {
        name: b"left_face",
        wants: Wants::Reference,
        optional: false,
    },
    Role {
        name: b"right_edge",
        wants: Wants::Reference,
        optional: false,
    },
    Role {
        name: b"left_edge",
        wants: Wants::Reference,
        optional: false,
    },
    Role {
        name: b"tile_line",
        wants: Wants::Mark,
        optional: true,
    },
];

/// The roles of a face table, `fac`.
const FACE: [Role; 2] = [ID, RING_PTR];

/// The roles of a ring table, `rng`.
const RING: [Role; 3] = [ID, FACE_ID, START_EDGE];

/// The roles of a table of connected nodes, `cnd`.
const NODE: [Role; 2] = [ID, FIRST_EDGE];

/// The roles of a table of entity nodes, `end`.
const ENTITY: [Role; 2] = [ID, CONTAINING_FACE];

/// The roles of the table of tiles, `tileref.aft`.
const TILEREF: [Role; 2] = [
    ID,
    Role {
        name: b"tile_name",
        wants: Wants::Text,
        optional: false,
    },
];

/// The roles of a plan, which names a tile for each face.
const PLAN: [Role; 2] = [
    ID,
    Role {
        name: b"tile_id",
        wants: Wants::Number,
        optional: false,
    },
];

/// The roles of a feature class schema table, `fcs`.
const CLASS: [Role; 5] = [
    Role {
        name: b"feature_class",
        wants: Wants::Text,
        optional: false,
    },
    Role {
        name: b"table1",
        wants: Wants::Text,
        optional: false,
    },
    Role {
        name: b"table1_key",
        wants: Wants::Text,
        optional: false,
    },
    Role {
        name: b"table2",
        wants: Wants::Text,
        optional: false,
    },
    Role {
        name: b"table2_key",
        wants: Wants::Text,
        optional: false,
    },
];

/// The roles of a feature table.
const FEATURE: [Role; 1] = [ID];

/// The roles of an edge table, `edg`, in the order in which columns are looked at.
pub fn edge_roles() -> &'static [Role]
    ensures { map role_of result.now ≡ edge_roles }
{
    &EDGE
}

/// The roles of a face table, `fac`, in the order in which columns are looked at.
pub fn face_roles() -> &'static [Role]
    ensures { map role_of result.now ≡ face_roles }
{
    &FACE
}

/// The roles of a ring table, `rng`, in the order in which columns are looked at.
pub fn ring_roles() -> &'static [Role]
    ensures { map role_of result.now ≡ ring_roles }
{
    &RING
}

/// The roles of a table of connected nodes, `cnd`, in the order in which columns are looked at.
pub fn node_roles() -> &'static [Role]
    ensures { map role_of result.now ≡ node_roles }
{
    &NODE
}

/// The roles of a table of entity nodes, `end`, in the order in which columns are looked at.
pub fn entity_roles() -> &'static [Role]
    ensures { map role_of result.now ≡ entity_roles }
{
    &ENTITY
}

/// The roles of the table of tiles, `tileref.aft`, in the order in which columns are looked at.
pub fn tileref_roles() -> &'static [Role]
    ensures { map role_of result.now ≡ tileref_roles }
{
    &TILEREF
}

/// The roles of a plan, which names a tile for each face, in the order in which columns are looked at.
pub fn plan_roles() -> &'static [Role]
    ensures { map role_of result.now ≡ plan_roles }
{
    &PLAN
}

/// The roles of a feature class schema table, `fcs`, in the order in which columns are looked at.
pub fn class_roles() -> &'static [Role]
    ensures { map role_of result.now ≡ class_roles }
{
    &CLASS
}

/// The roles of a feature table, in the order in which columns are looked at.
pub fn feature_roles() -> &'static [Role]
    ensures { map role_of result.now ≡ feature_roles }
{
    &FEATURE
}
