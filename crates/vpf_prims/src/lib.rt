//! The tables of primitives: the columns that have a role and the first finding on them, and what the rows of edges say
//! (MIL-STD-2407, 5.2.2, primitives).
#![tactic(auto)]

mod citing;
mod edge_lists;
mod edges;
pub mod laws;
mod lines;
mod placing;
mod reading;
mod roles;
mod rows;
mod seeking;
mod tile;
mod views;

pub use citing::Citation;
pub use edges::{EdgeColumns, Ranges, edges_of};
pub use lines::{cell_finding, check_id, number_from, number_in_cell};
pub use placing::{RoleColumn, TableAt, place_role, place_roles};
pub use reading::{
    cell_at, is_from, is_line, next_cell, number_in, reference_in, signed_in, stays,
};
pub use roles::{
    CONTAINING_FACE, FACE_ID, FIRST_EDGE, ID, RING_PTR, Role, START_EDGE, Wants, class_roles,
    edge_roles, entity_roles, face_roles, feature_roles, node_roles, plan_roles, ring_roles,
    tileref_roles,
};
pub use rows::{Edge, EdgeRow, id_of};
pub use tile::{Tile, files_of};
pub use views::{PrimitiveViews, TileColumns};
pub use vpf_table as table;
