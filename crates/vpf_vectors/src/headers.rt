//! The headers of the tables of a coverage.

ghost use Rattle.std.specs.Prelude.{◌≡◌, ℕ, IsOk, IfOk, Ok};
ghost use Rattle.vpf_head.specs.Head.{Head};
ghost use Rattle.vpf_head.specs.Reading.{header_of};
ghost use Rattle.vpf_vectors.specs.Heads.{plan_head};

use std::alloc::{AllocError, Global};
use vpf_head::Header;
use vpf_triplet::PlaceError;

/// The header of the tiles of a library, with its length before it.
pub(crate) const TILEREF: &[u8] =
    b"\x3a\0\0\0L;Tiles;-;id=I,1,P,Id,-,-,-,:tile_name=T,8,N,Name,-,-,-,:;";

/// The header of edges.
pub(crate) const EDGES: &[u8] =
    b"\xe6\0\0\0L;Edges;-;id=I,1,P,Id,-,-,-,:start_node=I,1,N,Start,-,-,-,:end_node=I,1,N,End,-,-,-,:right_face=I,1,N,Right,-,-,-,:\
    left_face=I,1,N,Left,-,-,-,:right_edge=I,1,N,Right,-,-,-,:left_edge=I,1,N,Left,-,-,-,:tile_line=S,1,N,Line,-,-,-,:;";

/// The header of faces.
pub(crate) const FACES: &[u8] =
    b"\x39\0\0\0L;Faces;-;id=I,1,P,Id,-,-,-,:ring_ptr=I,1,N,Ring,-,-,-,:;";

/// The header of rings.
pub(crate) const RINGS: &[u8] =
    b"\x55\0\0\0L;Rings;-;id=I,1,P,Id,-,-,-,:face_id=I,1,N,Face,-,-,-,:start_edge=I,1,N,Edge,-,-,-,:;";

/// The header of nodes.
pub(crate) const NODES: &[u8] =
    b"\x3b\0\0\0L;Nodes;-;id=I,1,P,Id,-,-,-,:first_edge=I,1,N,Edge,-,-,-,:;";

/// The header of the home tiles of faces.
const PLAN: &[u8] = b"\x39\0\0\0L;Plan;-;id=I,1,P,Face,-,-,-,:tile_id=I,1,N,Tile,-,-,-,:;";

/// The header that these bytes are.
pub(crate) fn header_in(alloc: Global, bytes: &'static [u8]) -> Result<Header<'static>, AllocError>
    requires { IsOk (header_of bytes.now) }
    ensures { (head : Head) (start : ℕ) → header_of bytes.now ≡ Ok (head, start) → IfOk result (λ header. header ≡ head) }
{
    match Header::read(alloc, bytes) {
        Ok((header, _)) => Ok(header),
        Err(PlaceError::NoMemory) => Err(AllocError),
        Err(PlaceError::Place(_)) => unreachable!(),
    }
}

/// The header of a plan, which names for each face its tile: `L;Plan;-;id=I,1,P,Face,-,-,-,:tile_id=I,1,N,Tile,-,-,-,:;`.
pub fn plan_header(alloc: Global) -> Result<Header<'static>, AllocError>
    ensures { IfOk result (λ header. header ≡ plan_head) }
{
    header_in(alloc, PLAN)
}
