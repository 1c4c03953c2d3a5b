//! Rings of faces.

ghost use Rattle.std.specs.Prelude.{◌≡◌, ◌≤◌, ◌<◌, ◌*◌, ◌^◌, All, IfOk, IfSome, length, map};
ghost use Rattle.vpf_findings.specs.Firsts.{Finds, Tells, first_of_rows, first_over};
ghost use Rattle.vpf_prims.specs.Edges.{IsEdge};
ghost use Rattle.vpf_prims.specs.Lists.{kth};
ghost use Rattle.vpf_prims.specs.Numbering.{IsRowOf};
ghost use Rattle.vpf_prims.specs.Primitives.{absent_face, absent_ring, own_edges};
ghost use Rattle.vpf_prims.specs.Reading.{primitives_of};
ghost use Rattle.vpf_prims.specs.References.{id_of};
ghost use Rattle.vpf_wing.specs.CycleLines.{apart_line, faces_of_rings, own_pointers, own_ring, own_rings, pointer_line, ring_cycle};
ghost use Rattle.vpf_wing.specs.CycleLines.{ring_dart, ring_lines, ringless_line, rings_finding, start_line, twice_line};
ghost use Rattle.vpf_wing.specs.Nexts.{dart_at, face};

use crate::firsts::FirstByNumber;
use crate::places::{Cycles, place_seen};
use std::alloc::{AllocError, Global};
use vpf_findings::{FindError, Finding, Seen, SeenWord};
use vpf_prims::{Citation, Edge, Tile};

/// A ring by the numbers of its face and of the edge where its walk starts, in its own tile.
#[derive(Clone, Copy, Debug, PartialEq, Eq)]
pub struct Ring {
    /// The face.
    pub face: u32,
    /// The edge.
    pub start_edge: u32,
}

/// The face of the dart at a place.
#[tactic(auto, unfolding(crate::specs::Nexts::face))]
fn face_at(edges: &[Edge], place: u32) -> u32
    requires { place < 2 * length edges.now }
    ensures { result ≡ face edges.now (dart_at place) }
{
    let edge = edges[place as usize / 2];
    if place % 2 == 1 {
        edge.left_face
    } else {
        edge.right_face
    }
}

/// The place of the dart of a ring's start edge that has the ring's face.
#[tactic(auto, unfolding(crate::specs::CycleLines::ring_dart))]
fn ring_dart(edges: &[Edge], ring: Ring) -> Option<u32>
    requires few { length edges.now < 2 ^ 24 }
    requires edge { IsEdge (length edges.now) ring.start_edge }
    ensures dart { result ≡ ring_dart edges.now ring }
    ensures within { IfSome result (λ place. place < 2 * length edges.now) }
{
    let plus = 2 * (ring.start_edge - 1);
    if face_at(edges, plus) == ring.face {
        Some(plus)
    } else if face_at(edges, plus + 1) == ring.face {
        Some(plus + 1)
    } else {
        None
    }
}

/// The cycle of a ring, by the place of its least dart, or the number of darts where the ring has none.
#[tactic(auto, unfolding(crate::specs::CycleLines::ring_cycle))]
fn ring_cycle(cycles: &Cycles, ring: Ring) -> u32
    requires { IsEdge (length cycles.now) ring.start_edge }
    ensures cycle { result ≡ ring_cycle cycles.now ring }
    ensures within { result ≤ 2 * length cycles.now }
{
    let edges = cycles.edges();
    match ring_dart(edges, ring) {
        Some(place) => cycles.least(place),
        None => 2 * edges.len() as u32,
    }
}

/// The rings of a tile.
fn rings_of(alloc: Global, tile: &Tile<'_>) -> Result<Vec<Ring>, AllocError>
    ensures rings { IfOk result (λ rings. rings.items ≡ own_rings (primitives_of tile.now.tables)) }
    ensures few { IfOk result (λ rings. length rings.items < 2 ^ 24) }
{
    let count = tile.rings();
    let mut rings = Vec::with_capacity(alloc, count as usize)?;
    for k in 0..count {
        let (face, start_edge) = tile.ring(k + 1);
        rings.push(Ring { face, start_edge })?;
    }
    Ok(rings)
}

/// The faces of rings.
fn faces_of(alloc: Global, rings: &[Ring]) -> Result<Vec<u32>, AllocError>
    ensures { IfOk result (λ faces. faces.items ≡ faces_of_rings rings.now) }
{
    let mut faces = Vec::with_capacity(alloc, rings.len())?;
    for ring in rings {
        faces.push(ring.face)?;
    }
    Ok(faces)
}

/// The cycles of rings.
fn cycles_of(alloc: Global, cycles: &Cycles, rings: &[Ring]) -> Result<Vec<u32>, AllocError>
    requires { All (λ ring. IsEdge (length cycles.now) ring.start_edge) rings.now }
    ensures cycles { IfOk result (λ places. places.items ≡ map (ring_cycle cycles.now) rings.now) }
    ensures within { IfOk result (λ places. All (λ place. place ≤ 2 * length cycles.now) places.items) }
{
    let mut places = Vec::with_capacity(alloc, rings.len())?;
    for ring in rings {
        places.push(ring_cycle(cycles, *ring))?;
    }
    Ok(places)
}

/// Face `f` names its first ring, or 0 where it has none.
fn check_pointer<'a>(
    tile: &Tile<'a>,
    number: u32,
    faces: &FirstByNumber,
    f: u32,
) -> Result<(), Finding<'a>>
    requires { IsRowOf (length (primitives_of tile.now.tables).faces) f }
    ensures { Finds result (pointer_line number tile.now faces.now f (id_of (kth (primitives_of tile.now.tables).faces f absent_face).ring_ptr)) }
{
    let pointer = tile.ring_ptr(f);
    let first = faces.first(f);
    if pointer == first {
        return Ok(());
    }
    let found = Seen::Number(pointer as i64);
    let wanted = Seen::Number(first as i64);
    Err(tile.finding(number, Citation::RingPtr, 3, f, found, wanted))
}

/// Each face names its first ring.
#[tactic(auto, using(crate::proofs::RowLemmas::end_row))]
fn check_pointers<'a>(
    tile: &Tile<'a>,
    number: u32,
    faces: &FirstByNumber,
) -> Result<(), Finding<'a>>
    ensures { Finds result (first_of_rows (pointer_line number tile.now faces.now) 1 (own_pointers (primitives_of tile.now.tables))) }
{
    for k in 0..tile.faces() {
        check_pointer(tile, number, faces, k + 1)?;
    }
    Ok(())
}

/// The cycle that begins with the dart at a place has a ring, where one does.
fn check_ringless_at<'a>(
    tile: &Tile<'a>,
    number: u32,
    cycles: &Cycles,
    ring_cycles: &FirstByNumber,
    place: u32,
) -> Result<(), Finding<'a>>
    requires few { place < 2 ^ 25 }
    requires place { place < 2 * length cycles.now }
    ensures { Finds result (ringless_line number tile.now cycles.now ring_cycles.now place) }
{
    if cycles.least(place) != place || ring_cycles.first(place) != 0 {
        return Ok(());
    }
    let found = Seen::Word(SeenWord::Absent);
    let wanted = place_seen(number, place);
    Err(tile.finding(number, Citation::StartEdge, 3, 0, found, wanted))
}

/// Each cycle has a ring.
#[tactic(auto, using(vpf_findings::specs::Inner::FirstLaws::over_pass, vpf_findings::specs::Inner::FirstLaws::over_stop, vpf_findings::specs::Inner::FirstLaws::over_end))]
fn check_ringless<'a>(
    tile: &Tile<'a>,
    number: u32,
    cycles: &Cycles,
    ring_cycles: &FirstByNumber,
) -> Result<(), Finding<'a>>
    ensures { Finds result (first_over (ringless_line number tile.now cycles.now ring_cycles.now) 0 (2 * length cycles.now)) }
{
    let darts = 2 * cycles.edges().len() as u32;
    for place in 0..darts {
        check_ringless_at(tile, number, cycles, ring_cycles, place)?;
    }
    Ok(())
}

/// The ring before ring `r` has its face, or no earlier ring has.
fn check_apart<'a>(
    tile: &Tile<'a>,
    number: u32,
    faces: &FirstByNumber,
    r: u32,
    ring: Ring,
) -> Result<(), Finding<'a>>
    requires { IsRowOf (length faces.now) r }
    ensures { Finds result (apart_line number tile.now faces.now r ring) }
{
    let before = faces.key(r - 1);
    if faces.first(ring.face) == r || before == ring.face {
        return Ok(());
    }
    let found = Seen::Number(ring.face as i64);
    let wanted = Seen::Number(before as i64);
    Err(tile.finding(number, Citation::FaceId, 3, r, found, wanted))
}

/// A dart of the start edge of ring `r` has its face.
fn check_start<'a>(
    tile: &Tile<'a>,
    number: u32,
    cycles: &Cycles,
    r: u32,
    ring: Ring,
) -> Result<(), Finding<'a>>
    requires row { IsRowOf (length (primitives_of tile.now.tables).rings) r }
    requires edge { IsEdge (length cycles.now) ring.start_edge }
    ensures { Finds result (start_line number tile.now cycles.now r ring) }
{
    if ring_dart(cycles.edges(), ring).is_some() {
        return Ok(());
    }
    let found = tile.seen(Citation::StartEdge, r);
    let wanted = Seen::Word(SeenWord::Dart);
    Err(tile.finding(number, Citation::StartEdge, 3, r, found, wanted))
}

/// No earlier ring has the cycle of ring `r`.
fn check_twice<'a>(
    tile: &Tile<'a>,
    number: u32,
    cycles: &Cycles,
    ring_cycles: &FirstByNumber,
    r: u32,
    ring: Ring,
) -> Result<(), Finding<'a>>
    requires row { IsRowOf (length (primitives_of tile.now.tables).rings) r }
    requires edge { IsEdge (length cycles.now) ring.start_edge }
    ensures { Finds result (twice_line number tile.now cycles.now ring_cycles.now r ring) }
{
    let first = ring_cycles.first(ring_cycle(cycles, ring));
    if first == r {
        return Ok(());
    }
    let found = tile.seen(Citation::StartEdge, r);
    let wanted = Seen::Number(first as i64);
    Err(tile.finding(number, Citation::StartEdge, 3, r, found, wanted))
}

/// The lines on ring `r`.
fn check_ring<'a>(
    tile: &Tile<'a>,
    number: u32,
    cycles: &Cycles,
    faces: &FirstByNumber,
    ring_cycles: &FirstByNumber,
    r: u32,
    ring: Ring,
) -> Result<(), Finding<'a>>
    requires row { IsRowOf (length (primitives_of tile.now.tables).rings) r }
    requires face { IsRowOf (length faces.now) r }
    requires edge { IsEdge (length cycles.now) ring.start_edge }
    ensures { Finds result (ring_lines number tile.now cycles.now faces.now ring_cycles.now r ring) }
{
    check_apart(tile, number, faces, r, ring)?;
    check_start(tile, number, cycles, r, ring)?;
    check_twice(tile, number, cycles, ring_cycles, r, ring)
}

/// The lines on all rings.
#[tactic(auto, using(crate::proofs::RowLemmas::pass_row, crate::proofs::RowLemmas::stop_row, crate::proofs::RowLemmas::end_row))]
fn check_ring_rows<'a>(
    tile: &Tile<'a>,
    number: u32,
    cycles: &Cycles,
    faces: &FirstByNumber,
    ring_cycles: &FirstByNumber,
    rings: &[Ring],
) -> Result<(), Finding<'a>>
    requires rings { rings.now ≡ own_rings (primitives_of tile.now.tables) }
    requires edges { All (λ ring. IsEdge (length cycles.now) ring.start_edge) rings.now }
    requires faces { length faces.now ≡ length rings.now }
    ensures { Finds result (first_of_rows (ring_lines number tile.now cycles.now faces.now ring_cycles.now) 1 rings.now) }
{
    for k in 0..tile.rings() {
        let ring = rings[k as usize];
        check_ring(tile, number, cycles, faces, ring_cycles, k + 1, ring)?;
    }
    Ok(())
}

/// The rings of faces, and the cycles that they go round.
pub fn check_rings<'a>(
    alloc: Global,
    tile: &Tile<'a>,
    number: u32,
    cycles: &Cycles,
) -> Result<(), FindError<'a>>
    requires { cycles.now ≡ own_edges (primitives_of tile.now.tables) }
    ensures { Tells result (rings_finding number tile.now cycles.now (own_pointers (primitives_of tile.now.tables)) (own_rings
        (primitives_of tile.now.tables))) }
{
    tile.names_its_own();
    let rings = rings_of(alloc, tile)?;
    let faces = FirstByNumber::new(alloc, faces_of(alloc, &rings)?, tile.faces())?;
    let darts = 2 * cycles.edges().len() as u32;
    let ring_cycles = FirstByNumber::new(alloc, cycles_of(alloc, cycles, &rings)?, darts)?;
    check_pointers(tile, number, &faces)?;
    check_ringless(tile, number, cycles, &ring_cycles)?;
    check_ring_rows(tile, number, cycles, &faces, &ring_cycles, &rings)?;
    Ok(())
}
