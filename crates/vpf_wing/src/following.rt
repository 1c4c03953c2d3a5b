//! The next of each dart.

ghost use Rattle.std.specs.Prelude.{◌≡◌, ◌+◌, ◌-◌, ◌*◌, ◌^◌, ◌<◌, ◌≤◌, length, IfOk, IfSome};
ghost use Rattle.vpf_darts.specs.Darts.{dart_code};
ghost use Rattle.vpf_findings.specs.Findings.{disagreement_of, sight_of};
ghost use Rattle.vpf_findings.specs.Firsts.{Tells};
ghost use Rattle.vpf_prims.specs.Columns.{role_at};
ghost use Rattle.vpf_prims.specs.Edges.{HaveWings, IsEdge};
ghost use Rattle.vpf_wing.specs.Nexts.{AreNexts, dart_at, face, follows, next_dart, tail, wing};
ghost use Rattle.vpf_wing.specs.Wings.{at_wing, dart_seen, no_next, repeated, wing_column, wings_finding};

use crate::edges::{WingedEdges, wing_in};
use std::alloc::Global;
use vpf_darts::{Dart, TileDart, flip};
use vpf_findings::{FindError, Finding, Seen, SeenWord};
use vpf_prims::{EdgeColumns, RoleColumn};

/// The node where a dart begins.
#[tactic(auto, unfolding(crate::specs::Nexts::tail))]
fn tail<'a, E: WingedEdges<'a>>(edges: &E, dart: Dart) -> u32
    requires { IsEdge (length (E.edges edges.now)) dart.edge }
    ensures { result ≡ tail (E.edges edges.now) dart }
{
    let edge = edges.edge(dart.edge);
    if dart.minus {
        edge.end_node
    } else {
        edge.start_node
    }
}

/// The face of a dart.
#[tactic(auto, unfolding(crate::specs::Nexts::face))]
fn face<'a, E: WingedEdges<'a>>(edges: &E, dart: Dart) -> u32
    requires { IsEdge (length (E.edges edges.now)) dart.edge }
    ensures { result ≡ face (E.edges edges.now) dart }
{
    let edge = edges.edge(dart.edge);
    if dart.minus {
        edge.left_face
    } else {
        edge.right_face
    }
}

/// The edge that follows a dart round its face.
#[tactic(auto, using(crate::proofs::WingLemmas::wing_among), unfolding(crate::specs::Nexts::wing))]
fn wing<'a, E: WingedEdges<'a>>(edges: &E, dart: Dart) -> u32
    requires edge { IsEdge (length (E.edges edges.now)) dart.edge }
    requires wings { HaveWings (length (E.edges edges.now)) (E.edges edges.now) }
    ensures value { result ≡ wing (E.edges edges.now) dart }
    ensures edge { IsEdge (length (E.edges edges.now)) result }
{
    wing_in(edges.edge(dart.edge), dart.minus)
}

/// Whether `other` begins where `dart` ends, and has its face.
fn follows<'a, E: WingedEdges<'a>>(edges: &E, dart: Dart, other: Dart) -> bool
    requires dart { IsEdge (length (E.edges edges.now)) dart.edge }
    requires other { IsEdge (length (E.edges edges.now)) other.edge }
    ensures { result ≡ follows (E.edges edges.now) dart other }
{
    tail(edges, other) == tail(edges, flip(dart)) && face(edges, other) == face(edges, dart)
}

/// The one dart of the wing edge that begins where `dart` ends and has its face.
#[tactic(auto, using(crate::proofs::WingLemmas::wing_among), unfolding(crate::specs::Nexts::next_dart))]
pub fn next_dart<'a, E: WingedEdges<'a>>(edges: &E, dart: Dart) -> Option<Dart>
    requires edge { IsEdge (length (E.edges edges.now)) dart.edge }
    requires wings { HaveWings (length (E.edges edges.now)) (E.edges edges.now) }
    ensures next { result ≡ next_dart (E.edges edges.now) dart }
    ensures edge { IfSome result (λ next. IsEdge (length (E.edges edges.now)) next.edge) }
{
    let wing = wing(edges, dart);
    let plus = Dart {
        edge: wing,
        minus: false,
    };
    let minus = flip(plus);
    match (follows(edges, dart, plus), follows(edges, dart, minus)) {
        (true, false) => Some(plus),
        (false, true) => Some(minus),
        _ => None,
    }
}

/// The dart at a place of `1+`, `1-`, `2+` and so on, counted from 0.
fn dart_at(place: usize) -> Dart
    requires { place < 2 * (2 ^ 32 - 1) }
    ensures { result ≡ dart_at place }
{
    Dart {
        edge: (place / 2) as u32 + 1,
        minus: place % 2 == 1,
    }
}

/// The place of a dart among `1+`, `1-`, `2+` and so on, counted from 0.
#[tactic(auto, unfolding(vpf_darts::specs::Darts::code))]
pub fn place_of(dart: Dart) -> usize
    requires { 1 ≤ dart.edge }
    ensures { result + 2 ≡ dart_code dart }
{
    2 * (dart.edge as usize - 1) + dart.minus as usize
}

/// The column that has a dart's wing.
fn wing_column<'a>(columns: &EdgeColumns<'a>, dart: Dart) -> RoleColumn<'a>
    ensures { role_at result ≡ wing_column columns.now dart }
{
    if dart.minus {
        columns.left_edge()
    } else {
        columns.right_edge()
    }
}

/// A finding at the wing of a dart.
fn at_wing<'a>(
    columns: &EdgeColumns<'a>,
    dart: Dart,
    found: Seen<'a>,
    wanted: Seen<'a>,
) -> Finding<'a>
    ensures { disagreement_of result ≡ at_wing columns.now dart (sight_of found.entry) (sight_of wanted.entry) }
{
    let column = wing_column(columns, dart);
    columns
        .at()
        .finding(3, dart.edge, column.name, found, wanted)
}

/// A dart of the table, as it is shown.
fn seen(columns: &EdgeColumns<'_>, dart: Dart) -> Seen<'static>
    ensures { sight_of result ≡ dart_seen columns.now dart }
{
    Seen::Dart(TileDart {
        tile: columns.at().tile,
        edge: dart.edge,
        minus: dart.minus,
    })
}

/// A dart has no one next dart.
fn no_next<'a, E: WingedEdges<'a>>(columns: &EdgeColumns<'a>, edges: &E, dart: Dart) -> Finding<'a>
    requires few { length (E.edges edges.now) < 2 ^ 24 }
    requires edge { IsEdge (length (E.edges edges.now)) dart.edge }
    requires wings { HaveWings (length (E.edges edges.now)) (E.edges edges.now) }
    ensures { disagreement_of result ≡ no_next columns.now (E.wing_value edges.now) dart }
{
    let kind = wing_column(columns, dart).kind;
    let found = Seen::Cell(kind, edges.wing_cell(dart));
    at_wing(columns, dart, found, Seen::Word(SeenWord::Dart))
}

/// An earlier dart has the next of a dart.
fn repeated<'a>(columns: &EdgeColumns<'a>, dart: Dart, next: Dart, owner: Dart) -> Finding<'a>
    ensures { disagreement_of result ≡ repeated columns.now dart next owner }
{
    at_wing(columns, dart, seen(columns, next), seen(columns, owner))
}

/// The next darts of `1+`, `1-`, `2+` and so on, where each dart has one of its own. The first dart that has no one next dart, or
/// has that of an earlier one, is the finding.
pub fn nexts<'a, E: WingedEdges<'a>>(
    alloc: Global,
    columns: &EdgeColumns<'a>,
    edges: &E,
) -> Result<Vec<Dart>, FindError<'a>>
    requires few { length (E.edges edges.now) < 2 ^ 24 }
    requires wings { HaveWings (length (E.edges edges.now)) (E.edges edges.now) }
    ensures first { Tells result (wings_finding columns.now (E.wing_value edges.now) (E.edges edges.now)) }
    ensures nexts { IfOk result (λ nexts. AreNexts (E.edges edges.now) nexts.items) }
{
    let darts = 2 * edges.len() as usize;
    let mut nexts = Vec::with_capacity(alloc, darts)?;
    let mut owners = vec![in alloc; None; darts]?;
    for place in 0..darts {
        let dart = dart_at(place);
        let Some(next) = next_dart(edges, dart) else {
            return Err(FindError::Finding(no_next(columns, edges, dart)));
        };
        let owned = place_of(next);
        if let Some(owner) = owners[owned] {
            return Err(FindError::Finding(repeated(columns, dart, next, owner)));
        }
        owners[owned] = Some(dart);
        nexts.push(next)?;
    }
    Ok(nexts)
}
