//! What is so of the grid of n by n cells, for each n from 1.

ghost use Rattle.vpf_vectors.specs.Inner.Cells.Laws.{NextByCases, NumbersNameArrows, ArrowsHaveNumbers, FlipIsBack};
ghost use Rattle.vpf_vectors.specs.Inner.Cells.Laws.{NodesNameCorners, CornersHaveNodes, FacesNameCells, CellsHaveFaces};
ghost use Rattle.vpf_vectors.specs.Inner.Cells.Laws.{DartsAreInRange, NextsFit, GridIsMap, FacesAreListed};
ghost use Rattle.vpf_vectors.specs.Inner.Cells.Laws.{NodeIsOneCycle, FaceIsOneCycle, CellIsOneCycle, BorderIsOneCycle};
ghost use Rattle.vpf_vectors.specs.Inner.Cells.Laws.{RingsStartLeast, FirstEdgesAreLeast, EastRows, NorthRows};
ghost use Rattle.vpf_vectors.specs.Inner.Cells.Laws.{FacesHaveTiles, TilesHaveFaces, EastLines, NorthLines};

/// The next of a dart by its direction: along a cell its four sides, along the border straight on, and round the corners of the
/// grid to the left.
pub fn next_by_cases()
    ensures { NextByCases }
{}

/// Numbers name darts, nodes and faces, one each.
pub fn numbers_name()
    ensures arrows { NumbersNameArrows }
    ensures darts { ArrowsHaveNumbers }
    ensures flip { FlipIsBack }
    ensures corners { NodesNameCorners }
    ensures nodes { CornersHaveNodes }
    ensures cells { FacesNameCells }
    ensures faces { CellsHaveFaces }
{}

/// The nodes and the face of each dart are those of the grid.
pub fn darts_are_in_range()
    ensures { DartsAreInRange }
{}

/// The next of a dart begins where the dart ends and has its face, and the nexts are a combinatorial map.
pub fn nexts_are_a_map()
    ensures fit { NextsFit }
    ensures map { GridIsMap }
{}

/// The darts of each node are one cycle of `turn`; those of each face are one cycle, of four darts for a cell, and of 4 n for
/// face 1.
pub fn cycles_of_the_grid()
    ensures node { NodeIsOneCycle }
    ensures face { FaceIsOneCycle }
    ensures cell { CellIsOneCycle }
    ensures border { BorderIsOneCycle }
{}

/// A ring starts at the least dart of its face, and the first edge of a node is the least at it.
pub fn least_darts()
    ensures rings { RingsStartLeast }
    ensures nodes { FirstEdgesAreLeast }
{}

/// The boundaries of the faces, by rising face, are the listing of the map.
pub fn faces_are_listed()
    ensures { FacesAreListed }
{}

/// The row of an edge by the corner where it begins.
pub fn rows_by_corners()
    ensures east { EastRows }
    ensures north { NorthRows }
{}

/// The home tiles and the tile lines of a grid of an even number of cells a side.
pub fn tiles_of_the_grid()
    ensures faces { FacesHaveTiles }
    ensures tiles { TilesHaveFaces }
    ensures east { EastLines }
    ensures north { NorthLines }
{}
