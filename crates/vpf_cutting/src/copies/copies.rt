//! Which items are in which tiles.

ghost use Rattle.std.specs.Prelude.{◌≡◌, ℕ, ◌||◌, ◌&&◌, IfOk, OnOk, map};
ghost use Rattle.vpf_cutting.specs.Inner.Copies.Lists.{is_paired};
ghost use Rattle.vpf_cutting.specs.Inner.Copies.Placing.{is_end, puts};
ghost use Rattle.vpf_cutting.specs.Inner.Copies.Presence.{is_one_of};

use crate::copies::edges::{EdgeNodes, EdgeTiles};
use crate::copies::lists::Lists;
use std::alloc::{AllocError, Global};
use std::marker::Model;

/// The copies of some items in tiles: which items are in which tiles. Items are the edges, the nodes, the faces or the entity nodes of a
/// coverage; items and tiles are numbered from 1. Contracts see how many there are of both, and the list of the items of each tile.
///
/// Takes 8 bytes for each copy, and 8 for each item and each tile.
#[derive(Drop)]
pub struct Copies {
    items: u32,
    tiles: u32,
    by_tile: Lists,
    by_item: Lists,
}

impl Model for Copies {
    ghost use Rattle.vpf_cutting.specs.Inner.Copies.Presence.{AreCopies, Presence};

    ghost Value = { Presence };

    ghost view = { λ c. record { items = c.items; tiles = c.tiles; lists = c.by_tile } };

    ghost invariant = { λ c. AreCopies (record { items = c.items; tiles = c.tiles; lists = c.by_tile }) c.by_item };
}

impl Copies {
    ghost use Rattle.std.specs.Prelude.{◌≡◌, ℕ, ◌<◌, ◌≤◌, ◌^◌, All, IfOk, length};
    ghost use Rattle.vpf_cutting.specs.Inner.Copies.Lists.{AreNumbersWithin, is_paired};
    ghost use Rattle.vpf_cutting.specs.Inner.Copies.Placing.{AreNodes, AreTiles, has_end, is_at, is_beside};
    ghost use Rattle.vpf_cutting.specs.Inner.Copies.Presence.{has, is_one_of, items_in, local_number, presence_of, tiles_of};

    /// Edges, which are in the tiles on their two sides. Both are given edge by edge, 0 for none.
    pub fn of_edges(alloc: Global, tiles: u32, sides: &[EdgeTiles]) -> Result<Copies, AllocError>
        requires few { length sides.now < 2 ^ 32 }
        requires within { All (AreTiles tiles) sides.now }
        ensures copies { IfOk result (λ copies. copies ≡ presence_of (length sides.now) tiles (is_beside sides.now)) }
        ensures has { IfOk result (λ copies. has copies ≡ is_beside sides.now) }
        ensures two { IfOk result (λ copies. (edge : ℕ) → length (tiles_of copies edge) ≤ 2) }
    {
        let mut pairs = Vec::new(alloc);
        for (k, side) in sides.iter().enumerate() {
            let edge = k as u32 + 1;
            put(side.left, edge, &mut pairs)?;
            put(side.right, edge, &mut pairs)?;
        }
        Copies::of_pairs(alloc, tiles, sides.len() as u32, pairs)
    }

    /// Items that are in one tile each, as faces and entity nodes. It is given item by item, 0 for none.
    pub fn of_places(alloc: Global, tiles: u32, places: &[u32]) -> Result<Copies, AllocError>
        requires few { length places.now < 2 ^ 32 }
        requires within { All (λ tile. tile ≤ tiles) places.now }
        ensures copies { IfOk result (λ copies. copies ≡ presence_of (length places.now) tiles (is_at places.now)) }
        ensures has { IfOk result (λ copies. has copies ≡ is_at places.now) }
    {
        let mut pairs = Vec::new(alloc);
        for (k, tile) in places.iter().enumerate() {
            put(*tile, k as u32 + 1, &mut pairs)?;
        }
        Copies::of_pairs(alloc, tiles, places.len() as u32, pairs)
    }

    /// The nodes where edges begin and end, which are in the tiles of those edges. The ends are given edge by edge.
    pub fn of_nodes(
        alloc: Global,
        edges: &Copies,
        nodes: u32,
        ends: &[EdgeNodes],
    ) -> Result<Copies, AllocError>
        requires edges { length ends.now ≡ edges.now.items }
        requires within { All (AreNodes nodes) ends.now }
        ensures copies { IfOk result (λ copies. copies ≡ presence_of nodes edges.now.tiles (has_end edges.now ends.now)) }
        ensures has { IfOk result (λ copies. has copies ≡ has_end edges.now ends.now) }
    {
        let mut pairs = Vec::new(alloc);
        for k in 0..edges.items() {
            put_ends(edges.tiles_of(k + 1), ends[k as usize], &mut pairs)?;
        }
        Copies::of_pairs(alloc, edges.tiles, nodes, pairs)
    }

    /// From pairs of a tile and an item that is there, in any order and as often as may be.
    fn of_pairs(
        alloc: Global,
        tiles: u32,
        items: u32,
        pairs: Vec<(u32, u32)>,
    ) -> Result<Copies, AllocError>
        requires { AreNumbersWithin (is_paired pairs.items) tiles items }
        ensures copies { IfOk result (λ copies. copies ≡ presence_of items tiles (is_paired pairs.items)) }
        ensures has { IfOk result (λ copies. has copies ≡ is_paired pairs.items) }
    {
        let turned = turned(alloc, &pairs)?;
        let by_tile = Lists::of(alloc, tiles, pairs)?;
        let by_item = Lists::of(alloc, items, turned)?;
        Ok(Copies {
            items,
            tiles,
            by_tile,
            by_item,
        })
    }

    /// How many items there are, in tiles or not.
    pub fn items(&self) -> u32
        ensures { result ≡ self.now.items }
    {
        self.items
    }

    /// How many tiles there are, with items or without.
    pub fn tiles(&self) -> u32
        ensures { result ≡ self.now.tiles }
    {
        self.tiles
    }

    /// The items of a tile, rising; none where there is no tile of this number.
    pub fn in_tile(&self, tile: u32) -> &[u32]
        ensures items { result.now ≡ items_in self.now tile }
        ensures few { length result.now < 2 ^ 32 }
        ensures each { (item : ℕ) → is_one_of result.now item ≡ has self.now tile item }
    {
        self.by_tile.at(tile)
    }

    /// The local number of an item in a tile: its rank among the items of the tile, from 1. Nothing where the item isn't there.
    pub fn local(&self, tile: u32, item: u32) -> Option<u32>
        ensures { result ≡ local_number self.now tile item }
    {
        match self.in_tile(tile).binary_search(&item) {
            Ok(place) => Some(place as u32 + 1),
            Err(_) => None,
        }
    }

    /// The tiles of an item, rising; none where there is no item of this number.
    pub fn tiles_of(&self, item: u32) -> &[u32]
        ensures tiles { result.now ≡ tiles_of self.now item }
        ensures each { (tile : ℕ) → is_one_of result.now tile ≡ has self.now tile item }
    {
        self.by_item.at(item)
    }
}

/// The pairs the other way round.
fn turned(alloc: Global, pairs: &[(u32, u32)]) -> Result<Vec<(u32, u32)>, AllocError>
    ensures { IfOk result (λ turned. turned.items ≡ map (λ pair. (pair.1, pair.0)) pairs.now) }
{
    pairs.iter().map(|pair| (pair.1, pair.0)).collect(alloc)
}

/// Puts a tile, unless it is 0, and an item.
fn put(tile: u32, item: u32, pairs: &mut Vec<(u32, u32)>) -> Result<(), AllocError>
    ensures { OnOk result ((t i : ℕ) → is_paired pairs.new.items t i ≡ (is_paired pairs.old.items t i || puts tile item t i)) }
{
    if tile != 0 {
        pairs.push((tile, item))?;
    }
    Ok(())
}

/// Puts each tile of an edge and each of its two nodes.
fn put_ends(tiles: &[u32], ends: EdgeNodes, pairs: &mut Vec<(u32, u32)>) -> Result<(), AllocError>
    ensures { OnOk result ((t v : ℕ) → is_paired pairs.new.items t v ≡ (is_paired pairs.old.items t v || (is_one_of tiles.now t && is_end ends v))) }
{
    for tile in tiles {
        pairs.push((*tile, ends.start))?;
        pairs.push((*tile, ends.end))?;
    }
    Ok(())
}
