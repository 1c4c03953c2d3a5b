//! A table that is fed in pieces.

ghost use Rattle.std.specs.Prelude.{◌≡◌};
ghost use Rattle.std.specs.List.{flat_map};
ghost use Rattle.vpf_triplet.specs.Places.{Answers};
ghost use Rattle.vpf_table.specs.Reading.{table_of};
ghost use Rattle.vpf_feed.specs.Inner.Progress.{summed};

use crate::stage::Stage;
use crate::summary::Summary;
use crate::taking::{end, next};
use std::alloc::{AllocError, Global};
use std::marker::Model;
use vpf_triplet::PlaceError;

/// A table (MIL-STD-2407, 5.4, VPF table encoding) that comes in pieces, however it is cut: from a tape, a socket, or a file larger than memory. It is
/// refused with the piece in which its first fault is told, at the same offset as the whole file. Contracts see what came of it.
#[derive(Drop)]
pub struct TableFeed {
    alloc: Global,
    stage: Stage,
}

impl Model for TableFeed {
    ghost use Rattle.vpf_feed.specs.Inner.Progress.{FeedProgress};

    ghost Value = { FeedProgress };

    ghost use Rattle.vpf_feed.specs.Inner.Stages.{progress_of, IsStage};

    ghost view = { λ f. progress_of f.stage };

    ghost invariant = { λ f. IsStage f.stage };
}

impl TableFeed {
    ghost use Rattle.std.specs.Prelude.{◌≡◌, ◌≤◌, ◌++◌, ℕ, List, [], IfOk, IfErr, OnOk, Err, length};
    ghost use Rattle.vpf_triplet.specs.declared.places.Place.{Place};
    ghost use Rattle.vpf_triplet.specs.declared.places.PlaceError.TheVariants as errors;
    ghost use Rattle.vpf_triplet.specs.Places.{Answers, ForPlace};
    ghost use Rattle.vpf_table.specs.Reading.{table_of};
    ghost use Rattle.vpf_feed.specs.Inner.Staying.Staying.{order_bytes};
    ghost use Rattle.vpf_feed.specs.Inner.Progress.{refused, summed};
    ghost use Rattle.vpf_feed.specs.Inner.Stages.{HoldsFed, MayBe, OnNoMemory, Unless, held_len};

    /// A feed to which nothing came. It takes no memory yet, and so never fails today.
    pub fn new(alloc: Global) -> Result<TableFeed, AllocError>
        ensures { IfOk result (λ feed. HoldsFed feed []) }
    {
        Ok(TableFeed {
            alloc,
            stage: Stage::Header(Vec::new(alloc)),
        })
    }

    /// Takes a piece, or refuses the table: at the place of every file that begins with what was fed. An empty piece changes nothing.
    ///
    /// A refusal is kept, and answered again. Where memory ran out the piece isn't taken, and may be fed again. Of fewer than 6 bytes nothing is told, as
    /// these don't tell the order of the numbers.
    pub fn feed(&mut self, piece: &[u8]) -> Result<(), PlaceError>
        // What came comes to what the whole is, whatever follows.
        ensures taken { (fed : List ℕ) → HoldsFed self.old fed → Unless result (HoldsFed self.new (fed ++ piece.now)) }
        // A refusal is kept.
        ensures refused { IfErr result (ForPlace (λ place. self.new ≡ refused place)) }
        ensures again { (place : Place) → self.old ≡ refused place → (result ≡ Err (errors.Place place)) × (self.new ≡ refused place) }
        // It is that of every file that begins with what was fed.
        ensures every { (fed more : List ℕ) → HoldsFed self.old fed
            → IfErr result (ForPlace (λ place. summed (table_of (fed ++ (piece.now ++ more))) ≡ Err place)) }
        // What is taken is a table or ends too early.
        ensures waits { (fed : List ℕ) → HoldsFed self.old fed → order_bytes ≤ length (fed ++ piece.now) → OnOk result (MayBe (table_of (fed ++ piece.now))) }
        // Where memory ran out, nothing has changed.
        ensures none { OnNoMemory result (self.new ≡ self.old) }
    {
        next(self.alloc, &mut self.stage, piece)
    }

    /// The whole is what was fed: its order and its numbers of rows and columns, or its first fault, which may be that it ends too early.
    pub fn finish(self) -> Result<Summary, PlaceError>
        ensures { (fed : List ℕ) → HoldsFed self fed → Answers (λ s. s) result (summed (table_of fed)) }
    {
        end(self.alloc, &self.stage)
    }

    /// How many bytes of the input are kept: the length number and the header text until the header is read, and then at most 12 of a cell.
    pub fn held(&self) -> usize
        ensures value { result ≡ held_len self.now }
        ensures most { result ≤ 65552 }
    {
        self.stage.held()
    }
}

/// What a file is, of which these are the pieces, one behind another: that is what `TableView::open` says of their sum.
pub fn accepts(alloc: Global, pieces: &[Vec<u8>]) -> Result<Summary, PlaceError>
    ensures { Answers (λ s. s) result (summed (table_of (flat_map (λ piece. piece.items) pieces.now))) }
{
    let mut feed = TableFeed::new(alloc)?;
    for piece in pieces {
        feed.feed(piece)?;
    }
    feed.finish()
}
