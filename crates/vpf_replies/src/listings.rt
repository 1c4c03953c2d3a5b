//! The printed lines of listings of cycles.

ghost use Rattle.std.specs.Prelude.{◌≡◌, ◌++◌, IfOk, OnOk, string_bytes};
ghost use Rattle.vpf_replies.specs.Answer.{done};
ghost use Rattle.vpf_replies.specs.Listings.{cycle_lines, cycle_text, numbered_text, listing_text};

use crate::reply::Reply;
use crate::verdict::Verdict;
use std::alloc::{AllocError, Global};
use vpf_darts::laws::numbers_name_darts;
use vpf_darts::{Listing, TileDart};

/// Puts a dart. Its number names it, since its edge has 32 bits.
fn put_dart(text: &mut String, dart: TileDart) -> Result<(), AllocError>
    ensures { OnOk result (string_bytes text.new ≡ string_bytes text.old ++ numbered_text dart) }
{
    numbers_name_darts();
    write!(text, "{dart}")
}

/// Puts the darts of a cycle, with a space between any two.
fn put_cycle(text: &mut String, darts: &[TileDart]) -> Result<(), AllocError>
    ensures { OnOk result (string_bytes text.new ≡ string_bytes text.old ++ cycle_text darts.now) }
{
    let Some((first, others)) = darts.split_first() else {
        return Ok(());
    };
    put_dart(text, *first)?;
    for dart in others {
        text.push_str(" ")?;
        put_dart(text, *dart)?;
    }
    Ok(())
}

fn put_cycles(text: &mut String, listing: &Listing) -> Result<(), AllocError>
    ensures { OnOk result (string_bytes text.new ≡ string_bytes text.old ++ cycle_lines listing.now) }
{
    for i in 0..listing.len() {
        put_cycle(text, listing.at(i))?;
        text.push_str("\n")?;
    }
    Ok(())
}

/// The text of a listing: a line for each cycle, and the number of cycles.
fn listing_text(alloc: Global, listing: &Listing) -> Result<String, AllocError>
    ensures { IfOk result (λ text. string_bytes text ≡ listing_text listing.now) }
{
    let mut text = String::new(alloc);
    put_cycles(&mut text, listing)?;
    let count = listing.len();
    write!(text, "cycles {count}\n")?;
    Ok(text)
}

/// The reply that lists cycles: a line for each, of its darts with a space between any two, and a line that counts them.
pub fn listed(alloc: Global, listing: &Listing) -> Result<Reply, AllocError>
    ensures { IfOk result (λ reply. reply ≡ done (listing_text listing.now)) }
{
    Ok(Reply::new(alloc, Verdict::Done, listing_text(alloc, listing)?))
}
