// Feeds that are given once more.
ghost use Rattle.std.specs.Prelude.{◌≡◌, IfOk};

use gp_base::{Feed, Seq};
use std::alloc::{AllocError, Global};

// The same feed again.
fn copied_feed(alloc: Global, feed: &Feed) -> Result<Feed, AllocError>
    ensures { IfOk result (λ copy. copy ≡ feed.now) }
{
    let cells = feed.cells.copied(alloc)?;
    Ok(Feed {
        fields: feed.fields,
        cells,
    })
}

/// The same feeds again. The error is that memory is out.
pub fn copied_feeds(alloc: Global, feeds: &[Feed]) -> Result<Seq<Feed>, AllocError>
    ensures { IfOk result (λ copies. copies ≡ feeds.now) }
{
    let mut copies = Seq::new(alloc);
    for feed in feeds {
        copies.push(copied_feed(alloc, feed)?)?;
    }
    Ok(copies)
}
