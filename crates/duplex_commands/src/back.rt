//! The channels of end b with their captures.
ghost use Rattle.std.specs.Prelude.{◌≡◌, map, IfOk};
ghost use Rattle.link_plan.specs.Listing.{numbers_of};
ghost use Rattle.link_plan.specs.Views.{listed_of};
ghost use Rattle.duplex_plan.specs.Views.{back_value};
ghost use Rattle.duplex_commands.specs.Reading.{first_unlisted, backs};

use duplex_plan::BackRow;
use link_plan::{ChannelRow, is_one_of};
use lk_base::OutOfMemory;
use std::alloc::Global;

/// The number of the first row whose channel is not listed, if there is one.
pub fn unlisted_row(channels: &[ChannelRow], back: &[BackRow]) -> Option<u32>
    ensures { result ≡ first_unlisted (numbers_of channels.now) (map back_value back.now) }
{
    for row in back {
        if !is_one_of(channels, row.channel) {
            return Some(row.row);
        }
    }
    None
}

/// The channels with their captures, in the order of their rows.
pub fn back_channels(alloc: Global, back: &[BackRow]) -> Result<Vec<ChannelRow>, OutOfMemory>
    ensures { IfOk result (λ rows. map listed_of rows.items ≡ backs (map back_value back.now)) }
{
    let mut rows = Vec::new(alloc);
    for row in back {
        let capture = String::from_str(alloc, row.capture.as_str())?;
        rows.push(ChannelRow {
            number: row.channel,
            capture: Some(capture),
        })?;
    }
    Ok(rows)
}
