//! The bands of a picture, one below the other.

ghost use Rattle.std.specs.Prelude.{◌≡◌, ◌≤◌};
ghost use Rattle.abt_view.specs.Bands.{band_at, band_height as height_of, bands_in, is_in, lane_top as top_of};
ghost use Rattle.abt_view.specs.Kinds.{greatest_stamp};

use crate::kinds::greatest_stamp;
use abt_machine::Event;

/// The stamps that a band shows, from the first to the last.
#[derive(Clone, Copy)]
pub(crate) struct Band {
    pub first: u64,
    pub last: u64,
}

// How many stamps a band shows.
pub(crate) const STAMPS: u64 = 1_900;

// The height of a stream's lane, and of the axis above the lanes.
pub(crate) const LANE: u64 = 60;

const AXIS: u64 = 24;

impl Band {
    // The band of that number, from 0 on.
    pub(crate) fn at(n: u64) -> Band
        requires { n ≤ 10 }
        ensures { result ≡ band_at n }
    {
        Band {
            first: STAMPS * n,
            last: STAMPS * n + 1_899,
        }
    }

    // Whether it shows a part of what lasts from one stamp to another.
    pub(crate) fn shows(self, from: u64, to: u64) -> bool
        ensures { result ≡ is_in self from to }
    {
        from.min(to) <= self.last && self.first <= from.max(to)
    }
}

// How many bands there are: up to that of the greatest stamp.
pub(crate) fn count_bands(journal: &[Event]) -> u64
    requires { greatest_stamp journal.now ≤ 20000 }
    ensures count { result ≡ bands_in journal.now }
    ensures few { result ≤ 11 }
{
    greatest_stamp(journal) / STAMPS + 1
}

// The top of a stream's lane below that of its band.
pub(crate) fn lane_top(stream: u32) -> u64
    ensures { result ≡ top_of stream }
{
    LANE * u64::from(stream) + AXIS
}

// The height of a band with so many lanes.
pub(crate) fn band_height(streams: u64) -> u64
    requires { streams ≤ 64 }
    ensures height { result ≡ height_of streams }
    ensures low { result ≤ 3914 }
{
    LANE * streams + 74
}
