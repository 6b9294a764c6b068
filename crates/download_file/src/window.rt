//! The segments that a download wants, and how far ahead they are asked.

ghost use Rattle.std.specs.Prelude.{◌≡◌, ◌-◌, ◌/◌, ◌+◌, ◌<◌, ◌≤◌, ◌↔◌, IsTrue};
ghost use Rattle.download_file.specs.Making.{AreRowsAsked};

use download_parts::Plan;
use share_layout::Geometry;

/// How many bytes of segments are asked ahead.
const WINDOW: u32 = 4_194_304;

/// The plan for the segments that a range touches.
pub(crate) fn plan_of(geometry: &Geometry, from: u64, to: u64) -> Plan
    requires some { from < to }
    requires inside { to ≤ geometry.now.size }
    ensures geometry { result.geometry ≡ geometry.now }
    ensures first { result.first ≡ from / geometry.now.segment_size }
    ensures end { result.end ≡ (to - 1) / geometry.now.segment_size + 1 }
{
    let size = u64::from(geometry.segment_size());
    let first = from / size;
    let end = (to - 1) / size + 1;
    Plan::of(geometry, first as u32, end as u32)
}

/// The last segment that is asked for.
pub(crate) fn last_asked(plan: &Plan, next: u32) -> u32
    requires { next < plan.now.end }
    ensures from { next ≤ result }
    ensures before { result < plan.now.end }
{
    let ahead = (WINDOW / plan.geometry.segment_size()).max(2);
    next.saturating_add(ahead).min(plan.end) - 1
}

/// Whether segments are so short that two rows of eight are asked ahead.
pub(crate) fn asks_rows(geometry: &Geometry) -> bool
    ensures { IsTrue result ↔ AreRowsAsked geometry.now }
{
    geometry.segment_size() <= WINDOW / 16
}
