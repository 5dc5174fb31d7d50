//! The rule of the evacuation area: which of the last segments of the external space a collection cycle compacts.
//!
//! `decide` answers where the area begins, or that there is none, exactly by the model's rule (`area_start` of
//! `specs/Area.antt` of `plain_table`). This file holds all of it; `tests.rt` has worked rows.
#![tactic(auto)]

ghost use Rattle.std.specs.Prelude.{◌≡◌, ℕ, ◌-◌, ◌*◌, ◌<◌, ◌≤◌, IfSome};
ghost use Rattle.plain_table.specs.Area.{area_segments, area_start};

use plain_table::Policy;

/// The first index of the evacuation area, or None where there is no area: of the first `segs` segments of `seg_size`
/// entries each, which are those in use, with `used_count` used indexes among them, index 0 included. The rule is
/// `area_start` of `specs/Area.antt` of `plain_table`: half of these segments, or half of what is free where at least
/// four segments are in use and a tenth of their entries is free. An area begins with a segment, and leaves at least the
/// first one out.
pub fn decide(policy: Policy, segs: u32, used_count: u32, seg_size: u32) -> Option<u32>
    requires segs { 1 ≤ segs }
    requires room { segs * seg_size ≤ 65536 }
    requires used { (1 ≤ used_count) × (used_count ≤ segs * seg_size) }
    ensures rule { result ≡ area_start policy segs used_count seg_size }
    ensures segment { IfSome result (λ start. (n : ℕ) × (1 ≤ n) × (n < segs) × (start ≡ n * seg_size)) }
{
    let moved = area_segments(policy, segs, used_count, seg_size);
    if moved == 0 {
        return None;
    }
    Some((segs - moved) * seg_size)
}

/// How many of the last segments the area has.
fn area_segments(policy: Policy, segs: u32, used_count: u32, seg_size: u32) -> u32
    requires segs { 1 ≤ segs }
    requires room { segs * seg_size ≤ 65536 }
    requires used { (1 ≤ used_count) × (used_count ≤ segs * seg_size) }
    ensures rule { result ≡ area_segments policy segs used_count seg_size }
    ensures fewer { result < segs }
{
    match policy {
        Policy::Never => 0,
        Policy::Always => segs / 2,
        Policy::Auto => {
            let all = segs * seg_size;
            let free = all - used_count;
            if segs >= 4 && free * 10 >= all {
                free / 2 / seg_size
            } else {
                0
            }
        }
    }
}
