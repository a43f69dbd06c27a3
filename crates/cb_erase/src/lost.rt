//! The positions that are not present.

ghost use Rattle.std.specs.Prelude.{◌≡◌, ◌+◌, length, slice_index};
ghost use Rattle.cb_gf256.specs.InRange.{IsInRange};
ghost use Rattle.cb_gf256.specs.Positions.{ArePositions};
ghost use Rattle.cb_gf256.specs.Split.{Splits};

/// The positions that are not present, ascending, in the first `r` places.
pub fn lost_positions(k: u32, r: u32, present: &[u8]) -> [u8; 4]
    requires in_range { IsInRange k r }
    requires positions { ArePositions (k + r) k present.now }
    ensures size { length result ≡ 4 }
    ensures split { Splits (k + r) k r (λ i. slice_index present.now i)
        (λ e. slice_index result e) }
{
    let mut lost = [0; 4];
    let mut seen = 0;
    for p in 0..(k + r) as usize {
        if seen < present.len() && usize::from(present[seen]) == p {
            seen += 1;
        } else {
            lost[p - seen] = p as u8;
        }
    }
    lost
}
