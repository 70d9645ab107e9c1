// Laws about the images that a crash may leave of a lane: what is recovered from each.
ghost use Rattle.std.specs.Prelude.{◌≡◌, ◌⊎◌, ℕ, ◌+◌, ◌<◌, ◌≤◌, ◌^◌, ◌++◌, List, [], length, true, false};
ghost use Rattle.std.specs.List.{All};
ghost use Rattle.trend_num.specs.{Point, InRange};
ghost use Rattle.disk_model.specs.{IsGuarded, IsClosing};
ghost use Rattle.event_queue.specs.Slots.{gate_of, place_of, batch_bytes, lane_end};
ghost use Rattle.event_queue.specs.Lanes.{lane_points, IsLane};
ghost use Rattle.event_queue.specs.Places.{IsFilled, IsOvertaken};
ghost use Rattle.event_queue.specs.declared.reader.Scanned.{Scanned};
ghost use Rattle.event_queue.specs.Scans.{IsRead, IsWithin};

/// Shows that each image of an append holds the points from before, or these followed by the whole batch.
pub fn an_append_is_whole_or_absent()
    ensures { (slots taken used next : ℕ) (points batch : List Point) (old new : List ℕ) → used < slots
        → 1 ≤ length batch → length batch ≤ 64 → All InRange batch → next + length batch < 2 ^ 64
        → IsFilled slots taken used next old points
        → IsGuarded (place_of slots used) (batch_bytes next batch) (gate_of used) old new
        → IsFilled slots taken used next new points
        ⊎ IsFilled slots taken (used + 1) (next + length batch) new (points ++ batch) }
{}

/// Shows that a restart of an overtaken lane leaves an overtaken lane in each image. Such a lane holds no points.
pub fn a_restart_leaves_an_overtaken_lane()
    ensures { (slots taken used : ℕ) (old new : List ℕ) → used ≤ slots → IsOvertaken slots taken old
        → IsClosing (gate_of 0) used old new → IsOvertaken slots taken new × (lane_points slots new taken ≡ []) }
{}

/// Shows that a lane that keeps the layout is in use or overtaken.
pub fn a_lane_is_filled_or_overtaken()
    ensures { (slots taken : ℕ) (bytes : List ℕ) → lane_end slots ≤ length bytes → IsLane slots bytes taken slots
        → IsOvertaken slots taken bytes ⊎ ((used : ℕ) × (next : ℕ) × (points : List Point)
        × IsFilled slots taken used next bytes points) }
{}

/// Shows that a scan decides which of the two it is. A lane that the scan finds stale is overtaken. Any other is in
/// use, up to the position that the scan returns.
pub fn a_scan_tells_which_it_is()
    ensures overtaken { (slots taken : ℕ) (bytes : List ℕ) (s : Scanned) → IsRead slots taken bytes slots s
        → IsWithin slots taken slots s → s.stale ≡ true → IsOvertaken slots taken bytes }
    ensures filled { (slots taken : ℕ) (bytes : List ℕ) (s : Scanned) → lane_end slots ≤ length bytes
        → IsRead slots taken bytes slots s → IsWithin slots taken slots s → s.stale ≡ false
        → IsFilled slots taken s.lane.used s.lane.next bytes s.points.items }
{}
