// A law about all lists of rows.
ghost use Rattle.std.specs.Prelude.{◌≡◌, ◌≤◌, ℕ, List, length, take};
ghost use Rattle.commit_log.specs.declared.row.LogRow.{LogRow};
ghost use Rattle.commit_log.specs.Images.{log_points_of};

/// Shows two facts about the points of a tag. Its points in the first rows of a list are the first of its points. Its
/// points in fewer of the first rows are the first of its points in more of them. So after a crash each tag keeps the
/// first of its values, and all acknowledged ones among them.
pub fn each_tag_keeps_a_prefix()
    ensures first { (tag : ℕ) (rows : List LogRow) (n : ℕ)
        → log_points_of tag (take n rows) ≡ take (length (log_points_of tag (take n rows))) (log_points_of tag rows) }
    ensures acknowledged { (tag : ℕ) (rows : List LogRow) (least n : ℕ) → least ≤ n
        → log_points_of tag (take least rows) ≡ take (length (log_points_of tag (take least rows))) (log_points_of tag (take n rows)) }
{}
