// Laws about the content of every list of records. The bodies are empty: each law is a contract.
ghost use Rattle.std.specs.Prelude.{List, Option};
ghost use Rattle.trend_num.specs.{Rec, Point};
ghost use Rattle.trend_model.specs.Contents.{IsClosedContentOf, IsContentOf, closed_by, listed};

/// The list of a content rises in time, has each time once, and reads at every time as its records do.
pub fn listed_is_content()
    ensures { (rs : List Rec) → IsContentOf rs (listed rs) }
{}

/// A content that is closed by a point reads as its records do. If they have nothing at the point's time, it reads as
/// the point there.
pub fn closed_is_content()
    ensures { (rs l : List Rec) (q : Option Point) → IsContentOf rs l → IsClosedContentOf rs q (closed_by q l) }
{}
