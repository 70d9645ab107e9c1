// The tags of a calendar.
ghost use Rattle.std.specs.Prelude.{◌≡◌, ◌≤◌, ◌<◌, ◌^◌, length, IfSome};
ghost use Rattle.shift_calendar.specs.Calendars.{tag_place_of, is_taken, untaken, new_place};

use toml_tables::Places;
use trend_num::Name;

// Returns the place of the first tag with a name.
fn place_of(names: &[Name], name: &[u8]) -> Option<usize>
    ensures place { result ≡ tag_place_of names.now name.now }
    ensures there { IfSome result (λ place. place < length names.now) }
{
    names.iter().position(|n| n.bytes() == name)
}

// Whether a place is among earlier ones.
fn is_taken(earlier: &[u32], place: u32) -> bool
    ensures { result ≡ is_taken earlier.now place }
{
    earlier.iter().any(|p| *p == place)
}

// Returns a place, if it is not among earlier ones.
fn untaken(earlier: &[u32], place: usize) -> Option<u32>
    requires { place < 2 ^ 32 }
    ensures place { result ≡ untaken earlier.now place }
    ensures same { IfSome result (λ p. p ≡ place) }
{
    let place = place as u32;
    if is_taken(earlier, place) {
        return None;
    }
    Some(place)
}

// The names of the tags of a base. A calendar has places among them.
#[derive(Drop)]
pub(crate) struct TagNames<'n> {
    pub(crate) names: &'n [Name],
    ghost few_names: { length names.now ≤ 2 ^ 32 },
}

impl<'n> Places for TagNames<'n> {
    type Place = u32;

    ghost place_of = { λ tags. new_place tags.names.now };

    ghost is_place = { λ tags place. place < length tags.names.now };

    fn place_of(&self, earlier: &[u32], name: &str) -> Option<u32> {
        match place_of(self.names, name.as_bytes()) {
            Some(place) => untaken(earlier, place),
            None => None,
        }
    }
}
