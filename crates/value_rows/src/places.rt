// Looks up the places of names.
ghost use Rattle.std.specs.Prelude.{◌≡◌, ◌<◌, ◌^◌, All, length, replicate, IfOk, IfSome};
ghost use Rattle.std.specs.BTreeMap.{BTreeMap};
ghost use Rattle.trend_num.specs.{IsName};
ghost use Rattle.value_rows.specs.Raw.{first_place_of};
ghost use Rattle.value_rows.specs.RowReader.{ArePlaces, IsHint};

use std::alloc::Global;
use std::collections::BTreeMap;
use std::marker::Model;
use trend_num::{Name, WantOfMemory};

// How many slots there are. If names share a slot, it has the place of one of them. The map has the places of all
// names.
const SLOTS: usize = 16384;

// The entry of a slot without a name. It is no place, because there are fewer names.
const NOBODY: u32 = u32::MAX;

// Names, with a map from each name to its place among them. A table of slots gives the places of most names without a
// search in the map. The model is the list of the names, in order.
#[derive(Drop)]
pub(crate) struct Places<'n> {
    names: &'n [Name],
    map: BTreeMap<&'n [u8], u32>,
    hints: Vec<u32>,
}

impl<'n> Model for Places<'n> {
    ghost use Rattle.std.specs.Prelude.{ℕ, List};
    ghost use Rattle.value_rows.specs.RowReader.{HasPlaces};

    ghost Value = { List (List ℕ) };

    ghost view = { λ p. p.names.now };

    ghost invariant = { λ p. HasPlaces p.map p.hints.items p.names.now };
}

impl<'n> Places<'n> {
    // Makes the map and the slots of these names.
    pub(crate) fn new(alloc: Global, names: &'n [Name]) -> Result<Places<'n>, WantOfMemory>
        requires few { length names.now < 2 ^ 32 }
        ensures names { IfOk result (λ places. places ≡ names.now) }
    {
        let map = map_of(alloc, names)?;
        let hints = hints_of(alloc, names, &map)?;
        Ok(Places { names, map, hints })
    }

    // The place of the first of the names that is this one.
    #[inline(always)]
    pub(crate) fn place(&self, name: &[u8]) -> Option<u32>
        ensures place { result ≡ first_place_of self.now name.now }
        ensures within { IfSome result (λ i. i < length self.now) }
        ensures name { IfSome result (λ _. IsName name.now) }
    {
        let hint = self.hints[slot_of(name)];
        if let Some(known) = self.names.get(hint as usize)
            && known.bytes() == name
        {
            return Some(hint);
        }
        self.place_in_map(name)
    }

    // The same, for a name whose slot does not have its place.
    #[cold]
    fn place_in_map(&self, name: &[u8]) -> Option<u32>
        ensures place { result ≡ first_place_of self.now name.now }
        ensures within { IfSome result (λ i. i < length self.now) }
        ensures name { IfSome result (λ _. IsName name.now) }
    {
        self.map.get(name).copied()
    }
}

// Makes the map from each name to its first place.
fn map_of<'n>(alloc: Global, names: &'n [Name]) -> Result<BTreeMap<&'n [u8], u32>, WantOfMemory>
    requires few { length names.now < 2 ^ 32 }
    ensures places { IfOk result (λ map. ArePlaces map names.now) }
    ensures named { IfOk result (λ _. All IsName names.now) }
{
    let mut map: BTreeMap<&'n [u8], u32> = BTreeMap::new(alloc);
    for i in 0..names.len() {
        let name = names[i].bytes();
        if !map.contains_key(name) {
            map.insert(name, i as u32)?;
        }
    }
    Ok(map)
}

// Makes the slots, each with the place of its name. If names share a slot, it has the place of the last of them.
fn hints_of<'n>(
    alloc: Global,
    names: &'n [Name],
    map: &BTreeMap<&'n [u8], u32>,
) -> Result<Vec<u32>, WantOfMemory>
    requires few { length names.now < 2 ^ 32 }
    requires places { ArePlaces map.now names.now }
    ensures slots { IfOk result (λ hints. length hints.items ≡ SLOTS) }
    ensures hints { IfOk result (λ hints. All (IsHint names.now) hints.items) }
{
    let mut hints = empty_slots(alloc)?;
    for name in names {
        if let Some(place) = map.get(name.bytes()) {
            hints[slot_of(name.bytes())] = *place;
        }
    }
    Ok(hints)
}

// Slots without any name.
fn empty_slots(alloc: Global) -> Result<Vec<u32>, WantOfMemory>
    ensures { IfOk result (λ hints. hints.items ≡ replicate SLOTS NOBODY) }
{
    Ok(Vec::from_elem(alloc, NOBODY, SLOTS)?)
}

// The slot of a name: a hash.
#[inline(always)]
fn slot_of(name: &[u8]) -> usize
    ensures { result < SLOTS }
{
    let mut mixed = 0u32;
    for byte in name {
        mixed = mixed.wrapping_mul(31).wrapping_add(u32::from(*byte));
    }
    (mixed.wrapping_mul(0x9E37_79B1) >> 18) as usize
}
