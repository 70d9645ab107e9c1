// The devices that a store keeps, by name.
ghost use Rattle.std.specs.Prelude.{◌≡◌, ◌≢◌, ℕ, List, IfNone, IfSome, IsNone, OnOk, OnErr, OnSome, Some, IsTrue, false, bytes_eq, if◌then◌else◌};
ghost use Rattle.std.specs.BTreeMap.{get_by_text};
ghost use Rattle.told_store.specs.Notes.{read_as, told_by};
ghost use Rattle.told_store.specs.Places.{file_in, told_in, is_placed, is_stopped_in};

use crate::folder::FileId;
use crate::kept::Kept;
use crate::record::Record;
use std::alloc::{AllocError, Global};
use std::collections::BTreeMap;
use std::mem;

// Puts a device at a name where there is none.
pub(crate) fn insert(
    alloc: Global,
    places: &mut BTreeMap<String, Kept>,
    name: &str,
    kept: Kept,
) -> Result<(), AllocError>
    requires { is_placed places.old name.now ≡ false }
    ensures put { OnOk result ((n : List ℕ) → get_by_text places.new n
        ≡ (if bytes_eq name.now n then Some kept else get_by_text places.old n)) }
    ensures kept { (n : List ℕ) → IsTrue (is_placed places.old n) → get_by_text places.new n ≡ get_by_text places.old n }
    ensures err { OnErr result ((n : List ℕ) → get_by_text places.new n ≡ get_by_text places.old n) }
{
    let key = String::from_str(alloc, name)?;
    places.insert(key, kept)?;
    Ok(())
}

// Makes an empty device at a name where there is none.
pub(crate) fn make_place(
    alloc: Global,
    places: &mut BTreeMap<String, Kept>,
    name: &str,
) -> Result<(), AllocError>
    ensures place { OnOk result (IsTrue (is_placed places.new name.now)) }
    ensures same { (n : List ℕ) → told_in places.new n ≡ told_in places.old n }
    ensures others { (n : List ℕ) → n ≢ name.now → get_by_text places.new n ≡ get_by_text places.old n }
    ensures placed { (n : List ℕ) → IsTrue (is_placed places.old n) → IsTrue (is_placed places.new n) }
{
    if places.contains_key(name) {
        return Ok(());
    }
    insert(alloc, places, name, Kept::read(None, Vec::new(alloc)))
}

// Takes the device of a name to hand it out: the record of its reading, and the bytes that were read. It is not handed
// out again. If it must not be handed out, nothing changes.
#[tactic(auto, using(std::proofs::lemmas::Map::Text::text_keys))]
pub(crate) fn take(places: &mut BTreeMap<String, Kept>, name: &str) -> Option<(Record, Vec<u8>)>
    ensures told { IfSome result (λ dev. told_by dev.0.notes ≡ told_in places.old name.now) }
    ensures read { IfSome result (λ dev. told_by dev.0.notes ≡ read_as dev.1.items) }
    ensures stopped { IsTrue (is_stopped_in places.old name.now) → IsNone result }
    ensures out { OnSome result (IsTrue (is_stopped_in places.new name.now)) }
    ensures others { (n : List ℕ) → n ≢ name.now → get_by_text places.new n ≡ get_by_text places.old n }
    ensures same { (n : List ℕ) → is_placed places.new n ≡ is_placed places.old n }
    ensures unchanged { IfNone result ((n : List ℕ) → told_in places.new n ≡ told_in places.old n) }
{
    let place = places.get_mut(name)?;
    let bytes = place.bytes.take()?;
    let log = mem::replace(&mut place.log, Record::new());
    Some((log, bytes))
}

// Puts a device in the place of the device of a name. If there is no place, it puts nothing.
#[tactic(auto, using(std::proofs::lemmas::Map::Text::text_keys))]
pub(crate) fn put_back(places: &mut BTreeMap<String, Kept>, name: &str, kept: Kept)
    ensures put { IsTrue (is_placed places.old name.now) → get_by_text places.new name.now ≡ Some kept }
    ensures others { (n : List ℕ) → n ≢ name.now → get_by_text places.new n ≡ get_by_text places.old n }
    ensures same { (n : List ℕ) → is_placed places.new n ≡ is_placed places.old n }
{
    if let Some(place) = places.get_mut(name) {
        *place = kept;
    }
}

// Returns whether the device of a name must not be handed out.
pub(crate) fn is_stopped(places: &BTreeMap<String, Kept>, name: &str) -> bool
    ensures { result ≡ is_stopped_in places.now name.now }
{
    match places.get(name) {
        Some(kept) => kept.bytes.is_none(),
        None => false,
    }
}

// Returns which file was read of the device of a name, or `None` if there was none.
pub(crate) fn file_of(places: &BTreeMap<String, Kept>, name: &str) -> Option<FileId>
    ensures { result ≡ file_in places.now name.now }
{
    match places.get(name) {
        Some(kept) => kept.file,
        None => None,
    }
}
