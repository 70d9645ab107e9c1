// Taking devices from a store under a brand, and giving them back.
ghost use Rattle.std.specs.Prelude.{◌≡◌, ◌≢◌, ℕ, List, Some, IfOk, IfSome, IsSome, OnOk, OnErr, IsTrue};
ghost use Rattle.disk_model.specs.{HasCause, sum_of_counts, FitsName};
ghost use Rattle.branded_disk.specs.Pasts.{IsUnused, branded};

use crate::begun::Begun;
use crate::branded::Branded;
use disk_model::{Disk, Failed, Store};
use std::marker::PhantomData;

/// Takes the device of a name from a store, and makes it if there is none. If it is told what the device was when the
/// command began, it has to be that still.
pub fn take<K: Begun, S: Store>(store: &mut S, name: &str) -> Result<Branded<S::Dev, K>, Failed>
    requires { IsUnused K.before (S.device_at store.old) name.now }
    ensures told { IfOk result (λ dev. (branded S.Dev.device K.before dev).trace ≡ S.device_at store.old name.now) }
    ensures named { IfOk result (λ dev. (branded S.Dev.device K.before dev).handed.name ≡ Some name.now) }
    ensures begun { IfOk result (λ dev. (branded S.Dev.device K.before dev).handed.trace ≡ K.before name.now) }
    ensures unused { IfOk result (λ dev. IfSome (branded S.Dev.device K.before dev).handed.trace
        (λ t. (branded S.Dev.device K.before dev).trace ≡ t)) }
    ensures faultless { IfOk result (λ dev. (branded S.Dev.device K.before dev).faults ≡ 0) }
    ensures place { OnOk result (IsTrue (S.has_place store.new name.now)) }
    ensures places { (n : List ℕ) → IsTrue (S.has_place store.old n) → IsTrue (S.has_place store.new n) }
    ensures other_places { (n : List ℕ) → n ≢ name.now → S.has_place store.new n ≡ S.has_place store.old n }
    ensures others { (n : List ℕ) → n ≢ name.now → S.device_at store.new n ≡ S.device_at store.old n }
    ensures unchanged { OnErr result ((n : List ℕ) → S.device_at store.new n ≡ S.device_at store.old n) }
    ensures cause { HasCause (S.fault_count store.old) (S.fault_count store.new) result }
{
    let dev = store.device(name)?;
    Ok(Branded {
        dev,
        of: PhantomData,
    })
}

/// Gives the device of a name back to a store. It was handed out under some name. It has to be this one: of a device of
/// another name, no clause says what the store then has there.
pub fn give_back<K: Begun, S: Store>(store: &mut S, name: &str, dev: Branded<S::Dev, K>)
    requires { IsTrue (S.has_place store.old name.now) }
    ensures told { FitsName name.now (branded S.Dev.device K.before dev).handed
        → S.device_at store.new name.now ≡ (branded S.Dev.device K.before dev).trace }
    ensures named { IsSome (branded S.Dev.device K.before dev).handed.name }
    ensures places { (n : List ℕ) → IsTrue (S.has_place store.old n) → IsTrue (S.has_place store.new n) }
    ensures other_places { (n : List ℕ) → n ≢ name.now → S.has_place store.new n ≡ S.has_place store.old n }
    ensures others { (n : List ℕ) → n ≢ name.now → S.device_at store.new n ≡ S.device_at store.old n }
    ensures counted { S.fault_count store.new
        ≡ sum_of_counts (S.fault_count store.old) (branded S.Dev.device K.before dev).faults }
{
    let Branded { dev, of: _ } = dev;
    store.give_back(name, dev);
}
