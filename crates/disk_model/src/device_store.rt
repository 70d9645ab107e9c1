// Devices by name.
ghost use Rattle.std.specs.Prelude.{◌≡◌, ◌≢◌, ℕ, List, Bool, Some, IfOk, IfSome, OnOk, OnErr, IsTrue};
ghost use Rattle.disk_model.specs.Traces.{FitsName, Trace};
ghost use Rattle.disk_model.specs.Calls.{HasCause, sum_of_counts};

use crate::{Disk, Failed};

/// Something that keeps devices by name, and may fail at any call.
pub trait Store {
    /// A device that the store hands out. It may go to another thread.
    type Dev: Disk + Send;

    /// The trace of the device of a name.
    ghost device_at: { Self → List ℕ → Trace };

    /// There is a place for the device of this name, which a call of `device` has made.
    ghost has_place: { Self → List ℕ → Bool };

    /// How often a call of the store, or of a device that was given back, has failed.
    ghost fault_count: { Self → ℕ };

    /// Hands out the device of a name, and makes it if there is none. The device keeps that name. Until it is given
    /// back, no clause says what the store has there.
    fn device(&mut self, name: &str) -> Result<Self::Dev, Failed>
        ensures told { IfOk result (λ dev. (Self.Dev.device dev).trace ≡ device_at self.old name.now) }
        ensures named { IfOk result (λ dev. (Self.Dev.device dev).handed.name ≡ Some name.now) }
        ensures unused { IfOk result (λ dev. IfSome (Self.Dev.device dev).handed.trace (λ t. (Self.Dev.device dev).trace ≡ t)) }
        ensures faultless { IfOk result (λ dev. (Self.Dev.device dev).faults ≡ 0) }
        ensures place { OnOk result (IsTrue (has_place self.new name.now)) }
        ensures places { (n : List ℕ) → IsTrue (has_place self.old n) → IsTrue (has_place self.new n) }
        ensures other_places { (n : List ℕ) → n ≢ name.now → has_place self.new n ≡ has_place self.old n }
        ensures others { (n : List ℕ) → n ≢ name.now → device_at self.new n ≡ device_at self.old n }
        ensures unchanged { OnErr result ((n : List ℕ) → device_at self.new n ≡ device_at self.old n) }
        ensures cause { HasCause (fault_count self.old) (fault_count self.new) result };

    /// Takes back the device of a name, and adds its faults to the store's. The name has to be the one under which the
    /// device was handed out: of a device of another name, no clause says what the store then has there.
    fn give_back(&mut self, name: &str, dev: Self::Dev)
        requires { IsTrue (has_place self.old name.now) }
        ensures told { FitsName name.now (Self.Dev.device dev).handed → device_at self.new name.now ≡ (Self.Dev.device dev).trace }
        ensures places { (n : List ℕ) → IsTrue (has_place self.old n) → IsTrue (has_place self.new n) }
        ensures other_places { (n : List ℕ) → n ≢ name.now → has_place self.new n ≡ has_place self.old n }
        ensures others { (n : List ℕ) → n ≢ name.now → device_at self.new n ≡ device_at self.old n }
        ensures counted { fault_count self.new
            ≡ sum_of_counts (fault_count self.old) (Self.Dev.device dev).faults };
}
