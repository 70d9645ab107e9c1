// What an image of a tag's device recovers, and that it is not damaged then.
ghost use Rattle.std.specs.Prelude.{◌≡◌, ℕ, List, Option};
ghost use Rattle.trend_num.specs.{TagDef};
ghost use Rattle.trend_model.specs.State.{State};
ghost use Rattle.device_layout.specs.Recovery.{Recovers};
ghost use Rattle.device_layout.specs.Damages.{IsTagDamage};

/// An image of a tag's device recovers at most one state: no records, no summary and no value have two spellings.
pub fn one_state_is_recovered()
    ensures { (def : TagDef) (c : List ℕ) (s r : State) → Recovers def c s → Recovers def c r → s ≡ r }
{}

/// What recovers is not damaged. So if a device recovered at every moment, what a crash left of it is never refused as
/// damaged.
pub fn what_recovers_is_not_damaged()
    ensures { (def : TagDef) (c : List ℕ) (s : State) (a : ℕ) (byte : Option ℕ) → Recovers def c s
        → IsTagDamage def c a byte → ⊥ }
{}

/// A device has at most one damage: one place, and the byte there.
pub fn one_damage_is_told()
    ensures { (def : TagDef) (c : List ℕ) (a b : ℕ) (byte other : Option ℕ) → IsTagDamage def c a byte
        → IsTagDamage def c b other → (a ≡ b) × (byte ≡ other) }
{}
