// What opening makes of a device, and which history that stands for.
ghost use Rattle.std.specs.Prelude.{◌⊎◌, ℕ, List, ◌∷◌};
ghost use Rattle.trend_num.specs.{TagDef};
ghost use Rattle.trend_model.specs.{Event, Origin, Tune};
ghost use Rattle.trend_model.specs.State.{State};
ghost use Rattle.device_layout.specs.{Recovers};
ghost use Rattle.crash_recovery.specs.Opening.{IsOpenedAs, RecoversSame};
ghost use Rattle.crash_recovery.specs.TagImages.{ImageStands, StandsOpened};

/// Let a tag's device stand for a history. If the wanted tuning is in force after it, the opened tag stands for that
/// history. Else it stands for that history and a retuning. Each image that recovers what the device recovers, or that
/// state as it is opened, stands for that history, or for that history and a retuning.
pub fn an_opened_tag_stands()
    ensures opened { (def : TagDef) (o : Origin) (h : List Event) (c : List ℕ) (s r : State) → ImageStands def o h c
        → Recovers def c s → IsOpenedAs def s r → StandsOpened def o h r }
    ensures images { (def : TagDef) (o : Origin) (h : List Event) (seen c : List ℕ) → ImageStands def o h seen
        → RecoversSame def seen c → ImageStands def o h c ⊎ ImageStands def o (Tune def.tuning ∷ h) c }
{}
