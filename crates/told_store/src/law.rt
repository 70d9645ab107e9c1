// What a device that was just read is.
ghost use Rattle.std.specs.Prelude.{◌≡◌};
ghost use Rattle.disk_model.specs.{Trace, seen, IsSettled};
ghost use Rattle.told_store.specs.Notes.{IsFresh};

/// If no call was made on a device since it was read, a read gives exactly what was read, and so does a crash.
pub fn a_fresh_device_is_what_was_read()
    ensures reads { (t : Trace) → IsFresh t → seen t ≡ t.first }
    ensures settled { (t : Trace) → IsFresh t → IsSettled t }
{}
