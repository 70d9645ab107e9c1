// Flags of windows: which of them a refresh has evaluated since the last save.
ghost use Rattle.std.specs.Prelude.{◌≡◌, ◌↔◌, ℕ, ◌-◌, ◌+◌, ◌<◌, ◌≤◌, true, false, All, Contains, IfOk, OnOk, filter, length, replicate, vec_capacity};
ghost use Rattle.std.specs.List.{range_with_len};
ghost use Rattle.group_book.specs.Told.{is_unsaved};

use std::alloc::Global;
use trend_num::WantOfMemory;

// How many flags are looked at together.
const BLOCK: usize = 1024;

// Returns so many flags, none of them set.
pub(crate) fn no_flags(alloc: Global, windows: u32) -> Result<Vec<bool>, WantOfMemory>
    ensures { IfOk result (λ v. v.items ≡ replicate windows false) }
{
    Ok(vec![in alloc; false; windows as usize]?)
}

// Sets the flags of these windows, as far as they have flags.
pub(crate) fn set_flags(flags: &mut [bool], windows: &[u32])
    ensures set { (k : ℕ) → Contains windows.now k → is_unsaved flags.new k ≡ true }
    ensures others { (k : ℕ) → (Contains windows.now k → ⊥) → is_unsaved flags.new k ≡ is_unsaved flags.old k }
{
    for k in windows {
        let k = *k as usize;
        if k < flags.len() {
            flags[k] = true;
        }
    }
}

// Makes room for so many flags.
pub(crate) fn room_for_flags(flags: &mut Vec<bool>, windows: usize) -> Result<(), WantOfMemory>
    ensures same { flags.new.items ≡ flags.old.items }
    ensures room { OnOk result (windows ≤ vec_capacity flags.new) }
{
    Ok(flags.reserve(windows.saturating_sub(flags.len()))?)
}

// Makes so many flags of these, none of them set. There is room for them.
pub(crate) fn clear_flags(flags: &mut Vec<bool>, windows: usize)
    requires { windows ≤ vec_capacity flags.old }
    ensures { flags.new.items ≡ replicate windows false }
{
    flags.clear();
    let _ = flags.resize(windows, false);
}

// Lists the windows whose saved values may be old, in rising order: those whose flag is set, and those without a flag.
pub(crate) fn unsaved_windows(
    alloc: Global,
    flags: &[bool],
    windows: u32,
) -> Result<Vec<u32>, WantOfMemory>
    requires { length flags.now ≤ windows }
    ensures { IfOk result (λ v. v.items ≡ filter (is_unsaved flags.now) (range_with_len 0 windows)) }
{
    let mut listed = Vec::new(alloc);
    let mut from = 0;
    while from < flags.len() {
        let to = flags.len().min(from + BLOCK);
        if has_set(&flags[from..to]) {
            add_unsaved(&mut listed, flags, from as u32, to as u32)?;
        }
        from = to;
    }
    add_unsaved(&mut listed, flags, flags.len() as u32, windows)?;
    Ok(listed)
}

// Adds the windows from one to another whose flag is set, or that have no flag.
fn add_unsaved(
    listed: &mut Vec<u32>,
    flags: &[bool],
    from: u32,
    to: u32,
) -> Result<(), WantOfMemory>
    requires rises { from ≤ to }
    requires listed { listed.old.items ≡ filter (is_unsaved flags.now) (range_with_len 0 from) }
    ensures { OnOk result (listed.new.items ≡ filter (is_unsaved flags.now) (range_with_len 0 to)) }
{
    for k in from..to {
        if is_unsaved(flags, k as usize) {
            listed.push(k)?;
        }
    }
    Ok(())
}

// Whether a window has no flag, or one that is set.
fn is_unsaved(flags: &[bool], k: usize) -> bool
    ensures { result ≡ is_unsaved flags.now k }
{
    match flags.get(k) {
        Some(flag) => *flag,
        None => true,
    }
}

// Whether one of these flags is set.
fn has_set(flags: &[bool]) -> bool
    ensures { result ≡ false ↔ All (λ flag. flag ≡ false) flags.now }
{
    let mut set = false;
    for flag in flags {
        set = set | *flag;
    }
    set
}
