//! Keys that are as before.
ghost use Rattle.std.specs.Prelude.{◌≡◌, ◌<◌, ◌≤◌, true, List, All, drop, length, slice_index_or};
ghost use Rattle.std.specs.List.Sorted.{IsStrictlyIncreasing};
ghost use Rattle.ssa_form.specs.declared.form.BlockKey.{BlockKey};
ghost use Rattle.session_core.specs.Session.{same_exits, same_key, is_kept, fresh};
ghost use Rattle.session_core.specs.Kept.{starts_of_keys};

use ssa_form::BlockKey;

/// Whether two lists of exits are the same.
fn same_exits(left: &[(u32, u16)], right: &[(u32, u16)]) -> bool
    ensures { result ≡ same_exits left.now right.now }
{
    if left.len() != right.len() {
        return false;
    }
    for index in 0..left.len() {
        if left[index] != right[index] {
            return false;
        }
    }
    true
}

/// Whether two keys are the same.
fn same_key(left: &BlockKey, right: &BlockKey) -> bool
    ensures { result ≡ same_key left.now right.now }
{
    left.start == right.start && same_exits(left.exits.as_slice(), right.exits.as_slice())
}

/// The first place from `from` on whose key does not start below an address. What is passed is no key that starts there or above.
pub fn place_from(keys: &[BlockKey], from: usize, start: u32) -> usize
    requires { from ≤ length keys.now }
    ensures within { result ≤ length keys.now }
    ensures reached { (key : BlockKey) → result < length keys.now → start ≤ (slice_index_or keys.now result key).start }
    ensures rest { (later : List BlockKey) → All (λ (k : BlockKey). start ≤ k.start) later →
        fresh (drop result keys.now) later ≡ fresh (drop from keys.now) later }
{
    for at in from..keys.len() {
        if start <= keys[at].start {
            return at;
        }
    }
    keys.len()
}

/// Whether a key is among those from a place on, the first of which does not start below it.
pub fn is_kept(keys: &[BlockKey], at: usize, key: &BlockKey) -> bool
    requires order { IsStrictlyIncreasing (starts_of_keys keys.now) }
    requires within { at ≤ length keys.now }
    requires reached { at < length keys.now → key.now.start ≤ (slice_index_or keys.now at key.now).start }
    ensures value { result ≡ is_kept key.now (drop at keys.now) }
    ensures there { result ≡ true → (at < length keys.now) × (slice_index_or keys.now at key.now ≡ key.now) }
{
    if at == keys.len() {
        return false;
    }
    same_key(&keys[at], key)
}
