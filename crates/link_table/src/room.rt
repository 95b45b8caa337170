//! Room for further slots, nodes and names.
ghost use Rattle.std.specs.Prelude.{◌≡◌, ℕ, ◌+◌, ◌<◌, ◌≤◌, ◌^◌, Bool, true, List, [], ◌∷◌, ◌++◌, length, slice_index, OnOk, OnErr, IfOk};
ghost use Rattle.link_table.specs.Circles.{Family, times_in};
ghost use Rattle.link_table.specs.Table.{row_lists, IsLinked};

use crate::chains::Chains;
use std::alloc::AllocError;

/// Sees that there is a value at `slot`, which may be the next one.
fn reach_value(values: &mut Vec<u64>, slot: u32) -> Result<(), AllocError>
    requires { slot ≤ length values.old.items }
    ensures same { (k : ℕ) → k < length values.old.items → slice_index values.new.items k ≡ slice_index values.old.items k }
    ensures grows { length values.old.items ≤ length values.new.items }
    ensures ok { OnOk result (slot < length values.new.items) }
{
    if values.len() == slot as usize {
        values.push(0)?;
    }
    Ok(())
}

/// Sees that there is the slot `slot` everywhere.
pub fn make_room(
    rows: &mut Chains,
    columns: &mut Chains,
    values: &mut Vec<u64>,
    slot: u32,
) -> Result<(), AllocError>
    requires rows { slot ≤ rows.old.slots }
    requires columns { slot ≤ columns.old.slots }
    requires values { slot ≤ length values.old.items }
    ensures rows { rows.new ≡ record rows.old { slots = rows.new.slots } }
    ensures columns { columns.new ≡ record columns.old { slots = columns.new.slots } }
    ensures rows_grow { rows.old.slots ≤ rows.new.slots }
    ensures columns_grow { columns.old.slots ≤ columns.new.slots }
    ensures values { (k : ℕ) → k < length values.old.items → slice_index values.new.items k ≡ slice_index values.old.items k }
    ensures values_grow { length values.old.items ≤ length values.new.items }
    ensures row_slot { OnOk result (slot < rows.new.slots) }
    ensures column_slot { OnOk result (slot < columns.new.slots) }
    ensures value_slot { OnOk result (slot < length values.new.items) }
{
    rows.reach(slot)?;
    columns.reach(slot)?;
    reach_value(values, slot)
}

/// The first of the free nodes; there is one afterwards. The rows and columns stay.
pub fn free_node(
    rows: &mut Chains,
    columns: &mut Chains,
    values: &mut Vec<u64>,
    used: &mut u32,
    alive: &Vec<bool>,
    live: u32,
) -> Result<u32, AllocError>
    requires linked { IsLinked rows.old columns.old alive.now.items values.old.items used.old live }
    requires lists { 0 < length rows.old.lists }
    requires room { live < 2 ^ 24 }
    ensures linked { IsLinked rows.new columns.new alive.now.items values.new.items used.new live }
    ensures lists { length rows.new.lists ≡ length rows.old.lists }
    ensures rows { row_lists rows.new ≡ row_lists rows.old }
    ensures columns { columns.new.lists ≡ columns.old.lists }
    ensures values { (k : ℕ) → k < length values.old.items → slice_index values.new.items k ≡ slice_index values.old.items k }
    ensures used { used.old ≤ used.new }
    ensures node { IfOk result (λ node. (0 < times_in node rows.new.lists) × (times_in node (row_lists rows.new) ≡ 0)) }
{
    rows.facts();
    if let Some(node) = rows.first(0) {
        return Ok(node);
    }
    let slot = *used;
    make_room(rows, columns, values, slot)?;
    rows.put_last(0, slot);
    *used = slot + 1;
    Ok(slot)
}

/// Sees that there is the list of the free nodes. The rows and columns stay.
pub fn free_list(
    rows: &mut Chains,
    columns: &mut Chains,
    values: &mut Vec<u64>,
    used: &mut u32,
    alive: &Vec<bool>,
    live: u32,
) -> Result<(), AllocError>
    requires linked { IsLinked rows.old columns.old alive.now.items values.old.items used.old live }
    ensures linked { IsLinked rows.new columns.new alive.now.items values.new.items used.new live }
    ensures lists { OnOk result (0 < length rows.new.lists) }
    ensures rows { row_lists rows.new ≡ row_lists rows.old }
    ensures columns { columns.new.lists ≡ columns.old.lists }
    ensures values { (k : ℕ) → k < length values.old.items → slice_index values.new.items k ≡ slice_index values.old.items k }
{
    if rows.lists() > 0 {
        return Ok(());
    }
    let slot = *used;
    make_room(rows, columns, values, slot)?;
    rows.facts();
    rows.push_list(slot)?;
    *used = slot + 1;
    Ok(())
}

/// One more row, which is empty and alive. After an error the rows and columns are as before.
pub fn new_row(
    rows: &mut Chains,
    columns: &mut Chains,
    values: &mut Vec<u64>,
    used: &mut u32,
    alive: &mut Vec<bool>,
    live: u32,
) -> Result<(), AllocError>
    requires linked { IsLinked rows.old columns.old alive.old.items values.old.items used.old live }
    requires lists { 0 < length rows.old.lists }
    requires room { length alive.old.items < 2 ^ 24 }
    ensures linked { IsLinked rows.new columns.new alive.new.items values.new.items used.new live }
    ensures alive { OnOk result (alive.new.items ≡ alive.old.items ++ true ∷ []) }
    ensures alive_stays { OnErr result (alive.new.items ≡ alive.old.items) }
    ensures rows { OnOk result (row_lists rows.new ≡ row_lists rows.old ++ [] ∷ []) }
    ensures rows_stay { OnErr result (row_lists rows.new ≡ row_lists rows.old) }
    ensures columns { columns.new.lists ≡ columns.old.lists }
    ensures values { (k : ℕ) → k < length values.old.items → slice_index values.new.items k ≡ slice_index values.old.items k }
{
    let slot = *used;
    make_room(rows, columns, values, slot)?;
    rows.facts();
    alive.push(true)?;
    if rows.push_list(slot).is_err() {
        let _ = alive.pop();
        return Err(AllocError);
    }
    *used = slot + 1;
    Ok(())
}
