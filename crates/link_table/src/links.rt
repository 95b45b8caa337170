//! Nodes that hang in a row and in a column each.
ghost use Rattle.std.specs.Prelude.{◌≡◌, ℕ, ◌+◌, ◌<◌, ◌≤◌, ◌^◌, ◌↔◌, Bool, true, false, List, [], ◌∷◌, ◌++◌, length, slice_index_or, slice_set, IfSome, OnOk, OnErr, IfOk};
ghost use Rattle.std.specs.Result.{IsErrAnd};
ghost use Rattle.link_table.specs.Circles.{Family};
ghost use Rattle.link_table.specs.Table.{row_lists, IsLinked, put_entry, all_others, entries_in, count_in, all_entries, all_but, first_node, IsCrossed};

use crate::chains::Chains;
use crate::room::{free_list, free_node, make_room, new_row};
use crate::walk::{ColumnWalk, RowWalk, Walk};
use br_word::Steps;
use std::alloc::{AllocError, Global};
use std::marker::Model;
use thiserror::Error;

/// The most live nodes, and the most row names and the most column names that are ever given.
pub const LIMIT: u32 = 16777216;

/// Why a table of links refuses.
#[derive(Debug, PartialEq, Eq, Drop, Error)]
pub enum LinkError {
    /// There are [`LIMIT`] live nodes, or [`LIMIT`] names of the kind were given.
    #[error("limit links 16777216")]
    Full,
    /// Want of memory.
    #[error("out of memory")]
    Memory,
}

impl From<AllocError> for LinkError {
    ghost use Rattle.std.specs.Prelude.{◌≡◌};
    ghost use Rattle.link_table.specs.declared.links.LinkError.TheVariants.{Memory};

    ghost from_gives = { λ _ e. e ≡ Memory };

    fn from(_: AllocError) -> LinkError {
        LinkError::Memory
    }
}

/// Rows and columns of nodes, each node with a value. A node hangs in one row and in one column.
///
/// It is seen as two maps, from the names of rows and from the names of columns to lists of (node, value):
/// names are given in turn from 0, so each map is the list of its lists. `alive` says of each row whether
/// its name is not given up; a row that is given up is empty.
#[derive(Drop)]
pub struct Links {
    /// The free nodes, and then the nodes of each row.
    rows: Chains,
    /// The nodes of each column.
    columns: Chains,
    /// Whether each row's name is not given up.
    alive: Vec<bool>,
    /// The value of each node.
    values: Vec<u64>,
    /// How many slots are a head or a node.
    used: u32,
    /// How many nodes are live.
    live: u32,
}

impl Model for Links {
    ghost use Rattle.std.specs.Prelude.{length};
    ghost use Rattle.link_table.specs.Table.{Table, row_lists, all_entries, IsLinked};

    ghost Value = { Table };

    ghost view = { λ t. record { alive = t.alive.items; rows = all_entries t.values.items (row_lists t.rows); columns = all_entries t.values.items t.columns.lists } };

    ghost invariant = { λ t. IsLinked t.rows t.columns t.alive.items t.values.items t.used t.live };
}

impl Links {
    /// No rows, no columns and no nodes. It takes no memory.
    pub fn new(alloc: Global) -> Links
        ensures { result ≡ record { alive = []; rows = []; columns = [] } }
    {
        Links {
            rows: Chains::new(alloc),
            columns: Chains::new(alloc),
            alive: Vec::new(alloc),
            values: Vec::new(alloc),
            used: 0,
            live: 0,
        }
    }

    /// What holds of rows and columns together: they have the same nodes, each once, with the same values.
    pub fn facts(&self)
        ensures { IsCrossed self.now }
    {
        self.rows.facts();
        self.columns.facts();
    }

    /// One more row, which is empty; its name is the number of row names given before.
    ///
    /// Errors: [`LinkError::Full`] exactly where [`LIMIT`] row names were ever given,
    /// [`LinkError::Memory`] for want of memory. After an error the table is as before.
    pub fn fresh_row(&mut self) -> Result<u32, LinkError>
        ensures full { IsErrAnd result (λ e. e ≡ LinkError.Full) ↔ (length self.old.rows ≡ 2 ^ 24) }
        ensures name { IfOk result (λ row. row ≡ length self.old.rows) }
        ensures ok { OnOk result (self.new ≡ record self.old { alive = self.old.alive ++ true ∷ []; rows = self.old.rows ++ [] ∷ [] }) }
        ensures err { OnErr result (self.new ≡ self.old) }
    {
        let row = self.alive.len();
        if row == LIMIT as usize {
            return Err(LinkError::Full);
        }
        let live = self.live;
        free_list(
            &mut self.rows,
            &mut self.columns,
            &mut self.values,
            &mut self.used,
            &self.alive,
            live,
        )?;
        self.rows.facts();
        new_row(
            &mut self.rows,
            &mut self.columns,
            &mut self.values,
            &mut self.used,
            &mut self.alive,
            live,
        )?;
        Ok(row as u32)
    }

    /// One more column, which is empty; its name is the number of column names given before.
    ///
    /// Errors: [`LinkError::Full`] exactly where [`LIMIT`] column names were ever given,
    /// [`LinkError::Memory`] for want of memory. After an error the table is as before.
    pub fn fresh_column(&mut self) -> Result<u32, LinkError>
        ensures full { IsErrAnd result (λ e. e ≡ LinkError.Full) ↔ (length self.old.columns ≡ 2 ^ 24) }
        ensures name { IfOk result (λ column. column ≡ length self.old.columns) }
        ensures ok { OnOk result (self.new ≡ record self.old { columns = self.old.columns ++ [] ∷ [] }) }
        ensures err { OnErr result (self.new ≡ self.old) }
    {
        let column = self.columns.lists();
        if column == LIMIT as usize {
            return Err(LinkError::Full);
        }
        let slot = self.used;
        make_room(&mut self.rows, &mut self.columns, &mut self.values, slot)?;
        self.columns.facts();
        self.columns.push_list(slot)?;
        self.used = slot + 1;
        Ok(column as u32)
    }

    /// Puts a new node with the value last in a row and in a column, whose names are live. The node was
    /// not live before.
    ///
    /// Errors: [`LinkError::Full`] exactly where there are [`LIMIT`] live nodes,
    /// [`LinkError::Memory`] for want of memory. After an error the table is as before.
    pub fn add(&mut self, row: u32, column: u32, value: u64) -> Result<u32, LinkError>
        requires row { slice_index_or self.old.alive row false ≡ true }
        requires column { column < length self.old.columns }
        ensures full { IsErrAnd result (λ e. e ≡ LinkError.Full) ↔ (count_in self.old.rows ≡ 2 ^ 24) }
        ensures fresh { IfOk result (λ node. entries_in node self.old.rows ≡ 0) }
        ensures ok { IfOk result (λ node. self.new ≡ record self.old { rows = put_entry self.old.rows row (node, value); columns = put_entry self.old.columns column (node, value) }) }
        ensures err { OnErr result (self.new ≡ self.old) }
    {
        if self.live == LIMIT {
            return Err(LinkError::Full);
        }
        let node = free_node(
            &mut self.rows,
            &mut self.columns,
            &mut self.values,
            &mut self.used,
            &self.alive,
            self.live,
        )?;
        self.rows.facts();
        self.values[node as usize] = value;
        self.rows.take_out(node);
        self.rows.put_last(row as usize + 1, node);
        self.columns.put_last(column as usize, node);
        self.live += 1;
        Ok(node)
    }

    /// Takes a live node out of its row and its column. All others stay in order. It takes no memory.
    pub fn unlink(&mut self, node: u32)
        requires { 0 < entries_in node self.old.rows }
        ensures { self.new ≡ record self.old { rows = all_others node self.old.rows; columns = all_others node self.old.columns } }
    {
        self.rows.facts();
        self.columns.facts();
        self.rows.take_out(node);
        self.rows.put_last(0, node);
        self.columns.take_out(node);
        self.live -= 1;
    }

    /// The first node of a row.
    fn first_in_row(&self, row: u32) -> Option<u32>
        requires { row < length self.now.rows }
        ensures first { result ≡ first_node (slice_index_or self.now.rows row []) }
        ensures once { IfSome result (λ node. entries_in node self.now.rows ≡ 1) }
    {
        self.rows.first(row as usize + 1)
    }

    /// Takes each node of a live row out, with one step each, and gives the row's name up. All other
    /// nodes stay in order. It takes no memory.
    pub fn drop_row<L>(&mut self, row: u32, steps: &mut Steps<L>)
        requires alive { slice_index_or self.old.alive row false ≡ true }
        requires row { row < length self.old.rows }
        ensures dropped { let entries = slice_index_or self.old.rows row [] in
            self.new ≡ record { alive = slice_set self.old.alive row false; rows = all_but entries self.old.rows; columns = all_but entries self.old.columns } }
        ensures ticks { steps.new ≡ steps.old + length (slice_index_or self.old.rows row []) }
    {
        while let Some(node) = self.first_in_row(row) {
            steps.tick();
            self.unlink(node);
        }
        self.alive[row as usize] = false;
    }
    /// The nodes of a live row with their values, from first to last.
    pub fn row(&self, row: u32) -> RowWalk<'_>
        requires { slice_index_or self.now.alive row false ≡ true }
        ensures { result ≡ slice_index_or self.now.rows row [] }
    {
        Walk::of(self.rows.walk(row as usize + 1), self.values.as_slice())
    }

    /// The nodes of a column with their values, from first to last.
    pub fn column(&self, column: u32) -> ColumnWalk<'_>
        requires { column < length self.now.columns }
        ensures { result ≡ slice_index_or self.now.columns column [] }
    {
        Walk::of(self.columns.walk(column as usize), self.values.as_slice())
    }
}
