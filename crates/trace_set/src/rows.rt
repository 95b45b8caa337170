//! Rows of edges, which know of each edge how often it is in them.
ghost use Rattle.std.specs.Prelude.{◌≡◌, ◌+◌, ◌<◌, ◌≤◌, ◌^◌, true, false, [], length, slice_index_or, slice_set, None, Some, IfOk, OnOk, OnErr};
ghost use Rattle.link_table.specs.declared.links.LinkError.TheVariants as refusals;
ghost use Rattle.trace_file.specs.declared.limits.TheConstants.{EDGE_LIMIT};
ghost use Rattle.trace_file.specs.Edges.{IsEdges, IsSetOf, pairs};
ghost use Rattle.trace_set.specs.Rows.{IsKept, Reaches, shown_rows, edge_at, column_of, uses_in, put_edge, behead};

use br_word::Steps;
use link_table::{LinkError, Links};
use std::alloc::{AllocError, Global};
use std::collections::BTreeMap;
use trace_file::Edges;

/// Rows of edges.
///
/// A node of the links stands for one edge of a row. Its value is its column, and a column has the nodes of
/// one edge, so the length of the column says how often the edge is there.
#[derive(Drop)]
pub struct EdgeRows {
    /// The nodes of each row and of each column.
    links: Links,
    /// How many rows there are.
    count: u32,
    /// The edge of each column.
    columns: Vec<(u32, u32)>,
    /// The column of each edge that some row has.
    names: BTreeMap<(u32, u32), u32>,
    /// The columns of no edge. There is room for all columns, so a column becomes spare without memory.
    spare: Vec<u32>,
}

/// The error for want of memory: the links never are full here.
fn want_of_memory(error: LinkError) -> AllocError
    requires { error ≡ refusals.Memory }
{
    let _ = error;
    AllocError
}

impl EdgeRows {
    /// No rows. It takes no memory.
    pub fn new(alloc: Global) -> EdgeRows
        ensures kept { IsKept result }
        ensures rows { shown_rows result ≡ [] }
    {
        EdgeRows {
            links: Links::new(alloc),
            count: 0,
            columns: Vec::new(alloc),
            names: BTreeMap::new(alloc),
            spare: Vec::new(alloc),
        }
    }

    /// Sees that there is the row `row`, which may be the next one; a new row is empty.
    pub fn reach(&mut self, row: u32) -> Result<(), AllocError>
        requires kept { IsKept self.old }
        requires row { row ≤ length (shown_rows self.old) }
        requires room { row < 2 ^ 24 }
        ensures kept { IsKept self.new }
        ensures rows { Reaches (shown_rows self.old) row (shown_rows self.new) }
        ensures ok { OnOk result (row < length (shown_rows self.new)) }
    {
        if self.count > row {
            return Ok(());
        }
        self.links.facts();
        match self.links.fresh_row() {
            Ok(_) => {
                self.count += 1;
                Ok(())
            }
            Err(error) => Err(want_of_memory(error)),
        }
    }

    /// Sees that there is a spare column. The rows stay.
    fn see_spare(&mut self) -> Result<(), AllocError>
        requires kept { IsKept self.old }
        requires room { pairs (shown_rows self.old) < 2 ^ 24 }
        ensures kept { IsKept self.new }
        ensures rows { shown_rows self.new ≡ shown_rows self.old }
        ensures links { self.new.links.rows ≡ self.old.links.rows }
        ensures names { self.new.names ≡ self.old.names }
        ensures ok { OnOk result (0 < length self.new.spare.items) }
    {
        if self.spare.len() > 0 {
            return Ok(());
        }
        let _ordered = self.names.len();
        self.links.facts();
        self.spare.reserve(self.columns.len() + 1)?;
        self.columns.push((0, 0))?;
        match self.links.fresh_column() {
            Ok(column) => {
                self.spare.push_reserved(column);
                Ok(())
            }
            Err(error) => {
                let _ = self.columns.pop();
                Err(want_of_memory(error))
            }
        }
    }

    /// Puts an edge last in a row, in its column. After an error the rows are as before.
    fn put_again(&mut self, row: u32, column: u32) -> Result<(), AllocError>
        requires kept { IsKept self.old }
        requires row { row < length self.old.links.rows }
        requires room { pairs (shown_rows self.old) < 2 ^ 24 }
        requires column { column_of self.old.names (edge_at self.old.columns.items column) ≡ Some column }
        ensures kept { IsKept self.new }
        ensures ok { OnOk result (shown_rows self.new ≡ put_edge (shown_rows self.old) row (edge_at self.old.columns.items column)) }
        ensures err { OnErr result (shown_rows self.new ≡ shown_rows self.old) }
    {
        self.links.facts();
        match self.links.add(row, column, column as u64) {
            Ok(_) => Ok(()),
            Err(error) => Err(want_of_memory(error)),
        }
    }

    /// Puts an edge that no row has last in a row, in a spare column. After an error the rows are as before.
    fn put_first(&mut self, row: u32, edge: (u32, u32)) -> Result<(), AllocError>
        requires kept { IsKept self.old }
        requires row { row < length self.old.links.rows }
        requires room { pairs (shown_rows self.old) < 2 ^ 24 }
        requires edge { column_of self.old.names edge ≡ None }
        requires spare { 0 < length self.old.spare.items }
        ensures kept { IsKept self.new }
        ensures ok { OnOk result (shown_rows self.new ≡ put_edge (shown_rows self.old) row edge) }
        ensures err { OnErr result (shown_rows self.new ≡ shown_rows self.old) }
    {
        self.links.facts();
        let column = self.spare[self.spare.len() - 1];
        self.columns[column as usize] = edge;
        self.names.insert(edge, column)?;
        match self.links.add(row, column, column as u64) {
            Ok(_) => {
                let _ = self.spare.pop();
                Ok(())
            }
            Err(error) => {
                let _ = self.names.remove(&edge);
                Err(want_of_memory(error))
            }
        }
    }

    /// Puts an edge last in a row. After an error the rows are as before.
    pub fn put(&mut self, row: u32, edge: (u32, u32)) -> Result<(), AllocError>
        requires kept { IsKept self.old }
        requires row { row < length (shown_rows self.old) }
        requires room { pairs (shown_rows self.old) < 2 ^ 24 }
        ensures kept { IsKept self.new }
        ensures ok { OnOk result (shown_rows self.new ≡ put_edge (shown_rows self.old) row edge) }
        ensures err { OnErr result (shown_rows self.new ≡ shown_rows self.old) }
    {
        let column = self.names.get(&edge).copied();
        match column {
            Some(column) => self.put_again(row, column),
            None => {
                self.see_spare()?;
                self.put_first(row, edge)
            }
        }
    }

    /// Takes the first edge of a row out, and answers whether there is one. It takes no memory.
    fn take_first(&mut self, row: u32) -> bool
        requires kept { IsKept self.old }
        requires row { row < length (shown_rows self.old) }
        ensures kept { IsKept self.new }
        ensures rows { shown_rows self.new ≡ behead (shown_rows self.old) row }
        ensures some { result ≡ true → 0 < length (slice_index_or (shown_rows self.old) row []) }
        ensures none { result ≡ false → slice_index_or (shown_rows self.old) row [] ≡ [] }
    {
        self.links.facts();
        let first = self.links.row(row).next();
        match first {
            None => false,
            Some((node, value)) => {
                let column = value as u32;
                self.links.unlink(node);
                self.links.facts();
                if self.links.column(column).next().is_some() {
                    return true;
                }
                let edge = self.columns[column as usize];
                let _ = self.names.remove(&edge);
                self.spare.push_reserved(column);
                true
            }
        }
    }

    /// Takes all edges of a row out, with one step each, and answers how many there were. It takes no memory.
    pub fn clear_row<L>(&mut self, row: u32, steps: &mut Steps<L>) -> u32
        requires kept { IsKept self.old }
        requires row { row < length (shown_rows self.old) }
        requires few { pairs (shown_rows self.old) ≤ EDGE_LIMIT }
        ensures kept { IsKept self.new }
        ensures rows { shown_rows self.new ≡ slice_set (shown_rows self.old) row [] }
        ensures count { result ≡ length (slice_index_or (shown_rows self.old) row []) }
        ensures steps { steps.new ≡ steps.old + length (slice_index_or (shown_rows self.old) row []) }
    {
        let mut count = 0;
        while self.take_first(row) {
            steps.tick();
            count += 1;
        }
        count
    }

    /// How often the rows have the edge.
    pub fn count(&self, edge: (u32, u32)) -> u32
        requires { IsKept self.now }
        ensures { result ≡ uses_in edge (shown_rows self.now) }
    {
        self.links.facts();
        match self.names.get(&edge) {
            None => 0,
            Some(column) => self.links.column(*column).count() as u32,
        }
    }

    /// The edges that some row has, in order.
    pub fn edges(&self) -> Result<Edges, AllocError>
        requires { IsKept self.now }
        ensures edges { IfOk result IsEdges }
        ensures value { IfOk result (IsSetOf (λ e. 0 < uses_in e (shown_rows self.now))) }
    {
        self.links.facts();
        let _ordered = self.names.len();
        let alloc = *self.spare.allocator();
        let list: Vec<(u32, u32)> = self.names.keys().copied().collect(alloc)?;
        Ok(Edges::of_list(list))
    }
}
