//! Graphs.
use crate::block_rows::{BlockRow, rows_of};
use crate::block_starts::blocks_of;
use crate::counting::{changed, counting, targets};
use crate::error::{GraphError, MAX_BLOCKS};
use crate::index_search::index_among;
use block_cut::Cut;
use elf_read::Exe;
use std::alloc::Global;
use std::marker::Model;
use trace_file::{Edges, sets_hold};

/// The control-flow graph of an executable and a set of edges (docs/GRAPH.md): at most [`MAX_BLOCKS`]
/// blocks. It is seen as the edges that count, ascending, the list of its blocks, each with its start and its
/// known exits, both ascending, and how far each block goes.
#[derive(Drop)]
pub struct Graph {
    edges: Vec<(u32, u32)>,
    rows: Vec<BlockRow>,
    // The targets of the edges that count, and then the following starts of blocks.
    targets: Vec<u32>,
}

impl Model for Graph {
    ghost use Rattle.flow_graph.specs.Graph.{GraphView};
    ghost use Rattle.flow_graph.specs.BlockRows.{view_of, IsKept};

    ghost Value = { GraphView };

    ghost view = { λ g. view_of g.edges.items g.targets.items g.rows.items };

    ghost invariant = { λ g. IsKept g.edges.items g.targets.items g.rows.items };
}

impl Graph {
    ghost use Rattle.std.specs.Prelude.{◌≡◌, ℕ, ◌+◌, ◌<◌, ◌≤◌, ◌↔◌, IfOk, IfErr, OnOk, OnErr, Some, length};
    ghost use Rattle.elf_read.specs.declared.exe.Exe.{Exe};
    ghost use Rattle.elf_read.specs.Elf.{IsGuest};
    ghost use Rattle.trace_file.specs.Edges.{IsEdges, without};
    ghost use Rattle.trace_file.specs.declared.limits.TheConstants.{EDGE_LIMIT};
    ghost use Rattle.block_cut.specs.CountedEdges.{counting};
    ghost use Rattle.flow_graph.specs.Graph.{IsGraph, AreCode, HasTooMany, StartsAt, AreCutsOf, node_at, cut_in, cut_at, applied, Applies};
    ghost use Rattle.flow_graph.specs.BlockRows.{AreKnown};
    ghost use Rattle.flow_graph.specs.declared.error.GraphError.TheVariants.{Blocks};

    /// The graph of an executable and edges. Its work grows with their number, and the number and length
    /// of the blocks, times a logarithm. Each block is cut once.
    ///
    /// Errors: [`GraphError::Blocks`] exactly where it would have more than [`MAX_BLOCKS`] blocks, and
    /// [`GraphError::Memory`] for want of memory.
    pub fn of(alloc: Global, exe: &Exe, edges: &Edges) -> Result<Graph, GraphError>
        requires { IsGuest exe.now }
        ensures edges { IfOk result (λ g. g.edges ≡ counting exe.now edges.now) }
        ensures counted { IfOk result (λ g. g.edges ≡ counting exe.now g.edges) }
        ensures graph { IfOk result (λ g. IsGraph exe.now (counting exe.now edges.now) g.nodes) }
        ensures cuts { IfOk result (AreCutsOf exe.now) }
        ensures code { IfOk result (λ g. AreCode exe.now g.nodes) }
        ensures few { IfOk result (λ g. length g.nodes ≤ MAX_BLOCKS) }
        ensures many { IfErr result (λ e. e ≡ Blocks → HasTooMany exe.now (counting exe.now edges.now)) }
    {
        let counted = counting(alloc, exe, edges.as_slice())?;
        let none: [BlockRow; 0] = [];
        Graph::of_counted(alloc, exe, counted, &none)
    }

    /// The graph of edges that count. A start that is known is not cut again. The errors are those of
    /// [`Graph::of`].
    fn of_counted(
        alloc: Global,
        exe: &Exe,
        counted: Vec<(u32, u32)>,
        known: &[BlockRow],
    ) -> Result<Graph, GraphError>
        requires guest { IsGuest exe.now }
        requires edges { IsEdges counted.items }
        requires counted { counted.items ≡ counting exe.now counted.items }
        requires known { AreKnown exe.now known.now }
        ensures edges { IfOk result (λ g. g.edges ≡ counted.items) }
        ensures counted { IfOk result (λ g. g.edges ≡ counting exe.now g.edges) }
        ensures graph { IfOk result (λ g. IsGraph exe.now counted.items g.nodes) }
        ensures cuts { IfOk result (AreCutsOf exe.now) }
        ensures code { IfOk result (λ g. AreCode exe.now g.nodes) }
        ensures few { IfOk result (λ g. length g.nodes ≤ MAX_BLOCKS) }
        ensures many { IfErr result (λ e. e ≡ Blocks → HasTooMany exe.now counted.items) }
    {
        let blocks = match blocks_of(alloc, exe, counted.as_slice(), known) {
            Ok(blocks) => blocks,
            Err(e) => return Err(e),
        };
        let mut targets = targets(alloc, counted.as_slice())?;
        let rows = rows_of(
            alloc,
            exe,
            counted.as_slice(),
            &mut targets,
            blocks.as_slice(),
        )?;
        Ok(Graph {
            edges: counted,
            rows,
            targets,
        })
    }

    /// Makes this graph of an executable, all of whose edges count, the graph of its edges without those that
    /// are `gone` and with those that are `added`, of at most [`EDGE_LIMIT`](trace_file::EDGE_LIMIT) together,
    /// an edge of both counted twice. Only the sites of `added` are decoded, and only blocks whose starts the
    /// graph lacks are cut. All else grows with the number of edges and blocks, times a logarithm.
    ///
    /// Errors: [`GraphError::Blocks`] exactly where it would have more than [`MAX_BLOCKS`] blocks, and
    /// [`GraphError::Memory`] for want of memory. After an error the graph is as before.
    pub fn apply(
        &mut self,
        alloc: Global,
        exe: &Exe,
        added: &Edges,
        gone: &Edges,
    ) -> Result<(), GraphError>
        requires guest { IsGuest exe.now }
        requires graph { IsGraph exe.now self.old.edges self.old.nodes }
        requires counted { self.old.edges ≡ counting exe.now self.old.edges }
        requires cuts { AreCutsOf exe.now self.old }
        requires room { length added.now + length (without gone.now self.old.edges) ≤ EDGE_LIMIT }
        ensures edges { OnOk result (self.new.edges ≡ counting exe.now (applied added.now gone.now self.old.edges)) }
        ensures counted { OnOk result (self.new.edges ≡ counting exe.now self.new.edges) }
        ensures set { OnOk result (Applies exe.now self.old.edges added.now gone.now self.new.edges) }
        ensures graph { OnOk result (IsGraph exe.now self.new.edges self.new.nodes) }
        ensures cuts { OnOk result (AreCutsOf exe.now self.new) }
        ensures code { OnOk result (AreCode exe.now self.new.nodes) }
        ensures few { OnOk result (length self.new.nodes ≤ MAX_BLOCKS) }
        ensures many { IfErr result (λ e. e ≡ Blocks → HasTooMany exe.now (counting exe.now (applied added.now gone.now self.old.edges))) }
        ensures err { OnErr result (self.new ≡ self.old) }
    {
        let counted = changed(alloc, exe, self.edges.as_slice(), added, gone)?;
        let _ = added.len();
        sets_hold();
        match Graph::of_counted(alloc, exe, counted, self.rows.as_slice()) {
            Ok(graph) => *self = graph,
            Err(error) => return Err(error),
        }
        Ok(())
    }

    /// The edges that count, each by its site and its target, both addresses, ascending by the site and then
    /// by the target.
    pub fn edges(&self) -> &[(u32, u32)]
        ensures value { result.now ≡ self.now.edges }
        ensures order { IsEdges self.now.edges }
    {
        self.edges.as_slice()
    }

    /// How many blocks it has, 0 to [`MAX_BLOCKS`].
    pub fn len(&self) -> u32
        ensures value { result ≡ length self.now.nodes }
        ensures few { length self.now.nodes ≤ MAX_BLOCKS }
    {
        self.rows.len() as u32
    }

    /// The start of the block of an index below [`Graph::len`], an address. Starts ascend.
    pub fn start(&self, index: u32) -> u32
        requires { index < length self.now.nodes }
        ensures { result ≡ (node_at self.now.nodes index).start }
    {
        self.rows[index as usize].start
    }

    /// The index of the block that starts at an address, or `None` where no block does. Its work grows with
    /// the logarithm of the number of blocks.
    pub fn index_of(&self, start: u32) -> Option<u32>
        ensures { (i : ℕ) → (result ≡ Some i) ↔ StartsAt self.now.nodes i start }
    {
        match index_among(self.rows.as_slice(), start) {
            Some(index) => Some(index as u32),
            None => None,
        }
    }

    /// The known exits of the block of an index below [`Graph::len`], addresses, ascending: the targets of
    /// the edges that count from its transfer, or its one following start.
    pub fn known(&self, index: u32) -> &[u32]
        requires { index < length self.now.nodes }
        ensures { result.now ≡ (node_at self.now.nodes index).known }
    {
        let row = self.rows[index as usize];
        &self.targets[row.from as usize..row.to as usize]
    }

    /// How far the block of an index below [`Graph::len`] goes, as [`block_cut::cut`] answers for the
    /// executable of which the graph is. Nothing is decoded.
    pub fn cut(&self, index: u32) -> Cut
        requires { index < length self.now.nodes }
        ensures value { result ≡ cut_at self.now index }
        ensures block { (exe : Exe) → AreCutsOf exe self.now → result ≡ cut_in exe (node_at self.now.nodes index) }
    {
        self.rows[index as usize].cut
    }
}
