// The node of the actors that are relevant by distance.
ghost use Rattle.std.specs.Prelude.{◌≡◌, ◌+◌, ◌-◌, ◌&&◌, ℕ, false, not, None, is_some, nat_eq, OnOk, if◌then◌else◌};
ghost use Rattle.std.specs.Map.{lookup};
ghost use Rattle.graph_nodes.specs.Held.{Spots, no_spots, spot_in};
ghost use Rattle.actor_lists.specs.Shared.{count_of, list_at};
ghost use Rattle.graph_nodes.specs.Grid.{Cell as CellSpec, Squares, Keeps, Stands, is_cell, covers, is_within, no_squares, with_square, without_square, square_in};

use crate::cells::{Cell, Square, cell_at};
use crate::node::GraphNode;
use crate::spot::{Spot, Viewer, has_player};
use actor_lists::{Lists, Shelves};
use net_core::{Guid, Memory, Player};
use protocol_model::Reach;
use std::alloc::Global;
use std::collections::HashMap;
use std::marker::Model;

/// The square of each actor, and the actors of each cell.
#[derive(Drop)]
struct Floor {
    squares: HashMap<Guid, Square>,
    cells: Shelves<Cell>,
}

impl Model for Floor {
    ghost use Rattle.graph_nodes.specs.Grid.{Floor as Seen};

    ghost Value = { Seen };

    ghost view = { λ f. record { squares = f.squares.entries; cells = f.cells } };
}

impl Floor {
    /// No actors; later calls grow the lists in this allocator.
    fn new(alloc: Global) -> Floor
        ensures { Keeps result no_squares }
    {
        Floor {
            squares: HashMap::new(alloc),
            cells: Shelves::new(alloc),
        }
    }

    /// The actor has a square.
    fn has(&self, actor: Guid) -> bool
        ensures { (squares : Squares) → Keeps self.now squares → result ≡ is_some (squares actor) }
    {
        self.squares.contains_key(&actor)
    }

    /// The square of an actor.
    fn square(&self, actor: Guid) -> Option<Square>
        ensures { result ≡ lookup (nat_eq actor) self.now.squares }
    {
        self.squares.get(&actor).copied()
    }

    /// Puts an actor that has no square onto one.
    fn enter(&mut self, actor: Guid, square: Square) -> Result<(), Memory>
        ensures { OnOk result ((squares : Squares) → Keeps self.old squares → squares actor ≡ None
            → Keeps self.new (with_square squares actor square)) }
    {
        fill(&mut self.cells, actor, square, Square::none())?;
        self.squares.insert(actor, square)?;
        Ok(())
    }

    /// Takes an actor off its square.
    fn leave(&mut self, actor: Guid) -> Result<(), Memory>
        ensures { OnOk result ((squares : Squares) → Keeps self.old squares
            → Keeps self.new (without_square squares actor)) }
    {
        if let Some(square) = self.squares.remove(&actor) {
            clear(&mut self.cells, actor, square, Square::none())?;
        }
        Ok(())
    }

    /// Puts an actor onto a square, off the one that it has. The list of a cell that both squares
    /// have stays as it is.
    fn change(&mut self, actor: Guid, square: Square) -> Result<(), Memory>
        ensures { OnOk result ((squares : Squares) → Keeps self.old squares
            → Keeps self.new (with_square squares actor square)) }
    {
        let Some(old) = self.square(actor) else {
            return self.enter(actor, square);
        };
        if old.is(square) {
            return Ok(());
        }
        clear(&mut self.cells, actor, old, square)?;
        fill(&mut self.cells, actor, square, old)?;
        self.squares.insert(actor, square)?;
        Ok(())
    }
}

/// Adds an actor to each cell of a square that another square hasn't.
fn fill(cells: &mut Shelves<Cell>, actor: Guid, square: Square, but: Square) -> Result<(), Memory>
    ensures { OnOk result ((a : ℕ) (c : CellSpec) → count_of a (list_at is_cell cells.new c)
        ≡ (if (covers square c && not (covers but c)) && nat_eq actor a then 1 else 0)
        + count_of a (list_at is_cell cells.old c)) }
{
    for column in square.left..=square.right {
        fill_column(cells, actor, column, square.low, square.high, but)?;
    }
    Ok(())
}

/// Adds an actor to the cells of a column that a square hasn't.
fn fill_column(
    cells: &mut Shelves<Cell>,
    actor: Guid,
    column: i32,
    low: i32,
    high: i32,
    but: Square,
) -> Result<(), Memory>
    ensures { OnOk result ((a : ℕ) (c : CellSpec) → count_of a (list_at is_cell cells.new c)
        ≡ (if (is_within column low high c && not (covers but c)) && nat_eq actor a then 1 else 0)
        + count_of a (list_at is_cell cells.old c)) }
{
    for row in low..=high {
        fill_cell(cells, actor, (column, row), but)?;
    }
    Ok(())
}

/// Adds an actor to a cell that a square hasn't.
fn fill_cell(cells: &mut Shelves<Cell>, actor: Guid, cell: Cell, but: Square) -> Result<(), Memory>
    ensures { OnOk result ((a : ℕ) (c : CellSpec) → count_of a (list_at is_cell cells.new c)
        ≡ (if (is_cell cell c && not (covers but c)) && nat_eq actor a then 1 else 0)
        + count_of a (list_at is_cell cells.old c)) }
{
    if but.covers(cell) {
        return Ok(());
    }
    cells.add(cell, actor)?;
    Ok(())
}

/// Takes an actor out of each cell of a square that another square hasn't.
fn clear(cells: &mut Shelves<Cell>, actor: Guid, square: Square, but: Square) -> Result<(), Memory>
    ensures { OnOk result ((a : ℕ) (c : CellSpec) → count_of a (list_at is_cell cells.new c)
        ≡ count_of a (list_at is_cell cells.old c)
        - (if (covers square c && not (covers but c)) && nat_eq actor a then 1 else 0)) }
{
    for column in square.left..=square.right {
        clear_column(cells, actor, column, square.low, square.high, but)?;
    }
    Ok(())
}

/// Takes an actor out of the cells of a column that a square hasn't.
fn clear_column(
    cells: &mut Shelves<Cell>,
    actor: Guid,
    column: i32,
    low: i32,
    high: i32,
    but: Square,
) -> Result<(), Memory>
    ensures { OnOk result ((a : ℕ) (c : CellSpec) → count_of a (list_at is_cell cells.new c)
        ≡ count_of a (list_at is_cell cells.old c)
        - (if (is_within column low high c && not (covers but c)) && nat_eq actor a
        then 1 else 0)) }
{
    for row in low..=high {
        clear_cell(cells, actor, (column, row), but)?;
    }
    Ok(())
}

/// Takes an actor out of a cell that a square hasn't.
fn clear_cell(cells: &mut Shelves<Cell>, actor: Guid, cell: Cell, but: Square) -> Result<(), Memory>
    ensures { OnOk result ((a : ℕ) (c : CellSpec) → count_of a (list_at is_cell cells.new c)
        ≡ count_of a (list_at is_cell cells.old c)
        - (if (is_cell cell c && not (covers but c)) && nat_eq actor a then 1 else 0)) }
{
    if but.covers(cell) {
        return Ok(());
    }
    cells.take(cell, actor)?;
    Ok(())
}

/// Awake actors of reach `Near`. Each cell has a list of the actors whose square touches it, so
/// that a viewer needs the list of its own cell alone.
#[derive(Drop)]
pub struct GridNode {
    floor: Floor,
    spent: bool,
}

impl Model for GridNode {
    ghost use Rattle.graph_nodes.specs.Grid.{Kept};

    ghost Value = { Kept };

    ghost view = { λ n. record { floor = n.floor; spent = n.spent } };
}

impl GridNode {
    /// A node without spots; later calls grow it in this allocator.
    pub fn new(alloc: Global) -> GridNode
        ensures stands { Stands result no_spots }
        ensures spent { result.spent ≡ false }
    {
        GridNode {
            floor: Floor::new(alloc),
            spent: false,
        }
    }

    /// The node has a spot of the actor.
    pub(crate) fn holds(&self, actor: Guid) -> bool
        ensures { (spots : Spots) → Stands self.now spots → result ≡ is_some (spots actor 0) }
    {
        self.floor.has(actor)
    }
}

/// The cells that a spot touches.
fn square(s: &Spot) -> Square
    ensures { result ≡ square_in (spot_in s.now) }
{
    match s.reach {
        Reach::Near(cull) => Square::around(s.x, s.y, cull),
        Reach::Always | Reach::Owner => Square::around(s.x, s.y, 0),
    }
}

impl GraphNode for GridNode {
    ghost use Rattle.graph_model.specs.Nodes.{GridNode as row_of};
    ghost use Rattle.graph_nodes.specs.Grid.{Stands as stands_for, given_by};

    ghost row = { λ n. row_of };

    ghost stands = { stands_for };

    ghost given = { given_by };

    ghost is_spent = { λ n. n.spent };

    fn place(&mut self, s: Spot) -> Result<(), Memory> {
        if self.spent {
            return Err(Memory);
        }
        self.spent = true;
        self.floor.enter(s.actor, square(&s))?;
        self.spent = false;
        Ok(())
    }

    fn moved(&mut self, s: Spot) -> Result<(), Memory> {
        if self.spent {
            return Err(Memory);
        }
        self.spent = true;
        self.floor.change(s.actor, square(&s))?;
        self.spent = false;
        Ok(())
    }

    fn remove(&mut self, actor: Guid, player: Option<Player>) -> Result<(), Memory> {
        if self.spent {
            return Err(Memory);
        }
        if has_player(player) {
            return Ok(());
        }
        self.spent = true;
        self.floor.leave(actor)?;
        self.spent = false;
        Ok(())
    }

    fn gather(&self, viewer: Viewer, lists: &mut Lists) -> Result<(), Memory> {
        if self.spent {
            return Err(Memory);
        }
        self.floor.cells.share(cell_at(viewer.x, viewer.y), lists)
    }
}
