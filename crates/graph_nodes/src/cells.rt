// Cells of the grid, and the squares of cells that a spot touches.
ghost use Rattle.std.specs.Prelude.{◌≡◌, pos, ◌+ℤ◌, ◌-ℤ◌, ◌<ℤ◌, ◌^◌, ◌&&◌, int_le, false, IsTrue};
ghost use Rattle.graph_model.specs.Nodes.{cell_of};
ghost use Rattle.graph_nodes.specs.Grid.{Cell as CellSpec, square_of, covers};

/// How long a cell's side is.
const SIDE: i64 = 10_000;

/// A cell, by its column and its row.
pub(crate) type Cell = (i32, i32);

/// The cells from a column to another and from a row to another, ends included.
#[derive(Clone, Copy)]
pub(crate) struct Square {
    pub left: i32,
    pub right: i32,
    pub low: i32,
    pub high: i32,
}

/// The cell of a number along one side.
fn cell(v: i64) -> i32
    requires above { (pos 0 -ℤ pos (2 ^ 33)) <ℤ v }
    requires below { v <ℤ pos (2 ^ 33) }
    ensures { result ≡ cell_of v }
{
    v.div_euclid(SIDE) as i32
}

/// The cell of a place.
pub(crate) fn cell_at(x: i32, y: i32) -> Cell
    ensures { result ≡ (cell_of x, cell_of y) }
{
    (cell(i64::from(x)), cell(i64::from(y)))
}

/// The cell so far below a number.
fn cell_below(v: i32, cull: u32) -> i32
    ensures { result ≡ cell_of (v -ℤ pos cull) }
{
    cell(i64::from(v) - i64::from(cull))
}

/// The cell so far above a number.
fn cell_above(v: i32, cull: u32) -> i32
    ensures { result ≡ cell_of (v +ℤ pos cull) }
{
    cell(i64::from(v) + i64::from(cull))
}

/// A number is between two, ends included.
fn is_between(least: i32, v: i32, most: i32) -> bool
    ensures { result ≡ (int_le least v && int_le v most) }
{
    least <= v && v <= most
}

impl Square {
    /// No cells.
    pub fn none() -> Square
        ensures { (c : CellSpec) → covers result c ≡ false }
    {
        Square {
            left: 1,
            right: 0,
            low: 1,
            high: 0,
        }
    }

    /// The cells that are touched from so far around a place.
    pub fn around(x: i32, y: i32, cull: u32) -> Square
        ensures { result ≡ square_of x y cull }
    {
        Square {
            left: cell_below(x, cull),
            right: cell_above(x, cull),
            low: cell_below(y, cull),
            high: cell_above(y, cull),
        }
    }

    /// The cell is one of them.
    pub fn covers(self, cell: Cell) -> bool
        ensures { result ≡ covers self cell }
    {
        is_between(self.left, cell.0, self.right) && is_between(self.low, cell.1, self.high)
    }

    /// They are the same cells.
    pub fn is(self, other: Square) -> bool
        ensures { IsTrue result → self ≡ other }
    {
        self.left == other.left
            && self.right == other.right
            && self.low == other.low
            && self.high == other.high
    }
}
