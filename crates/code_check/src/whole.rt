//! The rules on the whole code.
ghost use Rattle.std.specs.Prelude.{◌≡◌, ◌↔◌, ◌<◌, ◌≤◌, ◌||◌, IsTrue, All, length, count_by, slice_get, Some};
ghost use Rattle.std.specs.List.Sorted.{IsStrictlyIncreasing};
ghost use Rattle.word_code.specs.Cells.{total_width, is_in, is_out};
ghost use Rattle.word_code.specs.Typing.{IsWhole, WidthFits};
ghost use Rattle.code_check.specs.Groups.{HasStarts, HasCells};

use mars_base::Role;
use word_code::{CellShape, Code};

fn begins_at_0(starts: &[u16]) -> bool
    ensures { IsTrue result ↔ (slice_get starts.now 0 ≡ Some 0) }
{
    match starts.get(0) {
        Some(start) => *start == 0,
        None => false,
    }
}

fn rise(starts: &[u16]) -> bool
    ensures { IsTrue result ↔ IsStrictlyIncreasing starts.now }
{
    for k in 1..starts.len() {
        if starts[k] <= starts[k - 1] {
            return false;
        }
    }
    true
}

fn are_within(starts: &[u16], size: usize) -> bool
    ensures { IsTrue result ↔ All (λ start. start < size) starts.now }
{
    starts.iter().all(|start| usize::from(*start) < size)
}

fn has_room(cells: &[CellShape], places: u16) -> bool
    ensures { IsTrue result ↔ (total_width cells.now ≤ places) }
{
    let mut left = places;
    for cell in cells {
        if left < cell.width {
            return false;
        }
        left -= cell.width;
    }
    true
}

fn width_fits(cell: &CellShape) -> bool
    ensures { IsTrue result ↔ WidthFits cell.now.role cell.now.width }
{
    match cell.role {
        Role::In => 1 <= cell.width && cell.width <= 16,
        Role::Out => 1 <= cell.width && cell.width <= 16,
        Role::State => 1 <= cell.width && cell.width <= 4096,
        Role::Local => false,
    }
}

fn widths_fit(cells: &[CellShape]) -> bool
    ensures { IsTrue result ↔ All (λ cell. WidthFits cell.role cell.width) cells.now }
{
    cells.iter().all(|cell| width_fits(cell))
}

fn is_port(cell: &CellShape) -> bool
    ensures { result ≡ is_in cell.now.role || is_out cell.now.role }
{
    match cell.role {
        Role::In | Role::Out => true,
        Role::State | Role::Local => false,
    }
}

fn count_ports(cells: &[CellShape]) -> usize
    ensures { result ≡ count_by (λ cell. is_in cell.role || is_out cell.role) cells.now }
{
    cells.iter().filter(|cell| is_port(cell)).count()
}

fn has_starts(code: &Code) -> bool
    ensures { IsTrue result ↔ HasStarts code.now }
{
    let starts = code.starts.as_slice();
    begins_at_0(starts)
        && starts.len() <= 17
        && rise(starts)
        && are_within(starts, code.instrs.len())
}

fn has_cells(code: &Code) -> bool
    ensures { IsTrue result ↔ HasCells code.now }
{
    let cells = code.cells.as_slice();
    has_room(cells, code.places) && widths_fit(cells) && count_ports(cells) <= 16
}

/// Whether the rules on the whole hold.
pub(crate) fn is_whole(code: &Code) -> bool
    ensures { IsTrue result ↔ IsWhole code.now }
{
    let size = code.instrs.len();
    1 <= size
        && size <= 65_535
        && has_starts(code)
        && code.places <= 4096
        && code.counters <= 256
        && has_cells(code)
}
