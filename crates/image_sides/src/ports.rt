//! Whether the cells of tasks are narrow enough for ports.
ghost use Rattle.std.specs.Prelude.{◌≡◌, ◌↔◌, ◌≤◌, ◌||◌, true, IsTrue, All};
ghost use Rattle.word_code.specs.Cells.{is_in, is_out};
ghost use Rattle.image_tasks.specs.declared.parts.TaskPart.{TaskPart};
ghost use Rattle.image_sides.specs.Sides.{IsNarrow};

use image_tasks::TaskPart;
use mars_base::Role;
use word_code::CellShape;

fn is_port(cell: &CellShape) -> bool
    ensures { result ≡ is_in cell.now.role || is_out cell.now.role }
{
    match cell.role {
        Role::In | Role::Out => true,
        Role::State | Role::Local => false,
    }
}

fn is_narrow(cell: &CellShape) -> bool
    ensures { IsTrue result ↔ ((is_in cell.now.role || is_out cell.now.role) ≡ true → cell.now.width ≤ 16) }
{
    !is_port(cell) || cell.width <= 16
}

fn are_narrow(cells: &[CellShape]) -> bool
    ensures { IsTrue result ↔ IsNarrow cells.now }
{
    cells.iter().all(|cell| is_narrow(cell))
}

/// Whether each in and out cell of each task has at most 16 words.
pub fn are_all_narrow(tasks: &[TaskPart]) -> bool
    ensures { IsTrue result ↔ All (λ (t : TaskPart). IsNarrow t.code.cells) tasks.now }
{
    tasks
        .iter()
        .all(|task| are_narrow(task.code.cells.as_slice()))
}
