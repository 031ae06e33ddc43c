//! The image of a planned project.
ghost use Rattle.std.specs.Prelude.{◌≡◌, All, IfOk, map};
ghost use Rattle.image_plant.specs.Image.{IsImage};
ghost use Rattle.planned_plant.specs.Plant.{plant_of, IsWholePlan};
ghost use Rattle.project_plant.specs.Planned.{code_in};
ghost use Rattle.project_tables.specs.Planned.{plain_planned};
ghost use Rattle.project_tasks.specs.Entries.{IsRead};
ghost use Rattle.task_source.specs.Built.{plain_built};

use image::Image;
use image_sides::states_of;
use mars_base::Memory;
use plant::Plant;
use project_graph::list_bounds;
use project_tables::ProjectPlan;
use sqlite_items::Items;
use std::alloc::Global;
use task_source::BuiltTask;
use word_code::Verified;

/// The image of a planned project whose parts are whole: each task's program is its code, with its bound and its
/// state words. Refused only without memory.
pub fn image_of(alloc: Global, plan: ProjectPlan) -> Result<Image, Memory>
    requires read { All IsRead plan.tasks }
    requires whole { IsWholePlan (plain_planned plan) }
    ensures plant { IfOk result (λ image. image ≡ plant_of (plain_planned plan)) }
    ensures image { IfOk result IsImage }
{
    let ProjectPlan {
        net,
        graph,
        tasks,
        tables,
    } = plan;
    let maxts = Items::from_vec(list_bounds(alloc, tasks.as_slice())?);
    let programs = programs_of(alloc, tasks)?;
    let states = states_of(alloc, programs.as_slice())?;
    Ok(Image::new(Plant {
        net,
        graph,
        tables,
        programs,
        maxts,
        states,
    }))
}

// The codes of tasks, in their order.
fn programs_of(alloc: Global, tasks: Items<BuiltTask>) -> Result<Items<Verified>, Memory>
    requires { All IsRead tasks }
    ensures { IfOk result (λ programs. programs ≡ map code_in (map plain_built tasks)) }
{
    let mut left = tasks;
    let mut programs = Items::new(alloc);
    'each: while !left.is_empty() {
        let task = left.remove(0);
        programs.push(code_of(task))?;
    }
    Ok(programs)
}

// The code of a task.
fn code_of(task: BuiltTask) -> Verified
    ensures { result ≡ task.code }
{
    let BuiltTask {
        task: _tree,
        code,
        maxt: _maxt,
    } = task;
    code
}
