//! The fields of an image, written from a plant.
ghost use Rattle.std.specs.Prelude.{◌≡◌, ◌++◌, ◌<◌, All, OnOk, length};
ghost use Rattle.std.specs.Int.{w8};
ghost use Rattle.std.specs.List.{flat_map};
ghost use Rattle.formats.specs.Format.{counted, number};
ghost use Rattle.image_tasks.specs.Task.{task};
ghost use Rattle.image_fields.specs.Image.{lists, body, image};
ghost use Rattle.image.specs.Helpers.{HasSides, part_in};
ghost use Rattle.image_plant.specs.Fields.{task_part, task_parts, parts_of};

use formats::{put_u8, put_u32};
use graph::{Net, NetTask};
use image_fields::put_head;
use image_parts::{put_list8, put_list16, put_name, put_shape};
use image_tables::{JobPart, MessagePart};
use image_tasks::put_code;
use mars_base::Memory;
use plant::Plant;
use word_code::{Code, Verified};

#[tactic(auto, unfolding(image_tasks::specs::Task::task))]
fn put_task(net_task: &NetTask, maxt: u32, code: &Code, into: &mut Vec<u8>) -> Result<(), Memory>
    requires { task.fits (task_part net_task.now maxt code.now) }
    ensures { OnOk result (into.new.items ≡ into.old.items ++ task.writes (task_part net_task.now maxt code.now)) }
{
    put_name(&net_task.name, into)?;
    put_u8(net_task.transaction, into)?;
    put_u8(net_task.units, into)?;
    put_u32(maxt, into)?;
    put_code(code, into)?;
    Ok(())
}

fn put_task_at(
    tasks: &[NetTask],
    maxts: &[u32],
    programs: &[Verified],
    place: usize,
    into: &mut Vec<u8>,
) -> Result<(), Memory>
    requires place { place < length tasks.now }
    requires maxts { length maxts.now ≡ length tasks.now }
    requires programs { length programs.now ≡ length tasks.now }
    requires fits { task.fits (part_in tasks.now maxts.now programs.now place) }
    ensures { OnOk result (into.new.items ≡ into.old.items ++ task.writes (part_in tasks.now maxts.now programs.now place)) }
{
    let code = programs[place].code();
    put_task(&tasks[place], maxts[place], code, into)
}

fn put_tasks(
    tasks: &[NetTask],
    maxts: &[u32],
    programs: &[Verified],
    into: &mut Vec<u8>,
) -> Result<(), Memory>
    requires maxts { length maxts.now ≡ length tasks.now }
    requires programs { length programs.now ≡ length tasks.now }
    requires fits { All task.fits (task_parts tasks.now maxts.now programs.now) }
    ensures { OnOk result (into.new.items ≡ into.old.items ++ flat_map task.writes (task_parts tasks.now maxts.now programs.now)) }
{
    for place in 0..tasks.len() {
        put_task_at(tasks, maxts, programs, place, into)?;
    }
    Ok(())
}

fn put_task_list(plant: &Plant<Verified>, into: &mut Vec<u8>) -> Result<(), Memory>
    requires sides { HasSides plant.now }
    requires fits { All task.fits (parts_of plant.now).tasks }
    ensures { OnOk result (into.new.items ≡ into.old.items ++ (counted (number w8 1 64) task).writes (parts_of plant.now).tasks) }
{
    put_u8(plant.net.tasks.len() as u8, into)?;
    put_tasks(
        plant.net.tasks.as_slice(),
        plant.maxts.as_slice(),
        plant.programs.as_slice(),
        into,
    )
}

#[tactic(auto, unfolding(image_fields::specs::Image::lists))]
fn put_lists(
    net: &Net,
    jobs: &[JobPart],
    messages: &[MessagePart],
    into: &mut Vec<u8>,
) -> Result<(), Memory>
    requires { lists.fits (net.now.edges, (net.now.sensors, (net.now.actuators, (jobs.now, messages.now)))) }
    ensures { OnOk result (into.new.items ≡ into.old.items ++ lists.writes (net.now.edges, (net.now.sensors, (net.now.actuators, (jobs.now, messages.now))))) }
{
    put_list16(net.edges.as_slice(), into)?;
    put_list16(net.sensors.as_slice(), into)?;
    put_list16(net.actuators.as_slice(), into)?;
    put_list16(jobs, into)?;
    put_list16(messages, into)?;
    Ok(())
}

#[tactic(auto, unfolding(image_fields::specs::Image::body))]
fn put_body(
    plant: &Plant<Verified>,
    jobs: &[JobPart],
    messages: &[MessagePart],
    into: &mut Vec<u8>,
) -> Result<(), Memory>
    requires sides { HasSides plant.now }
    requires jobs { jobs.now ≡ (parts_of plant.now).jobs }
    requires messages { messages.now ≡ (parts_of plant.now).messages }
    requires fits { body.fits (parts_of plant.now) }
    ensures { OnOk result (into.new.items ≡ into.old.items ++ body.writes (parts_of plant.now)) }
{
    put_shape(plant.net.shape, into)?;
    put_task_list(plant, into)?;
    put_list8(plant.net.transactions.as_slice(), into)?;
    put_lists(&plant.net, jobs, messages, into)
}

/// Writes the fields of a plant, given those of its tables.
#[tactic(auto, unfolding(image_fields::specs::Image::image))]
pub(crate) fn put_image(
    plant: &Plant<Verified>,
    jobs: &[JobPart],
    messages: &[MessagePart],
    into: &mut Vec<u8>,
) -> Result<(), Memory>
    requires sides { HasSides plant.now }
    requires jobs { jobs.now ≡ (parts_of plant.now).jobs }
    requires messages { messages.now ≡ (parts_of plant.now).messages }
    requires fits { image.fits (parts_of plant.now) }
    ensures { OnOk result (into.new.items ≡ into.old.items ++ image.writes (parts_of plant.now)) }
{
    put_head(into)?;
    put_body(plant, jobs, messages, into)
}
