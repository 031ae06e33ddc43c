//! The lines of a cycle and of a run's end.
ghost use Rattle.std.specs.Prelude.{◌≡◌, ◌<◌, ◌≤◌, ℕ, length, slice_get};
ghost use Rattle.run_texts.specs.Setting.{plug_name};
ghost use Rattle.lines.specs.Gathered.{Writes};
ghost use Rattle.mars_base.specs.Causes.{HasCause};
ghost use Rattle.tables_text.specs.Text.{lines_of, task_name as name_of};
ghost use Rattle.cycle_text.specs.Lines.{line_of_output, line_of_broken, line_of_seen, numbered};

use crate::Outcome;
use cycle_outputs::CycleOutput;
use graph::{Graph, Net};
use lines::LineBuf;
use mars_base::{Sink, SinkFault};
use run_text::{write_broken, write_out, write_task};

/// Writes the line of each output of a cycle whose job has given words, in the order in which the outputs stand.
/// An `Err` comes only where a put failed, and then a front of the lines was put.
pub fn write_outs<R: Outcome, O: Sink>(
    buffer: &mut LineBuf,
    out: &mut O,
    cycle: u32,
    net: &Net,
    outputs: &[CycleOutput],
    outcome: &R,
) -> Result<(), SinkFault>
    ensures bytes { Writes (O.holds out.old) buffer.old (lines_of (line_of_output net.now cycle (R.given outcome.now)) outputs.now) (O.holds out.new) buffer.new result }
    ensures cause { HasCause (O.faults out.old) (O.faults out.new) result }
{
    for output in outputs {
        if let Err(fault) = write_output(buffer, out, cycle, net, output, outcome) {
            return Err(fault);
        }
    }
    Ok(())
}

// Writes the line of an output whose job has given words.
fn write_output<R: Outcome, O: Sink>(
    buffer: &mut LineBuf,
    out: &mut O,
    cycle: u32,
    net: &Net,
    output: &CycleOutput,
    outcome: &R,
) -> Result<(), SinkFault>
    ensures bytes { Writes (O.holds out.old) buffer.old (line_of_output net.now cycle (R.given outcome.now) output.now) (O.holds out.new) buffer.new result }
    ensures cause { HasCause (O.faults out.old) (O.faults out.new) result }
{
    let name = actuator_name(net, output.actuator);
    match outcome.words(output.actuator, output.instance) {
        Some(words) => write_out(
            buffer,
            out,
            cycle,
            name,
            output.instance,
            output.tick,
            words,
        ),
        None => Ok(()),
    }
}

// The name of an actuator; none where there is no such actuator.
fn actuator_name(net: &Net, actuator: u16) -> &[u8]
    ensures { result.now ≡ plug_name (slice_get net.now.actuators actuator) }
{
    match net.actuators.get(usize::from(actuator)) {
        Some(plug) => plug.name.as_slice(),
        None => &[],
    }
}

/// Writes the line of each broken job of a cycle, by number.
pub fn write_broken_jobs<R: Outcome, O: Sink>(
    buffer: &mut LineBuf,
    out: &mut O,
    cycle: u32,
    net: &Net,
    graph: &Graph,
    outcome: &R,
) -> Result<(), SinkFault>
    requires { length graph.now.jobs ≤ 512 }
    ensures bytes { Writes (O.holds out.old) buffer.old (numbered (line_of_broken net.now graph.now cycle (R.broken outcome.now)) (length graph.now.jobs)) (O.holds out.new) buffer.new result }
    ensures cause { HasCause (O.faults out.old) (O.faults out.new) result }
{
    for number in 0..graph.job_list().len() {
        if let Err(fault) = write_if_broken(
            buffer,
            out,
            cycle,
            net,
            graph,
            number as u16,
            outcome,
        ) {
            return Err(fault);
        }
    }
    Ok(())
}

// Writes the line of a job where it is broken.
fn write_if_broken<R: Outcome, O: Sink>(
    buffer: &mut LineBuf,
    out: &mut O,
    cycle: u32,
    net: &Net,
    graph: &Graph,
    job: u16,
    outcome: &R,
) -> Result<(), SinkFault>
    requires { job < length graph.now.jobs }
    ensures bytes { Writes (O.holds out.old) buffer.old (line_of_broken net.now graph.now cycle (R.broken outcome.now) job) (O.holds out.new) buffer.new result }
    ensures cause { HasCause (O.faults out.old) (O.faults out.new) result }
{
    if !outcome.is_broken(job) {
        return Ok(());
    }
    let of = graph.job(job);
    write_broken(buffer, out, cycle, name_of(net, of.task), of.instance)
}

/// Writes the closing line of each task: its bound in cycles, and the most cycles that an execution of it took.
pub fn write_closing<O: Sink>(
    buffer: &mut LineBuf,
    out: &mut O,
    net: &Net,
    maxts: &[u32],
    seen: &[u32],
) -> Result<(), SinkFault>
    requires tasks { length net.now.tasks ≤ 64 }
    requires maxts { length maxts.now ≡ length net.now.tasks }
    requires seen { length seen.now ≡ length net.now.tasks }
    ensures bytes { Writes (O.holds out.old) buffer.old (numbered (line_of_seen net.now maxts.now seen.now) (length net.now.tasks)) (O.holds out.new) buffer.new result }
    ensures cause { HasCause (O.faults out.old) (O.faults out.new) result }
{
    for number in 0..net.tasks.len() {
        if let Err(fault) = write_seen(buffer, out, net, maxts, seen, number as u8) {
            return Err(fault);
        }
    }
    Ok(())
}

// Writes the closing line of a task.
fn write_seen<O: Sink>(
    buffer: &mut LineBuf,
    out: &mut O,
    net: &Net,
    maxts: &[u32],
    seen: &[u32],
    task: u8,
) -> Result<(), SinkFault>
    requires maxts { task < length maxts.now }
    requires seen { task < length seen.now }
    ensures bytes { Writes (O.holds out.old) buffer.old (line_of_seen net.now maxts.now seen.now task) (O.holds out.new) buffer.new result }
    ensures cause { HasCause (O.faults out.old) (O.faults out.new) result }
{
    let number = usize::from(task);
    write_task(buffer, out, name_of(net, task), maxts[number], seen[number])
}

// The name of a task; none where there is no such task.
fn name_of(net: &Net, task: u8) -> &[u8]
    ensures { result.now ≡ name_of net.now task }
{
    match net.tasks.get(usize::from(task)) {
        Some(task) => task.name.as_slice(),
        None => &[],
    }
}
