//! The whole text.
ghost use Rattle.std.specs.Prelude.{◌≡◌, ◌<◌, length, slice_index};
ghost use Rattle.graph.specs.Cycle.{first_job};
ghost use Rattle.graph.specs.NetGraph.{IsNetGraph};
ghost use Rattle.lines.specs.Gathered.{Writes};
ghost use Rattle.mars_base.specs.Causes.{HasCause};
ghost use Rattle.tables.specs.Named.{job_at, entry_at};
ghost use Rattle.tables_text.specs.Text.{lines_of, lines_of_tasks, line_of_task, line_of_job, message_line, task_name as name_of, tables_text};

use crate::line::{write_cluster, write_job, write_message, write_task};
use graph::{Graph, Job, Net};
use lines::LineBuf;
use mars_base::{Sink, SinkFault};
use tables::{JobEntry, Message, Tables};

// The job of an entry without a job.
const NO_JOB: Job = Job {
    task: 0,
    instance: 0,
    release: 0,
    deadline: 0,
    length: 0,
};

fn task_name(net: &Net, task: u8) -> &[u8]
    ensures { result.now ≡ name_of net.now task }
{
    match net.tasks.get(usize::from(task)) {
        Some(task) => task.name.as_slice(),
        None => &[],
    }
}

fn job_of(graph: &Graph, entry: JobEntry) -> Job
    ensures { result ≡ job_at graph.now entry.job }
{
    match graph.job_list().get(usize::from(entry.job)) {
        Some(job) => *job,
        None => NO_JOB,
    }
}

fn unit_of(graph: &Graph, tables: &Tables, net: &Net, task: u8) -> u8
    requires net { IsNetGraph net.now graph.now }
    requires task { task < length net.now.tasks }
    ensures { result ≡ (entry_at tables.now (first_job net.now graph.now.cycle task)).unit }
{
    match tables.jobs.get(usize::from(graph.first_job(task))) {
        Some(entry) => entry.unit,
        None => 0,
    }
}

/// Writes the line of a task by its number.
fn write_line_of_task<O: Sink>(
    buffer: &mut LineBuf,
    out: &mut O,
    net: &Net,
    graph: &Graph,
    tables: &Tables,
    maxts: &[u32],
    task: u8,
) -> Result<(), SinkFault>
    requires net { IsNetGraph net.now graph.now }
    requires maxts { length maxts.now ≡ length net.now.tasks }
    requires task { task < length net.now.tasks }
    ensures bytes { Writes (O.holds out.old) buffer.old (line_of_task net.now graph.now tables.now maxts.now task) (O.holds out.new) buffer.new result }
    ensures cause { HasCause (O.faults out.old) (O.faults out.new) result }
{
    let unit = unit_of(graph, tables, net, task);
    let name = task_name(net, task);
    let maxt = maxts[usize::from(task)];
    write_task(buffer, out, name, unit, maxt)
}

/// Writes the line of an entry.
fn write_line_of_job<O: Sink>(
    buffer: &mut LineBuf,
    out: &mut O,
    net: &Net,
    graph: &Graph,
    entry: JobEntry,
) -> Result<(), SinkFault>
    ensures bytes { Writes (O.holds out.old) buffer.old (line_of_job net.now graph.now entry) (O.holds out.new) buffer.new result }
    ensures cause { HasCause (O.faults out.old) (O.faults out.new) result }
{
    let job = job_of(graph, entry);
    let name = task_name(net, job.task);
    write_job(buffer, out, name, job.instance, entry)
}

fn write_tasks<O: Sink>(
    buffer: &mut LineBuf,
    out: &mut O,
    net: &Net,
    graph: &Graph,
    tables: &Tables,
    maxts: &[u32],
) -> Result<(), SinkFault>
    requires net { IsNetGraph net.now graph.now }
    requires maxts { length maxts.now ≡ length net.now.tasks }
    ensures bytes { Writes (O.holds out.old) buffer.old (lines_of_tasks net.now graph.now tables.now maxts.now (length net.now.tasks)) (O.holds out.new) buffer.new result }
    ensures cause { HasCause (O.faults out.old) (O.faults out.new) result }
{
    for number in 0..net.tasks.len() {
        let task = number as u8;
        if let Err(fault) = write_line_of_task(buffer, out, net, graph, tables, maxts, task) {
            return Err(fault);
        }
    }
    Ok(())
}

fn write_jobs<O: Sink>(
    buffer: &mut LineBuf,
    out: &mut O,
    net: &Net,
    graph: &Graph,
    entries: &[JobEntry],
) -> Result<(), SinkFault>
    ensures bytes { Writes (O.holds out.old) buffer.old (lines_of (line_of_job net.now graph.now) entries.now) (O.holds out.new) buffer.new result }
    ensures cause { HasCause (O.faults out.old) (O.faults out.new) result }
{
    for entry in entries {
        if let Err(fault) = write_line_of_job(buffer, out, net, graph, *entry) {
            return Err(fault);
        }
    }
    Ok(())
}

fn write_messages<O: Sink>(
    buffer: &mut LineBuf,
    out: &mut O,
    messages: &[Message],
) -> Result<(), SinkFault>
    ensures bytes { Writes (O.holds out.old) buffer.old (lines_of message_line messages.now) (O.holds out.new) buffer.new result }
    ensures cause { HasCause (O.faults out.old) (O.faults out.new) result }
{
    for message in messages {
        if let Err(fault) = write_message(buffer, out, *message) {
            return Err(fault);
        }
    }
    Ok(())
}

/// Writes the text of tables: a line for the cluster, and then for each task with its unit and the bound on its cycles,
/// for each job and for each message. There is one bound for each task. It takes no memory.
pub fn write_tables<O: Sink>(
    buffer: &mut LineBuf,
    out: &mut O,
    net: &Net,
    graph: &Graph,
    tables: &Tables,
    maxts: &[u32],
) -> Result<(), SinkFault>
    requires net { IsNetGraph net.now graph.now }
    requires maxts { length maxts.now ≡ length net.now.tasks }
    ensures bytes { Writes (O.holds out.old) buffer.old (tables_text net.now graph.now tables.now maxts.now) (O.holds out.new) buffer.new result }
    ensures cause { HasCause (O.faults out.old) (O.faults out.new) result }
{
    if let Err(fault) = write_cluster(buffer, out, &net.shape, graph.cycle()) {
        return Err(fault);
    }
    if let Err(fault) = write_tasks(buffer, out, net, graph, tables, maxts) {
        return Err(fault);
    }
    if let Err(fault) = write_jobs(buffer, out, net, graph, tables.jobs.as_slice()) {
        return Err(fault);
    }
    write_messages(buffer, out, tables.messages.as_slice())
}
