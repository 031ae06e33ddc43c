//! The lines of jobs.
ghost use Rattle.std.specs.Prelude.{◌≡◌, codes};
ghost use Rattle.lines.specs.Gathered.{Writes};
ghost use Rattle.mars_base.specs.Causes.{HasCause};
ghost use Rattle.tables.specs.Named.{job_at, entry_at};
ghost use Rattle.tables_text.specs.Text.{task_name as name_of};
ghost use Rattle.trace_text.specs.Lines.{job_line, end_line};

use crate::Place;
use crate::line::write_own;
use graph::{Graph, Job, Net};
use itoa::Buffer;
use lines::LineBuf;
use mars_base::{Sink, SinkFault};
use tables::Tables;
use timetable::entry_at;

// The job of a number without a job.
const NO_JOB: Job = Job {
    task: 0,
    instance: 0,
    release: 0,
    deadline: 0,
    length: 0,
};

/// Writes the line of a job that starts.
pub fn write_start<O: Sink>(
    buffer: &mut LineBuf,
    out: &mut O,
    place: Place,
    net: &Net,
    graph: &Graph,
    job: u16,
) -> Result<(), SinkFault>
    ensures bytes { Writes (O.holds out.old) buffer.old (job_line net.now graph.now place (codes "start") place.tick job) (O.holds out.new) buffer.new result }
    ensures cause { HasCause (O.faults out.old) (O.faults out.new) result }
{
    let word = b"start".as_slice();
    write_job(buffer, out, place, net, graph, word, place.tick, job)
}

/// Writes the line of a job that is skipped.
pub fn write_skip<O: Sink>(
    buffer: &mut LineBuf,
    out: &mut O,
    place: Place,
    net: &Net,
    graph: &Graph,
    job: u16,
) -> Result<(), SinkFault>
    ensures bytes { Writes (O.holds out.old) buffer.old (job_line net.now graph.now place (codes "skip") place.tick job) (O.holds out.new) buffer.new result }
    ensures cause { HasCause (O.faults out.old) (O.faults out.new) result }
{
    let word = b"skip".as_slice();
    write_job(buffer, out, place, net, graph, word, place.tick, job)
}

/// Writes the line of a job that is broken, at the tick at which the tables end it.
pub fn write_break<O: Sink>(
    buffer: &mut LineBuf,
    out: &mut O,
    place: Place,
    net: &Net,
    graph: &Graph,
    tables: &Tables,
    job: u16,
) -> Result<(), SinkFault>
    ensures bytes { Writes (O.holds out.old) buffer.old (job_line net.now graph.now place (codes "break") (entry_at tables.now job).end job) (O.holds out.new) buffer.new result }
    ensures cause { HasCause (O.faults out.old) (O.faults out.new) result }
{
    let word = b"break".as_slice();
    let at = entry_at(tables, usize::from(job)).end;
    write_job(buffer, out, place, net, graph, word, at, job)
}

/// Writes the line of a job that ends with its outputs, at the tick at which the tables end it, with the cycles that it
/// took.
pub fn write_end<O: Sink>(
    buffer: &mut LineBuf,
    out: &mut O,
    place: Place,
    net: &Net,
    graph: &Graph,
    tables: &Tables,
    job: u16,
    cycles: u32,
) -> Result<(), SinkFault>
    ensures bytes { Writes (O.holds out.old) buffer.old (end_line net.now graph.now place (entry_at tables.now job).end job cycles) (O.holds out.new) buffer.new result }
    ensures cause { HasCause (O.faults out.old) (O.faults out.new) result }
{
    let end = entry_at(tables, usize::from(job)).end;
    let job = job_of(graph, job);
    let name = name_of(net, job.task);
    let mut instance_digits = Buffer::new();
    let instance = instance_digits.format(job.instance).as_bytes();
    let mut cycles_digits = Buffer::new();
    let cycles = cycles_digits.format(cycles).as_bytes();
    write_own(
        buffer,
        out,
        place,
        b"end".as_slice(),
        end,
        &[
            &b" "[..],
            name,
            &b" "[..],
            instance,
            &b" "[..],
            cycles,
            &b"\n"[..],
        ],
    )
}

// Writes a line of a job, which a word tells, at a tick: by its task's name and its instance.
fn write_job<O: Sink>(
    buffer: &mut LineBuf,
    out: &mut O,
    place: Place,
    net: &Net,
    graph: &Graph,
    word: &[u8],
    at: u32,
    job: u16,
) -> Result<(), SinkFault>
    ensures bytes { Writes (O.holds out.old) buffer.old (job_line net.now graph.now place word.now at job) (O.holds out.new) buffer.new result }
    ensures cause { HasCause (O.faults out.old) (O.faults out.new) result }
{
    let job = job_of(graph, job);
    let name = name_of(net, job.task);
    let mut instance_digits = Buffer::new();
    let instance = instance_digits.format(job.instance).as_bytes();
    write_own(
        buffer,
        out,
        place,
        word,
        at,
        &[&b" "[..], name, &b" "[..], instance, &b"\n"[..]],
    )
}

// The job of a number; one of zeros where there is none.
fn job_of(graph: &Graph, job: u16) -> Job
    ensures { result ≡ job_at graph.now job }
{
    match graph.job_list().get(usize::from(job)) {
        Some(job) => *job,
        None => NO_JOB,
    }
}

// The name of a task; none where there is no such task.
fn name_of(net: &Net, task: u8) -> &[u8]
    ensures { result.now ≡ name_of net.now task }
{
    match net.tasks.get(usize::from(task)) {
        Some(task) => task.name.as_slice(),
        None => &[],
    }
}
