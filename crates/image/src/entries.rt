//! The entries of tables as fields, and back.
ghost use Rattle.std.specs.Prelude.{◌≡◌, ◌<◌, All, IfOk, length, map};
ghost use Rattle.graph.specs.NetGraph.{IsNetGraph};
ghost use Rattle.image.specs.Helpers.{HasShortJob, HasShortNumbers};
ghost use Rattle.image_plant.specs.Fields.{job_part, message_part};
ghost use Rattle.image_plant.specs.Said.{number_in, entry_of, message_of};

use graph::{Graph, Net};
use image_tables::{JobPart, MessagePart};
use mars_base::Memory;
use sqlite_items::Items;
use std::alloc::Global;
use tables::{JobEntry, Message};

fn job_part(graph: &Graph, entry: JobEntry) -> JobPart
    requires { HasShortJob graph.now entry }
    ensures { result ≡ job_part graph.now entry }
{
    let job = graph.job_list()[usize::from(entry.job)];
    JobPart {
        task: job.task,
        instance: job.instance as u16,
        unit: entry.unit,
        start: entry.start,
        end: entry.end,
    }
}

/// The fields of the entries of jobs.
pub(crate) fn job_parts(
    alloc: Global,
    graph: &Graph,
    entries: &[JobEntry],
) -> Result<Vec<JobPart>, Memory>
    requires { All (HasShortJob graph.now) entries.now }
    ensures { IfOk result (λ parts. parts.items ≡ map (job_part graph.now) entries.now) }
{
    let mut parts = Vec::new(alloc);
    for entry in entries {
        parts.push(job_part(graph, *entry))?;
    }
    Ok(parts)
}

fn message_part(message: Message) -> MessagePart
    requires { HasShortNumbers message }
    ensures { result ≡ message_part message }
{
    MessagePart {
        edge: message.edge,
        instance: message.instance as u16,
        unit: message.unit,
        round: message.round as u16,
        offset: message.offset,
    }
}

/// The fields of the entries of messages.
pub(crate) fn message_parts(alloc: Global, messages: &[Message]) -> Result<Vec<MessagePart>, Memory>
    requires { All HasShortNumbers messages.now }
    ensures { IfOk result (λ parts. parts.items ≡ map message_part messages.now) }
{
    let mut parts = Vec::new(alloc);
    for message in messages {
        parts.push(message_part(*message))?;
    }
    Ok(parts)
}

fn job_number(net: &Net, graph: &Graph, task: u8, instance: u16) -> u16
    requires { IsNetGraph net.now graph.now }
    ensures { result ≡ number_in net.now graph.now.cycle task instance }
{
    if usize::from(task) >= net.tasks.len() {
        return 65_535;
    }
    if u32::from(instance) >= net.instances(graph.cycle(), task) {
        return 65_535;
    }
    graph.number_of(task, u32::from(instance))
}

fn entry_of(net: &Net, graph: &Graph, part: JobPart) -> JobEntry
    requires { IsNetGraph net.now graph.now }
    ensures { result ≡ entry_of net.now graph.now.cycle part }
{
    JobEntry {
        job: job_number(net, graph, part.task, part.instance),
        unit: part.unit,
        start: part.start,
        end: part.end,
    }
}

/// The entries of jobs that fields say; one that names no job has the number 65,535.
pub(crate) fn entries_of(
    alloc: Global,
    net: &Net,
    graph: &Graph,
    parts: &[JobPart],
) -> Result<Items<JobEntry>, Memory>
    requires { IsNetGraph net.now graph.now }
    ensures { IfOk result (λ entries. entries ≡ map (entry_of net.now graph.now.cycle) parts.now) }
{
    let mut entries = Items::new(alloc);
    for part in parts {
        entries.push(entry_of(net, graph, *part))?;
    }
    Ok(entries)
}

fn message_of(part: MessagePart) -> Message
    ensures { result ≡ message_of part }
{
    Message {
        edge: part.edge,
        instance: u32::from(part.instance),
        unit: part.unit,
        round: u32::from(part.round),
        offset: part.offset,
    }
}

/// The entries of messages that fields say.
pub(crate) fn messages_of(alloc: Global, parts: &[MessagePart]) -> Result<Items<Message>, Memory>
    ensures { IfOk result (λ messages. messages ≡ map message_of parts.now) }
{
    let mut messages = Items::new(alloc);
    for part in parts {
        messages.push(message_of(*part))?;
    }
    Ok(messages)
}
