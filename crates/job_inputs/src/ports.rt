//! The inputs of a job.
ghost use Rattle.std.specs.Prelude.{◌≡◌, ◌<◌, IfSome, MatchBool, length, sum, option_copied, true, None, Some};
ghost use Rattle.graph.specs.Cycle.{sensor_words};
ghost use Rattle.graph.specs.Feeders.{feeder_of};
ghost use Rattle.graph.specs.Net.{ins_of};
ghost use Rattle.graph.specs.NetGraph.{IsNetGraph};
ghost use Rattle.tables.specs.Named.{job_at};
ghost use Rattle.timetable.specs.Keys.{feeds_in};
ghost use Rattle.net_run.specs.Words.{brought, job_inputs};
ghost use Rattle.carried_words.specs.Says.{IsBookOf};
ghost use Rattle.job_inputs.specs.Look.{AreStarts, IsInboxOf, looked_up, width_at};

use crate::look::edge_in;
use crate::sensors::sensor_part;
use agenda::Schedule;
use graph::{Feeder, Graph, Net};
use job_book::JobBook;
use replica_parts::Inbox;
use tables::Tables;
use task_words::InWords;

/// Puts the input words of a job of the unit together, port by port, and answers whether each is there. Where an
/// edge brings nothing the job lacks it, and the words so far are of no use.
pub fn gather(
    net: &Net,
    graph: &Graph,
    tables: &Tables,
    feeds: &Schedule,
    starts: &[u32],
    unit: u8,
    book: &JobBook,
    inbox: &Inbox,
    line: &[i32],
    job: u16,
    ins: &mut InWords,
) -> bool
    requires net { IsNetGraph net.now graph.now }
    requires feeds { feeds.now ≡ feeds_in net.now graph.now tables.now }
    requires starts { AreStarts net.now graph.now.cycle starts.now }
    requires book { IsBookOf net.now graph.now book.now }
    requires inbox { IsInboxOf net.now tables.now inbox.now }
    requires line { length line.now ≡ sensor_words net.now graph.now.cycle }
    requires job { job < length graph.now.jobs }
    ensures words { MatchBool result
        (job_inputs net.now graph.now.cycle line.now (looked_up net.now graph.now tables.now unit book.now inbox.now (job_at graph.now job).instance) (job_at graph.now job).instance (job_at graph.now job).task ≡ Some ins.new)
        (job_inputs net.now graph.now.cycle line.now (looked_up net.now graph.now tables.now unit book.now inbox.now (job_at graph.now job).instance) (job_at graph.now job).instance (job_at graph.now job).task ≡ None) }
    ensures count { result ≡ true → length ins.new ≡ sum (ins_of net.now (job_at graph.now job).task) }
{
    ins.clear();
    let ports = net.ins_of(graph.job(job).task).len() as u8;
    for port in 0..ports {
        let Some(words) = port_brings(
            net, graph, tables, feeds, starts, unit, book, inbox, line, job, port,
        ) else {
            return false;
        };
        ins.add(words);
    }
    true
}

// What the feeder of a port brings to a job; None where it is an edge that brings nothing.
fn port_brings<'a>(
    net: &Net,
    graph: &Graph,
    tables: &Tables,
    feeds: &Schedule,
    starts: &[u32],
    unit: u8,
    book: &'a JobBook,
    inbox: &'a Inbox,
    line: &'a [i32],
    job: u16,
    port: u8,
) -> Option<&'a [i32]>
    requires net { IsNetGraph net.now graph.now }
    requires feeds { feeds.now ≡ feeds_in net.now graph.now tables.now }
    requires starts { AreStarts net.now graph.now.cycle starts.now }
    requires book { IsBookOf net.now graph.now book.now }
    requires inbox { IsInboxOf net.now tables.now inbox.now }
    requires line { length line.now ≡ sensor_words net.now graph.now.cycle }
    requires job { job < length graph.now.jobs }
    requires port { port < length (ins_of net.now (job_at graph.now job).task) }
    ensures words { option_copied result ≡ brought net.now graph.now.cycle line.now (looked_up net.now graph.now tables.now unit book.now inbox.now (job_at graph.now job).instance) (job_at graph.now job).instance (feeder_of net.now (job_at graph.now job).task port) }
    ensures width { IfSome result (λ words. length words.now ≡ width_at net.now (job_at graph.now job).task port) }
{
    let it = graph.job(job);
    match graph.feeder(it.task, port) {
        Some(Feeder::Edge(edge)) => edge_in(
            net,
            graph,
            tables,
            feeds,
            unit,
            book,
            inbox,
            job,
            edge,
            it.instance,
        ),
        Some(Feeder::Sensor(sensor)) => {
            Some(sensor_part(net, graph, starts, line, sensor, it.instance))
        }
        None => unreachable!(),
    }
}
