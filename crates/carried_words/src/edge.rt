//! The words of edges.
ghost use Rattle.std.specs.Prelude.{◌≡◌, ◌≤◌, ◌<◌, IfSome, length, slice_index, sum, take, option_copied};
ghost use Rattle.graph.specs.Net.{instances, width_of};
ghost use Rattle.graph.specs.NetGraph.{IsNetGraph};
ghost use Rattle.net_run.specs.Words.{port_words};
ghost use Rattle.tables.specs.Named.{edge_at};
ghost use Rattle.carried_words.specs.Says.{IsBookOf, edge_says};

use graph::{Graph, Net};
use job_book::JobBook;
use timetable::{edge_at, producer_of};

/// The words that an edge carries in an instance: those of its out port that its producer's job has given; None
/// where that job has given none.
pub fn edge_words<'a>(
    net: &Net,
    graph: &Graph,
    book: &'a JobBook,
    edge: u16,
    instance: u32,
) -> Option<&'a [i32]>
    requires net { IsNetGraph net.now graph.now }
    requires book { IsBookOf net.now graph.now book.now }
    requires edge { edge < length net.now.edges }
    requires instance { instance < instances net.now graph.now.cycle (edge_at net.now edge).from_task }
    ensures words { option_copied result ≡ edge_says net.now graph.now.cycle book.now edge instance }
    ensures width { IfSome result (λ words. length words.now ≡ width_of net.now (edge_at net.now edge)) }
{
    let from = edge_at(net, usize::from(edge));
    let producer = producer_of(net, graph, edge, instance);
    match book.given(producer) {
        Some(outs) => Some(port_part(net.outs_of(from.from_task), from.from_port, outs)),
        None => None,
    }
}

// The words of a port among those of all ports, which have these widths.
fn port_part<'a>(widths: &[u8], port: u8, words: &'a [i32]) -> &'a [i32]
    requires port { port < length widths.now }
    requires words { length words.now ≡ sum widths.now }
    ensures words { result.now ≡ port_words widths.now port words.now }
    ensures width { length result.now ≡ slice_index widths.now port }
{
    let from = words_before(widths, port);
    let to = from + usize::from(widths[usize::from(port)]);
    &words[from..to]
}

// How many words the ports before one have.
fn words_before(widths: &[u8], port: u8) -> usize
    requires { port ≤ length widths.now }
    ensures { result ≡ sum (take port widths.now) }
{
    let mut words = 0;
    for i in 0..usize::from(port) {
        words += usize::from(widths[i]);
    }
    words
}
