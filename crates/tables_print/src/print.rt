//! Puts the text of tables.
ghost use Rattle.std.specs.Prelude.{◌≡◌, [], ℕ, List, Option, length};
ghost use Rattle.graph.specs.NetGraph.{IsNetGraph};
ghost use Rattle.mars_base.specs.declared.file.File.{File};
ghost use Rattle.refusals.specs.Causes.{counts};
ghost use Rattle.stages.specs.Stage.{Does, printing};
ghost use Rattle.stages.specs.World.{held};
ghost use Rattle.tables_print.specs.Showing.{showing};
ghost use Rattle.tables_text.specs.Text.{tables_text};

use graph::{Graph, Net};
use lines::LineBuf;
use mars_base::Sink;
use refusals::Refusal;
use std::alloc::Global;
use tables::Tables;
use tables_text::write_tables;

/// Puts the text of a net's tables to the output. There is one bound for each task. Refused where a put
/// failed, and where there is no memory for a buffer; then nothing was put.
pub fn print_tables<O: Sink>(
    alloc: Global,
    net: &Net,
    graph: &Graph,
    tables: &Tables,
    maxts: &[u32],
    out: &mut O,
) -> Result<(), Refusal>
    requires net { IsNetGraph net.now graph.now }
    requires maxts { length maxts.now ≡ length net.now.tasks }
    ensures answer { (files : Option (List File)) (left : Option (List ℕ)) (reads writes input : ℕ) → Does (showing (tables_text net.now graph.now tables.now maxts.now))
        (held files left (O.holds out.old)) (held files left (O.holds out.new))
        (counts reads writes input (O.faults out.old)) (counts reads writes input (O.faults out.new))
        result }
{
    let Ok(mut buffer) = LineBuf::new(alloc) else {
        return Err(Refusal::Memory);
    };
    write_text(&mut buffer, net, graph, tables, maxts, out)
}

// Puts the text by way of an empty buffer.
fn write_text<O: Sink>(
    buffer: &mut LineBuf,
    net: &Net,
    graph: &Graph,
    tables: &Tables,
    maxts: &[u32],
    out: &mut O,
) -> Result<(), Refusal>
    requires net { IsNetGraph net.now graph.now }
    requires maxts { length maxts.now ≡ length net.now.tasks }
    requires empty { buffer.old ≡ [] }
    ensures answer { (files : Option (List File)) (left : Option (List ℕ)) (reads writes input : ℕ) → Does (printing (tables_text net.now graph.now tables.now maxts.now))
        (held files left (O.holds out.old)) (held files left (O.holds out.new))
        (counts reads writes input (O.faults out.old)) (counts reads writes input (O.faults out.new))
        result }
{
    if let Err(_fault) = write_tables(buffer, out, net, graph, tables, maxts) {
        return Err(Refusal::WriteFault(None));
    }
    match buffer.send(out) {
        Ok(()) => Ok(()),
        Err(_fault) => Err(Refusal::WriteFault(None)),
    }
}
