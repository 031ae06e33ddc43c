//! Whether tables are valid.
ghost use Rattle.std.specs.Prelude.{◌≡◌, ℕ, ◌<◌, IfErr, OnOk, length};
ghost use Rattle.graph.specs.NetGraph.{IsNetGraph};
ghost use Rattle.tables.specs.Progress.{KeepsBelow};
ghost use Rattle.tables.specs.Rules.{HasEachJob, HasUnits};
ghost use Rattle.tables.specs.Valid.{AreValid, IsFirstFault};

use crate::frames::fits_frames;
use crate::inputs::gets_inputs;
use crate::jobs::{
    ends_by_deadline, has_each_job, has_lengths, shares_no_tick, starts_after_release,
};
use crate::rule::TableRule;
use crate::table::Tables;
use crate::units::has_units;
use graph::{Graph, Net};
use tdma::Round;

/// The first rule that tables don't keep.
#[derive(Clone, Copy, Debug, PartialEq, Eq)]
pub struct TableFault {
    /// The rule.
    pub rule: TableRule,
}

/// The rules on which job runs where.
fn place_rules(tables: &Tables, net: &Net, graph: &Graph) -> Result<(), TableFault>
    requires { IsNetGraph net.now graph.now }
    ensures jobs { OnOk result (HasEachJob graph.now tables.now) }
    ensures units { OnOk result (HasUnits net.now graph.now tables.now) }
    ensures kept { OnOk result (KeepsBelow net.now graph.now tables.now 3) }
    ensures fault { IfErr result (λ f. IsFirstFault net.now graph.now tables.now f.rule) }
{
    if !has_each_job(tables, graph) {
        return Err(TableFault {
            rule: TableRule::Jobs,
        });
    }
    if !has_units(tables, net, graph) {
        return Err(TableFault {
            rule: TableRule::Units,
        });
    }
    Ok(())
}

/// The rules on the ticks of jobs.
fn tick_rules(tables: &Tables, net: &Net, graph: &Graph) -> Result<(), TableFault>
    requires jobs { HasEachJob graph.now tables.now }
    requires before { KeepsBelow net.now graph.now tables.now 3 }
    ensures kept { OnOk result (KeepsBelow net.now graph.now tables.now 5) }
    ensures fault { IfErr result (λ f. IsFirstFault net.now graph.now tables.now f.rule) }
{
    if !has_lengths(tables, graph) {
        return Err(TableFault {
            rule: TableRule::Lengths,
        });
    }
    if !shares_no_tick(tables, graph) {
        return Err(TableFault {
            rule: TableRule::Ticks,
        });
    }
    Ok(())
}

/// The rules on the releases and the deadlines of jobs.
fn time_rules(tables: &Tables, net: &Net, graph: &Graph) -> Result<(), TableFault>
    requires jobs { HasEachJob graph.now tables.now }
    requires before { KeepsBelow net.now graph.now tables.now 5 }
    ensures kept { OnOk result (KeepsBelow net.now graph.now tables.now 7) }
    ensures fault { IfErr result (λ f. IsFirstFault net.now graph.now tables.now f.rule) }
{
    if !starts_after_release(tables, graph) {
        return Err(TableFault {
            rule: TableRule::Releases,
        });
    }
    if !ends_by_deadline(tables, graph) {
        return Err(TableFault {
            rule: TableRule::Deadlines,
        });
    }
    Ok(())
}

/// The rules on messages.
fn message_rules(tables: &Tables, net: &Net, graph: &Graph) -> Result<(), TableFault>
    requires net { IsNetGraph net.now graph.now }
    requires jobs { HasEachJob graph.now tables.now }
    requires units { HasUnits net.now graph.now tables.now }
    requires before { KeepsBelow net.now graph.now tables.now 7 }
    ensures kept { OnOk result (KeepsBelow net.now graph.now tables.now 9) }
    ensures fault { IfErr result (λ f. IsFirstFault net.now graph.now tables.now f.rule) }
{
    let round = Round::new(&net.shape, graph.cycle());
    if !gets_inputs(tables, net, graph, &round) {
        return Err(TableFault {
            rule: TableRule::Inputs,
        });
    }
    if !fits_frames(tables, net, &round) {
        return Err(TableFault {
            rule: TableRule::Frames,
        });
    }
    Ok(())
}

/// Whether the tables keep all eight rules; else the first that they don't. It takes no memory, and its
/// time grows with the tables.
pub fn valid(tables: &Tables, net: &Net, graph: &Graph) -> Result<(), TableFault>
    requires { IsNetGraph net.now graph.now }
    ensures ok { OnOk result (AreValid net.now graph.now tables.now) }
    ensures fault { IfErr result (λ f. IsFirstFault net.now graph.now tables.now f.rule) }
{
    place_rules(tables, net, graph)?;
    tick_rules(tables, net, graph)?;
    time_rules(tables, net, graph)?;
    message_rules(tables, net, graph)?;
    Ok(())
}
