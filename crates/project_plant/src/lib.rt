//! The plant of a net whose tasks were built: what it is, and that it carries the source project.
#![tactic(auto)]

ghost use Rattle.carries.specs.Carries.{Carries};
ghost use Rattle.graph.specs.JobGraph.{JobGraph};
ghost use Rattle.graph.specs.declared.net.Net.{Net};
ghost use Rattle.project_plant.specs.Planned.{plant_in, source_of, IsWhole};
ghost use Rattle.project_source.specs.Project.{IsSourceProject};
ghost use Rattle.std.specs.Prelude.{List};
ghost use Rattle.tables.specs.declared.table.Tables.{Tables};
ghost use Rattle.task_source.specs.Built.{Built};

/// What holds of every plant of whole parts: they are a source project's, and the plant carries it.
pub fn wholes_carry()
    ensures source { (net : Net) (graph : JobGraph) (tables : Tables) (built : List Built) → IsWhole net graph tables built → IsSourceProject (source_of net built) }
    ensures carries { (net : Net) (graph : JobGraph) (tables : Tables) (built : List Built) → IsWhole net graph tables built → Carries (plant_in net graph tables built) (source_of net built) }
{}
