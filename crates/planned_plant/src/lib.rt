//! The plant of a planned project: what it is, and that its parts are whole.
#![tactic(auto)]

ghost use Rattle.planned_plant.specs.Plant.{IsWholePlan, WasPlanned};
ghost use Rattle.project_tables.specs.Planned.{PlannedProject, planned};
ghost use Rattle.stages.specs.World.{Held};
ghost use Rattle.std.specs.Prelude.{ℕ, List, Ok};
ghost use Rattle.tables.specs.Valid.{AreValid};

/// What holds of every project that was planned: it is the source project of its file's name, and where its
/// tables are valid the parts of its plant are whole.
pub fn plans_are_whole()
    ensures gave { (project : List ℕ) (budget : ℕ) (b n : Held) (p : PlannedProject) → (planned project budget).meant b n (Ok p) → WasPlanned b n project budget p }
    ensures whole { (project : List ℕ) (budget : ℕ) (b n : Held) (p : PlannedProject) → (planned project budget).meant b n (Ok p) → AreValid p.net p.graph p.tables → IsWholePlan p }
{}
