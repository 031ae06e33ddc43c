//! When a plant carries a source project, and that each plant which is planned from one does.
#![tactic(auto)]

ghost use Rattle.carries.specs.Carries.{Carries};
ghost use Rattle.carries.specs.Planned.{IsPlannedFrom};
ghost use Rattle.plant.specs.declared.system.Plant.{Plant};
ghost use Rattle.project_source.specs.Project.{SourceProject, IsSourceProject};
ghost use Rattle.word_code.specs.declared.code.Code.{Code};

/// What holds of every plant that is planned from a source project: it carries the project. Over every list of
/// lines its run is the project's, job by job with the same states and outputs.
pub fn carrying()
    ensures { (s : SourceProject) (plant : Plant Code) → IsSourceProject s → IsPlannedFrom s plant → Carries plant s }
{}
