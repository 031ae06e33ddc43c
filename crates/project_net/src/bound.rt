//! The net of a project and its tasks' ports, or its first fault.
ghost use Rattle.std.specs.Prelude.{◌≡◌, ◌⊎◌, Err, All, IfOk, length};
ghost use Rattle.graph.specs.Sound.{KeepsRules};
ghost use Rattle.project_net.specs.Gives.{NetGives};
ghost use Rattle.project_rules.specs.Kept.{KeepsProject};
ghost use Rattle.task_ports.specs.Ports.{IsTaskPorts};

use graph::Net;
use mars_base::Text;
use project_binder::{BindFault, bind};
use project_faults::fault_of;
use project_reader::Project;
use refusals::Refusal;
use std::alloc::Global;
use task_ports::TaskPorts;

/// The net of a project whose tasks have these ports. Refused where it breaks a rule of projects that speaks of
/// ports, and where there is no memory.
pub fn bind_project(
    alloc: Global,
    file: &str,
    project: &Project,
    ports: &[TaskPorts],
) -> Result<Net, Refusal>
    requires kept { KeepsProject project.now }
    requires count { length ports.now ≡ length project.now.tasks }
    requires ports { All IsTaskPorts ports.now }
    ensures answer { NetGives file.now project.now ports.now result ⊎ (result ≡ Err Refusal.Memory) }
    ensures rules { IfOk result KeepsRules }
    ensures count { IfOk result (λ net. length net.tasks ≡ length ports.now) }
{
    let Ok(name) = Text::from_slice(alloc, file.as_bytes()) else {
        return Err(Refusal::Memory);
    };
    match bind(alloc, project, ports) {
        Ok(net) => Ok(net),
        Err(BindFault::Memory) => Err(Refusal::Memory),
        Err(BindFault::Bad(fault)) => Err(fault_of(name, fault)),
    }
}
