//! Binds a project to the ports of its tasks.
ghost use Rattle.std.specs.Prelude.{◌≡◌, All, IfOk, IfErr, length};
ghost use Rattle.graph.specs.Sound.{KeepsRules};
ghost use Rattle.task_ports.specs.Ports.{IsTaskPorts};
ghost use Rattle.project_rules.specs.Kept.{KeepsProject};
ghost use Rattle.project_binder.specs.PortFaults.{IsBound, IsBindFaultOf};

use crate::net::net_of;
use crate::places::port_fault;
use graph::Net;
use mars_base::Memory;
use project_reader::Project;
use project_sheet::Fault;
use std::alloc::Global;
use task_ports::TaskPorts;

/// Why a project and the ports of its tasks give no net.
#[derive(Clone, Copy, Debug, PartialEq, Eq)]
pub enum BindFault {
    /// The first fault: of the least kind, 17 to 20, then in the first section, then of the least entry.
    Bad(Fault),
    /// There was no memory.
    Memory,
}

impl From<Memory> for BindFault {
    ghost use Rattle.std.specs.Prelude.{◌≡◌};
    ghost use Rattle.project_binder.specs.declared.binding.BindFault.{BindFault};
    ghost use Rattle.project_binder.specs.declared.binding.BindFault.TheVariants.{Memory as NoMemory};

    ghost from_gives = { λ _ fault. fault ≡ NoMemory };

    fn from(_error: Memory) -> BindFault {
        BindFault::Memory
    }
}

/// The net of a project without a fault of its own, for the ports of its tasks in their order. It keeps the
/// rules of nets, but maybe not the limits of a cycle. Bad is answered exactly where a reference names no
/// port, an in port is fed by nothing or more than once, or an edge joins two widths.
pub fn bind(alloc: Global, project: &Project, ports: &[TaskPorts]) -> Result<Net, BindFault>
    requires kept { KeepsProject project.now }
    requires count { length ports.now ≡ length project.now.tasks }
    requires ports { All IsTaskPorts ports.now }
    ensures ok { IfOk result (IsBound project.now ports.now) }
    ensures rules { IfOk result KeepsRules }
    ensures fault { IfErr result (IsBindFaultOf project.now ports.now) }
{
    let net = net_of(alloc, project, ports)?;
    match port_fault(alloc, &net)? {
        Some(fault) => Err(BindFault::Bad(fault)),
        None => Ok(net),
    }
}
