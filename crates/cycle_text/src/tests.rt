ghost use Rattle.std.specs.Prelude.{nat_eq, if◌then◌else◌, None, Some};

use crate::{Outcome, write_broken_jobs, write_closing, write_outs};
use cycle_outputs::CycleOutput;
use graph::Net;
use lines::LineBuf;
use mars_base::MemSink;
use std::alloc::Global;
use std::test::Fail;
use worked_nets::{graph_of, two_tasks};

/// A cycle in which `v` gets one word, and the job with number 1 is broken.
#[derive(Drop)]
struct Worked {
    words: [i32; 1],
}

impl Outcome for Worked {
    ghost given = { λ w actuator instance. if nat_eq actuator 0 then Some w.words else None };

    ghost broken = { λ w job. nat_eq job 1 };

    fn words(&self, actuator: u16, _instance: u32) -> Option<&[i32]> {
        if actuator == 0 {
            Some(&self.words[..])
        } else {
            None
        }
    }

    fn is_broken(&self, job: u16) -> bool {
        job == 1
    }
}

// An output of the actuator `v` of the project of two tasks at a tick.
fn output(tick: u32, instance: u32) -> CycleOutput {
    CycleOutput {
        tick,
        actuator: 0,
        instance,
    }
}

#[test]
fn outputs_broken_jobs_and_closing_lines(rt: HostRuntime) -> Result<(), Fail> {
    let alloc = rt.alloc();
    let net = two_tasks(alloc)?;
    let Ok(Some(graph)) = graph_of(alloc, &net, &[1, 1]) else {
        return Ok(());
    };
    let worked = Worked { words: [-7] };
    let mut buffer = LineBuf::new(alloc)?;
    let mut out = MemSink::new(alloc, 1000, Vec::new(alloc))?;
    let outputs = [output(19, 0), output(22, 1)];
    assert!(rt; write_outs(&mut buffer, &mut out, 3, &net, &outputs, &worked).is_ok());
    assert!(rt; write_broken_jobs(&mut buffer, &mut out, 3, &net, &graph, &worked).is_ok());
    assert!(rt; write_closing(&mut buffer, &mut out, &net, &[7, 8], &[0, 5]).is_ok());
    assert!(rt; buffer.flush(&mut out).is_ok());
    assert_eq!(rt;
        out.bytes(),
        b"out 3 v 0 19 -7\nout 3 v 1 22 -7\nbroken 3 b 0\ntask a maxt 7 seen 0\ntask b maxt 8 seen 5\n".as_slice()
    );
    Ok(())
}
