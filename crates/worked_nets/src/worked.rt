//! The nets of the worked projects.
use crate::rows::{net_of, shape_of};
use graph::Net;
use mars_base::{ClusterShape, Memory};
use std::alloc::Global;

/// A task `inc` of one unit, which a sensor feeds, with the round, the period and the deadline given: with 6 for
/// each the project p1.
pub fn one_task(alloc: Global, round: u32, period: u32, deadline: u32) -> Result<Net, Memory> {
    net_of(
        alloc,
        shape_of(1, 7, round),
        &[("inc", 0, 1)],
        &[("t", period, deadline)],
        &[],
        &[("s", 0)],
        &[("v", 0)],
    )
}

/// The project p2: a task `a` of unit 0 that feeds a task `b` of unit 1 over the bus.
pub fn two_tasks(alloc: Global) -> Result<Net, Memory> {
    net_of(
        alloc,
        shape_of(2, 7, 12),
        &[("a", 0, 1), ("b", 0, 2)],
        &[("t", 24, 24)],
        &[(0, 1)],
        &[("s", 0)],
        &[("v", 1)],
    )
}

/// The project p3 with the deadline given: tasks `p` and `q` of one unit. With 14 it has a table, with 13 none.
pub fn two_on_one_unit(alloc: Global, deadline: u32) -> Result<Net, Memory> {
    net_of(
        alloc,
        shape_of(1, 1, 6),
        &[("p", 0, 1), ("q", 0, 1)],
        &[("t", 18, deadline)],
        &[],
        &[("r", 0), ("s", 1)],
        &[("v", 0), ("w", 1)],
    )
}

/// The project p5: a task `p` of any of two units and a task `q` of unit 0.
pub fn one_is_free(alloc: Global) -> Result<Net, Memory> {
    net_of(
        alloc,
        shape_of(2, 1, 12),
        &[("p", 0, 3), ("q", 0, 1)],
        &[("t", 24, 13)],
        &[],
        &[("r", 0), ("s", 1)],
        &[("v", 0), ("w", 1)],
    )
}

/// The cluster of the worked plant.
const PLANT_SHAPE: ClusterShape = ClusterShape {
    units: 4,
    slot_words: 8,
    precision: 2,
    cycles_per_tick: 40,
    round: 100,
};

/// The worked plant: a sensor's task, a controller and an actuator's task in each of four transactions. The lengths
/// of their jobs are 4, 2 and 1.
pub fn plant(alloc: Global) -> Result<Net, Memory> {
    net_of(
        alloc,
        PLANT_SHAPE,
        &[
            ("sense0", 0, 2),
            ("ctl0", 0, 8),
            ("act0", 0, 1),
            ("sense1", 1, 4),
            ("ctl1", 1, 4),
            ("act1", 1, 1),
            ("sense2", 2, 1),
            ("ctl2", 2, 4),
            ("act2", 2, 8),
            ("sense3", 3, 8),
            ("ctl3", 3, 2),
            ("act3", 3, 4),
        ],
        &[
            ("t0", 100, 100),
            ("t1", 100, 100),
            ("t2", 200, 200),
            ("t3", 200, 200),
        ],
        &[
            (0, 1),
            (1, 2),
            (3, 4),
            (4, 5),
            (6, 7),
            (7, 8),
            (9, 10),
            (10, 11),
        ],
        &[("s0", 0), ("s1", 3), ("s2", 6), ("s3", 9)],
        &[("v0", 2), ("v1", 5), ("v2", 8), ("v3", 11)],
    )
}
