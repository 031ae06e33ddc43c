//! The first of the places found in the sections.
ghost use Rattle.std.specs.Prelude.{◌≡◌, IfOk};
ghost use Rattle.project_sheet.specs.First.{or_place, first_of, least_of};

use crate::place::{Place, Section};
use mars_base::Memory;

/// The least entry that was found in each section.
#[derive(Clone, Copy)]
pub struct Found {
    pub top: Option<usize>,
    pub cluster: Option<usize>,
    pub task: Option<usize>,
    pub transaction: Option<usize>,
    pub edge: Option<usize>,
    pub sensor: Option<usize>,
    pub actuator: Option<usize>,
}

/// The entry found in this section, or what was found in later ones. No file that is read has 2^32
/// entries; where a section had so many, there's no memory for a place.
fn or_place(
    section: Section,
    found: Option<usize>,
    later: Option<Place>,
) -> Result<Option<Place>, Memory>
    ensures { IfOk result (λ place. place ≡ or_place section found later) }
{
    match found {
        Some(entry) => match u32::try_from(entry) {
            Ok(entry) => Ok(Some(Place { section, entry })),
            Err(_) => Err(Memory),
        },
        None => Ok(later),
    }
}

/// The first of the places found.
pub fn first_place(found: Found) -> Result<Option<Place>, Memory>
    ensures { IfOk result (λ place. place ≡ first_of found) }
{
    let place = or_place(Section::Actuator, found.actuator, None)?;
    let place = or_place(Section::Sensor, found.sensor, place)?;
    let place = or_place(Section::Edge, found.edge, place)?;
    let place = or_place(Section::Transaction, found.transaction, place)?;
    let place = or_place(Section::Task, found.task, place)?;
    let place = or_place(Section::Cluster, found.cluster, place)?;
    or_place(Section::Top, found.top, place)
}

/// The lesser of two numbers that were found.
pub fn least(a: Option<usize>, b: Option<usize>) -> Option<usize>
    ensures { result ≡ least_of a b }
{
    match (a, b) {
        (None, b) => b,
        (Some(i), None) => Some(i),
        (Some(i), Some(j)) => Some(i.min(j)),
    }
}
