//! The tables of a whole list.
ghost use Rattle.std.specs.Prelude.{◌≡◌, ◌<◌, ◌++◌, IfOk, OnOk, length};
ghost use Rattle.std.specs.Option.{option_copied};
ghost use Rattle.decisions.specs.Decision.{decision_on};
ghost use Rattle.decisions.specs.TablesOf.{entry_of as entry_in, entries_of as entries_in, messages_to as messages_for, messages_over as messages_on, messages_of as messages_in, tables_of as tables_in};
ghost use Rattle.placement.specs.Held.{Holds};

use crate::latest::work;
use crate::places::find;
use crate::state::State;
use decisions::Placed;
use mars_base::Memory;
use sqlite_items::Items;
use std::alloc::Global;
use tables::{JobEntry, Message, Tables};

/// The decision on a job.
fn decision_on(state: &State, job: u16) -> Option<&Placed>
    requires { Holds state.now }
    ensures { option_copied result ≡ decision_on state.now.placed.items job }
{
    find(
        state.placed.as_slice(),
        state.places.as_slice(),
        usize::from(job),
    )
}

/// The entry of a job; one of zeros where it isn't placed.
fn entry_of(state: &State, job: u16) -> JobEntry
    requires { Holds state.now }
    ensures { result ≡ entry_in (decision_on state.now.placed.items job) }
{
    match decision_on(state, job) {
        Some(placed) => JobEntry {
            job: placed.job(),
            unit: placed.unit(),
            start: placed.start(),
            end: placed.end(),
        },
        None => JobEntry {
            job: 0,
            unit: 0,
            start: 0,
            end: 0,
        },
    }
}

fn entries_of(alloc: Global, state: &State) -> Result<Items<JobEntry>, Memory>
    requires { Holds state.now }
    ensures { IfOk result (λ entries. entries ≡ entries_in state.now.placed.items (length state.now.problem.works)) }
{
    let mut entries = Items::new(alloc);
    for job in 0..state.problem.works.len() {
        entries.push(entry_of(state, job as u16))?;
    }
    Ok(entries)
}

/// Adds the messages over an edge to a job.
fn add_messages(
    messages: &mut Items<Message>,
    state: &State,
    edge: u16,
    job: u16,
) -> Result<(), Memory>
    requires holds { Holds state.now }
    requires job { job < length state.now.problem.works }
    ensures { OnOk result (messages.new ≡ messages.old ++ messages_for state.now.problem state.now.placed.items edge job) }
{
    let instance = work(&state.problem, usize::from(job)).instance;
    let Some(placed) = decision_on(state, job) else {
        return Ok(());
    };
    for sent in placed.sent() {
        if sent.edge == edge {
            messages.push(Message {
                edge: sent.edge,
                instance,
                unit: sent.unit,
                round: sent.round,
                offset: sent.offset,
            })?;
        }
    }
    Ok(())
}

/// Adds the messages over an edge, by instance.
fn add_edge(messages: &mut Items<Message>, state: &State, edge: u16) -> Result<(), Memory>
    requires { Holds state.now }
    ensures { OnOk result (messages.new ≡ messages.old ++ messages_on state.now.problem state.now.placed.items edge (length state.now.problem.works)) }
{
    for job in 0..state.problem.works.len() {
        add_messages(messages, state, edge, job as u16)?;
    }
    Ok(())
}

fn messages_of(alloc: Global, state: &State) -> Result<Items<Message>, Memory>
    requires { Holds state.now }
    ensures { IfOk result (λ messages. messages ≡ messages_in state.now.problem state.now.placed.items state.now.problem.edges) }
{
    let mut messages = Items::new(alloc);
    for edge in 0..state.problem.edges {
        add_edge(&mut messages, state, edge)?;
    }
    Ok(messages)
}

/// The tables: an entry for each job, and the messages by edge and then by instance.
pub(crate) fn tables_of(alloc: Global, state: &State) -> Result<Tables, Memory>
    requires { Holds state.now }
    ensures { IfOk result (λ tables. tables ≡ tables_in state.now.problem state.now.placed.items) }
{
    let jobs = entries_of(alloc, state)?;
    let messages = messages_of(alloc, state)?;
    Ok(Tables { jobs, messages })
}
