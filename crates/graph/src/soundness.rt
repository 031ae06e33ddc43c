//! Whether a net is sound.
ghost use Rattle.std.specs.Prelude.{◌↔◌, ℕ, IsTrue, IfOk};
ghost use Rattle.graph.specs.Cycle.{IsWithinLimits};
ghost use Rattle.graph.specs.Sound.{IsSound, KeepsEntryRules, KeepsRules};

use crate::feeds::is_fed_once;
use crate::limits::cycle_within;
use crate::net::Net;
use crate::order::order_tasks;
use crate::rules::{has_counts, has_entries, has_names};
use mars_base::{Memory, is_shape};
use std::alloc::Global;

/// Whether the net keeps all rules but those on circles and on the limits of a cycle.
fn keeps_entry_rules(alloc: Global, net: &Net) -> Result<bool, Memory>
    ensures { IfOk result (λ answer. IsTrue answer ↔ KeepsEntryRules net.now) }
{
    if !is_shape(&net.shape) {
        return Ok(false);
    }
    if !has_counts(net) {
        return Ok(false);
    }
    if !has_entries(net) {
        return Ok(false);
    }
    if !is_fed_once(alloc, net)? {
        return Ok(false);
    }
    if !has_names(alloc, net)? {
        return Ok(false);
    }
    Ok(true)
}

/// Whether the net keeps all rules, but maybe not the limits of a cycle.
pub(crate) fn keeps_rules(alloc: Global, net: &Net) -> Result<bool, Memory>
    ensures { IfOk result (λ answer. IsTrue answer ↔ KeepsRules net.now) }
{
    if !keeps_entry_rules(alloc, net)? {
        return Ok(false);
    }
    let Some(_order) = order_tasks(alloc, net)? else {
        return Ok(false);
    };
    Ok(true)
}

/// Whether a cycle of the net is within the limits.
fn is_within_limits(net: &Net) -> bool
    requires { KeepsEntryRules net.now }
    ensures { IsTrue result ↔ ((cycle : ℕ) × IsWithinLimits net.now cycle) }
{
    cycle_within(net).is_ok()
}

/// Whether the net is sound. It may be any net: one from bytes of unknown origin is answered too.
pub fn sound(alloc: Global, net: &Net) -> Result<bool, Memory>
    ensures { IfOk result (λ answer. IsTrue answer ↔ IsSound net.now) }
{
    if !keeps_rules(alloc, net)? {
        return Ok(false);
    }
    Ok(is_within_limits(net))
}
