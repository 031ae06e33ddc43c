//! The rules for the form of a document, over all its places.
ghost use Rattle.std.specs.Prelude.{◌≡◌, ◌∷◌, [], IfOk, map, position, codes};
ghost use Rattle.toml.specs.Data.{get_member, table};
ghost use Rattle.toml.specs.View.{view, table_view};
ghost use Rattle.project_sheet.specs.First.{IsFirstPlace};
ghost use Rattle.project_sheet.specs.Form.{breaks};
ghost use Rattle.project_sheet.specs.Document.{entries_of, array_in, table_in, Breaks};

use crate::first::{Found, first_place};
use crate::form::{Rule, breaks, get, table_breaks};
use crate::place::{Place, Section};
use mars_base::Memory;
use toml::{Table, Value};

/// The items of an array at a key of a table.
pub fn array_at<'a>(doc: &'a Table, key: &str) -> &'a [Value]
    ensures { map view result.now ≡ array_in (get_member key.now (table_view doc.now)) }
{
    match get(doc, key) {
        Some(value) => match value.as_array() {
            Some(items) => items.as_slice(),
            None => &[],
        },
        None => &[],
    }
}

/// The first item that breaks a rule.
fn first_breaking(rule: Rule, section: Section, items: &[Value]) -> Option<usize>
    ensures { result ≡ position (λ v. breaks rule section (view v)) items.now }
{
    items.iter().position(|item| breaks(rule, section, item))
}

fn first_in_array(rule: Rule, section: Section, doc: &Table, key: &str) -> Option<usize>
    ensures { result ≡ position (breaks rule section) (array_in (get_member key.now (table_view doc.now))) }
{
    first_breaking(rule, section, array_at(doc, key))
}

fn first_in_table(rule: Rule, section: Section, entry: &Table) -> Option<usize>
    ensures { result ≡ position (breaks rule section) (table (table_view entry.now) ∷ []) }
{
    if table_breaks(rule, section, entry) {
        Some(0)
    } else {
        None
    }
}

fn first_in_cluster(rule: Rule, doc: &Table) -> Option<usize>
    ensures { result ≡ position (breaks rule Section.Cluster) (table_in (get_member (codes "cluster") (table_view doc.now))) }
{
    match get(doc, "cluster") {
        Some(value) => match value.as_table() {
            Some(cluster) => first_in_table(rule, Section::Cluster, cluster),
            None => None,
        },
        None => None,
    }
}

/// The first place that breaks a rule for the form of a project.
pub fn first_break(rule: Rule, doc: &Table) -> Result<Option<Place>, Memory>
    ensures { IfOk result (IsFirstPlace (Breaks (table_view doc.now) rule)) }
{
    first_place(Found {
        top: first_in_table(rule, Section::Top, doc),
        cluster: first_in_cluster(rule, doc),
        task: first_in_array(rule, Section::Task, doc, "task"),
        transaction: first_in_array(rule, Section::Transaction, doc, "transaction"),
        edge: first_in_array(rule, Section::Edge, doc, "edge"),
        sensor: first_in_array(rule, Section::Sensor, doc, "sensor"),
        actuator: first_in_array(rule, Section::Actuator, doc, "actuator"),
    })
}
