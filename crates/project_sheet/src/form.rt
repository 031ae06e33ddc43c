//! The keys of a project file, and the rules for its form.
ghost use Rattle.std.specs.Prelude.{◌≡◌, map, string_bytes, bytes_eq, not, is_some, option_map};
ghost use Rattle.std.specs.List.{list_any, list_all};
ghost use Rattle.std.specs.BTreeMap.{keys};
ghost use Rattle.toml.specs.Data.{get_member, as_integer, as_str};
ghost use Rattle.toml.specs.View.{view, table_view};
ghost use Rattle.project_sheet.specs.Form.{plain_key, keys_of, fits, misfits, lacks, is_known, has_unknown, breaks, breaks_members};

use crate::place::Section;
use toml::{Table, Value};

/// What a key holds.
#[derive(Clone, Copy)]
pub enum Form {
    Number,
    Text,
    Numbers,
    Texts,
    Entry,
    Entries,
}

/// A key of a section.
#[derive(Clone, Copy)]
pub struct Key {
    name: &'static str,
    needed: bool,
    form: Form,
}

/// A rule for the form of a project.
#[derive(Clone, Copy)]
pub enum Rule {
    UnknownKey,
    MissingKey,
    WrongType,
}

/// The keys of a section.
fn keys_of(section: Section) -> &'static [Key]
    ensures { map plain_key result.now ≡ keys_of section }
{
    match section {
        Section::Top => &[
            Key {
                name: "cluster",
                needed: true,
                form: Form::Entry,
            },
            Key {
                name: "task",
                needed: true,
                form: Form::Entries,
            },
            Key {
                name: "transaction",
                needed: true,
                form: Form::Entries,
            },
            Key {
                name: "edge",
                needed: false,
                form: Form::Entries,
            },
            Key {
                name: "sensor",
                needed: false,
                form: Form::Entries,
            },
            Key {
                name: "actuator",
                needed: false,
                form: Form::Entries,
            },
        ],
        Section::Cluster => &[
            Key {
                name: "units",
                needed: true,
                form: Form::Number,
            },
            Key {
                name: "slot_words",
                needed: true,
                form: Form::Number,
            },
            Key {
                name: "precision",
                needed: true,
                form: Form::Number,
            },
            Key {
                name: "cycles_per_tick",
                needed: true,
                form: Form::Number,
            },
            Key {
                name: "round",
                needed: false,
                form: Form::Number,
            },
        ],
        Section::Task => &[
            Key {
                name: "name",
                needed: true,
                form: Form::Text,
            },
            Key {
                name: "file",
                needed: true,
                form: Form::Text,
            },
            Key {
                name: "units",
                needed: false,
                form: Form::Numbers,
            },
        ],
        Section::Transaction => &[
            Key {
                name: "name",
                needed: true,
                form: Form::Text,
            },
            Key {
                name: "period",
                needed: true,
                form: Form::Number,
            },
            Key {
                name: "deadline",
                needed: true,
                form: Form::Number,
            },
            Key {
                name: "tasks",
                needed: true,
                form: Form::Texts,
            },
        ],
        Section::Edge => &[
            Key {
                name: "from",
                needed: true,
                form: Form::Text,
            },
            Key {
                name: "to",
                needed: true,
                form: Form::Text,
            },
        ],
        Section::Sensor => &[
            Key {
                name: "name",
                needed: true,
                form: Form::Text,
            },
            Key {
                name: "to",
                needed: true,
                form: Form::Text,
            },
        ],
        Section::Actuator => &[
            Key {
                name: "name",
                needed: true,
                form: Form::Text,
            },
            Key {
                name: "from",
                needed: true,
                form: Form::Text,
            },
        ],
    }
}

/// What a key of a table holds.
pub fn get<'a>(table: &'a Table, key: &str) -> Option<&'a Value>
    ensures { option_map (λ v. view v.now) result ≡ get_member key.now (table_view table.now) }
{
    table.get(key)
}

fn all_numbers(items: &[Value]) -> bool
    ensures { result ≡ list_all (λ v. is_some (as_integer (view v))) items.now }
{
    items.iter().all(|item| item.is_integer())
}

fn all_texts(items: &[Value]) -> bool
    ensures { result ≡ list_all (λ v. is_some (as_str (view v))) items.now }
{
    items.iter().all(|item| item.is_str())
}

/// Whether a value has the form.
fn fits(form: Form, value: &Value) -> bool
    ensures { result ≡ fits form (view value.now) }
{
    match form {
        Form::Number => value.is_integer(),
        Form::Text => value.is_str(),
        Form::Numbers => match value.as_array() {
            Some(items) => all_numbers(items.as_slice()),
            None => false,
        },
        Form::Texts => match value.as_array() {
            Some(items) => all_texts(items.as_slice()),
            None => false,
        },
        Form::Entry => value.is_table(),
        Form::Entries => value.is_array(),
    }
}

/// Whether the key is needed and isn't there.
fn lacks(key: &Key, table: &Table) -> bool
    ensures { result ≡ lacks (table_view table.now) (plain_key key.now) }
{
    key.needed && get(table, key.name).is_none()
}

/// Whether the key is there and its value hasn't its form.
fn misfits(key: &Key, table: &Table) -> bool
    ensures { result ≡ misfits (table_view table.now) (plain_key key.now) }
{
    match get(table, key.name) {
        Some(value) => !fits(key.form, value),
        None => false,
    }
}

/// Whether a name is one of the keys.
fn is_known(keys: &[Key], name: &str) -> bool
    ensures { result ≡ list_any (λ key. bytes_eq name.now key.name.now) keys.now }
{
    keys.iter().any(|key| name == key.name)
}

/// Whether a table has a key that isn't one of these.
fn has_unknown(known: &[Key], table: &Table) -> bool
    ensures { result ≡ list_any (λ name. not (list_any (λ key. bytes_eq (string_bytes name) key.name.now) known.now)) (keys table.now) }
{
    table.keys().any(|name| !is_known(known, name.as_str()))
}

fn lacks_any(keys: &[Key], table: &Table) -> bool
    ensures { result ≡ list_any (λ key. lacks (table_view table.now) (plain_key key)) keys.now }
{
    keys.iter().any(|key| lacks(key, table))
}

fn misfits_any(keys: &[Key], table: &Table) -> bool
    ensures { result ≡ list_any (λ key. misfits (table_view table.now) (plain_key key)) keys.now }
{
    keys.iter().any(|key| misfits(key, table))
}

/// Whether a table breaks a rule.
pub fn table_breaks(rule: Rule, section: Section, table: &Table) -> bool
    ensures { result ≡ breaks_members rule section (table_view table.now) }
{
    let keys = keys_of(section);
    match rule {
        Rule::UnknownKey => has_unknown(keys, table),
        Rule::MissingKey => lacks_any(keys, table),
        Rule::WrongType => misfits_any(keys, table),
    }
}

/// Whether an entry breaks a rule.
pub fn breaks(rule: Rule, section: Section, value: &Value) -> bool
    ensures { result ≡ breaks rule section (view value.now) }
{
    match value.as_table() {
        Some(table) => table_breaks(rule, section, table),
        None => matches!(rule, Rule::WrongType),
    }
}
