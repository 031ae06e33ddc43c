//! The names of rows.
use crate::sheet::{OutletRow, TaskRow, TransactionRow};
use distinct_names::Named;

impl Named for TaskRow {
    ghost name_of = { λ t. t.name };

    fn name(&self) -> &[u8] {
        self.name.as_slice()
    }
}

impl Named for TransactionRow {
    ghost name_of = { λ t. t.name };

    fn name(&self) -> &[u8] {
        self.name.as_slice()
    }
}

impl Named for OutletRow {
    ghost name_of = { λ o. o.name };

    fn name(&self) -> &[u8] {
        self.name.as_slice()
    }
}
