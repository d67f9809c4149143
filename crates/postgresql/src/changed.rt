//! The rows of a table that a statement has changed.

use delta::View;

/// The changed rows of a table, as they stand behind FROM: all of them, and each beside what it adds to a count, as
/// `sign`.
#[derive(Clone, Copy)]
pub struct ChangedRows<'a> {
    pub view: &'a View,
    pub table: usize,
    pub rows: &'static str,
    pub signed: &'static str,
}

impl<'a> ChangedRows<'a> {
    /// What an INSERT puts in, or a DELETE takes out.
    pub fn once(view: &'a View, table: usize) -> ChangedRows<'a> {
        ChangedRows {
            view,
            table,
            rows: "skewguard_changed",
            signed: "(SELECT CASE TG_OP WHEN 'DELETE' THEN -1 ELSE 1 END AS sign, t.* FROM skewguard_changed AS t)",
        }
    }

    /// What an UPDATE changes, as it was and as it is.
    pub fn twice(view: &'a View, table: usize) -> ChangedRows<'a> {
        ChangedRows {
            view,
            table,
            rows: "(TABLE skewguard_old UNION ALL TABLE skewguard_new)",
            signed: "(SELECT -1 AS sign, t.* FROM skewguard_old AS t UNION ALL SELECT 1, t.* FROM skewguard_new AS t)",
        }
    }
}
