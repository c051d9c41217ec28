// The library under one roof: the entries of documents 01 and 02, and the types that they take and answer with.
#![tactic(auto)]

pub use demand::demand;
pub use entry_audit::{audit, audit_covered};
pub use entry_build::build;
pub use entry_extend::extend;
pub use entry_read::read;
pub use entry_search::{closest, search};
pub use entry_write::write;
pub use meaning_entries::{Audited, Both, Found, Held, Reason, Refusal};
pub use meaning_filter::{Ask, Kind, Limits, Pick};
pub use meaning_rows::{Head, Row};
