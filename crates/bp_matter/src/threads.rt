// What threads may share.
use crate::tables::Tables;

// Each thread may have it, and all may see it at once.
fn may_be_shared<T: Send + Sync>(_value: &T) {}

/// Tables may be shared by threads.
pub fn tables_are_shared(tables: &Tables) {
    may_be_shared(tables);
}
