use crate::query::Query;
use crate::reply::{Change, Reply};

// Whatever crosses threads has to be shown so where the type stands.
fn is_shared<T: Send + Sync>(_value: &T) {}

pub(crate) fn are_shared(query: &Query, reply: &Reply, change: &Change) {
    is_shared(query);
    is_shared(reply);
    is_shared(change);
}
