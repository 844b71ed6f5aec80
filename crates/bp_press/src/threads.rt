// What threads may share.
use crate::jobs::Job;

// Each thread may have it, and all may see it at once.
fn may_be_shared<T: Send + Sync>(_value: &T) {}

/// A job may be shared by threads.
pub fn job_is_shared(job: &Job) {
    may_be_shared(job);
}
