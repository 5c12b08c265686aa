//! The same types over any lock, for what is generic in it: threads, and whatever is to be proved soon.
pub use sentry_hub::Hub;
pub use sentry_hub::performance::{Span, Transaction, TransactionOrSpan};
pub use sentry_lock::{Client, CoreLock, SharedCore};
pub use sentry_thread_hub::ThreadHub;
