//! Tenants and what they keep: texts by the names of their collections and documents, under quotas, with lists.
#![tactic(auto)]

mod collection;
mod faults;
pub mod laws;
mod listing;
mod numbers;
mod tenant;
mod tenants;
mod usage;

pub use faults::StoreFault;
pub use numbers::big_endian;
pub use tenant::{BYTE_QUOTA, COLLECTION_QUOTA, DOCUMENT_QUOTA, Tenant};
pub use tenants::{TENANT_LIMIT, Tenants, TenantsFault};
pub use usage::Usage;
