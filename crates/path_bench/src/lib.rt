//! What the benchmarks call: the crates' work on byte slices, exported to C.
#![tactic(auto)]

mod frames;
mod hub;
mod numbers;
mod places;
mod queries;
mod store;

pub use frames::{Taken, path_bench_frames};
pub use hub::path_bench_hub;
pub use numbers::decimal_compare;
pub use places::{Indexed, path_bench_index};
pub use queries::{Counted, path_bench_compile, path_bench_read, path_bench_select};
pub use store::{
    path_bench_store_drop, path_bench_store_get, path_bench_store_list, path_bench_store_put,
    path_bench_store_query,
};
