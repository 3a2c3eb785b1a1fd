//! What holds of all that is counted and told. [`crate::Metrics`] and [`crate::Page`] are by the same words.
ghost use Rattle.std.specs.Prelude.{◌≡◌, ◌≢◌, ◌+◌, ◌-◌, ◌^◌, ◌<◌, ℕ, List, length, map, sum, slice_index, true};
ghost use Rattle.std.specs.List.{list_all};
ghost use Rattle.admin_pages.specs.declared.counted.Served.{Served};
ghost use Rattle.admin_pages.specs.declared.page.Gauges.{Gauges};
ghost use Rattle.admin_pages.specs.Counting.{cell, raised};
ghost use Rattle.admin_pages.specs.Families.{all_differ, families, fits, listed, named};
ghost use Rattle.admin_pages.specs.Labels.{command_places, status_places};

/// Of a list of counters exactly one moves, by one, where that is not at its greatest number. Each command and status of the protocol has a counter of
/// its own.
pub fn counted_once()
    ensures all { (counts : List ℕ) (place : ℕ) → place < length counts → slice_index counts place < 2 ^ 64 - 1 → sum (raised counts place) ≡ sum counts + 1 }
    ensures there { (counts : List ℕ) (place : ℕ) → place < length counts → slice_index counts place < 2 ^ 64 - 1 → slice_index (raised counts place) place ≡ slice_index counts place + 1 }
    ensures others { (counts : List ℕ) (place other : ℕ) → place ≢ other → slice_index (raised counts place) other ≡ slice_index counts other }
    ensures apart { (command status command' status' : ℕ) → command < command_places → status < status_places → command' < command_places → status' < status_places → cell command status ≡ cell command' status' → (command ≡ command') × (status ≡ status') }
{}

/// Each metric has a name of its own, the type that its name says, and a help of one line. Each gauge and each sum is told once, under its name.
#[tactic(auto, unfolding(crate::specs::Families::families))]
pub fn named_once()
    ensures apart { all_differ (map (λ metric. metric.name) families) ≡ true }
    ensures fit { list_all fits families ≡ true }
    ensures listed { (gauges : Gauges) (served : Served) (tenant : ℕ) → map named families ≡ listed gauges served tenant }
{}
