//! What every run of every image keeps under the chosen policies, over every interleaving of the harts: each unsealing used
//! its key, each indirect jump is a listed edge, each store lies in its compartment's permitted words, and each heap access in
//! its pointer's live block. And an engine that has room for the tags of a run without a sweep
//! does not sweep. And an image that is migrated to the wider version of its format has the runs that it had.
#![tactic(auto)]

mod law;

pub use law::{
    beside_law, comp_attack_law, comp_law, engine_law, flow_attack_law, flow_law, heap_attack_law,
    heap_law, invariant_law, migration_law, parts_law, run_law, seal_attack_law, seal_law,
    sweep_law, zeroing_law,
};
