// The scheduler's state, two arrays that the host lends, and steps that its calls are made of: what the
// table holds, the times of a leaf, the choice, the clock. Hosts call `sched`.

#![tactic(auto)]

pub mod choice;
pub mod leaf;
pub mod planting;
pub mod table;
pub mod ticks;
