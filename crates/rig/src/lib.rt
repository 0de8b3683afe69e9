// What stands on the bench, and what a script makes of it.
#![tactic(auto)]

mod desk;
mod run;
mod work;

pub use run::transcript;
