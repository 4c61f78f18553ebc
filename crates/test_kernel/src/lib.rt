//! Tests of the world, the core, the kernel and the runs of scripts, by their public calls only. They check what no bench file can state,
//! such as the results of queries during a run. The stored run of `script_bench` shows what a bench file can state.
#![tactic(auto)]

#[cfg(test)]
mod cores;
#[cfg(test)]
mod kernels;
#[cfg(test)]
mod run_results;
#[cfg(test)]
mod runs;
#[cfg(test)]
mod scripts;
#[cfg(test)]
mod sinks;
#[cfg(test)]
mod views;
#[cfg(test)]
mod worlds;
