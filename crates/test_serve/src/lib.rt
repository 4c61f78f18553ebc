//! Tests of runs over a client: the whole dialogues of small runs, and each way in which a run is rejected or aborts.
#![tactic(auto)]

#[cfg(test)]
mod answers;
#[cfg(test)]
mod dialogues;
#[cfg(test)]
mod failures;
#[cfg(test)]
mod lines;
#[cfg(test)]
mod readers;
#[cfg(test)]
mod refusals;
#[cfg(test)]
mod scripted;
#[cfg(test)]
mod serving;
