//! Finished runs that are verified, as they were left and damaged. Which line falls was worked out by hand.
#![tactic(auto)]

#[cfg(test)]
mod checking;
#[cfg(test)]
mod finished;
#[cfg(test)]
mod rows;
#[cfg(test)]
mod seeded;
#[cfg(test)]
mod tables;
