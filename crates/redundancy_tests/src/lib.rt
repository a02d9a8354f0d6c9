// What can be left out of small lists of dependencies, and of small instances, run.
#![tactic(auto)]

#[cfg(test)]
mod cores;
#[cfg(test)]
mod implied;
