// The program over odd sources, sinks and clocks. What it makes of words and scripts is data of daos_cases.
#![tactic(auto)]

#[cfg(test)]
mod clocks;
#[cfg(test)]
mod faults;
#[cfg(test)]
mod full;
#[cfg(test)]
mod names;
#[cfg(test)]
mod planned;
#[cfg(test)]
mod runs;
#[cfg(test)]
mod slow;
