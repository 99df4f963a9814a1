//! Tests of kept worlds: what both keepers keep, and the commands that make a platform again from it.
#![tactic(auto)]

#[cfg(test)]
mod changes;
#[cfg(test)]
mod failing;
#[cfg(test)]
mod kept_worlds;
#[cfg(test)]
mod long_lists;
#[cfg(test)]
mod odd_texts;
#[cfg(test)]
mod shown;
#[cfg(test)]
mod stories;
