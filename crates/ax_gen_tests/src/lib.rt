//! Tests of made scripts: their operations are those that another program makes of the same seeds.
#![tactic(auto)]

#[cfg(test)]
mod made;
