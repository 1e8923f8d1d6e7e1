// Tests of graphs in print.
#![tactic(auto)]

#[cfg(test)]
mod tests;
