// Levels of all formats on small cases, and a format that the engine does not know.
#![tactic(auto)]

mod mirrored;
#[cfg(test)]
mod tests;
