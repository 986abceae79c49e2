//! Languages whose texts are judged one token at a time, by a grammar and by rules beside it.
#![tactic(auto)]

/// A rule that is broken, and the place of the token, or none at the end of the text.
#[derive(Clone, Copy, PartialEq, Eq)]
pub struct Breach<K> {
    pub at: Option<usize>,
    pub kind: K,
}
