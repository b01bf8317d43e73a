//! Worked examples of `sgf_tree`, and of `sgf_outline` and `sgf_properties` through it. They call it as any other crate does: extents, nodes,
//! names, values and numbers.
//!
//! They are in a crate of their own, because a crate that has tests is proved a second time together
//! with them. Tests of the program cover first faults, places, values and decoded text
//! (`tests/program.sh`, `tests/values.sh`). `sgf_lines_tests` covers parents, and the last node below a node.
//!
//! | Module | Examples of |
//! |---|---|
//! | `extent` | how many games, nodes and leaves a text has, and a text that is refused |
//! | `node` | for which nodes `NodeRef::front` and `SequenceNodes::next` recognize a property, how the sgf form writes a node, and properties one after another |
//! | `property` | names, and values that outlive their collection |
//! | `numbers` | values that are numbers, and values that aren't |
#![tactic(auto)]

#[cfg(test)]
mod extent;
#[cfg(test)]
mod node;
#[cfg(test)]
mod numbers;
#[cfg(test)]
mod property;
