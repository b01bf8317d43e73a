//! The name of a property has the capitals of the written identifier. A value
//! is a part of the text, and lives as long as the text does.

use sgf_tree::{Collection, NodeRef, read};
use std::alloc::Global;

/// Whether the first property of the text's first node has this name, and none of the others.
fn gives(alloc: Global, text: &str, name: &str, others: &[&str]) -> bool {
    match read(alloc, text.as_bytes()) {
        Ok(collection) => { collection.nodes() > 0 && has_first(&collection.node(0), name, others) }
        Err(_) => false,
    }
}

/// Whether the first property of a node has this name, and no property has one of the others.
fn has_first(node: &NodeRef<'_, '_>, name: &str, others: &[&str]) -> bool {
    for other in others {
        if node.first(other.as_bytes()).is_some() {
            return false;
        }
    }
    node.props() > 0 && node.prop(0).is(name.as_bytes())
}

/// Texts, the name of the first property of the first node, and three names that none of this node's properties has.
const NAMES: [[&str; 5]; 5] = [
    ["(;B[aa])", "B", "", "W", "BB"],
    ["(;BL[9])", "BL", "B", "L", "LB"],
    ["(;Bl[9])", "B", "BL", "Bl", "l"],
    ["(;GaMe[1])", "GM", "G", "GaMe", "GMX"],
    ["(;KGS[9])", "KGS", "KG", "K", "KGSX"],
];

#[test]
fn names(rt: HostRuntime) {
    for row in &NAMES {
        let text = row[0];
        assert!(rt; gives(rt.alloc(), text, row[1], &row[2..]), "of {text:?}");
    }
}

/// The first value of the root's property with that name. The value outlives the collection, because it is a part of the text.
fn value_of<'a>(alloc: Global, text: &'a [u8], name: &[u8]) -> Option<&'a [u8]> {
    match read(alloc, text) {
        Ok(collection) => value_in(&collection, name),
        Err(_) => None,
    }
}

/// The first value of the root's property with that name.
fn value_in<'a>(collection: &Collection<'a>, name: &[u8]) -> Option<&'a [u8]> {
    if collection.nodes() == 0 {
        return None;
    }
    let property = collection.node(0).first(name)?;
    Some(property.value(0))
}

#[test]
fn values_outlive_their_collection(rt: HostRuntime) {
    let text = b"(;GM[1]C[kept];B[aa])";
    let comment = value_of(rt.alloc(), text, b"C");
    assert!(rt; comment == Some(b"kept".as_slice()));
}
