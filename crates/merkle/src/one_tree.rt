//! Laws: without a clash of hash inputs a root has one tree.

ghost use Rattle.merkle.specs.OneTree.{KnownNodesAreOwn, SiblingsAgree, TreesAgree};

/// A law of the definitions: without a clash the siblings on two ways from one position to one root
/// are the same. The law is the contract; the call does nothing.
pub fn siblings_agree()
    ensures { SiblingsAgree }
{}

/// A law of the definitions: without a clash two trees of as many leaves with one root have the
/// same leaves. The law is the contract; the call does nothing.
pub fn trees_agree()
    ensures { TreesAgree }
{}

/// A law of the definitions: without a clash all nodes that are known of a tree are those of each
/// tree with its root and as many leaves. The law is the contract; the call does nothing.
pub fn known_nodes_are_own()
    ensures { KnownNodesAreOwn }
{}
