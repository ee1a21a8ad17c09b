//! What a scan reads of each node.

/// No slot: the owner of a slot where no node is.
pub(crate) const NO_SLOT: u32 = u32::MAX;

/// A node below the root, as a dictionary lists it for a scanner.
#[derive(Clone, Copy)]
pub struct PlacedNode {
    /// The node's slot, and that of the node above it.
    pub slot: u32,
    pub parent: u32,
    /// How many labels lead to it from the root, and the last of them.
    pub depth: u32,
    pub label: u8,
    /// Its number, if it has one.
    pub number: Option<i32>,
}

/// What a scan reads of the node in a slot.
#[derive(Clone, Copy)]
pub(crate) struct State {
    /// Where the slots of its children begin: that of a child is found by its label.
    pub(crate) base: u32,
    /// The slot of the node above it.
    pub(crate) owner: u32,
    /// Which labels its children may have: the bit of a label is that of the label's last five bits.
    pub(crate) labels: u32,
    /// The slot of the longest proper suffix of its path that leads to a node.
    pub(crate) failure: u32,
    /// The index of the longest suffix of its path that is a key, or 0.
    pub(crate) output: u32,
}

/// What a slot has where no node is.
pub(crate) const BLANK: State = State {
    base: 0,
    owner: NO_SLOT,
    labels: 0,
    failure: 0,
    output: 0,
};

/// A key, as a scan gives it. The keys are in a list of their own, so that more states lie in one cache line.
#[derive(Clone, Copy)]
pub(crate) struct ListedKey {
    /// How many bytes it has.
    pub(crate) len: u32,
    /// Its value.
    pub(crate) value: i32,
    /// The index of the longest proper suffix of it that is a key, or 0.
    pub(crate) next: u32,
}

/// What is listed at index 0, which no key has.
pub(crate) const NO_KEY: ListedKey = ListedKey {
    len: 0,
    value: 0,
    next: 0,
};
