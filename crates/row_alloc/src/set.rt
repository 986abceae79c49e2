//! Sets of numbers below 32, and of nodes.

/// Bit k says whether k is in the set.
#[derive(Clone, Copy, PartialEq, Eq)]
pub struct Set(pub u32);

impl Set {
    /// The numbers below this one.
    pub fn below(count: u8) -> Set {
        let mut set = Set(0);
        for k in 0..count {
            set = set.with(k);
        }
        set
    }

    #[inline(always)]
    pub fn has(self, k: u8) -> bool {
        k < 32 && self.0 >> k & 1 == 1
    }

    #[inline(always)]
    pub fn with(self, k: u8) -> Set {
        if k < 32 { Set(self.0 | 1 << k) } else { self }
    }

    /// The numbers that are not in the other set.
    #[inline(always)]
    pub fn minus(self, other: Set) -> Set {
        Set(self.0 & !other.0)
    }

    #[inline(always)]
    pub fn without(self, k: u8) -> Set {
        self.minus(Set(0).with(k))
    }

    /// The numbers in both.
    #[inline(always)]
    pub fn and(self, other: Set) -> Set {
        Set(self.0 & other.0)
    }

    #[inline(always)]
    pub fn meets(self, other: Set) -> bool {
        self.0 & other.0 != 0
    }

    /// The numbers in either.
    #[inline(always)]
    pub fn or(self, other: Set) -> Set {
        Set(self.0 | other.0)
    }

    /// The least number.
    #[inline(always)]
    pub fn first(self) -> Option<u8> {
        if self.0 == 0 {
            None
        } else {
            Some(self.0.trailing_zeros() as u8)
        }
    }

    /// The others than the least.
    #[inline(always)]
    pub fn rest(self) -> Set {
        Set(self.0 & self.0.wrapping_sub(1))
    }

    #[inline(always)]
    pub fn is_empty(self) -> bool {
        self.0 == 0
    }

    #[inline(always)]
    pub fn len(self) -> u32 {
        self.0.count_ones()
    }
}

/// A set of nodes, by their numbers below 64.
#[derive(Clone, Copy, PartialEq, Eq)]
pub struct Nodes(pub u64);

impl Nodes {
    /// The nodes from 1 to this one.
    pub fn up_to(last: u8) -> Nodes {
        let mut nodes = Nodes(0);
        for node in 0..last {
            nodes = nodes.with(node.saturating_add(1));
        }
        nodes
    }

    #[inline(always)]
    pub fn has(self, node: u8) -> bool {
        self.0 >> (node % 64) & 1 == 1
    }

    #[inline(always)]
    pub fn with(self, node: u8) -> Nodes {
        Nodes(self.0 | 1 << (node % 64))
    }

    #[inline(always)]
    pub fn without(self, node: u8) -> Nodes {
        Nodes(self.0 & !(1 << (node % 64)))
    }

    /// The nodes in either.
    #[inline(always)]
    pub fn or(self, other: Nodes) -> Nodes {
        Nodes(self.0 | other.0)
    }

    /// The nodes in both.
    #[inline(always)]
    pub fn and(self, other: Nodes) -> Nodes {
        Nodes(self.0 & other.0)
    }

    /// The nodes that are not in the other set.
    #[inline(always)]
    pub fn minus(self, other: Nodes) -> Nodes {
        Nodes(self.0 & !other.0)
    }

    #[inline(always)]
    pub fn meets(self, other: Nodes) -> bool {
        self.0 & other.0 != 0
    }

    /// The others than the least.
    #[inline(always)]
    pub fn rest(self) -> Nodes {
        Nodes(self.0 & self.0.wrapping_sub(1))
    }

    #[inline(always)]
    pub fn is_empty(self) -> bool {
        self.0 == 0
    }

    #[inline(always)]
    pub fn len(self) -> u32 {
        self.0.count_ones()
    }

    /// The least number.
    #[inline(always)]
    pub fn first(self) -> Option<u8> {
        if self.0 == 0 {
            None
        } else {
            Some(self.0.trailing_zeros() as u8)
        }
    }

    /// Which of the 32 nodes from this one on are in the set.
    #[inline(always)]
    pub fn from(self, first: u8) -> Set {
        Set((self.0 >> (first % 64) & 0xFFFFFFFF) as u32)
    }
}

impl Set {
    /// The nodes of these numbers, where this one is number 0.
    #[inline(always)]
    pub fn nodes_from(self, first: u8) -> Nodes {
        Nodes(u64::from(self.0) << (first % 64))
    }
}
