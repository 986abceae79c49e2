//! Majority graphs that grow.

ghost use Rattle.std.specs.Prelude.{◌≡◌, ◌<◌, ◌≤◌, ℕ, Bool, IfOk, OnErr, Ok, true, false, length};
ghost use Rattle.std.specs.Prelude.{◌+◌, ◌-◌, ◌^◌, ◌++◌, [], ◌∷◌};
ghost use Rattle.bit_rows.specs.Bits.{majority};
ghost use Rattle.mig_graph.specs.declared.Lit.{Lit};
ghost use Rattle.mig_graph.specs.Literals.{complement, node_of, SameThree, IsAnyOrder, inversions};
ghost use Rattle.mig_graph.specs.Literals.{NamesThree, node_value, IsLower};
ghost use Rattle.mig_graph.specs.Graph.{node_at, size_of, value, values, IsGraph, GrewByOne};
ghost use Rattle.mig_graph.specs.Graph.{IsFresh};

use crate::nodes::{complemented, simple, sorted, store};
use crate::{Lit, NoMemory, Node};
use indexmap::IndexSet;
use std::alloc::Global;
use std::marker::Model;

/// A majority graph: the constant 0, the inputs, and nodes over lower nodes.
pub struct Mig {
    inputs: u8,
    nodes: IndexSet<Node>,
}

impl Drop for Mig {
    fn drop(self) {
        let Mig {
            inputs: _,
            nodes: _,
        } = self;
    }
}

impl Model for Mig {
    ghost use Rattle.mig_graph.specs.Graph.{Graph, IsGraph, AreSorted};

    ghost Value = { Graph };

    ghost view = { λ m. record { inputs = m.inputs; nodes = m.nodes.keys } };

    ghost invariant = { λ m. IsGraph m.inputs m.nodes.keys × AreSorted m.nodes.keys };
}

impl Mig {
    /// The constant and the inputs alone.
    pub fn new(inputs: u8, alloc: Global) -> Result<Mig, NoMemory>
        ensures { IfOk result (λ m. m ≡ record { inputs = inputs; nodes = [] }) }
    {
        Ok(Mig {
            inputs,
            nodes: IndexSet::new(alloc),
        })
    }

    /// The number of inputs.
    pub fn inputs(&self) -> u8
        ensures inputs { result ≡ self.now.inputs }
        ensures graph { IsGraph self.now.inputs self.now.nodes }
    {
        self.inputs
    }

    /// The number of all nodes, the constant and the inputs among them.
    pub fn size(&self) -> u32
        ensures { result ≡ size_of self.now }
    {
        self.nodes.len() as u32 + self.inputs as u32 + 1
    }

    /// The literals of a node.
    pub fn node(&self, k: u32) -> [Lit; 3]
        requires above { self.now.inputs < k }
        requires below { k < size_of self.now }
        ensures { let n = node_at self.now.nodes (k - self.now.inputs - 1) in
            result ≡ n.a ∷ n.b ∷ n.c ∷ [] }
    {
        let n = self.nodes.as_slice()[k as usize - self.inputs as usize - 1];
        [n.a, n.b, n.c]
    }

    /// The standing node with the same three literals, or this one as the last.
    fn place(&mut self, n: Node) -> Result<u32, NoMemory>
        requires lower { IsLower (size_of self.old) n }
        requires three { NamesThree n }
        requires form { inversions n ≤ 1 }
        requires room { size_of self.old < 2 ^ 32 - 1 }
        ensures value { IfOk result (λ k. (bits : ℕ → Bool)
            → values self.new bits k ≡ node_value (values self.old bits) n) }
        ensures named { IfOk result (λ k. k < size_of self.new) }
        ensures standing { (k : ℕ) → k < length self.old.nodes
            → SameThree (node_at self.old.nodes k) n → (result ≡ Ok (self.old.inputs + 1 + k))
            × (self.new ≡ self.old) }
        ensures fresh { IfOk result (λ k. IsFresh self.old.nodes n → (k ≡ size_of self.old)
            × (self.new.nodes ≡ self.old.nodes ++ n ∷ [])) }
        ensures inputs { self.new.inputs ≡ self.old.inputs }
        ensures grew { GrewByOne self.old self.new }
        ensures graph { IsGraph self.new.inputs self.new.nodes }
        ensures err { OnErr result (self.new ≡ self.old) }
    {
        let first = self.inputs as u32 + 1;
        let k = store(&mut self.nodes, sorted(n))?;
        Ok(first + k as u32)
    }

    /// A literal whose value is the majority of the three literals' values.
    pub fn maj(&mut self, a: Lit, b: Lit, c: Lit) -> Result<Lit, NoMemory>
        requires a { a.node < size_of self.old }
        requires b { b.node < size_of self.old }
        requires c { c.node < size_of self.old }
        requires room { size_of self.old < 2 ^ 32 - 1 }
        ensures value { IfOk result (λ l. (bits : ℕ → Bool)
            → value self.new bits l ≡ majority (value self.old bits a) (value self.old bits b)
            (value self.old bits c)) }
        ensures named { IfOk result (λ l. l.node < size_of self.new) }
        ensures twice { (x z : Lit) → IsAnyOrder (node_of a b c) x x z → (result ≡ Ok x)
            × (self.new ≡ self.old) }
        ensures opposite { (x z : Lit) → IsAnyOrder (node_of a b c) x (complement x) z
            → (result ≡ Ok z) × (self.new ≡ self.old) }
        ensures standing { (k : ℕ) → k < length self.old.nodes
            → SameThree (node_at self.old.nodes k) (node_of a b c)
            → (result ≡ Ok (record { node = self.old.inputs + 1 + k; inverted = false }))
            × (self.new ≡ self.old) }
        ensures standing_complemented { (k : ℕ) → k < length self.old.nodes
            → 1 < inversions (node_of a b c) → SameThree (node_at self.old.nodes k)
            (node_of (complement a) (complement b) (complement c))
            → (result ≡ Ok (record { node = self.old.inputs + 1 + k; inverted = true }))
            × (self.new ≡ self.old) }
        ensures fresh { IfOk result (λ l. IsFresh self.old.nodes (node_of a b c)
            → inversions (node_of a b c) ≤ 1
            → (l ≡ record { node = size_of self.old; inverted = false })
            × (self.new.nodes ≡ self.old.nodes ++ node_of a b c ∷ [])) }
        ensures inputs { self.new.inputs ≡ self.old.inputs }
        ensures grew { GrewByOne self.old self.new }
        ensures kept { (bits : ℕ → Bool) (l : Lit) → l.node < size_of self.old
            → value self.new bits l ≡ value self.old bits l }
        ensures graph { IsGraph self.new.inputs self.new.nodes }
        ensures err { OnErr result (self.new ≡ self.old) }
    {
        let _ = &self.inputs;
        match simple(a, b, c) {
            Some(l) => Ok(l),
            None => {
                let (n, inverted) = complemented(a, b, c);
                let node = self.place(n)?;
                Ok(Lit { node, inverted })
            }
        }
    }
}
