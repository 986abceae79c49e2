//! A diagram that grows.

ghost use Rattle.std.specs.Prelude.{◌≡◌, ◌≢◌, ◌<◌, ◌≤◌, ◌∷◌, [], ℕ, Bool, true, false, IfOk};
ghost use Rattle.std.specs.Prelude.{IfSome, IfNone};
ghost use Rattle.std.specs.Prelude.{◌+◌, Err, length};
ghost use Rattle.bit_rows.specs.Bits.{majority, flip_if};
ghost use Rattle.bdd.specs.declared.Edge.{Edge};
ghost use Rattle.bdd.specs.declared.Limits.{Limits};
ghost use Rattle.bdd.specs.declared.Shortage.{Shortage};
ghost use Rattle.bdd.specs.declared.TheConstants.{DEPTH};
ghost use Rattle.bdd.specs.Edges.{choice, constant, plain, behind, first_node};
ghost use Rattle.bdd.specs.Graphs.{AreNodes, AreNamed, IsNamed, IsChoice, IsCofactor, Keeps};
ghost use Rattle.bdd.specs.Graphs.{IsFirst, IsSide, AreDeep, HasReached};
ghost use Rattle.bdd.specs.Graphs.{top, value, node_at};
ghost use Rattle.bdd.specs.Paths.{assigned};

use crate::forms::{largest_first, normal, ordered, settled, simple};
use crate::nodes::{cofactor, first_variable, store};
use crate::path::{Uncounted, evaluate, walk};
use crate::table::{blank, choice_hash, widen_answers};
use crate::{
    Choice, Computed, DEPTH, Edge, Limits, NoMemory, Node, Shortage, complement, complement_if,
    constant, is_choice, is_edge, plain,
};
use std::alloc::Global;
use std::marker::Model;

/// Nodes, with a table that finds them and one of answers that were given.
pub struct Diagram {
    limits: Limits,
    questions: u64,
    nodes: Vec<Node>,
    slots: Vec<u32>,
    answers: Vec<Computed>,
}

impl Drop for Diagram {
    fn drop(self) {
        let Diagram {
            limits: _,
            questions: _,
            nodes: _,
            slots: _,
            answers: _,
        } = self;
    }
}

impl Model for Diagram {
    ghost use Rattle.bdd.specs.Graphs.{Graph, IsDiagram};

    ghost Value = { Graph };

    ghost view = { λ d. record {
      limits = d.limits;
      questions = d.questions;
      nodes = d.nodes.items;
    } };

    ghost invariant = { λ d. IsDiagram d.limits d.nodes.items d.answers.items };
}

/// The edges that are left where the variable has this value.
fn parts(nodes: &[Node], c: Choice, variable: u32, value: bool) -> (Edge, Edge, Edge)
    requires nodes { AreNodes nodes.now }
    requires named { AreNamed nodes.now (plain c.test) c.high (plain c.low) }
    requires test { variable ≤ top nodes.now c.test }
    requires high { variable ≤ top nodes.now c.high.node }
    requires low { variable ≤ top nodes.now c.low }
    requires variable { variable < behind }
    ensures test { IsCofactor nodes.now variable value (plain c.test) result.0 }
    ensures high { IsCofactor nodes.now variable value c.high result.1 }
    ensures low { IsCofactor nodes.now variable value (plain c.low) result.2 }
{
    (
        cofactor(nodes, plain(c.test), variable, value),
        cofactor(nodes, c.high, variable, value),
        cofactor(nodes, plain(c.low), variable, value),
    )
}

impl Diagram {
    /// The constant alone, with these limits, so many slots of the table at first, and room for so
    /// many answers at first.
    pub fn new(
        limits: Limits,
        slots: usize,
        answers: usize,
        alloc: Global,
    ) -> Result<Diagram, NoMemory>
        requires some { 0 < limits.nodes }
        requires variables { limits.variables ≤ behind }
        ensures nodes { IfOk result (λ d. AreNodes d.nodes) }
        ensures empty { IfOk result (λ d. d
            ≡ record { limits = limits; questions = 0; nodes = first_node ∷ [] }) }
    {
        let e = constant(false);
        let first = Node {
            variable: u32::MAX,
            low: 0,
            high: e,
        };
        let nodes = vec![in alloc; first; 1]?;
        let slots = vec![in alloc; 0u32; slots]?;
        let answers = vec![in alloc; blank(); answers]?;
        Ok(Diagram {
            limits,
            questions: 0,
            nodes,
            slots,
            answers,
        })
    }

    /// The number of nodes.
    pub fn size(&self) -> u32
        ensures { result ≡ length self.now.nodes }
    {
        self.nodes.len() as u32
    }

    /// The number of questions that no kept answer settled.
    pub fn questions(&self) -> u64
        ensures { result ≡ self.now.questions }
    {
        self.questions
    }

    /// Counts a question, if the limit allows one more.
    fn count(&mut self) -> Result<(), Shortage>
        ensures nodes { self.new.nodes ≡ self.old.nodes }
        ensures limits { self.new.limits ≡ self.old.limits }
        ensures reached { (s : Shortage) → result ≡ Err s → HasReached s self.new }
    {
        if self.questions >= self.limits.questions {
            return Err(Shortage::Spent);
        }
        self.questions += 1;
        Ok(())
    }

    /// The function that is `high` where the variable is true, else `low`.
    fn branch(&mut self, variable: u32, low: Edge, high: Edge) -> Result<Edge, Shortage>
        requires variable { variable < self.old.limits.variables }
        requires low { IsNamed self.old.nodes low }
        requires high { IsNamed self.old.nodes high }
        requires low_later { variable < top self.old.nodes low.node }
        requires high_later { variable < top self.old.nodes high.node }
        ensures named { IfOk result (λ e. IsNamed self.new.nodes e) }
        ensures value { IfOk result (λ e. (bits : ℕ → Bool) → value self.new.nodes bits e
            ≡ choice (bits variable) (value self.old.nodes bits high)
            (value self.old.nodes bits low)) }
        ensures order { IfOk result (λ e. variable ≤ top self.new.nodes e.node) }
        ensures nodes { AreNodes self.new.nodes }
        ensures keeps { Keeps self.old.nodes self.new.nodes }
        ensures limits { self.new.limits ≡ self.old.limits }
        ensures reached { (s : Shortage) → result ≡ Err s → HasReached s self.new }
    {
        let _ = &self.limits;
        if is_edge(low, high) {
            return Ok(low);
        }
        let n = Node {
            variable,
            low: low.node,
            high: complement_if(low.inverted, high),
        };
        let node = store(&mut self.nodes, &mut self.slots, self.limits.nodes, n)?;
        Ok(Edge {
            node,
            inverted: low.inverted,
        })
    }

    /// The answer to the choice, if it is kept.
    fn recall(&self, c: Choice) -> Option<Edge>
        ensures nodes { AreNodes self.now.nodes }
        ensures answer { IfSome result (λ e. IsChoice self.now.nodes e (plain c.test) c.high
            (plain c.low)) }
    {
        if self.answers.is_empty() {
            return None;
        }
        let place = (choice_hash(c) >> 1) as usize % self.answers.len();
        let kept = self.answers[place];
        if is_choice(kept.choice, c) {
            Some(kept.result)
        } else {
            None
        }
    }

    /// Keeps the answer to the choice.
    fn remember(&mut self, c: Choice, answer: Edge)
        requires named { AreNamed self.old.nodes (plain c.test) c.high (plain c.low) }
        requires right { IsChoice self.old.nodes answer (plain c.test) c.high (plain c.low) }
        ensures { self.new ≡ self.old }
    {
        widen_answers(&mut self.answers, self.nodes.len());
        if !self.answers.is_empty() {
            let place = (choice_hash(c) >> 1) as usize % self.answers.len();
            self.answers[place] = Computed {
                choice: c,
                result: answer,
            };
        }
    }

    /// The first variable that any of the choice's edges asks for.
    fn first_of(&self, c: Choice) -> u32
        requires named { AreNamed self.now.nodes (plain c.test) c.high (plain c.low) }
        requires test { c.test ≢ 0 }
        ensures first { IsFirst self.now.nodes (plain c.test) c.high (plain c.low) result }
        ensures variable { result < self.now.limits.variables }
    {
        first_variable(&self.nodes, c)
    }

    /// The edges that are left where the variable has this value.
    fn parts(&self, c: Choice, variable: u32, value: bool) -> (Edge, Edge, Edge)
        requires { IsFirst self.now.nodes (plain c.test) c.high (plain c.low) variable }
        ensures test { IsCofactor self.now.nodes variable value (plain c.test) result.0 }
        ensures high { IsCofactor self.now.nodes variable value c.high result.1 }
        ensures low { IsCofactor self.now.nodes variable value (plain c.low) result.2 }
    {
        parts(&self.nodes, c, variable, value)
    }

    /// The answer to the choice where the variable has this value.
    #[cycle(choices)]
    fn side(&mut self, c: Choice, variable: u32, value: bool, left: u32) -> Result<Edge, Shortage>
        requires first { IsFirst self.old.nodes (plain c.test) c.high (plain c.low) variable }
        requires deep { DEPTH ≤ variable + 1 + left }
        ensures side { IfOk result (λ e. IsSide self.new.nodes (plain c.test) c.high (plain c.low)
            variable value e) }
        ensures nodes { AreNodes self.new.nodes }
        ensures keeps { Keeps self.old.nodes self.new.nodes }
        ensures limits { self.new.limits ≡ self.old.limits }
        ensures reached { (s : Shortage) → result ≡ Err s → HasReached s self.new }
    {
        let (f, g, h) = self.parts(c, variable, value);
        let e = self.choose(f, g, h, left)?;
        Ok(e)
    }

    /// The answer to the choice, whose first edge is not constant.
    #[cycle(choices)]
    fn answer(&mut self, c: Choice, left: u32) -> Result<Edge, Shortage>
        requires named { AreNamed self.old.nodes (plain c.test) c.high (plain c.low) }
        requires test { c.test ≢ 0 }
        requires deep { AreDeep self.old.nodes left (plain c.test) c.high (plain c.low) }
        ensures answer { IfOk result (λ e. IsChoice self.new.nodes e (plain c.test) c.high
            (plain c.low)) }
        ensures nodes { AreNodes self.new.nodes }
        ensures keeps { Keeps self.old.nodes self.new.nodes }
        ensures limits { self.new.limits ≡ self.old.limits }
        ensures reached { (s : Shortage) → result ≡ Err s → HasReached s self.new }
    {
        if let Some(e) = self.recall(c) {
            return Ok(e);
        }
        let variable = self.first_of(c);
        if left == 0 {
            return Err(Shortage::Deep);
        }
        self.count()?;
        let high = self.side(c, variable, true, left - 1)?;
        let low = self.side(c, variable, false, left - 1)?;
        let e = self.branch(variable, low, high)?;
        self.remember(c, e);
        Ok(e)
    }

    /// The function that is `g` where `f` is true, else `h`.
    #[cycle(choices)]
    fn choose(&mut self, f: Edge, g: Edge, h: Edge, left: u32) -> Result<Edge, Shortage>
        requires named { AreNamed self.old.nodes f g h }
        requires deep { AreDeep self.old.nodes left f g h }
        ensures answer { IfOk result (λ e. IsChoice self.new.nodes e f g h) }
        ensures nodes { AreNodes self.new.nodes }
        ensures keeps { Keeps self.old.nodes self.new.nodes }
        ensures limits { self.new.limits ≡ self.old.limits }
        ensures reached { (s : Shortage) → result ≡ Err s → HasReached s self.new }
    {
        let _ = &self.limits;
        let (g1, h1) = settled(f, g, h);
        if let Some(e) = simple(f, g1, h1) {
            return Ok(e);
        }
        let (f2, g2, h2) = ordered(f, g1, h1);
        let (c, inverted) = normal(f2, g2, h2);
        let e = self.answer(c, left)?;
        Ok(complement_if(inverted, e))
    }

    /// The function that is `g` where `f` is true, else `h`.
    pub fn ite(&mut self, f: Edge, g: Edge, h: Edge) -> Result<Edge, Shortage>
        requires { AreNamed self.old.nodes f g h }
        ensures answer { IfOk result (λ e. IsChoice self.new.nodes e f g h) }
        ensures nodes { AreNodes self.new.nodes }
        ensures keeps { Keeps self.old.nodes self.new.nodes }
        ensures limits { self.new.limits ≡ self.old.limits }
        ensures reached { (s : Shortage) → result ≡ Err s → HasReached s self.new }
    {
        self.choose(f, g, h, DEPTH)
    }

    /// The function that has the value of a variable.
    pub fn variable(&mut self, variable: u32) -> Result<Edge, Shortage>
        requires { variable < self.old.limits.variables }
        ensures named { IfOk result (λ e. IsNamed self.new.nodes e) }
        ensures value { IfOk result (λ e. (bits : ℕ → Bool)
            → value self.new.nodes bits e ≡ bits variable) }
        ensures nodes { AreNodes self.new.nodes }
        ensures keeps { Keeps self.old.nodes self.new.nodes }
        ensures limits { self.new.limits ≡ self.old.limits }
        ensures reached { (s : Shortage) → result ≡ Err s → HasReached s self.new }
    {
        let _ = &self.limits;
        let e = self.branch(variable, constant(false), constant(true))?;
        Ok(e)
    }

    /// The majority of three functions.
    pub fn maj(&mut self, a: Edge, b: Edge, c: Edge) -> Result<Edge, Shortage>
        requires { AreNamed self.old.nodes a b c }
        ensures named { IfOk result (λ e. IsNamed self.new.nodes e) }
        ensures value { IfOk result (λ e. (bits : ℕ → Bool) → value self.new.nodes bits e
            ≡ majority (value self.old.nodes bits a) (value self.old.nodes bits b)
            (value self.old.nodes bits c)) }
        ensures nodes { AreNodes self.new.nodes }
        ensures keeps { Keeps self.old.nodes self.new.nodes }
        ensures limits { self.new.limits ≡ self.old.limits }
        ensures reached { (s : Shortage) → result ≡ Err s → HasReached s self.new }
    {
        let _ = &self.limits;
        let (f, g, h) = largest_first(a, b, c);
        let either = self.ite(g, constant(true), h)?;
        let both = self.ite(g, h, constant(false))?;
        let e = self.ite(f, either, both)?;
        Ok(e)
    }

    /// The function that is true where the two differ.
    pub fn xor(&mut self, a: Edge, b: Edge) -> Result<Edge, Shortage>
        requires first { IsNamed self.old.nodes a }
        requires second { IsNamed self.old.nodes b }
        ensures named { IfOk result (λ e. IsNamed self.new.nodes e) }
        ensures value { IfOk result (λ e. (bits : ℕ → Bool) → value self.new.nodes bits e
            ≡ flip_if (value self.old.nodes bits a) (value self.old.nodes bits b)) }
        ensures nodes { AreNodes self.new.nodes }
        ensures keeps { Keeps self.old.nodes self.new.nodes }
        ensures limits { self.new.limits ≡ self.old.limits }
        ensures reached { (s : Shortage) → result ≡ Err s → HasReached s self.new }
    {
        let e = self.ite(a, complement(b), b)?;
        Ok(e)
    }

    /// An assignment under which the function is true, or none where it is constantly false. It has
    /// the fewest variables that are true, but those that are not counted: no clause says that.
    pub fn witness(
        &self,
        e: Edge,
        uncounted: Uncounted,
        alloc: Global,
    ) -> Result<Option<Vec<bool>>, NoMemory>
        requires { IsNamed self.now.nodes e }
        ensures found { IfOk result (λ o. IfSome o (λ v.
            value self.now.nodes (assigned v.items) e ≡ true)) }
        ensures exact { IfOk result (λ o. IfNone o (e ≡ constant false)) }
        ensures none { IfOk result (λ o. IfNone o ((bits : ℕ → Bool)
            → value self.now.nodes bits e ≡ false)) }
    {
        let nodes = self.nodes.as_slice();
        if e.node == 0 && !e.inverted {
            return Ok(None);
        }
        let path = walk(nodes, e, uncounted, alloc)?;
        Ok(Some(path))
    }

    /// The value of a function where variable k has the value at place k of the list, and false
    /// past its end.
    pub fn evaluate(&self, e: Edge, path: &[bool]) -> bool
        requires { IsNamed self.now.nodes e }
        ensures { result ≡ value self.now.nodes (assigned path.now) e }
    {
        let _ = &self.limits;
        evaluate(&self.nodes, e, path)
    }
}
