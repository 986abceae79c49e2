//! What can stand in the place of a node of a sketch, drawn one at a time.
//!
//! A replacement need not have the node's values, only those that an output tells. So it may be
//! wrong where no output changes when the node does.

use crate::draws::Draws;
use crate::forms::{Carries, Carry, Form, MOST_LEAST, carries, least_graph};
use crate::sketch::{Sketch, below, has, with, with_operands};
use crate::tables::{NONE, Table, Tables, Turned, function_of, table_of};

/// Of 100 replacements so many are least graphs of the node's function of a few leaves.
const OF_LEAVES: usize = 10;

/// Of 100 replacements so many are these or two nodes. The others are one node.
const OF_LEAVES_OR_TWO: usize = 20;

/// How often two operands are drawn for one node, and for the outer one of two.
const TRIES: u8 = 12;

const TRIES_OF_TWO: u8 = 8;

/// How often an operand of the inner node is drawn.
const TRIES_INSIDE: u8 = 6;

/// A literal, and where an output tells that it is wrong in the node's place.
#[derive(Clone, Copy)]
struct Divisor {
    literal: u8,
    errors: Table,
}

impl Divisor {
    /// It, where only these assignments matter.
    fn within(&self, matters: &Table) -> Divisor {
        Divisor {
            literal: self.literal,
            errors: self.errors.and(matters),
        }
    }

    /// Whether it is wrong nowhere.
    #[inline(always)]
    fn is_right(&self) -> bool {
        self.errors.is_zero()
    }

    /// Where one of both is wrong.
    #[inline(always)]
    fn or(&self, other: &Divisor) -> Table {
        self.errors.or(&other.errors)
    }

    /// Whether the other one is of another node, and where one is wrong the other is right.
    #[inline(always)]
    fn may_join(&self, other: &Divisor) -> bool {
        self.literal / 2 != other.literal / 2 && self.errors.is_apart(&other.errors)
    }
}

/// The most literals that may be operands: both of each node.
const MOST_DIVISORS: usize = 128;

/// Literals, in the order in which they were found.
struct Divisors {
    list: [Divisor; MOST_DIVISORS],
    count: usize,
}

impl Drop for Divisors {
    fn drop(self) {
        let Divisors { list: _, count: _ } = self;
    }
}

impl Divisors {
    fn new() -> Divisors {
        let none = Divisor {
            literal: 0,
            errors: NONE,
        };
        Divisors {
            list: [none; MOST_DIVISORS],
            count: 0,
        }
    }

    fn clear(&mut self) {
        self.count = 0;
    }

    #[inline(always)]
    fn add(&mut self, divisor: Divisor) {
        if self.count < MOST_DIVISORS {
            self.list[self.count] = divisor;
            self.count += 1;
        }
    }

    /// The literal of this number.
    #[inline(always)]
    fn get(&self, k: usize) -> Option<Divisor> {
        if k < self.count && k < MOST_DIVISORS {
            Some(self.list[k])
        } else {
            None
        }
    }

    /// The first from a place on that joins both, or else the first before it.
    #[inline(always)]
    fn third_of(&self, start: usize, a: &Divisor, b: &Divisor) -> Option<Divisor> {
        let all = self.list.get(..self.count)?;
        if let Some(later) = all.get(start..)
            && let Some(c) = first_of(later, a, b)
        {
            return Some(c);
        }
        first_of(all.get(..start)?, a, b)
    }
}

/// A node with all above it, and what comes in its place.
#[derive(Clone, Copy)]
pub struct Replacement {
    pub node: u8,
    pub above: u64,
    pub form: Form,
}

/// What replacements are drawn of.
pub struct Replacer {
    draws: Draws,
    carries: Carries,
    turned: Turned,
    /// The literals that may be operands.
    list: Divisors,
    /// Those that may be operands of an inner node, each with where it is wrong there.
    inside: Divisors,
}

impl Drop for Replacer {
    fn drop(self) {
        let Replacer {
            draws: _,
            carries: _,
            turned: _,
            list: _,
            inside: _,
        } = self;
    }
}

/// The leaf of this number, among the nodes that are no inputs.
fn nth_inner(sketch: &Sketch, set: u64, place: usize) -> u8 {
    let mut left = place;
    for node in sketch.first()..sketch.size() {
        if has(set, node) {
            if left == 0 {
                return node;
            }
            left -= 1;
        }
    }
    0
}

/// How many nodes of a set are no inputs.
fn inner_count(sketch: &Sketch, set: u64) -> usize {
    let mut count = 0usize;
    for node in sketch.first()..sketch.size() {
        if has(set, node) {
            count = count.saturating_add(1);
        }
    }
    count
}

/// The leaves of a set of at most three.
fn leaves_of(set: u64) -> [u8; 3] {
    let mut leaves = [0u8; 3];
    let mut count = 0usize;
    for node in 0..64u8 {
        if has(set, node) && count < 3 {
            leaves[count] = node;
            count += 1;
        }
    }
    leaves
}

/// The form of a least graph of the class over these leaves.
fn form_at(carry: &Carry, number: usize, leaves: [u8; 3]) -> Option<Form> {
    let least = least_graph(number)?;
    carry.form_of(least, leaves)
}

/// How many least graphs the class has.
fn form_count(carry: &Carry) -> usize {
    let mut count = 0usize;
    for number in carry.row..MOST_LEAST {
        if !carry.has(number) {
            return count;
        }
        count = count.saturating_add(1);
    }
    count
}

impl Replacer {
    pub fn new() -> Replacer {
        Replacer {
            draws: Draws::new(0),
            carries: carries(),
            turned: Turned::new(),
            list: Divisors::new(),
            inside: Divisors::new(),
        }
    }

    /// Draws other numbers from now on.
    pub fn start(&mut self, seed: u64) {
        self.draws = Draws::new(seed);
    }

    /// The leaves with a drawn one opened, where there are at most four then.
    fn opened(&mut self, sketch: &Sketch, set: u64) -> u64 {
        let count = inner_count(sketch, set);
        if count == 0 {
            return set;
        }
        let leaf = nth_inner(sketch, set, self.draws.below(count));
        let others = set & !with(0, leaf);
        let opened = with_operands(others, sketch.operands(leaf)) & !1;
        if opened.count_ones() > 4 { set } else { opened }
    }

    /// A least graph of the node's function of drawn leaves.
    fn of_leaves(&mut self, sketch: &Sketch, node: u8) -> Option<Form> {
        let mut set = with_operands(0, sketch.operands(node)) & !1;
        for _ in 0..self.draws.below(4) {
            set = self.opened(sketch, set);
        }
        if set == 0 || set.count_ones() > 3 {
            return None;
        }
        let carry = self.carries[function_of(sketch, node, set) as usize];
        let leaves = leaves_of(set);
        let place = self.draws.below(form_count(&carry));
        form_at(&carry, carry.row.saturating_add(place), leaves)
    }

    /// Adds a literal and its complement, which is wrong where it matters and the other is right,
    /// or returns the one of both that is right.
    #[inline(always)]
    fn add_both(&mut self, literal: u8, errors: Table, care: &Table) -> Option<u8> {
        if errors.is_zero() {
            return Some(literal);
        }
        self.list.add(Divisor { literal, errors });
        let (literal, errors) = (literal ^ 1, care.xor(&errors));
        if errors.is_zero() {
            return Some(literal);
        }
        self.list.add(Divisor { literal, errors });
        None
    }

    /// Finds the literals that are not above the node, or returns one that may stand for it alone.
    fn find_divisors(
        &mut self,
        sketch: &Sketch,
        tables: &Tables,
        node: u8,
        above: u64,
    ) -> Option<u8> {
        self.list.clear();
        let care = self.turned.care_of(sketch, tables, node, above);
        let own = table_of(tables, node.saturating_mul(2));
        let mut others = !above & below(sketch.size());
        for _ in 0..64u8 {
            if others == 0 {
                break;
            }
            let literal = others.trailing_zeros() as u8 * 2;
            others &= others.wrapping_sub(1);
            let errors = table_of(tables, literal).xor(&own).and(&care);
            let right = self.add_both(literal, errors, &care);
            if right.is_some() {
                return right;
            }
        }
        None
    }

    /// A drawn literal.
    #[inline(always)]
    fn operand(&mut self) -> Option<Divisor> {
        let place = self.draws.below(self.list.count);
        self.list.get(place)
    }

    /// Two drawn literals, where they are of two nodes and not wrong together.
    #[inline(always)]
    fn pair(&mut self) -> Option<(Divisor, Divisor)> {
        let a = self.operand()?;
        let b = self.operand()?;
        if a.may_join(&b) { Some((a, b)) } else { None }
    }

    /// One node of three literals, of which no two are wrong together.
    fn one_node(&mut self) -> Option<Form> {
        for _ in 0..TRIES {
            if let Some((a, b)) = self.pair() {
                let start = self.draws.below(self.list.count);
                if let Some(c) = self.list.third_of(start, &a, &b) {
                    return Some(Form::node([a.literal, b.literal, c.literal]));
                }
            }
        }
        None
    }

    /// Finds the literals that may be operands beside this one of an inner node, which is to be
    /// right where it matters.
    fn find_inside(&mut self, first: &Divisor, matters: &Table) {
        self.inside.clear();
        for (k, divisor) in self.list.list.iter().enumerate() {
            if k >= self.list.count {
                return;
            }
            let other = divisor.within(matters);
            if first.may_join(&other) {
                self.inside.add(other);
            }
        }
    }

    /// Two of them that make an inner node.
    fn inner_pair(&mut self) -> Option<(u8, u8)> {
        for _ in 0..TRIES_INSIDE {
            let place = self.draws.below(self.inside.count);
            let start = self.draws.below(self.inside.count);
            if let Some(second) = self.inside.get(place)
                && let Some(third) = self.inside.third_of(start, &second, &second)
            {
                return Some((second.literal, third.literal));
            }
        }
        None
    }

    /// A node of these two and of an inner node, to be right where one of the two is wrong.
    fn two_nodes(&mut self, a: &Divisor, b: &Divisor) -> Option<Form> {
        let matters = a.or(b);
        let first = self.operand()?.within(&matters);
        if first.is_right() {
            return Some(Form::node([a.literal, b.literal, first.literal]));
        }
        self.find_inside(&first, &matters);
        // One alone has none to join.
        if self.inside.count < 2 {
            return None;
        }
        let (second, third) = self.inner_pair()?;
        let inner = [first.literal, second, third];
        Some(Form::two(inner, [a.literal, b.literal]))
    }

    /// Two nodes, of which the one reads the other.
    fn two(&mut self) -> Option<Form> {
        for _ in 0..TRIES_OF_TWO {
            if let Some((a, b)) = self.pair() {
                let form = self.two_nodes(&a, &b);
                if form.is_some() {
                    return form;
                }
            }
        }
        None
    }

    /// A form for a drawn node.
    fn form(&mut self, sketch: &Sketch, tables: &Tables, node: u8, above: u64) -> Option<Form> {
        let kind = self.draws.below(100);
        if kind < OF_LEAVES {
            return self.of_leaves(sketch, node);
        }
        if let Some(literal) = self.find_divisors(sketch, tables, node, above) {
            return Some(Form::literal(literal));
        }
        if kind < OF_LEAVES_OR_TWO {
            self.two()
        } else {
            self.one_node()
        }
    }

    /// A drawn node, and what comes in its place, where one is found.
    pub fn drawn(&mut self, sketch: &Sketch, tables: &Tables) -> Option<Replacement> {
        let place = self.draws.below(sketch.count as usize);
        let place = if place < 32 { place as u8 } else { 0 };
        let node = sketch.first().saturating_add(place);
        let above = sketch.above(node);
        let form = self.form(sketch, tables, node, above)?;
        Some(Replacement { node, above, form })
    }
}

/// The first of these that joins both.
#[inline(always)]
fn first_of(list: &[Divisor], a: &Divisor, b: &Divisor) -> Option<Divisor> {
    let errors = a.or(b);
    for c in list {
        if errors.is_apart(&c.errors) {
            let node = c.literal / 2;
            if node != a.literal / 2 && node != b.literal / 2 {
                return Some(*c);
            }
        }
    }
    None
}
