//! Least graphs of the functions of three inputs.
//!
//! Bit x of a function's number is its value where input k is bit k of x.

use crate::sketch::{Made, Sketch, translated};

/// Nodes to stand in the place of one. A literal is one of the graph, or from `OWN` on of the
/// form's own nodes.
#[derive(Clone, Copy)]
pub struct Form {
    nodes: [[u8; 3]; 4],
    out: u8,
}

/// The first literal of a form's own nodes.
const OWN: u8 = 128;

/// A least graph of a function, as its row of the table.
#[derive(Clone, Copy)]
pub struct Least(u64);

/// The least graph of this number.
pub fn least_graph(number: usize) -> Option<Least> {
    let row = LEAST.get(number)?;
    Some(Least(*row))
}

impl Least {
    /// The function.
    fn function(self) -> u8 {
        ((self.0 >> 52) % 256) as u8
    }

    /// A literal: 0 is the output, and those of the nodes follow from the last one's third on.
    fn literal(self, place: u8) -> u8 {
        if place < 13 {
            ((self.0 >> (place * 4)) % 16) as u8
        } else {
            0
        }
    }
}

/// How a function comes of the first one of its class: in which order the inputs stand, which of
/// them are inverted, and whether the output is.
#[derive(Clone, Copy)]
pub struct Carry {
    class: u8,
    /// The number of the class's first least graph.
    pub row: usize,
    order: [u8; 3],
    inverted: u8,
    flip: u8,
}

/// How each function comes of the first one of its class.
pub type Carries = [Carry; 256];

const ORDERS: [[u8; 3]; 6] = [
    [0, 1, 2],
    [0, 2, 1],
    [1, 0, 2],
    [1, 2, 0],
    [2, 0, 1],
    [2, 1, 0],
];

const UNCARRIED: Carry = Carry {
    class: 0,
    row: 0,
    order: [0, 1, 2],
    inverted: 0,
    flip: 2,
};

/// Bit k of a byte.
fn bit(byte: u8, k: u8) -> u8 {
    if k < 8 { byte >> k & 1 } else { 0 }
}

/// The function of the inputs in the order, inverted where the bit of the input is set.
fn turned(function: u8, [p, q, r]: [u8; 3], inverted: u8) -> u8 {
    let mut turned = 0;
    for x in 0..8u8 {
        let y = x ^ inverted;
        let place = bit(y, p) | bit(y, q) << 1 | bit(y, r) << 2;
        turned |= bit(function, place) << x;
    }
    turned
}

/// Notes how a function comes of the first of its class.
fn note(carries: &mut Carries, function: u8, carry: Carry) {
    if carries[function as usize].flip == 2 {
        carries[function as usize] = carry;
    }
}

/// How many least graphs are looked for.
pub const MOST_LEAST: usize = 100;

/// Notes all functions of the class whose least graphs begin at a row, if they are not noted yet.
fn note_class(carries: &mut Carries, class: u8, row: usize) {
    if carries[class as usize].flip < 2 {
        return;
    }
    for order in ORDERS {
        for inverted in 0..8u8 {
            let function = turned(class, order, inverted);
            for flip in 0..2u8 {
                let carry = Carry {
                    class,
                    row,
                    order,
                    inverted,
                    flip,
                };
                note(carries, if flip == 1 { !function } else { function }, carry);
            }
        }
    }
}

/// How all functions come of the first ones of their classes.
pub fn carries() -> Carries {
    let mut carries = [UNCARRIED; 256];
    for number in 0..MOST_LEAST {
        if let Some(least) = least_graph(number) {
            note_class(&mut carries, least.function(), number);
        }
    }
    carries
}

impl Carry {
    /// The literal of a form for one of a least graph, over three leaves.
    fn literal(&self, leaves: [u8; 3], literal: u8) -> u8 {
        if literal < 2 {
            literal
        } else if literal < 8 {
            let place = match self.order.get((literal / 2 - 1) as usize) {
                Some(place) => *place,
                None => 0,
            };
            let leaf = match leaves.get(place as usize) {
                Some(leaf) => *leaf,
                None => 0,
            };
            leaf.saturating_mul(2) ^ literal & 1 ^ bit(self.inverted, place)
        } else {
            OWN.saturating_add(literal - 8)
        }
    }

    /// A node of a form over three leaves.
    fn node(&self, least: Least, leaves: [u8; 3], first: u8) -> [u8; 3] {
        [
            self.literal(leaves, least.literal(first)),
            self.literal(leaves, least.literal(first.saturating_sub(1))),
            self.literal(leaves, least.literal(first.saturating_sub(2))),
        ]
    }

    /// Whether the least graph of this number is one of the class.
    pub fn has(&self, number: usize) -> bool {
        match least_graph(number) {
            Some(least) => least.function() == self.class,
            None => false,
        }
    }

    /// The form over three leaves that a least graph gives, if it is one of the class.
    pub fn form_of(&self, least: Least, leaves: [u8; 3]) -> Option<Form> {
        if least.function() != self.class {
            return None;
        }
        Some(Form {
            nodes: [
                self.node(least, leaves, 12),
                self.node(least, leaves, 9),
                self.node(least, leaves, 6),
                self.node(least, leaves, 3),
            ],
            out: self.literal(leaves, least.literal(0)) ^ self.flip,
        })
    }
}

impl Form {
    /// A literal alone.
    pub fn literal(out: u8) -> Form {
        Form {
            nodes: [[0; 3]; 4],
            out,
        }
    }

    /// One node.
    pub fn node(operands: [u8; 3]) -> Form {
        Form {
            nodes: [operands, [0; 3], [0; 3], [0; 3]],
            out: OWN,
        }
    }

    /// A node of three literals, and one of it and two others.
    pub fn two(inner: [u8; 3], [a, b]: [u8; 2]) -> Form {
        Form {
            nodes: [inner, [a, b, OWN], [0; 3], [0; 3]],
            out: OWN + 2,
        }
    }

    /// Whether it is one node with the literals of the one whose place it takes.
    pub fn stands_at(&self, sketch: &Sketch, node: u8) -> bool {
        let [first, second, _, _] = self.nodes;
        self.out == OWN && second == [0; 3] && sketch.has_operands(node, first)
    }

    /// Makes the form in a graph, where the others' literals are known.
    pub fn made(&self, new: &mut Sketch, made: &Made) -> u8 {
        let mut own = [0u8; 4];
        for (k, [a, b, c]) in self.nodes.iter().enumerate() {
            if k < 4 {
                own[k] = new.add([
                    known(&own, made, *a),
                    known(&own, made, *b),
                    known(&own, made, *c),
                ]);
            }
        }
        known(&own, made, self.out)
    }
}

/// The literal of the new graph for one of a form.
fn known(own: &[u8; 4], made: &Made, literal: u8) -> u8 {
    if literal < OWN {
        return translated(made, literal);
    }
    match own.get(((literal - OWN) / 2) as usize) {
        Some(new) => *new ^ literal & 1,
        None => 0,
    }
}

/// Least graphs of each class of functions that are equal but for the order and the complements of
/// inputs and the complement of the output: all, or eight. A row has the function, three literals
/// for each of four nodes, and the output, a hexadecimal digit each: 0 and 1 are the constant, 2 to
/// 7 the literals of the inputs, 8 to F those of the nodes. A node 000 is none.
const LEAST: [u64; 82] = [
    0x00_000_000_000_000_0,
    0x01_124_168_000_000_B,
    0x01_126_148_000_000_B,
    0x01_146_128_000_000_B,
    0x01_346_128_000_000_B,
    0x01_256_148_000_000_B,
    0x01_247_168_000_000_B,
    0x03_146_000_000_000_9,
    0x06_024_247_09A_000_C,
    0x06_024_247_18B_000_D,
    0x06_124_246_19A_000_D,
    0x06_124_246_08B_000_C,
    0x06_034_134_69A_000_D,
    0x06_034_246_28B_000_C,
    0x06_034_256_78A_000_C,
    0x06_034_247_58A_000_C,
    0x07_024_168_000_000_B,
    0x07_034_469_000_000_B,
    0x07_134_268_000_000_B,
    0x07_025_269_000_000_B,
    0x07_125_468_000_000_B,
    0x07_126_468_000_000_B,
    0x07_146_268_000_000_B,
    0x07_246_168_000_000_B,
    0x0F_000_000_000_000_7,
    0x16_124_168_246_1BC_F,
    0x16_124_168_246_0AD_E,
    0x16_124_078_246_6AD_E,
    0x16_124_078_346_5AC_E,
    0x16_124_078_256_3AC_E,
    0x16_124_078_24B_6AD_E,
    0x16_124_078_36A_5AC_E,
    0x16_124_078_56A_3AC_E,
    0x17_246_000_000_000_9,
    0x18_024_026_056_8BC_E,
    0x18_024_026_147_9AC_F,
    0x18_024_036_046_8AD_E,
    0x18_024_046_127_9AC_F,
    0x18_124_126_156_8BC_F,
    0x18_124_136_146_8AD_F,
    0x18_034_036_156_8BC_F,
    0x18_034_036_047_9AC_E,
    0x19_024_124_168_6AD_F,
    0x19_024_124_169_0AC_F,
    0x19_024_124_06A_9AC_F,
    0x19_024_124_09A_6AC_F,
    0x19_024_124_18B_6AD_F,
    0x19_024_124_69A_0AC_F,
    0x19_024_034_078_2AD_F,
    0x19_024_034_169_2AC_F,
    0x1B_024_026_49A_000_D,
    0x1B_124_125_68B_000_D,
    0x1B_124_126_68B_000_D,
    0x1B_124_136_08A_000_D,
    0x1B_124_038_68A_000_D,
    0x1B_124_129_68B_000_D,
    0x1B_124_068_38A_000_D,
    0x1B_124_368_08A_000_D,
    0x1E_124_068_168_0BC_E,
    0x1E_124_068_168_1AD_F,
    0x1E_124_068_078_6BC_E,
    0x1E_124_068_178_9AC_F,
    0x1E_124_068_069_8BC_E,
    0x1E_124_068_169_7AC_F,
    0x1E_124_068_17A_9AC_F,
    0x1E_124_068_06B_8BC_E,
    0x3C_046_146_09A_000_C,
    0x3C_046_146_18B_000_D,
    0x3C_046_056_49A_000_C,
    0x3C_046_156_78A_000_D,
    0x3C_046_047_69A_000_C,
    0x3C_046_147_58A_000_D,
    0x3C_046_158_78A_000_D,
    0x3C_046_049_69A_000_C,
    0x69_246_346_29A_000_D,
    0x69_246_256_49A_000_D,
    0x69_246_247_69A_000_D,
    0x69_246_249_69A_000_D,
    0x69_246_269_49A_000_D,
    0x69_246_469_29A_000_D,
    0x69_346_258_78A_000_D,
    0x69_346_278_58A_000_D,
];
