//! Texts that are read, written and read again.

use crate::reread;
use op_lang::{Stmt, need, parse_ops, scratch_of};
use op_print::print_ops;
use std::test::Fail;

const MAC: &[u8] = b"op mac(a: word, b: word, c: word) -> y: word {
  t = mul(a, b);
  y = add(t, c);
}
op sum(a: word, b: word) -> y: word {
  serial up (c = 0) {
    let x = xor(a, b);
    y = xor(x, c);
    c = maj(a, b, c);
  }
}
";

/// Canonical texts one after another, with each of the word operations.
const ALL: &[u8] = b"op mac(a: word, b: word, c: word) -> y: word {
  t = mul(a, b);
  y = add(t, c);
}
op sum(a: word, b: word) -> y: word {
  serial up (c = 0) {
    let x = xor(a, b);
    y = xor(x, c);
    c = maj(a, b, c);
  }
}
op g(a: word, b: word) -> y: word {
  serial up () {
    let x1 = xor(a, b);
    let x2 = xor(x1, b);
    let x3 = xor(x2, b);
    let x4 = xor(x3, b);
    let x5 = xor(x4, b);
    let x6 = xor(x5, b);
    let x7 = xor(x6, b);
    let x8 = xor(x7, b);
    y = x8;
  }
}
op odd(a: bit) -> y: bit {
  z = zero();
  serial up () {
    v = not(and(a, 1));
  }
  serial down (y = 1, c = 0) {
    y = or(0, v);
  }
}
op dm(a: word, b: word) -> q: word, r: word {
  q, r = divmod(a, b);
}
op both(a: word) -> y: word, p: bit {
  y = not(a);
  serial up (p = 0) {
    p = xor(a, p);
  }
}
op words(a: word, b: word, p: bit) -> y: bit {
  t1 = not(a);
  t2 = and(a, b);
  t3 = or(p, p);
  t4 = xor(a, b);
  t5 = copy(p);
  t6 = ones();
  t7 = shl1(a);
  t8 = shr1(a);
  t9 = sub(a, b);
  u1 = div(a, b);
  u2 = rem(a, b);
  u3 = abs(a);
  u4 = relu(a);
  u5 = min(a, b);
  u6 = max(a, b);
  y = eq(a, b);
}
op tests(a: word, b: word, p: bit) -> y: bit {
  t1 = gt(a, b);
  t2 = ge(a, b);
  t3 = if_else(a, b, p);
  t4 = bitcount(a);
  t5 = and_red(a);
  t6 = or_red(a);
  y = xor_red(a);
}
";

// Ops are read, written as they stood, and read again.
#[test]
fn ops_are_read_again(rt: HostRuntime) -> Result<(), Fail> {
    let ops = parse_ops(ALL, rt.alloc())?;
    let text = print_ops(&ops, rt.alloc())?;
    assert!(rt; text.as_slice() == ALL);
    let again = reread(&ops, rt.alloc())?;
    assert!(rt; ops.ops.len() == 8 && again.ops.len() == 8);
    Ok(())
}

// What the ops of a text hold, and the rows of scratch that they need.
#[test]
fn ops_are_read(rt: HostRuntime) -> Result<(), Fail> {
    let all = parse_ops(MAC, rt.alloc())?;
    assert!(rt; all.ops.len() == 2);
    let mac = &all.ops[0];
    let sum = &all.ops[1];
    assert!(rt; mac.name.bytes() == b"mac".as_slice());
    assert!(rt; mac.params.len() == 3 && mac.body.len() == 2);
    assert!(rt; scratch_of(mac).bits == 1 && scratch_of(mac).words == 1);
    assert!(rt; scratch_of(sum).bits == 1 && scratch_of(sum).words == 0);
    assert!(rt; need(mac, 32) == 33 && need(sum, 32) == 1);
    match sum.body.as_slice() {
        [
            Stmt::Serial {
                down,
                states,
                lets,
                assigns,
            },
        ] => {
            assert!(rt; !*down && states.len() == 1);
            assert!(rt; lets.len() == 1 && assigns.len() == 2);
        }
        _ => assert!(rt; false, "no block"),
    }
    Ok(())
}
