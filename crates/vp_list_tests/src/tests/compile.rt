//! Small matrices, worked by hand and by a search over all orders.

ghost use Rattle.std.specs.Prelude.{◌≡◌, length};

use std::alloc::{AllocError, Global};
use std::test::Fail;
use vp_compile::{EMPTY, Matrix, compile, except, loss_left, optimum, settle};

/// The settled order of the rules, its loss, and the loss of the order that they stand in.
fn settled(m: &Matrix, owner: &mut [u64]) -> ([u8; 3], u128, u128)
    requires { length owner.old ≡ length m.now.rows }
{
    let mut order = m.own_order();
    let start = loss_left(m, &order, &[]);
    let loss = settle(m, &mut order, owner);
    let rules = match order.as_slice() {
        [a, b, c] => [*a, *b, *c],
        _ => [9; 3],
    };
    (rules, loss, start)
}

#[test]
fn settles_orders(rt: HostRuntime) -> Result<(), Fail> {
    for (weights, best, none, cells, expected) in [
        // Settled at once, though the order 2 0 1 loses nothing: the second exchange is needed for the first to help.
        (
            [1, 1, 1],
            [10, 20, 0],
            [0, 0, 0],
            [10, 0, EMPTY, 10, 20, 20, 0, EMPTY, 0],
            ([0, 1, 2], 10, 10),
        ),
        // Both exchanges lower the loss. After the first none does; after the last it would end at 2 0 1 with a loss of 4.
        // With all weights 1 it would end there, too.
        (
            [3, 3, 1],
            [1, 1, 5],
            [0, 0, 3],
            [0, 1, 0, EMPTY, 0, 1, 3, 1, 4],
            ([1, 0, 2], 7, 8),
        ),
        // An exchange that leaves the loss as it is isn't made.
        (
            [24, 1, 1],
            [7, 7, 7],
            [7, 0, 0],
            [EMPTY, EMPTY, EMPTY, 3, 3, 3, EMPTY, 7, 0],
            ([0, 1, 2], 4, 4),
        ),
    ] {
        let m = Matrix::new(3, &weights, &best, &none, &cells).ok_or("no matrix")?;
        let mut owner = [5; 3];
        assert!(rt; owner.len() == m.classes());
        assert_eq!(rt; settled(&m, &mut owner), expected);
    }
    Ok(())
}

/// The classes to be excepted from the order that the rules stand in, and the loss that is left.
fn excepted(alloc: Global, m: &Matrix, limit: u128) -> Result<(Vec<u32>, u128), AllocError> {
    let order = m.own_order();
    let places = except(alloc, m, &order, limit)?;
    let left = loss_left(m, &order, &places);
    Ok((places, left))
}

// One rule, under which the classes lose 5, 12, 12, 0 and 7.
#[test]
fn excepts_the_fewest_classes(rt: HostRuntime) -> Result<(), Fail> {
    let weights = [1, 4, 2, 24, 1];
    let best = [10, 3, 6, 9, 7];
    let none = [5, 0, 0, 0, 0];
    let cells = [EMPTY, EMPTY, 0, 9, 0];
    let m = Matrix::new(1, &weights, &best, &none, &cells).ok_or("no matrix")?;
    assert_eq!(rt; optimum(&m), 257);
    let none_at_all: &[u32] = &[];
    for (limit, places, left) in [
        (36, none_at_all, 36),
        (35, &[1], 24),
        // Met exactly, and missed by one; of the two that lose as much the first is taken.
        (24, &[1], 24),
        (23, &[1, 2], 12),
        (12, &[1, 2], 12),
        (11, &[1, 2, 4], 5),
        (4, &[0, 1, 2, 4], 0),
        // The class that loses nothing is not excepted.
        (0, &[0, 1, 2, 4], 0),
    ] {
        let (found, loss) = excepted(rt.alloc(), &m, limit)?;
        assert_eq!(rt; found.as_slice(), places, "at {limit}");
        assert_eq!(rt; loss, left, "at {limit}");
    }
    Ok(())
}

// The second matrix above: under its last order 1 0 2 the classes lose 0, 3 and 4.
#[test]
fn compiles_rules(rt: HostRuntime) -> Result<(), Fail> {
    let cells = [0, 1, 0, EMPTY, 0, 1, 3, 1, 4];
    let m = Matrix::new(3, &[3, 3, 1], &[1, 1, 5], &[0, 0, 3], &cells).ok_or("no matrix")?;
    let mut owner = [5; 3];
    assert!(rt; owner.len() == m.classes());
    let none_at_all: &[u32] = &[];
    for (limit, places, loss) in [(7, none_at_all, 7), (3, &[2], 3), (2, &[1, 2], 0)] {
        let compiled = compile(rt.alloc(), &m, &mut owner, limit)?;
        assert_eq!(rt;
            (compiled.optimum, compiled.start, compiled.settled),
            (11, 8, 7)
        );
        assert_eq!(rt; compiled.order.as_slice(), [1, 0, 2].as_slice());
        assert_eq!(rt; (compiled.places.as_slice(), compiled.loss), (places, loss));
    }
    Ok(())
}

#[test]
fn refuses_what_is_no_matrix(rt: HostRuntime) -> Result<(), Fail> {
    for (rules, weight, best, none, cell, is) in [
        (1, 1, 5, 5, 5, true),
        (1, 24, 5, 0, EMPTY, true),
        (0, 1, 5, 5, 5, false),
        (2, 1, 5, 5, 5, false),
        (65, 1, 5, 5, 5, false),
        (1, 0, 5, 5, 5, false),
        (1, 25, 5, 5, 5, false),
        (1, 1, 5, 6, 5, false),
        (1, 1, 5, 5, 6, false),
    ] {
        let made = Matrix::new(rules, &[weight], &[best], &[none], &[cell]).is_some();
        assert_eq!(rt; made, is);
    }
    assert!(rt; Matrix::new(1, &[1], &[], &[0], &[0]).is_none());
    assert!(rt; Matrix::new(1, &[1], &[0], &[0, 0], &[0]).is_none());
    Ok(())
}
