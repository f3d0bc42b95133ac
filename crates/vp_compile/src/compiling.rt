//! An order and its exceptions, made of the rules of a matrix.

ghost use Rattle.std.specs.Prelude.{◌≡◌, length, IfOk};
ghost use Rattle.vp_compile.specs.Rows.{order_loss, worth_at_best};
ghost use Rattle.vp_compile.specs.Matrices.{IsOrder};
ghost use Rattle.vp_compile.specs.Excepted.{AreFewest, excepted_places, loss_left};
ghost use Rattle.vp_compile.specs.Compiled.{last_order, own_order};

use crate::Matrix;
use crate::excepting::except;
use crate::losses::{loss, loss_left, optimum};
use crate::settling::settle;
use arrayvec::ArrayVec;
use std::alloc::{AllocError, Global};

/// An order of rules, the classes that are excepted from it, and what is lost. Losses are weighted values over their common
/// denominator.
#[derive(Drop)]
pub struct Compiled {
    /// What all deals are worth together at best.
    pub optimum: u128,
    /// What is lost under the order in which the rules stand by their numbers.
    pub start: u128,
    /// What is lost under the last order, without exceptions.
    pub settled: u128,
    /// What is lost under the last order, where the excepted classes lose nothing.
    pub loss: u128,
    /// The last order.
    pub order: ArrayVec<u8, 64>,
    /// The places of the excepted classes, rising.
    pub places: Vec<u32>,
}

/// Settles the rules of a matrix, from their own order on, and excepts the fewest classes that bring the loss of the last
/// order to at most the limit. `owner` is as in [`settle`]. The error is want of memory alone.
pub fn compile(
    alloc: Global,
    m: &Matrix,
    owner: &mut [u64],
    limit: u128,
) -> Result<Compiled, AllocError>
    requires { length owner.old ≡ length m.now.rows }
    ensures order { IfOk result (λ c. c.order.items ≡ last_order m.now) }
    ensures is_order { IfOk result (λ c. IsOrder m.now.rules c.order.items) }
    ensures places { IfOk result (λ c. c.places.items ≡ excepted_places m.now.rows (last_order m.now) limit) }
    ensures fewest { IfOk result (λ c. AreFewest m.now.rows (last_order m.now) limit c.places.items) }

    ensures optimum { IfOk result (λ c. c.optimum ≡ worth_at_best m.now.rows) }
    ensures start { IfOk result (λ c. c.start ≡ order_loss m.now.rows (own_order m.now)) }
    ensures settled { IfOk result (λ c. c.settled ≡ order_loss m.now.rows (last_order m.now)) }
    ensures loss { IfOk result (λ c. c.loss ≡ loss_left m.now.rows (last_order m.now) c.places.items) }
{
    let mut order = m.own_order();
    let start = loss(m, &order);
    let settled = settle(m, &mut order, owner);
    let places = except(alloc, m, &order, limit)?;
    let loss = loss_left(m, &order, &places);
    Ok(Compiled {
        optimum: optimum(m),
        start,
        settled,
        loss,
        order,
        places,
    })
}
