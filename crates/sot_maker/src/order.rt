//! Numbers in the byte order of their names.

ghost use Rattle.std.specs.Prelude.{◌≡◌, ◌≤◌, ◌*◌, ◌++◌, [], ◌∷◌, nat_lt, OnOk, IfOk};
ghost use Rattle.std.specs.List.{filter};
ghost use Rattle.sot_maker.specs.NameOrder.{numbers_from, led_by, by_name};

use std::alloc::{AllocError, Global};

// A number behind others, if it is below n.
fn push_below(order: &mut Vec<u32>, k: u32, n: u32) -> Result<(), AllocError>
    ensures { OnOk result (order.new.items ≡ order.old.items ++ filter (λ k. nat_lt k n) (k ∷ [])) }
{
    if k < n {
        order.push(k)?;
    }
    Ok(())
}

// A digit and the numbers of two digits that begin with it, those below n.
fn push_led(order: &mut Vec<u32>, digit: u32, n: u32) -> Result<(), AllocError>
    requires { digit ≤ 9 }
    ensures { OnOk result (order.new.items
        ≡ order.old.items ++ filter (λ k. nat_lt k n) (led_by digit)) }
{
    push_below(order, digit, n)?;
    for last in 0..10 {
        push_below(order, 10 * digit + last, n)?;
    }
    Ok(())
}

/// The numbers below n in the byte order of their decimals.
pub(crate) fn by_name(alloc: Global, n: u32) -> Result<Vec<u32>, AllocError>
    ensures { IfOk result (λ order. order.items ≡ by_name n) }
{
    let mut order = Vec::new(alloc);
    push_below(&mut order, 0, n)?;
    for digit in 1..10 {
        push_led(&mut order, digit, n)?;
    }
    Ok(order)
}
