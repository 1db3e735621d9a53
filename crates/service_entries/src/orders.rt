//! Orders: what services put, kept until all of them are tested, so that nothing is read twice.

ghost use Rattle.std.specs.Prelude.{◌≡◌, ◌∷◌, ◌++◌, ◌/◌, min, length};
ghost use Rattle.service_entries.specs.Orders.{flag_of, ordered, put_order, put_orders};
ghost use Rattle.service_entries.specs.Front.{Ends};

use crate::{end_of, entry_of, put_service};

// An order is a number as it stands in a slot, and a pending entry.
const ORDER: usize = 75;

const NUMBER: usize = 10;

// The flag of a pending entry.
fn flag_of(removal: bool) -> u8
    ensures { result ≡ flag_of removal }
{
    if removal { 2 } else { 1 }
}

/// Keeps the number of a service as it stands in a slot, and its days, as an order, where there is room for so many.
pub fn put_order(orders: &mut [u8], k: usize, number: [u8; 10], removal: bool, days: [u8; 64])
    ensures { orders.new ≡ ordered orders.old k (number ++ (flag_of removal ∷ days)) }
{
    if orders.len() / ORDER <= k {
        return;
    }
    let entry = entry_of(flag_of(removal), days);
    let at = ORDER * k;
    raw_bytes::put_bytes(orders, at, &number);
    raw_bytes::put_bytes(orders, at + NUMBER, &entry);
}

// Enters an order that puts. Takes and answers from where on the bytes are all 0.
fn enter_order(room: &mut [u8], order: &[u8], end: usize) -> usize
    requires { (length order.now ≡ 75) × Ends room.old end }
    ensures left { room.new ≡ put_order order.now room.old }
    ensures zeros { Ends room.new result }
{
    if order[NUMBER] != 1 {
        return end;
    }
    let mut number = [0u8; 10];
    raw_bytes::put_bytes(&mut number, 0, &order[..NUMBER]);
    let mut entry = [0u8; 65];
    raw_bytes::put_bytes(&mut entry, 0, &order[NUMBER..]);
    put_service(room, number, entry, end)
}

/// All puts among the first n orders.
pub fn put_orders(room: &mut [u8], orders: &[u8], n: usize)
    ensures { room.new ≡ put_orders orders.now 0 (min n (length orders.now / 75)) room.old }
{
    let mut end = end_of(room);
    let count = n.min(orders.len() / ORDER);
    for k in 0..count {
        let at = ORDER * k;
        let to = at + ORDER;
        end = enter_order(room, &orders[at..to], end);
    }
}
