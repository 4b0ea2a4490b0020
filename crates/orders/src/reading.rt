ghost use Rattle.std.specs.Prelude.{◌≡◌};
ghost use Rattle.std.specs.Option.{option_map};
ghost use Rattle.fields.specs.Values.{line_of};
ghost use Rattle.orders.specs.Law.{ReadsOrders};
ghost use Rattle.orders.specs.OrderLines.{line_order, first_order, OrdersInTurn};
ghost use Rattle.orders.specs.Orders.{keyed_number, number_then, number_order, fix_order, rejoin_order, order_of};

use crate::order::Order;
use fields::natural::Natural;
use fields::number::{number, whole_number};
use fields::numbers::past_space;
use fields::text_line::{TextLine, first_line};
use fields::word::past_key;

// The number of a line key=number.
fn keyed_number(line: &[u8], key: &[u8]) -> Option<u32>
    ensures { result ≡ keyed_number key.now line.now }
{
    whole_number(past_key(line, key)?, u32::MAX)
}

// The number at the front, and what follows it and one space.
fn number_then<N: Natural>(text: &[u8], max: N) -> Option<(N, &[u8])>
    ensures { option_map (λ x. (N.value x.0, x.1.now)) result ≡ number_then (N.value max) text.now }
{
    let (n, after) = number(text, max)?;
    Some((n, past_space(after)?))
}

// The order of a line fix=slot part.
fn fix_order(line: &[u8]) -> Option<Order>
    ensures { result ≡ fix_order line.now }
{
    let (slot, rest) = number_then(past_key(line, b"fix")?, u32::MAX)?;
    let part = whole_number(rest, u32::MAX)?;
    Some(Order::Fix { slot, part })
}

// The order of a line rejoin=mark set set.
fn rejoin_order(line: &[u8]) -> Option<Order>
    ensures { result ≡ rejoin_order line.now }
{
    let (mark, sets) = number_then(past_key(line, b"rejoin")?, u32::MAX)?;
    let (force, rest) = number_then(sets, u64::MAX)?;
    let gone = whole_number(rest, u64::MAX)?;
    Some(Order::Rejoin { mark, force, gone })
}

// The order of a line with one number.
fn number_order(line: &[u8]) -> Option<Order>
    ensures { result ≡ number_order line.now }
{
    keyed_number(line, b"enter")
        .map(Order::Enter)
        .or_else(|| keyed_number(line, b"withdraw").map(Order::Withdraw))
        .or_else(|| keyed_number(line, b"bar").map(Order::Bar))
        .or_else(|| keyed_number(line, b"free").map(Order::Free))
        .or_else(|| keyed_number(line, b"find").map(Order::Find))
}

// The order whose text the line is.
pub fn read_order(line: &[u8]) -> Option<Order>
    ensures value { result ≡ order_of line.now }
    ensures law { ReadsOrders }
{
    number_order(line)
        .or_else(|| fix_order(line))
        .or_else(|| rejoin_order(line))
}

fn line_order(line: TextLine) -> Option<Order>
    ensures { result ≡ line_order (line_of line.entry) }
{
    if line.ended && line.bytes.len() <= 80 {
        read_order(line.bytes)
    } else {
        None
    }
}

#[tactic(auto, using(crate::proofs::OrderTexts::orders_in_turn))]
// The order that the first line of the text says, or none where it says none, and the text after that line.
pub fn next_order(text: &[u8]) -> Option<(Option<Order>, &[u8])>
    ensures value { option_map (λ x. (x.0, x.1.now)) result ≡ first_order text.now }
    ensures law { OrdersInTurn }
{
    let (line, rest) = first_line(text)?;
    Some((line_order(line), rest))
}
