// Request lines: writing one.
#![tactic(auto)]

ghost use Rattle.std.specs.Prelude.{◌≡◌, true, [], ◌∷◌, ◌+◌, ◌*◌, ◌≤◌, length};
ghost use Rattle.model.specs.Tests.{all_of};
ghost use Rattle.model.specs.Names.{who_of};
ghost use Rattle.model.specs.Request.{request_of, new_order, payment, delivery, order_status, stock_level};
ghost use Rattle.model.specs.Text.{has_digits, decimal, tabbed};
ghost use Rattle.model.specs.RequestLine.{is_name, has_who, who_field, line_fields, has_form, line_of};
ghost use Rattle.text.specs.Writing.{Wrote};
ghost use Rattle.writing.specs.Writing.{Written, not_written};

use model::{
    Delivery, Form, Line, NewOrder, OrderStatus, Payment, Refused, Selection, StockLevel,
    WriteAnswer,
};

// A tab, # and a number.
fn put_hash(line: &mut [u8], at: usize, c: u64) -> usize
    requires { at + 22 ≤ length line.old }
    ensures { Wrote line.old line.new at result (tabbed ((35 ∷ decimal c) ∷ [])) × (result ≤ at + 22) }
{
    line[at] = b'\t';
    line[at + 1] = b'#';
    text::put_digits(line, at + 2, c)
}

// A tab, = and a name.
fn put_name(line: &mut [u8], at: usize, name: &[u8]) -> usize
    requires { (is_name name.now ≡ true) × (at + 22 ≤ length line.old) }
    ensures { Wrote line.old line.new at result (tabbed ((61 ∷ name.now) ∷ [])) × (result ≤ at + 22) }
{
    line[at] = b'\t';
    line[at + 1] = b'=';
    // Byte by byte, since a name may lie anywhere: `copy_from_slice` calls memmove for it, which nothing else in the library for C does.
    for i in 0..name.len() {
        line[at + 2 + i] = name[i];
    }
    at + 2 + name.len()
}

// A tab and who.
fn put_who(line: &mut [u8], at: usize, who: Selection) -> usize
    requires { (has_who (who_of who) ≡ true) × (at + 22 ≤ length line.old) }
    ensures { Wrote line.old line.new at result (tabbed (who_field (who_of who.entry) ∷ [])) × (result ≤ at + 22) }
{
    match who {
        Selection::Number(c) => put_hash(line, at, c),
        Selection::LastName(name) => put_name(line, at, name),
    }
}

// The lines of an order, three numbers each.
fn put_lines(line: &mut [u8], at: usize, lines: &[Line]) -> usize
    requires { at + 63 * length lines.now ≤ length line.old }
    ensures { Wrote line.old line.new at result (tabbed (line_fields lines.now)) × (result ≤ at + 63 * length lines.now) }
{
    let mut p = at;
    for l in lines {
        p = text::put_numbers(line, p, &[l.item, l.supply, l.quantity]);
    }
    p
}

// An Order-Status's line, from the front.
fn put_order_status(line: &mut [u8], q: OrderStatus, who: Selection) -> usize
    requires { (has_who (who_of who) ≡ true) × (1031 ≤ length line.old) }
    ensures { Wrote line.old line.new 0 result (line_of (order_status q (who_of who.entry))) × (result ≤ 1031) }
{
    line[0] = b'S';
    let a = text::put_numbers(line, 1, &[q.warehouse, q.district]);
    let p = put_who(line, a, who);
    line[p] = b'\n';
    p + 1
}

// A Payment's line, from the front.
fn put_payment(line: &mut [u8], q: Payment, who: Selection) -> usize
    requires { (has_who (who_of who) ≡ true) × (1031 ≤ length line.old) }
    ensures { Wrote line.old line.new 0 result (line_of (payment q (who_of who.entry))) × (result ≤ 1031) }
{
    line[0] = b'P';
    let first = [q.warehouse, q.district, q.custwarehouse, q.custdistrict];
    let a = text::put_numbers(line, 1, &first);
    let b = put_who(line, a, who);
    let p = text::put_numbers(line, b, &[q.date, q.amount]);
    line[p] = b'\n';
    p + 1
}

// A New-Order's line, from the front.
fn put_new_order(line: &mut [u8], q: NewOrder, lines: &[Line]) -> usize
    requires { (length lines.now ≤ 15) × (1031 ≤ length line.old) }
    ensures { Wrote line.old line.new 0 result (line_of (new_order q lines.now)) × (result ≤ 1031) }
{
    line[0] = b'N';
    let first = [q.warehouse, q.district, q.customer, q.date];
    let a = text::put_numbers(line, 1, &first);
    let p = put_lines(line, a, lines);
    line[p] = b'\n';
    p + 1
}

// A request's line, from the front: a letter, at most 49 fields of 21 bytes, byte 10.
fn put_line(line: &mut [u8], form: Form, lines: &[Line]) -> usize
    requires { (has_form (request_of form lines.now) ≡ true) × (1031 ≤ length line.old) }
    ensures { Wrote line.old line.new 0 result (line_of (request_of form.entry lines.now)) × (result ≤ 1031) }
{
    match form {
        Form::NewOrder(q) => put_new_order(line, q, lines),
        Form::Payment(q, who) => put_payment(line, q, who),
        Form::Delivery(q) => text::three_line(line, b'D', q.warehouse, q.carrier, q.date),
        Form::OrderStatus(q, who) => put_order_status(line, q, who),
        Form::StockLevel(q) => text::three_line(line, b'L', q.warehouse, q.district, q.threshold),
    }
}

// Numbers of at most ten digits.
fn small(numbers: &[u64]) -> bool
    ensures { result ≡ all_of has_digits numbers.now }
{
    numbers.iter().all(|n| *n < 10000000000)
}

// Who has a form.
fn who_ok(who: Selection) -> bool
    ensures { result ≡ has_who (who_of who.entry) }
{
    match who {
        Selection::Number(c) => small(&[c]),
        Selection::LastName(name) => lines::name_ok(name),
    }
}

// A Delivery has a form.
fn delivery_ok(q: Delivery) -> bool
    ensures { result ≡ has_form (delivery q) }
{
    small(&[q.warehouse, q.carrier, q.date])
}

// A Stock-Level has a form.
fn stock_level_ok(q: StockLevel) -> bool
    ensures { result ≡ has_form (stock_level q) }
{
    small(&[q.warehouse, q.district, q.threshold])
}

// An Order-Status has a form.
fn order_status_ok(q: OrderStatus, who: Selection) -> bool
    ensures { result ≡ has_form (order_status q (who_of who.entry)) }
{
    small(&[q.warehouse, q.district]) & who_ok(who)
}

// A Payment has a form.
fn payment_ok(q: Payment, who: Selection) -> bool
    ensures { result ≡ has_form (payment q (who_of who.entry)) }
{
    small(&[q.warehouse, q.district, q.custwarehouse, q.custdistrict])
        & who_ok(who)
        & small(&[q.date, q.amount])
}

// A New-Order has a form.
fn new_order_ok(q: NewOrder, lines: &[Line]) -> bool
    ensures { result ≡ has_form (new_order q lines.now) }
{
    small(&[q.warehouse, q.district, q.customer, q.date]) & (1 <= lines.len()) & (lines.len() <= 15)
        && lines.iter().all(|l| small(&[l.item, l.supply, l.quantity]))
}

// A request has a form.
fn form_ok(form: Form, lines: &[Line]) -> bool
    ensures { result ≡ has_form (request_of form.entry lines.now) }
{
    match form {
        Form::NewOrder(q) => new_order_ok(q, lines),
        Form::Payment(q, who) => payment_ok(q, who),
        Form::Delivery(q) => delivery_ok(q),
        Form::OrderStatus(q, who) => order_status_ok(q, who),
        Form::StockLevel(q) => stock_level_ok(q),
    }
}

// The answer where nothing is written.
pub fn not_written() -> WriteAnswer
    ensures { result ≡ not_written }
{
    WriteAnswer {
        outcome: Err(Refused::NoForm),
    }
}

// A request's line written to the front of a buffer; its length, or 1.
pub fn write_line(buffer: &mut [u8], form: Form, lines: &[Line]) -> WriteAnswer
    ensures { Written buffer.old buffer.new result.outcome (request_of form.entry lines.now) }
{
    if !form_ok(form, lines) {
        return not_written();
    }
    let mut line = [0u8; 1031];
    let n = put_line(&mut line, form, lines);
    if buffer.len() < n {
        return not_written();
    }
    buffer[..n].copy_from_slice(&line[..n]);
    WriteAnswer {
        outcome: Ok(n as u64),
    }
}
