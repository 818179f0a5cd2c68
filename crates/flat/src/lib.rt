// Answers as flat numbers that a caller lends, and a request's flat numbers as the call takes them.
#![tactic(auto, unfolding(model::specs::Numbers::nat))]

ghost use Rattle.std.specs.Prelude.{◌≡◌, ◌-◌, ◌≤◌, ◌∷◌, replicate};
ghost use Rattle.model.specs.Answer.{numbered, told, opening_says, new_order_says, payment_says, delivery_says, queue_says, status_says, stock_level_says};
ghost use Rattle.model.specs.Names.{who_of};
ghost use Rattle.model.specs.Request.{request_of, lines_in};
ghost use Rattle.model.specs.RequestLine.{write_says, read_as};
ghost use Rattle.flat.specs.Flat.{bare_out, one_out, two_out, three_out, balance_out, status_out, selection_of};
ghost use Rattle.flat.specs.FlatLines.{numbers_out, who_out, rest_out, read_out};

use model::{
    DeliveryFigures, Form, Line, NewOrderFigures, Part, PaymentFigures, QueueFigures, ReadAnswer,
    Refused, Selection, StatusFigures, StockLevelFigures,
};

// Who, as C gives it: by the lent last name, or by the number.
pub fn selection(named: bool, number: u64, name: &[u8]) -> Selection<'_>
    ensures { who_of result ≡ selection_of named number name.now }
{
    if named {
        Selection::LastName(name)
    } else {
        Selection::Number(number)
    }
}

// A refusal: number, detail, and 0 for each figure.
fn refused<const N: usize>(r: Refused) -> [u64; N]
    requires { 2 ≤ N }
    ensures { result ≡ (numbered r).number ∷ (numbered r).detail ∷ replicate (N - 2) 0 }
{
    let mut out = [0; N];
    out[0] = r.number();
    out[1] = r.detail();
    out
}

// The answers: a match for each call, since each has figures of its own and a contract that names its call; what they share is `refused`.

// Opening's answer: number, detail.
pub fn opening_out(o: Result<(), Refused>) -> [u64; 2]
    ensures { result ≡ bare_out (opening_says o) }
{
    match o {
        Ok(()) => [0, 0],
        Err(r) => refused(r),
    }
}

// New-Order's answer: number, detail, order, total, lifts.
pub fn new_order_out(o: Result<NewOrderFigures, Refused>) -> [u64; 5]
    ensures { result ≡ three_out (new_order_says o) }
{
    match o {
        Ok(f) => [0, 0, f.order, f.total, f.lifts],
        Err(r) => refused(r),
    }
}

// Payment's answer: number, detail, customer.
pub fn payment_out(o: Result<PaymentFigures, Refused>) -> [u64; 3]
    ensures { result ≡ one_out (payment_says o) }
{
    match o {
        Ok(f) => [0, 0, f.customer],
        Err(r) => refused(r),
    }
}

// Payment's answer: the balance. One line here and in Order-Status's: a trait over the two figures would be longer.
pub fn payment_balance(o: Result<PaymentFigures, Refused>) -> [i64; 1]
    ensures { result ≡ balance_out (payment_says o) }
{
    [o.map_or(0, |f| f.balance)]
}

// Delivery's answer: number, detail, skip count, mark.
pub fn delivery_out(o: Result<DeliveryFigures, Refused>) -> [u64; 4]
    ensures { result ≡ two_out (delivery_says o) }
{
    match o {
        Ok(f) => [0, 0, f.skipped, f.mark],
        Err(r) => refused(r),
    }
}

// A queuing call's answer: number, detail, how many stood before it.
pub fn queue_out(o: Result<QueueFigures, Refused>) -> [u64; 3]
    ensures { result ≡ one_out (queue_says o) }
{
    match o {
        Ok(f) => [0, 0, f.before],
        Err(r) => refused(r),
    }
}

// Order-Status's answer: number, detail, customer, order, date, carrier, then the shown part.
pub fn status_out(o: Result<StatusFigures, Refused>, part: Part) -> [u64; 8]
    ensures { result ≡ status_out (status_says o) part }
{
    let Part { from, count } = part;
    match o {
        Ok(f) => [0, 0, f.customer, f.order, f.date, f.carrier, from, count],
        Err(r) => [r.number(), r.detail(), 0, 0, 0, 0, from, count],
    }
}

// Order-Status's answer: the balance.
pub fn status_balance(o: Result<StatusFigures, Refused>) -> [i64; 1]
    ensures { result ≡ balance_out (status_says o) }
{
    [o.map_or(0, |f| f.balance)]
}

// Stock-Level's answer: number, detail, count.
pub fn stock_level_out(o: Result<StockLevelFigures, Refused>) -> [u64; 3]
    ensures { result ≡ one_out (stock_level_says o) }
{
    match o {
        Ok(f) => [0, 0, f.count],
        Err(r) => refused(r),
    }
}

// A request's letter, and its numbers but who in the line's order, 0 beyond them.
fn numbers_out(form: Form, lines: &[Line]) -> [u64; 7]
    ensures { result ≡ numbers_out (request_of form.entry lines.now) }
{
    match form {
        Form::NewOrder(q) => [
            u64::from(b'N'),
            q.warehouse,
            q.district,
            q.customer,
            q.date,
            0,
            0,
        ],
        Form::Payment(q, _) => [
            u64::from(b'P'),
            q.warehouse,
            q.district,
            q.custwarehouse,
            q.custdistrict,
            q.date,
            q.amount,
        ],
        Form::Delivery(q) => [u64::from(b'D'), q.warehouse, q.carrier, q.date, 0, 0, 0],
        Form::OrderStatus(q, _) => [u64::from(b'S'), q.warehouse, q.district, 0, 0, 0, 0],
        Form::StockLevel(q) => [
            u64::from(b'L'),
            q.warehouse,
            q.district,
            q.threshold,
            0,
            0,
            0,
        ],
    }
}

// Whether by name, the customer number, how many lines, how long the name.
fn who_out(who: Selection) -> [u64; 4]
    ensures { result ≡ who_out (who_of who.entry) }
{
    match who {
        Selection::Number(c) => [0, c, 0, 0],
        Selection::LastName(name) => [1, 0, 0, name.len() as u64],
    }
}

// That of a request.
fn rest_out(form: Form, lines: &[Line]) -> [u64; 4]
    ensures { result ≡ rest_out (request_of form.entry lines.now) }
{
    match form {
        Form::NewOrder(_) => [0, 0, lines.len() as u64, 0],
        Form::Payment(_, who) | Form::OrderStatus(_, who) => who_out(who),
        Form::Delivery(_) | Form::StockLevel(_) => [0; 4],
    }
}

// What reading answers.
pub fn read_out(a: &ReadAnswer) -> [u64; 13]
    ensures { result ≡ read_out (told a.now.outcome) (read_as a.now.outcome (lines_in a.now.lines)) }
{
    match a.outcome {
        Ok(form) => {
            let lines = a.lines.as_slice();
            let [letter, p, q, r, s, t, u] = numbers_out(form, lines);
            let [named, number, count, length] = rest_out(form, lines);
            [0, 0, letter, p, q, r, s, t, u, named, number, count, length]
        }
        Err(r) => refused(r),
    }
}

// What writing answers: number, detail, length.
pub fn write_out(o: Result<u64, Refused>) -> [u64; 3]
    ensures { result ≡ one_out (write_says o) }
{
    match o {
        Ok(n) => [0, 0, n],
        Err(r) => refused(r),
    }
}
