// The calls for C and Rust: slices as pointer and length, answers as flat numbers that the caller lends. C takes a request's numbers one by one, so each call
// puts its request together itself.
#![tactic(auto)]

ghost use Rattle.std.specs.Prelude.{◌≡◌, ◌-◌, ◌≤◌, ◌++◌, length, replicate};
ghost use Rattle.flat.specs.Flat.{selection_of, new_order_of, payment_of, delivery_of, waiting_of, status_of, stock_level_of};
ghost use Rattle.model.specs.Request.{request_of, lines_in, new_order, payment, delivery, order_status, stock_level};
ghost use Rattle.model.specs.RequestLine.{read_line, read_as};
ghost use Rattle.places.specs.Places.{dims_of, spot_of};
ghost use Rattle.capi.specs.Calls.{OpeningC, NewOrderC, PaymentC, DeliveryC, QueueC, RunC, StatusC, StockLevelC, ReadC, WriteC, PlacesC, name_read};

use model::{
    Delivery, Form, Line, NewOrder, OrderStatus, Payment, Queue, ReadAnswer, Selection, StockLevel,
    Waiting,
};

// The version of these functions: BOOK_VERSION of include/book.h.
#[unsafe(no_mangle)]
pub extern "C" fn book_version() -> u64
    ensures { result ≡ 5 }
{
    5
}

// Opening; topup has the margin and the lift of each item.
#[unsafe(no_mangle)]
pub extern "C" fn book_opening(nums: &[i64], names: &[u8], topup: &[i64], out: &mut [u64; 2])
    ensures { OpeningC nums.now names.now topup.now out.new }
{
    *out = flat::opening_out(opening::opening(nums, names, topup).outcome);
}

// New-Order; the lines are a lent slice of records of any length, read where they lie. last has the last order of each customer, topup the margin and the
// lift of each item.
#[unsafe(no_mangle)]
pub extern "C" fn book_new_order(
    nums: &mut [i64],
    names: &[u8],
    last: &mut [i64],
    topup: &[i64],
    warehouse: u64,
    district: u64,
    customer: u64,
    date: u64,
    lines: &[Line],
    out: &mut [u64; 5],
)
    ensures { NewOrderC nums.old names.now last.old topup.now
        (new_order_of warehouse district customer date) lines.now
        out.new nums.new last.new }
{
    let q = NewOrder {
        warehouse,
        district,
        customer,
        date,
    };
    let a = new_order::new_order(nums, names, last, topup, q, lines);
    *out = flat::new_order_out(a.outcome);
}

// Payment by customer number, or by last name where named is true; notes has the text of each customer.
#[unsafe(no_mangle)]
pub extern "C" fn book_payment(
    nums: &mut [i64],
    names: &[u8],
    notes: &mut [u8],
    warehouse: u64,
    district: u64,
    custwarehouse: u64,
    custdistrict: u64,
    named: bool,
    number: u64,
    name: &[u8],
    date: u64,
    amount: u64,
    out: &mut [u64; 3],
    balance: &mut [i64; 1],
)
    ensures { PaymentC nums.old names.now notes.old (payment_of warehouse district custwarehouse custdistrict date amount)
        (selection_of named number name.now) out.new balance.new nums.new notes.new }
{
    let q = Payment {
        warehouse,
        district,
        custwarehouse,
        custdistrict,
        date,
        amount,
    };
    let who = flat::selection(named, number, name);
    let a = payment::payment(nums, names, notes, q, who);
    *out = flat::payment_out(a.outcome);
    *balance = flat::payment_balance(a.outcome);
}

// Delivery; the ten order numbers go to orders.
#[unsafe(no_mangle)]
pub extern "C" fn book_delivery(
    nums: &mut [i64],
    names: &[u8],
    warehouse: u64,
    carrier: u64,
    date: u64,
    out: &mut [u64; 4],
    orders: &mut [u64; 10],
)
    ensures { DeliveryC nums.old names.now (delivery_of warehouse carrier date)
        out.new orders.new nums.new }
{
    let q = Delivery {
        warehouse,
        carrier,
        date,
    };
    let a = delivery::delivery(nums, names, q);
    let numbers = a.orders;
    *out = flat::delivery_out(a.outcome);
    *orders = numbers;
}

// Queues a Delivery behind those that wait; date is the queuing date.
#[unsafe(no_mangle)]
pub extern "C" fn book_queue_delivery(
    queue: &mut Queue,
    warehouse: u64,
    carrier: u64,
    date: u64,
    out: &mut [u64; 3],
)
    ensures { QueueC queue.old (waiting_of warehouse carrier date) out.new queue.new }
{
    let x = Waiting {
        date,
        warehouse,
        carrier,
    };
    let a = queue::queue_delivery(queue, x);
    *out = flat::queue_out(a.outcome);
}

// Runs the oldest of the Deliveries that wait; date is the finishing date, and the result line goes to the buffer's front.
#[unsafe(no_mangle)]
pub extern "C" fn book_run_delivery(
    nums: &mut [i64],
    names: &[u8],
    queue: &mut Queue,
    date: u64,
    buffer: &mut [u8],
    out: &mut [u64; 4],
    orders: &mut [u64; 10],
)
    ensures { RunC nums.old names.now queue.old date buffer.old
        out.new orders.new nums.new queue.new buffer.new }
{
    let a = queue::run_delivery(nums, names, queue, date, buffer);
    let numbers = a.orders;
    *out = flat::delivery_out(a.outcome);
    *orders = numbers;
}

// Order-Status by customer number, or by last name where named is true; the lines are the part of nums that out names at its end;
// last has the last order of each customer.
#[unsafe(no_mangle)]
pub extern "C" fn book_order_status(
    nums: &[i64],
    names: &[u8],
    last: &[i64],
    warehouse: u64,
    district: u64,
    named: bool,
    number: u64,
    name: &[u8],
    out: &mut [u64; 8],
    balance: &mut [i64; 1],
)
    ensures { StatusC nums.now names.now last.now (status_of warehouse district) (selection_of named number name.now)
        out.new balance.new }
{
    let q = OrderStatus {
        warehouse,
        district,
    };
    let who = flat::selection(named, number, name);
    let s = order_status::status_shown(nums, names, last, q, who);
    *out = flat::status_out(s.outcome, s.part);
    *balance = flat::status_balance(s.outcome);
}

// Stock-Level.
#[unsafe(no_mangle)]
pub extern "C" fn book_stock_level(
    nums: &[i64],
    names: &[u8],
    warehouse: u64,
    district: u64,
    threshold: u64,
    out: &mut [u64; 3],
)
    ensures { StockLevelC nums.now names.now (stock_level_of warehouse district threshold) out.new }
{
    let q = StockLevel {
        warehouse,
        district,
        threshold,
    };
    *out = flat::stock_level_out(stock_level::stock_level(nums, names, q).outcome);
}

// The last name that was read, none where who is a number or is not given.
fn name_read<'a>(a: &ReadAnswer<'a>) -> &'a [u8]
    ensures { result.now ≡ name_read (read_as a.now.outcome (lines_in a.now.lines)) }
{
    match a.outcome {
        Ok(
            Form::Payment(_, Selection::LastName(name))
            | Form::OrderStatus(_, Selection::LastName(name)),
        ) => name,
        _ => &[],
    }
}

// A last name in an array of its own, zeros behind it: C's, with zeros where a search by name has spaces.
fn padded(name: &[u8]) -> [u8; 16]
    requires { length name.now ≤ 16 }
    ensures { result ≡ name.now ++ replicate (16 - length name.now) 0 }
{
    let mut bytes = [0; 16];
    bytes[..name.len()].copy_from_slice(name);
    bytes
}

// A request line read; the order's lines and the last name go to arrays of their own, 0 where they have no part in the request.
#[unsafe(no_mangle)]
pub extern "C" fn book_read_line(
    line: &[u8],
    out: &mut [u64; 13],
    lines: &mut [Line; 15],
    name: &mut [u8; 16],
)
    ensures { ReadC (read_line line.now) out.new lines.new name.new }
{
    let a = lines::read_line(line);
    *out = flat::read_out(&a);
    let read = a.lines.lines;
    *lines = read;
    *name = padded(name_read(&a));
}

// A request's line written to the front of a buffer.
fn write(buffer: &mut [u8], form: Form, lines: &[Line], out: &mut [u64; 3])
    ensures { WriteC buffer.old (request_of form.entry lines.now) out.new buffer.new }
{
    *out = flat::write_out(writing::write_line(buffer, form, lines).outcome);
}

// A New-Order's line written to the front of a buffer; the lines are a lent slice of records of any length.
#[unsafe(no_mangle)]
pub extern "C" fn book_write_new_order(
    buffer: &mut [u8],
    warehouse: u64,
    district: u64,
    customer: u64,
    date: u64,
    lines: &[Line],
    out: &mut [u64; 3],
)
    ensures { WriteC buffer.old (new_order (new_order_of warehouse district customer date) lines.now)
        out.new buffer.new }
{
    let q = NewOrder {
        warehouse,
        district,
        customer,
        date,
    };
    write(buffer, Form::NewOrder(q), lines, out)
}

// A Payment's line written to the front of a buffer.
#[unsafe(no_mangle)]
pub extern "C" fn book_write_payment(
    buffer: &mut [u8],
    warehouse: u64,
    district: u64,
    custwarehouse: u64,
    custdistrict: u64,
    named: bool,
    number: u64,
    name: &[u8],
    date: u64,
    amount: u64,
    out: &mut [u64; 3],
)
    ensures { WriteC buffer.old
        (payment (payment_of warehouse district custwarehouse custdistrict date amount) (selection_of named number name.now))
        out.new buffer.new }
{
    let q = Payment {
        warehouse,
        district,
        custwarehouse,
        custdistrict,
        date,
        amount,
    };
    let who = flat::selection(named, number, name);
    write(buffer, Form::Payment(q, who), &[], out)
}

// A Delivery's line written to the front of a buffer.
#[unsafe(no_mangle)]
pub extern "C" fn book_write_delivery(
    buffer: &mut [u8],
    warehouse: u64,
    carrier: u64,
    date: u64,
    out: &mut [u64; 3],
)
    ensures { WriteC buffer.old
        (delivery (delivery_of warehouse carrier date))
        out.new buffer.new }
{
    let q = Delivery {
        warehouse,
        carrier,
        date,
    };
    write(buffer, Form::Delivery(q), &[], out)
}

// An Order-Status's line written to the front of a buffer.
#[unsafe(no_mangle)]
pub extern "C" fn book_write_order_status(
    buffer: &mut [u8],
    warehouse: u64,
    district: u64,
    named: bool,
    number: u64,
    name: &[u8],
    out: &mut [u64; 3],
)
    ensures { WriteC buffer.old
        (order_status (status_of warehouse district) (selection_of named number name.now))
        out.new buffer.new }
{
    let q = OrderStatus {
        warehouse,
        district,
    };
    let who = flat::selection(named, number, name);
    write(buffer, Form::OrderStatus(q, who), &[], out)
}

// A Stock-Level's line written to the front of a buffer.
#[unsafe(no_mangle)]
pub extern "C" fn book_write_stock_level(
    buffer: &mut [u8],
    warehouse: u64,
    district: u64,
    threshold: u64,
    out: &mut [u64; 3],
)
    ensures { WriteC buffer.old
        (stock_level (stock_level_of warehouse district threshold))
        out.new buffer.new }
{
    let q = StockLevel {
        warehouse,
        district,
        threshold,
    };
    write(buffer, Form::StockLevel(q), &[], out)
}

// Where the rows of a book of these sizes stand; order is an order's slot, history a history row's.
#[unsafe(no_mangle)]
pub extern "C" fn book_places(
    warehouses: u64,
    customers: u64,
    items: u64,
    orders: u64,
    histories: u64,
    warehouse: u64,
    district: u64,
    customer: u64,
    item: u64,
    order: u64,
    history: u64,
    out: &mut [u64; 12],
)
    ensures { PlacesC (dims_of warehouses customers items orders histories) (spot_of warehouse district customer item order history)
        out.new }
{
    let d = model::Dims {
        warehouses,
        customers,
        items,
        orders,
        histories,
    };
    let s = places::Spot {
        warehouse,
        district,
        customer,
        item,
        slot: order,
        history,
    };
    *out = places::places(d, s);
}
