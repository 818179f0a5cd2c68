// R-5: Deliveries that wait their turn. Each step takes the waiting list by value and hands it back with its answer; the two calls are lent it. The papers name
// this form.
#![tactic(auto)]

ghost use Rattle.std.specs.Prelude.{◌≡◌, true, ◌+◌, ◌≤◌, length};
ghost use Rattle.model.specs.Tests.{within};
ghost use Rattle.model.specs.Text.{signeds, tabbed, on_front};
ghost use Rattle.model.specs.Answer.{delivery_says};
ghost use Rattle.model.specs.Queue.{moved_up, ended, result_line};
ghost use Rattle.model.specs.Promises.{QueueCall, RunCall};
ghost use Rattle.text.specs.Writing.{Wrote};
ghost use Rattle.queue.specs.Steps.{not_queued, NotRun, served};

use model::{
    Delivery, DeliveryAnswer, DeliveryFigures, Queue, QueueAnswer, QueueFigures, Refused, Waiting,
};

// The waiting list after a queuing call, and what it answers.
#[derive(Clone, Copy)]
pub struct Joined {
    pub queue: Queue,
    pub answer: QueueAnswer,
}

// The waiting list after a run, and what it answers.
#[derive(Clone, Copy)]
pub struct Ran {
    pub queue: Queue,
    pub answer: DeliveryAnswer,
}

// A queuing call that is refused.
fn not_queued(q: Queue, refusal: Refused) -> Joined
    ensures { result ≡ not_queued q refusal }
{
    let answer = QueueAnswer {
        outcome: Err(refusal),
    };
    Joined { queue: q, answer }
}

// 15, 7, or the request behind those that wait.
pub fn join_last(q: Queue, x: Waiting) -> Joined
    ensures { QueueCall q x result.answer result.queue }
{
    let n = q.count;
    if 16 <= n {
        return not_queued(q, Refused::QueueFull);
    }
    if !cells::within(x.date, 1, 6342969600) {
        return not_queued(q, Refused::Date);
    }
    let mut queue = q;
    queue.waiting[n as usize] = x;
    queue.count = n + 1;
    let answer = QueueAnswer {
        outcome: Ok(QueueFigures { before: n }),
    };
    Joined { queue, answer }
}

// Those behind the first, each a place forward; the last of their places is free.
fn moved_up(q: Queue) -> Queue
    requires { within q.count 1 16 ≡ true }
    ensures { result ≡ moved_up q }
{
    let n = q.count as usize;
    let mut waiting = q.waiting;
    waiting[..n - 1].copy_from_slice(&q.waiting[1..n]);
    waiting[n - 1] = Waiting {
        date: 0,
        warehouse: 0,
        carrier: 0,
    };
    Queue {
        count: q.count - 1,
        waiting,
    }
}

// A skip count and ten order numbers, each after a tab.
fn put_served(buffer: &mut [u8], at: usize, skipped: u64, orders: [u64; 10]) -> usize
    requires { at + 231 ≤ length buffer.old }
    ensures { Wrote buffer.old buffer.new at result (tabbed (signeds (served skipped orders))) × (result ≤ at + 231) }
{
    let p = text::put_number(buffer, at, skipped);
    text::put_numbers(buffer, p, &orders)
}

// How a run ended, each number after a tab.
fn put_end(
    buffer: &mut [u8],
    at: usize,
    o: Result<DeliveryFigures, Refused>,
    orders: [u64; 10],
) -> usize
    requires { at + 231 ≤ length buffer.old }
    ensures { Wrote buffer.old buffer.new at result (tabbed (signeds (ended (delivery_says o) orders))) × (result ≤ at + 231) }
{
    match o {
        Ok(f) => put_served(buffer, at, f.skipped, orders),
        Err(r) => text::put_number(buffer, at, r.number()),
    }
}

// A run's line at the buffer's front.
fn write_result(buffer: &mut [u8], x: Waiting, date: u64, a: DeliveryAnswer)
    requires { 400 ≤ length buffer.old }
    ensures { buffer.new ≡ on_front (result_line x date (delivery_says a.outcome) a.orders) buffer.old }
{
    let first = text::put_digits(buffer, 0, x.date);
    let p = text::put_numbers(buffer, first, &[x.warehouse, x.carrier, date]);
    let end = put_end(buffer, p, a.outcome, a.orders);
    buffer[end] = b'\n';
}

// A run that is refused by 16.
fn not_run(q: Queue) -> Ran
    ensures { NotRun q result }
{
    let answer = delivery::turned_away(Refused::NotRun);
    Ran { queue: q, answer }
}

// 16, or the first request carried out, its line written and the others moved up.
pub fn run_first(b: &mut [i64], names: &[u8], q: Queue, date: u64, buffer: &mut [u8]) -> Ran
    ensures { RunCall b.old names.now q date buffer.old result.answer b.new result.queue buffer.new }
{
    if !cells::within(q.count, 1, 16) || buffer.len() < 400 {
        return not_run(q);
    }
    let x = q.waiting[0];
    let request = Delivery {
        warehouse: x.warehouse,
        carrier: x.carrier,
        date,
    };
    let answer = delivery::delivery(b, names, request);
    write_result(buffer, x, date, answer);
    let queue = moved_up(q);
    Ran { queue, answer }
}

// The call that queues: a Delivery goes behind those that wait.
pub fn queue_delivery(q: &mut Queue, x: Waiting) -> QueueAnswer
    ensures { QueueCall q.old x result q.new }
{
    let s = join_last(*q, x);
    *q = s.queue;
    s.answer
}

// The call that runs: the oldest is carried out on this date, and its line is written to the buffer.
pub fn run_delivery(
    b: &mut [i64],
    names: &[u8],
    q: &mut Queue,
    date: u64,
    buffer: &mut [u8],
) -> DeliveryAnswer
    ensures { RunCall b.old names.now q.old date buffer.old result b.new q.new buffer.new }
{
    let s = run_first(b, names, *q, date, buffer);
    *q = s.queue;
    s.answer
}
