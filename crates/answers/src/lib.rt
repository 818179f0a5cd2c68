// Answers written as the program prints them: a letter, numbers each after a tab, byte 10.
#![tactic(auto)]

ghost use Rattle.std.specs.Prelude.{[], ◌∷◌, ◌≤◌, pos, length};
ghost use Rattle.model.specs.Answer.{numbered};
ghost use Rattle.model.specs.Text.{positives, text_of};
ghost use Rattle.model.specs.AnswerLine.{no_form_line};
ghost use Rattle.text.specs.Writing.{Wrote};
ghost use Rattle.answers.specs.Writing.{Answered, outcome_line, has_room};

use model::{Refused, RequestOutcome, StatusFigures};

// A line of two numbers: a refusal, or Stock-Level's count after its 0.
fn two_line(line: &mut [u8], x: u8, a: u64, b: u64) -> usize
    requires { 2048 ≤ length line.old }
    ensures { Wrote line.old line.new 0 result (text_of x (pos a ∷ pos b ∷ [])) × (result ≤ 2048) }
{
    line[0] = x;
    let p = text::put_numbers(line, 1, &[a, b]);
    line[p] = b'\n';
    p + 1
}

// A refused line.
fn refused_line(line: &mut [u8], x: u8, r: Refused) -> usize
    requires { 2048 ≤ length line.old }
    ensures { Wrote line.old line.new 0 result (text_of x (pos (numbered r).number ∷ pos (numbered r).detail ∷ [])) × (result ≤ 2048) }
{
    two_line(line, x, r.number(), r.detail())
}

// Payment's line: customer and balance.
fn payment_line(line: &mut [u8], customer: u64, balance: i64) -> usize
    requires { 2048 ≤ length line.old }
    ensures { Wrote line.old line.new 0 result (text_of 80 (pos 0 ∷ pos customer ∷ balance ∷ [])) × (result ≤ 2048) }
{
    line[0] = b'P';
    let a = text::put_numbers(line, 1, &[0, customer]);
    let p = text::put_signed(line, a, balance);
    line[p] = b'\n';
    p + 1
}

// Delivery's line: skip count and ten orders.
fn delivery_line(line: &mut [u8], skipped: u64, orders: [u64; 10]) -> usize
    requires { 2048 ≤ length line.old }
    ensures { Wrote line.old line.new 0 result (text_of 68 (pos 0 ∷ pos skipped ∷ positives orders)) × (result ≤ 2048) }
{
    line[0] = b'D';
    let a = text::put_numbers(line, 1, &[0, skipped]);
    let p = text::put_numbers(line, a, &orders);
    line[p] = b'\n';
    p + 1
}

// Order-Status's line: customer, balance, order, date, carrier and five fields a line.
fn status_line(line: &mut [u8], f: StatusFigures, shown: &[i64]) -> usize
    requires { (2048 ≤ length line.old) × (length shown.now ≤ 75) }
    ensures { Wrote line.old line.new 0 result
        (text_of 83 (pos 0 ∷ pos f.customer ∷ f.balance ∷ pos f.order ∷ pos f.date ∷ pos f.carrier ∷ shown.now))
        × (result ≤ 2048) }
{
    line[0] = b'S';
    let a = text::put_numbers(line, 1, &[0, f.customer]);
    let c = text::put_signed(line, a, f.balance);
    let d = text::put_numbers(line, c, &[f.order, f.date, f.carrier]);
    let p = text::put_numbers(line, d, shown);
    line[p] = b'\n';
    p + 1
}

// The answer to a request of any kind.
#[tactic(auto, unfolding(crate::specs::Writing::outcome_line))]
fn tell(line: &mut [u8], o: RequestOutcome, orders: [u64; 10], shown: &[i64]) -> usize
    requires { (2048 ≤ length line.old) × (length shown.now ≤ 75) }
    ensures { Wrote line.old line.new 0 result (outcome_line o orders shown.now) × (result ≤ 2048) }
{
    match o {
        RequestOutcome::NewOrder(Ok(f)) => text::three_line(line, b'N', 0, f.order, f.total),
        RequestOutcome::NewOrder(Err(r)) => refused_line(line, b'N', r),
        RequestOutcome::Payment(Ok(f)) => payment_line(line, f.customer, f.balance),
        RequestOutcome::Payment(Err(r)) => refused_line(line, b'P', r),
        RequestOutcome::Delivery(Ok(f)) => delivery_line(line, f.skipped, orders),
        RequestOutcome::Delivery(Err(r)) => refused_line(line, b'D', r),
        RequestOutcome::OrderStatus(Ok(f)) => status_line(line, f, shown),
        RequestOutcome::OrderStatus(Err(r)) => refused_line(line, b'S', r),
        RequestOutcome::StockLevel(Ok(f)) => two_line(line, b'L', 0, f.count),
        RequestOutcome::StockLevel(Err(r)) => refused_line(line, b'L', r),
    }
}

// The line of an answer written to the front of a buffer of at least 2,048 bytes; its length, or none where there is no room.
pub fn write_answer(
    buffer: &mut [u8],
    o: RequestOutcome,
    orders: [u64; 10],
    shown: &[i64],
) -> Option<usize>
    ensures { Answered (has_room buffer.old shown.now) (outcome_line o orders shown.now)
        buffer.old buffer.new result }
{
    if (buffer.len() < 2048) | (75 < shown.len()) {
        return None;
    }
    Some(tell(buffer, o, orders, shown))
}

// The line that a line without a form is answered.
pub fn write_no_form(buffer: &mut [u8]) -> Option<usize>
    ensures { Answered (has_room buffer.old []) no_form_line buffer.old buffer.new result }
{
    if buffer.len() < 2048 {
        return None;
    }
    Some(refused_line(buffer, b'?', Refused::NoForm))
}
