// One request of any kind, carried out on the book.
#![tactic(auto, unfolding(model::specs::Request::answer_of, model::specs::Request::orders_of, model::specs::Request::shown_part, model::specs::Request::nums_after, model::specs::Request::last_after, model::specs::Request::notes_after))]

ghost use Rattle.std.specs.Prelude.{◌≡◌, ◌+◌, ◌≤◌, length, replicate};
ghost use Rattle.model.specs.OrderStatus.{empty_part, part_of};
ghost use Rattle.model.specs.Request.{lent, request_of};
ghost use Rattle.model.specs.Request as Request;
ghost use Rattle.engine.specs.Carried.{Carried};

use model::{Form, Line, Part, RequestAnswer, RequestOutcome};
use std::marker::Model;

// An outcome that has no order numbers and shows no part.
fn alone(outcome: RequestOutcome) -> RequestAnswer
    ensures outcome { result.outcome ≡ outcome }
    ensures orders { result.orders ≡ replicate 10 0 }
    ensures part { result.part ≡ empty_part }
{
    let orders = [0; 10];
    let part = Part { from: 0, count: 0 };
    RequestAnswer {
        outcome,
        orders,
        part,
    }
}

// A request of any kind: its form, and beside it the lines.
pub fn carry_out(
    nums: &mut [i64],
    names: &[u8],
    last: &mut [i64],
    notes: &mut [u8],
    topup: &[i64],
    form: Form,
    lines: &[Line],
) -> RequestAnswer
    ensures { Carried (lent nums.old names.now last.old notes.old topup.now) (request_of form.entry lines.now)
        result (lent nums.new names.now last.new notes.new topup.now) }
{
    match form {
        Form::NewOrder(q) => {
            let a = new_order::new_order(nums, names, last, topup, q, lines);
            alone(RequestOutcome::NewOrder(a.outcome))
        }
        Form::Payment(q, who) => {
            let a = payment::payment(nums, names, notes, q, who);
            alone(RequestOutcome::Payment(a.outcome))
        }
        Form::Delivery(q) => {
            let a = delivery::delivery(nums, names, q);
            let orders = a.orders;
            let outcome = RequestOutcome::Delivery(a.outcome);
            RequestAnswer {
                orders,
                ..alone(outcome)
            }
        }
        Form::OrderStatus(q, who) => {
            let a = order_status::status_shown(nums, names, last, q, who);
            let part = a.part;
            let outcome = RequestOutcome::OrderStatus(a.outcome);
            RequestAnswer {
                part,
                ..alone(outcome)
            }
        }
        Form::StockLevel(q) => {
            let a = stock_level::stock_level(nums, names, q);
            alone(RequestOutcome::StockLevel(a.outcome))
        }
    }
}

// All that is lent through a list of calls: numbers, names, last orders, texts, table.
#[derive(Drop)]
pub struct Lent<'w, 'r> {
    pub nums: &'w mut [i64],
    pub names: &'r [u8],
    pub last: &'w mut [i64],
    pub notes: &'w mut [u8],
    pub topup: &'r [i64],
}

impl<'w, 'r> Model for Lent<'w, 'r> {
    ghost Value = { Request.Lent };

    ghost view = { λ s. lent s.nums.now s.names.now s.last.now s.notes.now s.topup.now };
}

impl<'w, 'r> Lent<'w, 'r> {
    // A request of any kind, carried out on it.
    pub fn carry_out(&mut self, form: Form, lines: &[Line]) -> RequestAnswer
        ensures { Carried self.old (request_of form.entry lines.now) result self.new }
    {
        let names = self.names;
        let topup = self.topup;
        carry_out(self.nums, names, self.last, self.notes, topup, form, lines)
    }

    // A part of the book's numbers.
    pub fn part(&self, part: Part) -> &[i64]
        requires { part.from + part.count ≤ length self.now.nums }
        ensures { result.now ≡ part_of part self.now.nums }
    {
        let nums = &*self.nums;
        let from = part.from as usize;
        &nums[from..from + part.count as usize]
    }
}
