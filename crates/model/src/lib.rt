// The types that the calls take and answer. Every rule about them is in specs/.
// Document 01's depot is a warehouse here, as in TPC-C.
#![tactic(auto)]

ghost use Rattle.std.specs.Prelude.{◌≡◌, ◌≤◌, take};
ghost use Rattle.model.specs.Answer.{numbered};

// The head numbers that fix the book's size: W, C, I, O and H.
#[derive(Clone, Copy)]
pub struct Dims {
    pub warehouses: u64,
    pub customers: u64,
    pub items: u64,
    pub orders: u64,
    pub histories: u64,
}

// One line of a New-Order: the item, the supplying warehouse, the quantity.
#[repr(C)]
#[derive(Clone, Copy)]
pub struct Line {
    pub item: u64,
    pub supply: u64,
    pub quantity: u64,
}

// A New-Order without its lines, which are lent beside it.
#[derive(Clone, Copy)]
pub struct NewOrder {
    pub warehouse: u64,
    pub district: u64,
    pub customer: u64,
    pub date: u64,
}

// A Payment without who pays, who is given beside it.
#[derive(Clone, Copy)]
pub struct Payment {
    pub warehouse: u64,
    pub district: u64,
    pub custwarehouse: u64,
    pub custdistrict: u64,
    pub date: u64,
    pub amount: u64,
}

#[derive(Clone, Copy)]
pub struct Delivery {
    pub warehouse: u64,
    pub carrier: u64,
    pub date: u64,
}

// R-5: a Delivery that waits for its turn, with the date of queuing.
#[repr(C)]
#[derive(Clone, Copy)]
pub struct Waiting {
    pub date: u64,
    pub warehouse: u64,
    pub carrier: u64,
}

// R-5: how many wait, and their places, the oldest first. C's struct.
#[repr(C)]
#[derive(Clone, Copy)]
pub struct Queue {
    pub count: u64,
    pub waiting: [Waiting; 16],
}

// An Order-Status without whose, who is given beside it.
#[derive(Clone, Copy)]
pub struct OrderStatus {
    pub warehouse: u64,
    pub district: u64,
}

#[derive(Clone, Copy)]
pub struct StockLevel {
    pub warehouse: u64,
    pub district: u64,
    pub threshold: u64,
}

// Who: a customer number, or a lent last name.
#[derive(Clone, Copy)]
pub enum Selection<'a> {
    Number(u64),
    LastName(&'a [u8]),
}

// Why a request is refused, in the order of the papers' numbers. `Range` and `Item` have the place of the first offending line, from 1; `Range` has 0 where a
// number of the request itself is out of range: 0 and no Option, for that is the papers' detail.
#[derive(Clone, Copy, Debug, PartialEq, Eq)]
pub enum Refused {
    NoForm,
    Head,
    NotNew,
    Warehouse,
    District,
    Customer,
    Date,
    Range(u64),
    Row,
    Nobody,
    Full,
    Item(u64),
    LastOrders,
    Notes,
    QueueFull,
    NotRun,
    TopUp,
}

impl Refused {
    // Its number in the list of refusals.
    pub fn number(self) -> u64
        ensures { result ≡ (numbered self).number }
    {
        match self {
            Refused::NoForm => 1,
            Refused::Head => 2,
            Refused::NotNew => 3,
            Refused::Warehouse => 4,
            Refused::District => 5,
            Refused::Customer => 6,
            Refused::Date => 7,
            Refused::Range(_) => 8,
            Refused::Row => 9,
            Refused::Nobody => 10,
            Refused::Full => 11,
            Refused::Item(_) => 12,
            Refused::LastOrders => 13,
            Refused::Notes => 14,
            Refused::QueueFull => 15,
            Refused::NotRun => 16,
            Refused::TopUp => 17,
        }
    }

    // Its detail: the place of a line, else 0.
    pub fn detail(self) -> u64
        ensures { result ≡ (numbered self).detail }
    {
        match self {
            Refused::Range(line) | Refused::Item(line) => line,
            _ => 0,
        }
    }
}

// The answers: a struct for each call, as the papers ask; the definitions of each call name its own.
#[derive(Clone, Copy)]
pub struct OpeningAnswer {
    pub outcome: Result<(), Refused>,
}

// R-6: `lifts` is how many of the order's lines lifted their stock.
#[derive(Clone, Copy)]
pub struct NewOrderFigures {
    pub order: u64,
    pub total: u64,
    pub lifts: u64,
}

#[derive(Clone, Copy)]
pub struct NewOrderAnswer {
    pub outcome: Result<NewOrderFigures, Refused>,
}

#[derive(Clone, Copy)]
pub struct PaymentFigures {
    pub customer: u64,
    pub balance: i64,
}

#[derive(Clone, Copy)]
pub struct PaymentAnswer {
    pub outcome: Result<PaymentFigures, Refused>,
}

#[derive(Clone, Copy)]
pub struct DeliveryFigures {
    pub skipped: u64,
    pub mark: u64,
}

// The ten order numbers stand beside the outcome, as the papers have them.
#[derive(Clone, Copy)]
pub struct DeliveryAnswer {
    pub outcome: Result<DeliveryFigures, Refused>,
    pub orders: [u64; 10],
}

// R-5: how many stood before the Delivery that was queued.
#[derive(Clone, Copy)]
pub struct QueueFigures {
    pub before: u64,
}

#[derive(Clone, Copy)]
pub struct QueueAnswer {
    pub outcome: Result<QueueFigures, Refused>,
}

#[derive(Clone, Copy)]
pub struct StatusFigures {
    pub customer: u64,
    pub balance: i64,
    pub order: u64,
    pub date: u64,
    pub carrier: u64,
}

// A part of the book's numbers: where it starts, and how many they are.
#[derive(Clone, Copy)]
pub struct Part {
    pub from: u64,
    pub count: u64,
}

#[derive(Clone, Copy)]
pub struct StockLevelFigures {
    pub count: u64,
}

#[derive(Clone, Copy)]
pub struct StockLevelAnswer {
    pub outcome: Result<StockLevelFigures, Refused>,
}

// What a request of any kind is answered.
#[derive(Clone, Copy)]
pub enum RequestOutcome {
    NewOrder(Result<NewOrderFigures, Refused>),
    Payment(Result<PaymentFigures, Refused>),
    Delivery(Result<DeliveryFigures, Refused>),
    OrderStatus(Result<StatusFigures, Refused>),
    StockLevel(Result<StockLevelFigures, Refused>),
}

// Beside the outcome stand Delivery's ten order numbers, 0 for any other request, and the part of the book that a status shows, empty for any other: the papers
// have both beside it.
#[derive(Clone, Copy)]
pub struct RequestAnswer {
    pub outcome: RequestOutcome,
    pub orders: [u64; 10],
    pub part: Part,
}

// A request as reading stores it: its form, and beside it the lines, of which those in use are part of the request. Reading returns the array that it has filled,
// and a form could not borrow it.
#[derive(Clone, Copy)]
pub enum Form<'a> {
    NewOrder(NewOrder),
    Payment(Payment, Selection<'a>),
    Delivery(Delivery),
    OrderStatus(OrderStatus, Selection<'a>),
    StockLevel(StockLevel),
}

// The lines of a New-Order: the first `count` (no heap).
#[derive(Clone, Copy)]
pub struct Lines {
    pub count: usize,
    pub lines: [Line; 15],
    ghost fits: { count ≤ 15 },
}

impl Lines {
    // Those in use.
    pub fn as_slice(&self) -> &[Line]
        ensures { result.now ≡ take self.now.count self.now.lines }
    {
        &self.lines[..self.count]
    }
}

#[derive(Clone, Copy)]
pub struct ReadAnswer<'a> {
    pub outcome: Result<Form<'a>, Refused>,
    pub lines: Lines,
}

#[derive(Clone, Copy)]
pub struct WriteAnswer {
    pub outcome: Result<u64, Refused>,
}
