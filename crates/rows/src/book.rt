ghost use Rattle.rows.specs.Book.{Booked};

use model::Dims;

// A book whose numbers are as many as its sizes imply, each size in its range. It is lent to read: who writes takes numbers and sizes.
#[derive(Clone, Copy)]
pub struct Book<'a> {
    pub nums: &'a [i64],
    pub dims: Dims,
    ghost booked: { Booked dims nums.now },
}
