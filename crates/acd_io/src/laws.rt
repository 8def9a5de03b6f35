//! A law of the definitions. The law is the contract of a function with an empty body.

ghost use Rattle.acd_io.specs.Laws.{OrderIsFirst};

/// An input comes to its order after whole lines, none of which is one; without one all of it comes before it.
pub fn order_is_first()
    ensures { OrderIsFirst }
{}
