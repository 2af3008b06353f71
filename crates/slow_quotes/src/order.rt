// The orders of the text, one to a line.
ghost use Rattle.std.specs.Prelude.{ℕ, List};
ghost use Rattle.slow_quotes.specs.Orders.{Means, OrderIs};
ghost use Rattle.words.specs.Words.{Listed};

use offers::written::Written;
use slow::best::Ends;
use words::{FewWords, number_of, up_to_four};

// What a line orders of a network.
#[derive(Clone, Copy)]
pub enum Order<R> {
    // A new network of so many terminals, no lane of which stands.
    Terminals(usize),
    // A rate for the lane with these ends.
    Lane(Ends, R),
    // That lane is to stand no more.
    Shut(Ends),
    // The best rate from one terminal to another.
    Quote(Ends),
}

// The order that the words of a line name, if they name one.
fn named<R: Written>(words: FewWords<'_>) -> Option<Order<R>>
    ensures { (ws : List (List ℕ)) → Listed words.entry ws → Means R.Written.reads ws result }
{
    // Each arm reads its two ends itself: with one function for both, tried, what its `None` says is not found in a proof here.
    match words {
        FewWords::Two("terminals", count) => Some(Order::Terminals(number_of(count)?)),
        FewWords::Three("shut", from, to) => Some(Order::Shut(Ends {
            from: number_of(from)?,
            to: number_of(to)?,
        })),
        FewWords::Three("quote", from, to) => Some(Order::Quote(Ends {
            from: number_of(from)?,
            to: number_of(to)?,
        })),
        FewWords::Four("lane", from, to, rate) => Some(Order::Lane(
            Ends {
                from: number_of(from)?,
                to: number_of(to)?,
            },
            R::read(rate)?,
        )),
        _ => None,
    }
}

// The order that a line writes, if it writes one. An Option and not `FromStr`: there is nothing to say of a text without an order.
pub fn read_order<R: Written>(text: &str) -> Option<Order<R>>
    ensures { OrderIs R.Written.reads text.now result }
{
    named(up_to_four(text))
}
