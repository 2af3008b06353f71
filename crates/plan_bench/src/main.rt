// Lays out one plan, for counting instructions. Arguments: a shape; `shuffled` for links in no order; `large` for 4,096 terminals;
// `idle` to make the plan and stop.
#![tactic(auto)]

use cutting::whole;
use division::TODO_PIECES;
use plan::{lay_out, piece_count};
use ring::{Link, MOST_TERMINALS, PlanFault, Side, side_count};
use shapes::{Shape, draw_shape};
use std::alloc::{AllocError, Global};
use std::{env, io};

// What is to be laid out.
#[derive(Clone, Copy)]
struct Wish {
    shape: Shape,
    mixed: bool,
    terminals: usize,
    // make the plan and stop
    idle: bool,
}

// Puts the links into an order that looks random and is the same on every run.
fn shuffle(links: &mut [Link]) {
    let mut seed: u64 = 12345;
    // by index: a swap is of two places
    for i in 0..links.len() {
        seed = seed
            .wrapping_mul(6364136223846793005)
            .wrapping_add(1442695040888963407);
        let j = ((seed >> 33) as usize) % (i + 1);
        links.swap(i, j);
    }
}

// The links of the shape that is wished for.
// plan_text makes the same for its texts, in a private function: to share it, the bench would have to stand on the texts too.
fn make_links(heap: Global, wish: Wish) -> Result<Vec<Link>, AllocError> {
    let count = match wish.shape {
        Shape::Bare => 0,
        _ => side_count(wish.terminals),
    };
    let mut links = vec![in heap; Link { from: 0, to: 0 }; count]?;
    draw_shape(
        wish.shape,
        wish.terminals.min(MOST_TERMINALS).saturating_sub(1) as u16,
        &mut links,
    );
    if wish.mixed {
        shuffle(&mut links);
    }
    Ok(links)
}

// Lays out the plan, and says why it is refused, if it is.
fn run(heap: Global, wish: Wish) -> Result<Option<PlanFault>, AllocError> {
    let n = wish.terminals;
    let links = make_links(heap, wish)?;
    let blank = Side {
        low: 0,
        high: 0,
        link: false,
        leaf: 0,
    };
    let mut sides = vec![in heap; blank; side_count(n)]?;
    let mut pieces = vec![in heap; whole(); piece_count(n)]?;
    let mut todo = vec![in heap; whole(); TODO_PIECES]?;
    if wish.idle {
        return Ok(None);
    }
    Ok(lay_out(n, &links, &mut sides, &mut pieces, &mut todo).err())
}

impl Wish {
    // The wish with one more argument heard.
    fn hear(self, word: &str) -> Wish {
        match word {
            "shuffled" => Wish {
                mixed: true,
                ..self
            },
            "large" => Wish {
                terminals: MOST_TERMINALS,
                ..self
            },
            "idle" => Wish { idle: true, ..self },
            _ => Wish {
                shape: word.parse().unwrap_or(self.shape),
                ..self
            },
        }
    }
}

fn main(rt: HostRuntime) -> io::Result<()> {
    let mut wish = Wish {
        shape: Shape::Balanced,
        mixed: false,
        terminals: 12,
        idle: false,
    };
    for word in env::args(&rt)? {
        wish = wish.hear(word.as_str());
    }
    let n = wish.terminals;
    let refusal = run(rt.alloc(), wish)?.map_or(0, PlanFault::number);
    println!(rt; "{n} terminals, refusal {refusal}")
}
