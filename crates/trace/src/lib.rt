// A walk over a table, written down as it goes: what it is by the definitions, step by step, and what the code has of it. It has
// types and no function; who walks is `walk`.
#![tactic(auto)]

use page::Open;

#[derive(Clone, Copy)]
pub struct State {
    // Pages that may still be visited.
    pub visits: usize,
    pub low: Option<i64>,
}

// A walk that came to its end, and the rows that it counted.
#[derive(Clone, Copy)]
pub struct Walked {
    pub state: State,
    pub count: usize,
}

// A page of a table, opened.
#[derive(Clone, Copy)]
pub enum Table {
    Leaf(Open),
    Interior(Open),
}
