//! A bounded queue of items under tickets: each item is put once and taken once, in the order of its ticket.
#![tactic(auto)]

mod books;
mod closing;
mod fours;
mod opening;
mod passes;
mod putting;
mod queues;
mod rooms;
mod taking;

ghost use Rattle.tq_queue.specs.Laws.{CallsAreAnswered, BooksHaveAnswers, AnswersAreShared};

pub use books::QueueBook;
pub use passes::QueuePass;
pub use putting::{Full, try_put};
pub use queues::TicketQueue;
pub use taking::{Empty, try_take};
pub use tq_cells::NoMemory;

/// What the calls of passes meet: each that a pass makes is its last answer, and a closed funnel has the answers of its passes and no others.
pub fn answer_laws()
    ensures called { CallsAreAnswered }
    ensures closed { BooksHaveAnswers }
    ensures shared { AnswersAreShared }
{}
